// What the calls answer with: the refusals of the atlas, and the three counts; and a question about lists of bytes. A call that can be
// refused gives a `Result` with a `Refusal`.
#![tactic(auto)]

ghost use Rattle.std.specs.Prelude.{◌+◌, ◌-◌, ◌^◌, ◌++◌, min, ◌≡◌, ltb, Some, codes};
ghost use Rattle.std.specs.Fmt.{decimal};
ghost use Rattle.semigroups.specs.Lists.{every};
ghost use Rattle.answers.specs.Answers.{number_of};

use std::error::Error;
use std::fmt;

// An element of a set.
#[derive(Clone, Copy, Debug, PartialEq, Eq)]
pub struct Element(pub u64);

// An index in the list of elements.
#[derive(Clone, Copy, Debug, PartialEq, Eq)]
pub struct Index(pub u64);

// An offset from the conductor.
#[derive(Clone, Copy, Debug, PartialEq, Eq)]
pub struct Offset(pub u64);

impl Element {
    // The element at an offset from the conductor, or the largest number of 64 bits where it would be larger.
    pub fn at_offset(conductor: u64, offset: Offset) -> Element
        ensures { result.0 ≡ min (conductor + offset.0) (2 ^ 64 - 1) }
    {
        Element(conductor.saturating_add(offset.0))
    }
}

impl Offset {
    // The offset of an element from the conductor: 0 for one below it.
    pub fn of_element(conductor: u64, element: Element) -> Offset
        ensures { result.0 ≡ element.0 - conductor }
    {
        Offset(element.0.saturating_sub(conductor))
    }
}

impl Index {
    // The index of the conductor, the number of elements below it: the conductor less the genus, and 0 where that is larger.
    pub fn of_conductor(conductor: u64, genus: u64) -> Index
        ensures { result.0 ≡ conductor - genus }
    {
        Index(conductor.saturating_sub(genus))
    }
}

// What is wrong with the arguments of a call: the question that they fail, with its number.
#[derive(Clone, Copy, Debug, PartialEq, Eq)]
pub enum Refusal {
    TooManyGaps = 1,
    NotClosed = 2,
    GenusTooLarge = 3,
    WalkOutOfOrder = 4,
    NotAGenerator = 5,
    ListTooShort = 6,
    ZeroGenerator = 7,
    CommonDivisor = 8,
    TooManyGapsGenerated = 9,
    MalformedInput = 10,
    ZeroCoordinate = 11,
    CoordinateSumTooLarge = 12,
    FailedInequality = 13,
    EditorOutOfOrder = 14,
    EditorFull = 15,
    ByteNotHeld = 16,
    WrongJobVersion = 17,
    WrongJobLength = 18,
    WrongJobFields = 19,
}

impl Refusal {
    // The number of the question.
    pub fn number(self) -> u64
        ensures { result ≡ number_of self }
    {
        self as u64
    }
}

// A refusal as text: "refused", a blank and the number of the question.
impl fmt::Display for Refusal {
    ghost output = { λ r. Some (codes "refused " ++ decimal (number_of r)) };

    fn fmt<W: fmt::Write>(&self, f: &mut fmt::Formatter<W>) -> fmt::Result {
        let number = self.number();
        write!(f, "refused {number}")
    }
}

impl Error for Refusal {}

// Are all bytes of a list at least 1?
pub fn all_positive(list: &[u8]) -> bool
    ensures { result ≡ every (ltb 0) list.now }
{
    list.iter().all(|byte| 0 < *byte)
}
