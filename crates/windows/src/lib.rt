// Windows of multiplicities over a genus: the tests of a multiplicity and of a word, and the first word of a window in list order.
#![tactic(auto)]

ghost use Rattle.std.specs.Prelude.{◌+◌, ◌≤◌, ◌≡◌};
ghost use Rattle.semigroups.specs.Words.{word_of};
ghost use Rattle.answers.specs.Answers.{sought_answered};
ghost use Rattle.windows.specs.Windows.{within, holds, not_divided};
ghost use Rattle.windows.specs.Answers.{first_word_of};

use answers::Refusal;

// A window: the multiplicities from the lowest to the highest.
#[derive(Clone, Copy, Debug, PartialEq, Eq)]
pub struct Window {
    pub lowest: u8,
    pub highest: u8,
}

impl Window {
    // The window of a whole genus, which has multiplicities from 1 to 33 up to genus 32.
    pub const WHOLE: Window = Window {
        lowest: 1,
        highest: 33,
    };

    // Is a multiplicity in the window?
    pub fn contains(self, multiplicity: u64) -> bool
        ensures { result ≡ within self.lowest self.highest multiplicity }
    {
        (self.lowest as u64..=self.highest as u64).contains(&multiplicity)
    }

    // Does the window of a genus hold a word, which is accepted, has the genus and a multiplicity in the window?
    pub fn has_word(self, genus: u64, word: u64) -> bool
        ensures { result ≡ holds genus self.lowest self.highest word }
    {
        match words::look(word) {
            Err(_) => false,
            Ok(report) => report.genus == genus && self.contains(report.multiplicity),
        }
    }

    // The first word of the window of a genus, or that the window holds none: of the words with the largest multiplicity in it, the first. A
    // semigroup of genus g has a multiplicity up to g + 1, and from 2 on where g is above 0. Refused above genus 32.
    pub fn first_word(self, genus: u64) -> Result<Option<u64>, Refusal>
        ensures { sought_answered result ≡ first_word_of genus self.lowest self.highest }
    {
        if 32 < genus {
            return Err(Refusal::GenusTooLarge);
        }
        let m = (self.highest as u64).min(genus + 1);
        if m < self.lowest as u64 || m <= genus.min(1) {
            return Ok(None);
        }
        if genus == 0 {
            return Ok(Some(0));
        }
        Ok(Some(not_divided(genus, m)))
    }
}

// The word of the first `genus` numbers that `m` does not divide: `passed` multiples of m lie below the last of them, and as bits these
// are a geometric sum.
fn not_divided(genus: u64, m: u64) -> u64
    requires { (1 ≤ genus) × (genus ≤ 32) × (2 ≤ m) × (m ≤ genus + 1) }
    ensures { result ≡ word_of (not_divided genus m) }
{
    let passed = (genus - 1) / (m - 1);
    let multiples = ((1 << (m * passed)) - 1) / ((1 << m) - 1);
    (1 << (genus + passed)) - 1 - (multiples << (m - 1))
}
