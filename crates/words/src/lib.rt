// Gap words: the counts that belong to them, looking at a word, and openings.
#![tactic(auto)]

ghost use Rattle.std.specs.Prelude.{◌-◌, ◌%◌, ◌^◌, ◌≡◌};
ghost use Rattle.semigroups.specs.Words.{genus, conductor, closed};
ghost use Rattle.semigroups.specs.Elements.{multiplicity};
ghost use Rattle.semigroups.specs.Openings.{opening_of};
ghost use Rattle.semigroups.specs.GapSums.{least_gap_sum};
ghost use Rattle.answers.specs.Answers.{answered, sought};
ghost use Rattle.words.specs.Looks.{report_of, look_of};

use answers::Refusal;

// What is told of a word: the conductor is the reported one, 0 where there is no gap, and the largest gap is then -1.
#[derive(Clone, Copy, Debug, PartialEq, Eq)]
pub struct Report {
    pub genus: u64,
    pub multiplicity: u64,
    pub conductor: u64,
    pub largest_gap: i64,
}

// The conductor of source 000 and the multiplicity of a word, accepted or not.
#[derive(Clone, Copy, Debug, PartialEq, Eq)]
pub struct ConductorAndMultiplicity {
    pub conductor: u64,
    pub multiplicity: u64,
}

// The number of gaps of any word: the standing bits.
pub fn genus_of(word: u64) -> u64
    ensures { result ≡ genus word }
{
    u64::count_ones(word) as u64
}

// The conductor of source 000 of any word, its largest gap plus 1 and 1 where there is none, and its least positive element, in one pass
// over the bits: the clear bits above the highest standing one are counted from the top, the standing bits below the lowest clear one from
// the bottom, and no bit twice.
pub fn conductor_and_multiplicity(word: u64) -> ConductorAndMultiplicity
    ensures { (result.conductor ≡ conductor word) × (result.multiplicity ≡ multiplicity word) }
{
    let conductor = 65 - u64::leading_zeros(word) as u64;
    let multiplicity = u64::trailing_zeros(!word) as u64 + 1;
    ConductorAndMultiplicity {
        conductor,
        multiplicity,
    }
}

// The least positive element of any word.
pub fn multiplicity_of(word: u64) -> u64
    ensures { result ≡ multiplicity word }
{
    conductor_and_multiplicity(word).multiplicity
}

// The conductor of source 000 of any word: the largest gap plus 1, and 1 where there is none.
pub fn conductor_of(word: u64) -> u64
    ensures { result ≡ conductor word }
{
    conductor_and_multiplicity(word).conductor
}

// The gaps of any word below the least one that is a sum of two positive elements, as a word; all of them where there is none. An element `a`
// moves the positive elements up, and the gaps below the lowest of these sums that is a gap are left. The elements are tried in rising
// order, as long as a gap of at least twice the number after `a` is left: of two summands one is at most half of their sum. Where 1 is an
// element no gap is left: the least is the sum of 1 and the element before it.
fn possible_gaps(word: u64) -> u64
    ensures { result ≡ word % 2 ^ (least_gap_sum word - 1) }
{
    if word & 1 == 0 {
        return 0;
    }
    let elements = !word;
    let mut left = word;
    let mut a = multiplicity_of(word);
    while a <= 32 {
        let sums = (elements << a) & left;
        if sums != 0 {
            left &= (1 << (u64::trailing_zeros(sums) as u64)) - 1;
        }
        if left >> a >> (a + 1) == 0 {
            return left;
        }
        a += u64::trailing_zeros(elements >> a) as u64 + 1;
    }
    left
}

// Is the set closed under addition? It is where all gaps are left, as none is a sum of two positive elements.
fn is_closed(word: u64) -> bool
    ensures { result ≡ closed word }
{
    possible_gaps(word) == word
}

// The shortest impossible opening of any word, with any number of gaps: the least n such that the n smallest gaps are not the gaps of a
// semigroup, or that there is none. The last of these gaps is the least one that is a sum of two positive elements.
pub fn opening(word: u64) -> Option<u64>
    ensures { sought result ≡ opening_of word }
{
    let left = possible_gaps(word);
    if left == word {
        return None;
    }
    Some(genus_of(left) + 1)
}

// What is told of any word, accepted or not: the word 0 has no gap, and of every other word the reported conductor is that of source 000.
pub fn tell(word: u64) -> Report
    ensures { result ≡ report_of word }
{
    let genus = genus_of(word);
    let both = conductor_and_multiplicity(word);
    if word == 0 {
        return Report {
            genus,
            multiplicity: both.multiplicity,
            conductor: 0,
            largest_gap: -1,
        };
    }
    let largest = both.conductor - 1;
    let largest_gap = largest as i64;
    Report {
        genus,
        multiplicity: both.multiplicity,
        conductor: both.conductor,
        largest_gap,
    }
}

// Looks at a word: refused with more than 32 gaps or a set that is not closed under addition, else what is told of it.
pub fn look(word: u64) -> Result<Report, Refusal>
    ensures { answered result ≡ look_of word }
{
    let genus = genus_of(word);
    if 32 < genus {
        return Err(Refusal::TooManyGaps);
    }
    if !is_closed(word) {
        return Err(Refusal::NotClosed);
    }
    Ok(tell(word))
}
