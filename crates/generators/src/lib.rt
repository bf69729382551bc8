// Minimal generators of a gap word.
#![tactic(auto)]

ghost use Rattle.std.specs.Prelude.{◌+◌, ◌≤◌, ◌≡◌, map, ◌++◌, length, take};
ghost use Rattle.semigroups.specs.Lists.{fronted};
ghost use Rattle.semigroups.specs.Words.{conductor};
ghost use Rattle.semigroups.specs.Positions.{positions, bits_from};
ghost use Rattle.answers.specs.Answers.{listed};
ghost use Rattle.nodes.specs.Levels.{NodeWithLevels};
ghost use Rattle.generators.specs.Generators.{generators_of};
ghost use Rattle.generators.specs.Private.{low_generator};

use answers::Refusal;
use nodes::{Bits, Node};

// Writes `first + i` for each standing bit i, in rising order, from the place `start` on. The place after them.
fn write_bits(bits: u64, first: u64, start: usize, out: &mut [u8]) -> usize
    requires { (first ≤ 192) × (start + length (positions bits) ≤ length out.old) }
    ensures { (result ≡ start + length (positions bits)) × (out.new ≡ fronted (take start out.old ++ map (λ i. first + i) (positions bits)) out.old) }
{
    let mut at = start;
    for low in Bits(bits) {
        out[at] = (first + low.at.0) as u8;
        at += 1;
    }
    at
}

// The generators below the conductor `c`, as bits: the elements below it that are no sum of two. Bit i stands for i + 1.
fn low_generators(word: u64, c: u64) -> u64
    requires { (c ≡ conductor word) × (c ≤ 64) }
    ensures { result ≡ bits_from (low_generator word) 1 }
{
    let elements = !word & ((1 << (c - 1)) - 1);
    let mut sums = 0;
    for low in Bits(elements) {
        sums |= elements << (low.at.0 + 1);
    }
    elements & !sums
}

// How many bits stand.
#[tactic(auto, using(semigroups::proofs::StandingBits::positions_ones))]
fn standing_bits(bits: u64) -> usize
    ensures { result ≡ length (positions bits) }
{
    bits.count_ones() as usize
}

// The minimal generators of the word of a node into the lent list: those below the conductor, and those that row 0 of the table tells. No number of
// levels goes with the node, so that it is no `Subtree`.
fn generators_of(n: Node, out: &mut [u8]) -> Result<u64, Refusal>
    requires { NodeWithLevels 0 n }
    ensures { listed result out.new ≡ generators_of n.word out.old }
{
    let c = n.conductor;
    let low = low_generators(n.word, c);
    let count = standing_bits(low) + n.generators() as usize;
    if out.len() < count {
        return Err(Refusal::ListTooShort);
    }
    let at = write_bits(low, 1, 0, out);
    let end = write_bits(n.first_row(), c, at, out);
    Ok(end as u64)
}

// The minimal generators of a word in rising order, as bytes into the lent list; their number is given. Refused with more than 32 gaps,
// a set that is not closed under addition, or a list that does not hold them all: then nothing is written.
pub fn generators(word: u64, out: &mut [u8]) -> Result<u64, Refusal>
    ensures { listed result out.new ≡ generators_of word out.old }
{
    let n = tables::node_of(word)?;
    generators_of(n, out)
}
