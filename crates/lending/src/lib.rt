// A lent list that is filled with words from the front, as far as it has room.
#![tactic(auto)]

ghost use Rattle.std.specs.Prelude.{◌≡◌, [], ◌∷◌, Ok};
ghost use Rattle.lending.specs.Lending.{put_all, with_each};

use nodes::Bits;

// The list is full: the word that found no room.
#[derive(Clone, Copy, Debug, PartialEq, Eq)]
pub struct NoRoom {
    pub next: u64,
}

// Writes one word, if the list has the place, and gives the place after it. The list and the place are two parameters: what would hold both has to
// be lent to each call and asked for the place after it, where `?` gives it.
#[tactic(auto, unfolding(crate::specs::Lending::put_all, crate::specs::Lending::put_one))]
pub fn put(word: u64, at: usize, out: &mut [u64]) -> Result<usize, NoRoom>
    ensures { (out.new, result) ≡ put_all (word ∷ []) (out.old, Ok at) }
{
    if at < out.len() {
        out[at] = word;
        return Ok(at + 1);
    }
    Err(NoRoom { next: word })
}

// Writes a word with each bit of a number added, lowest first, as far as the list has room, and gives the place after them.
pub fn put_bits(word: u64, bits: u64, from: usize, out: &mut [u64]) -> Result<usize, NoRoom>
    ensures { (out.new, result) ≡ put_all (with_each word bits) (out.old, Ok from) }
{
    let mut at = from;
    for low in Bits(bits) {
        at = put(word.wrapping_add(1 << low.at.0), at, out)?;
    }
    Ok(at)
}
