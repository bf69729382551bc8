// The walk over the numerical semigroups of a genus with a multiplicity in a window, in list order.
#![tactic(auto)]

ghost use Rattle.std.specs.Prelude.{◌≡◌};
ghost use Rattle.answers.specs.Answers.{answered};
ghost use Rattle.walk.specs.Walks.{in_order, ended, stepped, fresh_of, fresh_in_of, start_of, start_in_of, batch_of};

use answers::Refusal;
use windows::Window;

// A genus, the next word, the window that it lists, and a finished mark; when finished, the word is 0. A walk that a caller hands over may be out of
// order, so that the word and the mark stand apart (question 4: `in_order`).
#[derive(Clone, Copy, Debug, PartialEq, Eq)]
pub struct Walk {
    pub genus: u64,
    pub word: u64,
    pub window: Window,
    pub finished: bool,
}

// What a batch reports: the number of words written, and whether none are left. Both are told of every batch.
#[derive(Clone, Copy, Debug, PartialEq, Eq)]
pub struct Written {
    pub count: usize,
    pub finished: bool,
}

// What a batch by value gives: the walk afterwards, and its report.
#[derive(Clone, Copy, Debug, PartialEq, Eq)]
pub struct Moved {
    pub walk: Walk,
    pub written: Written,
}

// Question 4: is the walk finished with word 0, or unfinished on an accepted word of its genus in its window?
pub fn in_order(walk: Walk) -> bool
    ensures { result ≡ in_order walk }
{
    if walk.finished {
        return walk.word == 0;
    }
    walk.window.has_word(walk.genus, walk.word)
}

// A walk in a window that stands on its first semigroup, or is finished where there is none: refused above genus 32.
pub fn fresh_in(genus: u64, window: Window) -> Result<Walk, Refusal>
    ensures { answered result ≡ fresh_in_of genus window.lowest window.highest }
{
    let first = window.first_word(genus)?;
    Ok(Walk {
        genus,
        word: first.unwrap_or(0),
        window,
        finished: first.is_none(),
    })
}

// A walk over a whole genus that stands on its first semigroup: refused above genus 32.
pub fn fresh(genus: u64) -> Result<Walk, Refusal>
    ensures { answered result ≡ fresh_of genus }
{
    fresh_in(genus, Window::WHOLE)
}

// A walk of the word's genus in a window that stands on the word: refused where the word is, and where it lies outside the window.
pub fn start_in(word: u64, window: Window) -> Result<Walk, Refusal>
    ensures { answered result ≡ start_in_of word window.lowest window.highest }
{
    let report = words::look(word)?;
    if !window.contains(report.multiplicity) {
        return Err(Refusal::WalkOutOfOrder);
    }
    Ok(Walk {
        genus: report.genus,
        word,
        window,
        finished: false,
    })
}

// A walk over the whole genus of the word that stands on the word: refused where the word is.
pub fn start(word: u64) -> Result<Walk, Refusal>
    ensures { answered result ≡ start_of word }
{
    start_in(word, Window::WHOLE)
}

// A batch by value: fills the lent list from the front with the words from the walk's on, as far as the list or the semigroups last, and gives
// the walk that stands on the next. Refused above genus 32 and where the walk is out of order: then nothing is written. The scope of the atlas names
// the form: one thin batch over a step by value.
pub fn step(walk: Walk, out: &mut [u64]) -> Result<Moved, Refusal>
    ensures { stepped walk result out.new ≡ batch_of walk out.old }
{
    if 32 < walk.genus {
        return Err(Refusal::GenusTooLarge);
    }
    if walk.finished {
        if walk.word != 0 {
            return Err(Refusal::WalkOutOfOrder);
        }
        return Ok(Moved {
            walk,
            written: Written {
                count: 0,
                finished: true,
            },
        });
    }
    match descendants::write_from(walk.genus, walk.word, walk.window, out)? {
        Ok(count) => Ok(Moved {
            walk: Walk {
                word: 0,
                finished: true,
                ..walk
            },
            written: Written {
                count,
                finished: true,
            },
        }),
        Err(full) => Ok(Moved {
            walk: Walk {
                word: full.next,
                ..walk
            },
            written: Written {
                count: out.len(),
                finished: false,
            },
        }),
    }
}

// A batch, which moves the walk of the caller on: where it is refused, the walk is as it was.
pub fn batch(walk: &mut Walk, out: &mut [u64]) -> Result<Written, Refusal>
    ensures { ended result walk.new out.new ≡ batch_of walk.old out.old }
{
    let moved = step(*walk, out)?;
    *walk = moved.walk;
    Ok(moved.written)
}
