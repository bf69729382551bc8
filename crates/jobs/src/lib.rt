// Saved jobs: a walk and the number of words written so far as bytes, and back.
#![tactic(auto)]

ghost use Rattle.std.specs.Prelude.{◌≡◌};
ghost use Rattle.answers.specs.Answers.{answered, listed, into_lent};
ghost use Rattle.jobs.specs.Jobs.{saved_of, read_of, map_for, job_of, write_of};
ghost use Rattle.jobs.specs.Private.{fields_say};

use answers::Refusal;
use job_format::Fields;
use walk::Walk;
use windows::Window;

// What a job keeps: a walk, and the number of words written so far.
#[derive(Clone, Copy, Debug, PartialEq, Eq)]
pub struct Saved {
    pub walk: Walk,
    pub written: u64,
}

// A walk and the number written, unless the walk is refused as in a batch.
fn answer_for(walk: Walk, written: u64) -> Result<Saved, Refusal>
    ensures { answered result ≡ saved_of walk written }
{
    if 32 < walk.genus {
        return Err(Refusal::GenusTooLarge);
    }
    if !walk::in_order(walk) {
        return Err(Refusal::WalkOutOfOrder);
    }
    Ok(Saved { walk, written })
}

// The walk and the number written that fields say: refused without a genus, and with both a next word and the finished mark. An absent lowest
// multiplicity is 1, an absent highest one 33, and an absent number 0.
fn read_fields(fields: Fields) -> Result<Saved, Refusal>
    ensures { answered result ≡ fields_say fields }
{
    let genus = fields.genus.ok_or(Refusal::WrongJobFields)? as u64;
    let window = Window {
        lowest: fields.lowest.unwrap_or(1),
        highest: fields.highest.unwrap_or(33),
    };
    let written = fields.written.unwrap_or(0);
    match (fields.word, fields.finished) {
        (Some(_), true) => Err(Refusal::WrongJobFields),
        (Some(word), false) => {
            let going = Walk {
                genus,
                word,
                window,
                finished: false,
            };
            answer_for(going, written)
        }
        (None, true) => {
            let done = Walk {
                genus,
                word: 0,
                window,
                finished: true,
            };
            answer_for(done, written)
        }
        (None, false) => Ok(Saved {
            walk: walk::fresh_in(genus, window)?,
            written,
        }),
    }
}

// Reads a job of version 1 or 2.
pub fn read(job: &[u8]) -> Result<Saved, Refusal>
    ensures { answered result ≡ read_of 2 job.now }
{
    read_fields(job_format::fields_from(job)?)
}

// The bit map of the job of a walk that is finished, or not.
fn map_for(finished: bool) -> u8
    ensures { result ≡ map_for finished }
{
    if finished {
        return 0b1011_0111;
    }
    0b1001_1111
}

// Writes the job of a walk, unless the list is too short for it.
fn put_job(walk: Walk, written: u64, out: &mut [u8]) -> Result<u64, Refusal>
    ensures { listed result out.new ≡ into_lent (job_of walk written) out.old }
{
    let lowest = walk.window.lowest as u64;
    let highest = walk.window.highest as u64;
    let values = [walk.genus, lowest, highest, walk.word, written, 0, 0, 2];
    job_format::lay_out(map_for(walk.finished), values, out)
}

// Writes a walk and the number written as a job at the front of the lent list, and gives the job's length. Refused where the walk is in a
// batch, and for a list too short: then nothing is written.
pub fn write(walk: Walk, written: u64, out: &mut [u8]) -> Result<u64, Refusal>
    ensures { listed result out.new ≡ write_of walk written out.old }
{
    answer_for(walk, written)?;
    put_job(walk, written, out)
}
