// What the programs share: the reading of a short input, and the writing of answers. They read from any reader and write to any writer, and
// their clauses name its bytes.
#![tactic(auto)]

ghost use Rattle.std.specs.Prelude.{OnOk};
ghost use Rattle.std.specs.Io.KnownBytes.{Appends};
ghost use Rattle.answers.specs.Answers.{number_of};
ghost use Rattle.listing.specs.Text.{refusal_line};
ghost use Rattle.console.specs.Console.{ReadsFront, refused_text, number_text};

use answers::Refusal;
use std::io;
use std::io::{Read, Write};

// Reads to the reader's end, or until the buffer is full, and gives the number of bytes.
pub fn read_front<R: Read>(reader: &mut R, buffer: &mut [u8]) -> io::Result<usize>
    ensures { ReadsFront (R.remaining reader.old) (R.remaining reader.new) result buffer.new }
{
    let mut filled = 0;
    while filled < buffer.len() {
        let got = reader.read(&mut buffer[filled..])?;
        if got == 0 {
            break;
        }
        filled += got;
    }
    Ok(filled)
}

// Writes the line of a refusal.
pub fn write_refusal_line<W: Write>(writer: &mut W, refusal: Refusal) -> io::Result<()>
    ensures { OnOk result
        (Appends (W.contents writer.old) (W.contents writer.new) (refusal_line (number_of refusal))) }
{
    let mut line = [0; 11];
    match listing::refusal_line(refusal, &mut line) {
        Ok(length) => writer.write_all(&line[..length as usize]),
        // The line has its places.
        Err(_) => unreachable!(),
    }
}

// Writes that a call is refused, with the number of its refusal, after a blank.
pub fn write_refused<W: Write>(writer: &mut W, refusal: Refusal) -> io::Result<()>
    ensures { OnOk result
        (Appends (W.contents writer.old) (W.contents writer.new) (refused_text (number_of refusal))) }
{
    write!(writer, " {refusal}")
}

// Writes the number that a call gave after a blank, or that it is refused.
pub fn write_answer<W: Write>(writer: &mut W, answer: Result<u64, Refusal>) -> io::Result<()>
    ensures { OnOk result (Appends (W.contents writer.old) (W.contents writer.new) (number_text answer)) }
{
    match answer {
        Ok(n) => write!(writer, " {n}"),
        Err(refusal) => write_refused(writer, refusal),
    }
}
