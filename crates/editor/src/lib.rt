// A list of generators that changes: up to sixteen bytes in order of arrival, with the answer of the call for a word from generators.
#![tactic(auto)]

ghost use Rattle.std.specs.Prelude.{◌≤◌, ◌<◌, ◌≡◌, [], eqb, take};
ghost use Rattle.semigroups.specs.Lists.{every};
ghost use Rattle.answers.specs.Answers.{answered};
ghost use Rattle.sums.specs.WordFrom.{word_from_of};
ghost use Rattle.changes.specs.Changes.{addition, removal};
ghost use Rattle.changes.specs.States.{is_right, in_sixteen, state_of, change_of};
ghost use Rattle.editor.specs.Answers.{said, told};
ghost use Rattle.editor.specs.Private.{without_place, skipping, with_answer};

use answers::Refusal;

// Sixteen places, of which the first `length` are held, and the answer of the call for a word from generators for these. Callers in C hand over any
// places, length and answer, and question 14 is asked of them (`is_right`): so the length stands beside the places.
#[derive(Clone, Copy, Debug, PartialEq, Eq)]
pub struct Editor {
    pub bytes: [u8; 16],
    pub length: usize,
    pub answer: Result<u64, Refusal>,
}

// Are all bytes of a list 0?
fn all_zero(list: &[u8]) -> bool
    ensures { result ≡ every (eqb 0) list.now }
{
    list.iter().all(|&byte| byte == 0)
}

// The answer of the call for a word from generators for the first `length` of the bytes.
fn answer_of(bytes: [u8; 16], length: usize) -> Result<u64, Refusal>
    requires { length ≤ 16 }
    ensures { answered result ≡ word_from_of (take length bytes) }
{
    sums::word_from(&bytes[..length])
}

// The state with these bytes, of which the first `length` are held, and with their answer.
#[tactic(auto, unfolding(crate::specs::Private::with_answer))]
fn with_answer(bytes: [u8; 16], length: usize) -> Editor
    requires { length ≤ 16 }
    ensures { said result ≡ with_answer bytes length }
{
    Editor {
        bytes,
        length,
        answer: answer_of(bytes, length),
    }
}

// Is the state right?
fn is_right(editor: &Editor) -> bool
    ensures { result ≡ is_right (said editor.now) }
{
    let Editor {
        bytes,
        length,
        answer,
    } = *editor;
    length <= 16
        && answers::all_positive(&bytes[..length])
        && all_zero(&bytes[length..])
        && answer == answer_of(bytes, length)
}

// The place `i` of a list without one place, as a place of the whole list.
fn skip(i: usize, place: usize) -> usize
    requires { i < 16 }
    ensures { result ≡ skipping i place }
{
    if i < place { i } else { i + 1 }
}

// The first `length` bytes without that at `place`, in sixteen places: those behind it move up, and the place that is freed becomes 0. It is a loop,
// as a copy would be a call of memcpy, which the library for C does not need.
fn without_place(bytes: [u8; 16], length: usize, place: usize) -> [u8; 16]
    requires { (place < length) × (length ≤ 16) }
    ensures { result ≡ in_sixteen (without_place place (take length bytes)) }
{
    let mut left = [0u8; 16];
    for (i, moved) in left[..length - 1].iter_mut().enumerate() {
        *moved = bytes[skip(i, place)];
    }
    left
}

// The state at the start: no byte is held, and the kept answer is that of the empty list, refused 8.
#[tactic(auto, unfolding(crate::specs::Private::with_answer, changes::specs::States::state_of, semigroups::specs::Lists::fronted))]
pub fn empty() -> Editor
    ensures { said result ≡ state_of [] }
{
    with_answer([0u8; 16], 0)
}

// A byte is added behind those that are held. Refused for a state that is not right, a byte 0, or a state that holds sixteen; the state then
// stays as it was.
pub fn add(editor: &mut Editor, byte: u8) -> Result<(), Refusal>
    ensures { told editor.new result ≡ change_of (addition byte) (said editor.old) }
{
    if !is_right(editor) {
        return Err(Refusal::EditorOutOfOrder);
    }
    if byte == 0 {
        return Err(Refusal::ZeroGenerator);
    }
    let length = editor.length;
    if 15 < length {
        return Err(Refusal::EditorFull);
    }
    let mut bytes = editor.bytes;
    bytes[length] = byte;
    *editor = with_answer(bytes, length + 1);
    Ok(())
}

// The first byte that is equal to `byte` is removed, and those behind it move up. Refused for a state that is not right, or a byte that is
// not held; the state then stays as it was.
pub fn remove(editor: &mut Editor, byte: u8) -> Result<(), Refusal>
    ensures { told editor.new result ≡ change_of (removal byte) (said editor.old) }
{
    if !is_right(editor) {
        return Err(Refusal::EditorOutOfOrder);
    }
    let bytes = editor.bytes;
    let length = editor.length;
    let place = bytes[..length]
        .iter()
        .position(|&held| held == byte)
        .ok_or(Refusal::ByteNotHeld)?;
    *editor = with_answer(without_place(bytes, length, place), length - 1);
    Ok(())
}
