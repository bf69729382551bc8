// What callers in C, and in languages that call C, get of the answers of the atlas, and the walk and the list of generators that they hand over. An
// answer is a struct by value: first, of a call that can be refused, the number of the refusal, 0 where there is none, then the values, all 0 where
// the call is refused. C has no enums with values: so the number of a refusal, and whether there is a word, stand beside the values.
#![tactic(auto)]

ghost use Rattle.std.specs.Prelude.{◌≡◌, if◌then◌else◌, Some, None};
ghost use Rattle.std.specs.Option.{option_map};
ghost use Rattle.answers.specs.Answers.{answered, sought, sought_answered, number_of};
ghost use Rattle.editor.specs.Answers.{said};
ghost use Rattle.interface.specs.Interface.{number_in, table_in, found_in, shortest_in, report_in, walk_in, walk_from, HandedWalk, no_walk, begun_in, unmoved_in, moved_in, saved_in, editor_in, answer_from, unchanged_in, changed_by};
ghost use Rattle.interface.specs.HandedOver.{is_kept, HandedEditor};

use answers::Refusal;
use editor::Editor;
use jobs::Saved;
use tables::Table;
use walk::{Walk, Written};
use windows::Window;
use words::Report;

// A number, or the number of a refusal.
#[repr(C)]
#[derive(Clone, Copy, Debug, PartialEq, Eq)]
pub struct AtlasNumber {
    pub refused: u64,
    pub value: u64,
}

// A seed table and the number of 1s in its row 0, or the number of a refusal.
#[repr(C)]
#[derive(Clone, Copy, Debug, PartialEq, Eq)]
pub struct AtlasTable {
    pub refused: u64,
    pub table: u64,
    pub generators: u64,
}

// Whether there is a word that was looked for, and which, or the number of a refusal.
#[repr(C)]
#[derive(Clone, Copy, Debug, PartialEq, Eq)]
pub struct AtlasFound {
    pub refused: u64,
    pub found: bool,
    pub word: u64,
}

// Whether there is an impossible opening, and the number of gaps of the shortest.
#[repr(C)]
#[derive(Clone, Copy, Debug, PartialEq, Eq)]
pub struct AtlasShortest {
    pub found: bool,
    pub length: u64,
}

// What is told of a word, or the number of a refusal. The conductor is the reported one.
#[repr(C)]
#[derive(Clone, Copy, Debug, PartialEq, Eq)]
pub struct AtlasReport {
    pub refused: u64,
    pub genus: u64,
    pub multiplicity: u64,
    pub conductor: u64,
    pub largest_gap: i64,
}

// A walk: its genus, the next word, the lowest and the highest multiplicity, and the finished mark, 0 or 1.
#[repr(C)]
#[derive(Clone, Copy, Debug, PartialEq, Eq)]
pub struct AtlasWalk {
    pub genus: u64,
    pub word: u64,
    pub lowest: u8,
    pub highest: u8,
    pub finished: u8,
}

// A walk that a call began, or the number of a refusal.
#[repr(C)]
#[derive(Clone, Copy, Debug, PartialEq, Eq)]
pub struct AtlasBegun {
    pub refused: u64,
    pub walk: AtlasWalk,
}

// How a batch ended: the number of a refusal, the walk afterwards, the number of words written, and whether none are left.
#[repr(C)]
#[derive(Clone, Copy, Debug, PartialEq, Eq)]
pub struct AtlasMoved {
    pub refused: u64,
    pub walk: AtlasWalk,
    pub count: usize,
    pub finished: bool,
}

// A walk and the number of words written so far that a job keeps, or the number of a refusal.
#[repr(C)]
#[derive(Clone, Copy, Debug, PartialEq, Eq)]
pub struct AtlasSaved {
    pub refused: u64,
    pub walk: AtlasWalk,
    pub written: u64,
}

// A list of generators that changes: sixteen places, the number of them that are held, and the kept answer.
#[repr(C)]
#[derive(Clone, Copy, Debug, PartialEq, Eq)]
pub struct AtlasEditor {
    pub bytes: [u8; 16],
    pub length: usize,
    pub answer: AtlasNumber,
}

// What a change of such a list gives: the number of a refusal, and the state afterwards.
#[repr(C)]
#[derive(Clone, Copy, Debug, PartialEq, Eq)]
pub struct AtlasChanged {
    pub refused: u64,
    pub editor: AtlasEditor,
}

// A number, as C callers get it.
impl From<Result<u64, Refusal>> for AtlasNumber {
    ghost from_gives = { λ answer number. number ≡ number_in (answered answer) };

    fn from(answer: Result<u64, Refusal>) -> AtlasNumber {
        match answer {
            Err(refusal) => AtlasNumber {
                refused: refusal.number(),
                value: 0,
            },
            Ok(value) => AtlasNumber { refused: 0, value },
        }
    }
}

// A seed table with its number, as they get it.
impl From<Result<Table, Refusal>> for AtlasTable {
    ghost from_gives = { λ answer table. table ≡ table_in (answered answer) };

    fn from(answer: Result<Table, Refusal>) -> AtlasTable {
        match answer {
            Err(refusal) => AtlasTable {
                refused: refusal.number(),
                table: 0,
                generators: 0,
            },
            Ok(given) => AtlasTable {
                refused: 0,
                table: given.table,
                generators: given.generators,
            },
        }
    }
}

// A word that was looked for, as they get it.
impl From<Result<Option<u64>, Refusal>> for AtlasFound {
    ghost from_gives = { λ answer found. found ≡ found_in (sought_answered answer) };

    fn from(answer: Result<Option<u64>, Refusal>) -> AtlasFound {
        match answer {
            Err(refusal) => AtlasFound {
                refused: refusal.number(),
                found: false,
                word: 0,
            },
            Ok(None) => AtlasFound {
                refused: 0,
                found: false,
                word: 0,
            },
            Ok(Some(word)) => AtlasFound {
                refused: 0,
                found: true,
                word,
            },
        }
    }
}

// The shortest impossible opening, as they get it.
impl From<Option<u64>> for AtlasShortest {
    ghost from_gives = { λ opening shortest. shortest ≡ shortest_in (sought opening) };

    fn from(opening: Option<u64>) -> AtlasShortest {
        match opening {
            None => AtlasShortest {
                found: false,
                length: 0,
            },
            Some(length) => AtlasShortest {
                found: true,
                length,
            },
        }
    }
}

// What is told of a word, as they get it.
impl From<Result<Report, Refusal>> for AtlasReport {
    ghost from_gives = { λ answer report. report ≡ report_in (answered answer) };

    fn from(answer: Result<Report, Refusal>) -> AtlasReport {
        match answer {
            Err(refusal) => AtlasReport {
                refused: refusal.number(),
                genus: 0,
                multiplicity: 0,
                conductor: 0,
                largest_gap: 0,
            },
            Ok(report) => AtlasReport {
                refused: 0,
                genus: report.genus,
                multiplicity: report.multiplicity,
                conductor: report.conductor,
                largest_gap: report.largest_gap,
            },
        }
    }
}

// A walk, as they get it.
impl From<Walk> for AtlasWalk {
    ghost from_gives = { λ walk handed. handed ≡ walk_in walk };

    fn from(walk: Walk) -> AtlasWalk {
        AtlasWalk {
            genus: walk.genus,
            word: walk.word,
            lowest: walk.window.lowest,
            highest: walk.window.highest,
            finished: walk.finished as u8,
        }
    }
}

// A walk as they hand it over: a finished mark that is neither 0 nor 1 is no walk in order.
impl TryFrom<AtlasWalk> for Walk {
    type Error = Refusal;

    ghost try_from_gives = { HandedWalk };

    fn try_from(walk: AtlasWalk) -> Result<Walk, Refusal> {
        if 1 < walk.finished {
            return Err(Refusal::WalkOutOfOrder);
        }
        Ok(walk.walk())
    }
}

impl AtlasWalk {
    // The walk, with any finished mark: 1 says that it is finished, and any other mark that it is not.
    pub fn walk(self) -> Walk
        ensures { result ≡ walk_from self }
    {
        Walk {
            genus: self.genus,
            word: self.word,
            window: Window {
                lowest: self.lowest,
                highest: self.highest,
            },
            finished: self.finished == 1,
        }
    }

    // What they get where there is no walk.
    pub fn no_walk() -> AtlasWalk
        ensures { result ≡ no_walk }
    {
        AtlasWalk {
            genus: 0,
            word: 0,
            lowest: 0,
            highest: 0,
            finished: 0,
        }
    }
}

// A walk that a call began, as they get it.
impl From<Result<Walk, Refusal>> for AtlasBegun {
    ghost from_gives = { λ answer begun. begun ≡ begun_in (answered answer) };

    fn from(answer: Result<Walk, Refusal>) -> AtlasBegun {
        match answer {
            Err(refusal) => AtlasBegun {
                refused: refusal.number(),
                walk: AtlasWalk::no_walk(),
            },
            Ok(walk) => AtlasBegun {
                refused: 0,
                walk: AtlasWalk::from(walk),
            },
        }
    }
}

impl AtlasMoved {
    // A batch that was refused, with the walk as it was handed over.
    pub fn unmoved(walk: AtlasWalk, refusal: Refusal) -> AtlasMoved
        ensures { result ≡ unmoved_in (number_of refusal) walk }
    {
        AtlasMoved {
            refused: refusal.number(),
            walk,
            count: 0,
            finished: false,
        }
    }

    // How a batch ended, with the walk afterwards.
    pub fn ended(walk: Walk, answer: Result<Written, Refusal>) -> AtlasMoved
        ensures { result ≡ moved_in walk (answered answer) }
    {
        let walk = AtlasWalk::from(walk);
        match answer {
            Err(refusal) => AtlasMoved::unmoved(walk, refusal),
            Ok(written) => AtlasMoved {
                refused: 0,
                walk,
                count: written.count,
                finished: written.finished,
            },
        }
    }
}

// What a job keeps, as they get it.
impl From<Result<Saved, Refusal>> for AtlasSaved {
    ghost from_gives = { λ answer saved. saved ≡ saved_in (answered answer) };

    fn from(answer: Result<Saved, Refusal>) -> AtlasSaved {
        match answer {
            Err(refusal) => AtlasSaved {
                refused: refusal.number(),
                walk: AtlasWalk::no_walk(),
                written: 0,
            },
            Ok(saved) => AtlasSaved {
                refused: 0,
                walk: AtlasWalk::from(saved.walk),
                written: saved.written,
            },
        }
    }
}

// The state of a list of generators that changes, as they get it.
impl From<Editor> for AtlasEditor {
    ghost from_gives = { λ editor handed. handed ≡ editor_in (said editor) };

    fn from(editor: Editor) -> AtlasEditor {
        let bytes = editor.bytes;
        AtlasEditor {
            bytes,
            length: editor.length,
            answer: AtlasNumber::from(editor.answer),
        }
    }
}

// The answer of a state that they hand over, if it is one that bytes without 0 are given: a word, or refused 8 or 9 with no value beside it.
#[tactic(auto, unfolding(crate::specs::HandedOver::is_kept, crate::specs::Interface::answer_from))]
fn kept_answer(number: AtlasNumber) -> Option<Result<u64, Refusal>>
    ensures { option_map answered result ≡ (if is_kept number then Some (answer_from number) else None) }
{
    match (number.refused, number.value) {
        (0, word) => Some(Ok(word)),
        (8, 0) => Some(Err(Refusal::CommonDivisor)),
        (9, 0) => Some(Err(Refusal::TooManyGapsGenerated)),
        _ => None,
    }
}

// A state as they hand it over: with any other answer it is out of order.
impl TryFrom<AtlasEditor> for Editor {
    type Error = Refusal;

    ghost try_from_gives = { HandedEditor };

    fn try_from(editor: AtlasEditor) -> Result<Editor, Refusal> {
        let bytes = editor.bytes;
        let answer = kept_answer(editor.answer).ok_or(Refusal::EditorOutOfOrder)?;
        Ok(Editor {
            bytes,
            length: editor.length,
            answer,
        })
    }
}

impl AtlasChanged {
    // A change that was refused, with the state as it was handed over.
    pub fn unchanged(editor: AtlasEditor, refusal: Refusal) -> AtlasChanged
        ensures { result ≡ unchanged_in (number_of refusal) editor }
    {
        AtlasChanged {
            refused: refusal.number(),
            editor,
        }
    }

    // What a change of a state that was handed over gives: `after` is the state afterwards.
    pub fn made(editor: AtlasEditor, after: Editor, answer: Result<(), Refusal>) -> AtlasChanged
        ensures { result ≡ changed_by editor (said after) (answered answer) }
    {
        match answer {
            Err(refusal) => AtlasChanged::unchanged(editor, refusal),
            Ok(()) => AtlasChanged {
                refused: 0,
                editor: AtlasEditor::from(after),
            },
        }
    }
}
