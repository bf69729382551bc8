// The calls of the atlas for callers in C and in languages that call C. An answer is a struct by value: first, of a call that can be
// refused, the number of the refusal, 0 where there is none, then the values, all 0 where the call is refused. A list is a pointer and a
// length.
#![tactic(auto)]

ghost use Rattle.std.specs.Prelude.{◌≡◌, []};
ghost use Rattle.semigroups.specs.Openings.{opening_of};
ghost use Rattle.answers.specs.Answers.{listed};
ghost use Rattle.words.specs.Looks.{look_of};
ghost use Rattle.tables.specs.Answers.{table_of, child_of, grandchildren_of};
ghost use Rattle.counts.specs.Counts.{count_of};
ghost use Rattle.descendants.specs.Descendants.{first_descendant_of};
ghost use Rattle.walk.specs.Walks.{fresh_of, fresh_in_of, start_of, start_in_of};
ghost use Rattle.jobs.specs.Jobs.{read_of};
ghost use Rattle.sums.specs.WordFrom.{word_from_of};
ghost use Rattle.generators.specs.Generators.{generators_of};
ghost use Rattle.changes.specs.Changes.{addition, removal};
ghost use Rattle.changes.specs.States.{state_of};
ghost use Rattle.elementary.specs.Answers.{elementary_of};
ghost use Rattle.coordinates.specs.Coordinates.{coordinates_of, word_from_coordinates_of};
ghost use Rattle.search.specs.Wanted.{find_of};
ghost use Rattle.census.specs.Census.{census_of};
ghost use Rattle.interface.specs.Interface.{number_in, table_in, found_in, shortest_in, report_in, begun_in, batch_in, saved_in, written_in, editor_in, change_in};

use answers::{Element, Refusal};
use editor::Editor;
use interface::{
    AtlasBegun, AtlasChanged, AtlasEditor, AtlasFound, AtlasMoved, AtlasNumber, AtlasReport,
    AtlasSaved, AtlasShortest, AtlasTable, AtlasWalk,
};
use walk::Walk;
use windows::Window;

// Genus, multiplicity, reported conductor and largest gap of a word. Questions 1, 2.
#[unsafe(no_mangle)]
pub extern "C" fn atlas_look(word: u64) -> AtlasReport
    ensures { result ≡ report_in (look_of word) }
{
    AtlasReport::from(words::look(word))
}

// The least n such that the n smallest gaps of a word, with any number of gaps, are not the gaps of a semigroup, or that there is none. No
// question.
#[unsafe(no_mangle)]
pub extern "C" fn atlas_opening(word: u64) -> AtlasShortest
    ensures { result ≡ shortest_in (opening_of word) }
{
    AtlasShortest::from(words::opening(word))
}

// The seed table of a word, and the number of generators not below the conductor, which are the 1s in row 0. Questions 1, 2.
#[unsafe(no_mangle)]
pub extern "C" fn atlas_seed_table(word: u64) -> AtlasTable
    ensures { result ≡ table_in (table_of word) }
{
    AtlasTable::from(tables::seed_table(word))
}

// The word of the child without a generator. Questions 1, 2, 3, 5.
#[unsafe(no_mangle)]
pub extern "C" fn atlas_child(word: u64, element: u64) -> AtlasNumber
    ensures { result ≡ number_in (child_of word element) }
{
    AtlasNumber::from(tables::child(word, Element(element)))
}

// The number of grandchildren of a word, the semigroups with two gaps more whose smallest gaps are the word's. Questions 1, 2.
#[unsafe(no_mangle)]
pub extern "C" fn atlas_grandchildren(word: u64) -> AtlasNumber
    ensures { result ≡ number_in (grandchildren_of word) }
{
    AtlasNumber::from(tables::grandchildren(word))
}

// A walk on the first semigroup of a genus. Question 3.
#[unsafe(no_mangle)]
pub extern "C" fn atlas_fresh(genus: u64) -> AtlasBegun
    ensures { result ≡ begun_in (fresh_of genus) }
{
    AtlasBegun::from(walk::fresh(genus))
}

// A walk on the first semigroup of a genus with a multiplicity from the lowest to the highest. Question 3.
#[unsafe(no_mangle)]
pub extern "C" fn atlas_fresh_in(genus: u64, lowest: u8, highest: u8) -> AtlasBegun
    ensures { result ≡ begun_in (fresh_in_of genus lowest highest) }
{
    AtlasBegun::from(walk::fresh_in(genus, Window { lowest, highest }))
}

// A walk on a given word. Questions 1, 2.
#[unsafe(no_mangle)]
pub extern "C" fn atlas_start(word: u64) -> AtlasBegun
    ensures { result ≡ begun_in (start_of word) }
{
    AtlasBegun::from(walk::start(word))
}

// A walk on a given word with a multiplicity from the lowest to the highest. Questions 1, 2, 4.
#[unsafe(no_mangle)]
pub extern "C" fn atlas_start_in(word: u64, lowest: u8, highest: u8) -> AtlasBegun
    ensures { result ≡ begun_in (start_in_of word lowest highest) }
{
    AtlasBegun::from(walk::start_in(word, Window { lowest, highest }))
}

// The next words into a lent list. Questions 3, 4; a finished mark that is neither 0 nor 1 is no walk in order.
#[unsafe(no_mangle)]
pub extern "C" fn atlas_batch(walk: AtlasWalk, out: &mut [u64]) -> AtlasMoved
    ensures { (result ≡ (batch_in walk out.old).answer) × (out.new ≡ (batch_in walk out.old).list) }
{
    if 32 < walk.genus {
        return AtlasMoved::unmoved(walk, Refusal::GenusTooLarge);
    }
    match Walk::try_from(walk) {
        Err(refusal) => AtlasMoved::unmoved(walk, refusal),
        Ok(mut moving) => {
            let answer = walk::batch(&mut moving, out);
            AtlasMoved::ended(moving, answer)
        }
    }
}

// The job of a walk as it is handed over.
fn job_write(walk: AtlasWalk, written: u64, out: &mut [u8]) -> Result<u64, Refusal>
    ensures { listed result out.new ≡ written_in walk written out.old }
{
    if 32 < walk.genus {
        return Err(Refusal::GenusTooLarge);
    }
    let walk = Walk::try_from(walk)?;
    jobs::write(walk, written, out)
}

// A walk and a number written as a job into a lent list, and the job's length. Questions 3, 4, 6; a finished mark that is neither 0 nor 1 is no
// walk in order.
#[unsafe(no_mangle)]
pub extern "C" fn atlas_job_write(walk: AtlasWalk, written: u64, out: &mut [u8]) -> AtlasNumber
    ensures { (result ≡ number_in (written_in walk written out.old).answer) × (out.new ≡ (written_in walk written out.old).list) }
{
    AtlasNumber::from(job_write(walk, written, out))
}

// The walk and the number written that a job of version 1 or 2 keeps. Questions 18, 17, 18, 19, 3, 4.
#[unsafe(no_mangle)]
pub extern "C" fn atlas_job_read(job: &[u8]) -> AtlasSaved
    ensures { result ≡ saved_in (read_of 2 job.now) }
{
    AtlasSaved::from(jobs::read(job))
}

// The number of semigroups of a genus whose smallest gaps are exactly the word's. Questions 1, 2, 3.
#[unsafe(no_mangle)]
pub extern "C" fn atlas_count(word: u64, genus: u64) -> AtlasNumber
    ensures { result ≡ number_in (count_of word genus) }
{
    AtlasNumber::from(counts::count(word, genus))
}

// The first semigroup of a genus whose smallest gaps are exactly the word's gaps, or that there is none. Questions 1, 2, 3.
#[unsafe(no_mangle)]
pub extern "C" fn atlas_first_descendant(word: u64, genus: u64) -> AtlasFound
    ensures { result ≡ found_in (first_descendant_of word genus) }
{
    AtlasFound::from(descendants::first_descendant(word, genus))
}

// The number of elementary semigroups of a genus with a largest gap. Question 3.
#[unsafe(no_mangle)]
pub extern "C" fn atlas_elementary(frobenius: u64, genus: u64) -> AtlasNumber
    ensures { result ≡ number_in (elementary_of frobenius genus) }
{
    AtlasNumber::from(elementary::elementary(frobenius, genus))
}

// The first word of a genus with a largest gap, which is -1 for the word 0, and a multiplicity, or that there is none. Question 3.
#[unsafe(no_mangle)]
pub extern "C" fn atlas_find(genus: u64, largest_gap: i8, multiplicity: u8) -> AtlasFound
    ensures { result ≡ found_in (find_of genus largest_gap multiplicity) }
{
    AtlasFound::from(search::find(genus, largest_gap, multiplicity))
}

// The minimal generators of a word in rising order into a lent list, and their number. Questions 1, 2, 6.
#[unsafe(no_mangle)]
pub extern "C" fn atlas_generators(word: u64, out: &mut [u8]) -> AtlasNumber
    ensures { (result ≡ number_in (generators_of word out.old).answer) × (out.new ≡ (generators_of word out.old).list) }
{
    AtlasNumber::from(generators::generators(word, out))
}

// The word of all sums of the given generators. Questions 7, 8, 9.
#[unsafe(no_mangle)]
pub extern "C" fn atlas_word_from(list: &[u8]) -> AtlasNumber
    ensures { result ≡ number_in (word_from_of list.now) }
{
    AtlasNumber::from(sums::word_from(list))
}

// The Kunz coordinates of a word into a lent list, and their number, one less than the multiplicity. Questions 1, 2, 6.
#[unsafe(no_mangle)]
pub extern "C" fn atlas_kunz(word: u64, out: &mut [u8]) -> AtlasNumber
    ensures { (result ≡ number_in (coordinates_of word out.old).answer) × (out.new ≡ (coordinates_of word out.old).list) }
{
    AtlasNumber::from(kunz::coordinates(word, out))
}

// The word of a list of Kunz coordinates. Questions 11, 12, 13.
#[unsafe(no_mangle)]
pub extern "C" fn atlas_word_from_kunz(list: &[u8]) -> AtlasNumber
    ensures { result ≡ number_in (word_from_coordinates_of list.now) }
{
    AtlasNumber::from(kunz::word_from_coordinates(list))
}

// The census of a genus into a lent list, and the sum of all reported conductors. Questions 3, 6.
#[unsafe(no_mangle)]
pub extern "C" fn atlas_census(genus: u64, out: &mut [u64]) -> AtlasNumber
    ensures { (result ≡ number_in (census_of genus out.old).answer) × (out.new ≡ (census_of genus out.old).list) }
{
    AtlasNumber::from(census::census(genus, out))
}

// A list of generators that changes, at the start: no byte is held. No question.
#[unsafe(no_mangle)]
pub extern "C" fn atlas_editor_empty() -> AtlasEditor
    ensures { result ≡ editor_in (state_of []) }
{
    AtlasEditor::from(editor::empty())
}

// A byte is added behind those that are held. Questions 14, 7, 15; an answer that no bytes without 0 are given is none that the bytes give.
#[unsafe(no_mangle)]
pub extern "C" fn atlas_editor_add(editor: AtlasEditor, byte: u8) -> AtlasChanged
    ensures { result ≡ change_in (addition byte) editor }
{
    match Editor::try_from(editor) {
        Err(refusal) => AtlasChanged::unchanged(editor, refusal),
        Ok(mut after) => {
            let answer = editor::add(&mut after, byte);
            AtlasChanged::made(editor, after, answer)
        }
    }
}

// The first byte that is equal is removed. Questions 14, 16; 14 as for an addition.
#[unsafe(no_mangle)]
pub extern "C" fn atlas_editor_remove(editor: AtlasEditor, byte: u8) -> AtlasChanged
    ensures { result ≡ change_in (removal byte) editor }
{
    match Editor::try_from(editor) {
        Err(refusal) => AtlasChanged::unchanged(editor, refusal),
        Ok(mut after) => {
            let answer = editor::remove(&mut after, byte);
            AtlasChanged::made(editor, after, answer)
        }
    }
}
