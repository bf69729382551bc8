// Runs further cases of the papers on what comes after the walk: generators both ways, joined lists of them, elementary counts, Kunz
// coordinates both ways, censuses, a list of generators that changes and saved jobs both ways. What it prints is held to the stored file,
// which was computed apart from the plain definitions.
#![tactic(auto)]

use answers::Refusal;
use console::{write_answer, write_refused};
use editor::Editor;
use std::io;
use walk::Walk;
use windows::Window;

// A blank and a number for each byte.
fn write_bytes(rt: &impl Print, list: &[u8]) -> io::Result<()> {
    for byte in list {
        print!(rt; " {byte}")?;
    }
    Ok(())
}

// The same for the first bytes of a list, as many as are told; for none where it has fewer.
fn write_front(rt: &impl Print, list: &[u8], length: usize) -> io::Result<()> {
    match list.get(..length) {
        Some(front) => write_bytes(rt, front),
        None => Ok(()),
    }
}

// A colon, the answer of a call and the end of the line.
fn write_end(rt: &impl Print, answer: Result<u64, Refusal>) -> io::Result<()> {
    print!(rt; ":")?;
    write_answer(&mut io::writer(rt), answer)?;
    println!(rt;)
}

// The bytes that a call listed, and its answer.
fn write_listed(rt: &impl Print, answer: Result<u64, Refusal>, list: &[u8]) -> io::Result<()> {
    if let Ok(length) = answer {
        print!(rt; " are")?;
        write_front(rt, list, length as usize)?;
    }
    write_end(rt, answer)
}

fn show_generators(rt: &impl Print, word: u64) -> io::Result<()> {
    print!(rt; "generators of {word}")?;
    let mut list = [0; 33];
    let answer = generators::generators(word, &mut list);
    write_listed(rt, answer, &list)
}

fn show_word_from(rt: &impl Print, list: &[u8]) -> io::Result<()> {
    print!(rt; "word from")?;
    write_bytes(rt, list)?;
    write_end(rt, sums::word_from(list))
}

fn show_elementary(rt: &impl Print, frobenius: u64, genus: u64) -> io::Result<()> {
    print!(rt; "elementary {frobenius} {genus}")?;
    write_end(rt, elementary::elementary(frobenius, genus))
}

fn show_coordinates(rt: &impl Print, word: u64) -> io::Result<()> {
    print!(rt; "coordinates of {word}")?;
    let mut list = [0; 32];
    let answer = kunz::coordinates(word, &mut list);
    write_listed(rt, answer, &list)
}

fn show_word_from_coordinates(rt: &impl Print, list: &[u8]) -> io::Result<()> {
    print!(rt; "word from coordinates")?;
    write_bytes(rt, list)?;
    write_end(rt, kunz::word_from_coordinates(list))
}

// The places of a list that are not 0, each with its number.
fn write_places(rt: &impl Print, list: &[u64]) -> io::Result<()> {
    for (place, &n) in list.iter().enumerate() {
        if n != 0 {
            print!(rt; " {place} {n}")?;
        }
    }
    Ok(())
}

// The census in a lent list, and then the places that are not 0.
fn show_census_in(rt: &impl Print, genus: u64, list: &mut [u64]) -> io::Result<()> {
    let size = list.len();
    print!(rt; "census of {genus} in {size}")?;
    let answer = census::census(genus, list);
    if answer.is_ok() {
        print!(rt; " has")?;
        write_places(rt, list)?;
    }
    write_end(rt, answer)
}

// The same with so many places, at most 2,212, that are lent with a 7 each.
fn show_census(rt: &impl Print, genus: u64, size: usize) -> io::Result<()> {
    let mut list = [7; 2212];
    show_census_in(rt, genus, &mut list[..size.min(2212)])
}

// What a change gives: its refusal where it is refused, the bytes that are held then, and the kept answer.
fn write_change(rt: &impl Print, change: Result<(), Refusal>, editor: &Editor) -> io::Result<()> {
    if let Err(refusal) = change {
        print!(rt; " is")?;
        write_refused(&mut io::writer(rt), refusal)?;
    }
    print!(rt; " holds")?;
    write_front(rt, &editor.bytes, editor.length)?;
    write_end(rt, editor.answer)
}

// Adds a byte, and shows what there is then.
fn show_add(rt: &impl Print, editor: &mut Editor, byte: u8) -> io::Result<()> {
    print!(rt; "add {byte}")?;
    let change = editor::add(editor, byte);
    write_change(rt, change, editor)
}

// Removes a byte, and shows what there is then.
fn show_remove(rt: &impl Print, editor: &mut Editor, byte: u8) -> io::Result<()> {
    print!(rt; "remove {byte}")?;
    let change = editor::remove(editor, byte);
    write_change(rt, change, editor)
}

// Adds bytes, and shows what there is after each.
fn show_additions(rt: &impl Print, editor: &mut Editor, bytes: &[u8]) -> io::Result<()> {
    for &byte in bytes {
        show_add(rt, editor, byte)?;
    }
    Ok(())
}

// The fields of a walk, and the number written.
fn write_saved(rt: &impl Print, walk: Walk, written: u64) -> io::Result<()> {
    let Window { lowest, highest } = walk.window;
    let finished = u8::from(walk.finished);
    print!(rt;
        " {} {} {lowest} {highest} {finished} with {written}",
        walk.genus, walk.word
    )
}

// The job of a walk and a number written, in a list of 21 places.
fn show_job(rt: &impl Print, walk: Walk, written: u64) -> io::Result<()> {
    print!(rt; "job of")?;
    write_saved(rt, walk, written)?;
    let mut list = [7; 21];
    let answer = jobs::write(walk, written, &mut list);
    write_listed(rt, answer, &list)
}

// The walk and the number written that a job keeps.
fn show_read(rt: &impl Print, job: &[u8]) -> io::Result<()> {
    print!(rt; "read")?;
    write_bytes(rt, job)?;
    print!(rt; ":")?;
    match jobs::read(job) {
        Ok(saved) => write_saved(rt, saved.walk, saved.written)?,
        Err(refusal) => write_refused(&mut io::writer(rt), refusal)?,
    }
    println!(rt;)
}

fn generators_out(rt: &impl Print) -> io::Result<()> {
    show_generators(rt, 0)?;
    show_generators(rt, 111)?;
    show_generators(rt, 427392895)?;
    show_generators(rt, 4294967295)?;
    show_generators(rt, 6148914691236517205)?;
    show_generators(rt, 13)
}

fn words_back(rt: &impl Print) -> io::Result<()> {
    show_word_from(rt, &[5, 8, 9, 11, 12])?;
    show_word_from(rt, &[3, 8, 10])?;
    show_word_from(rt, &[10, 3, 8, 3, 10, 16])?;
    show_word_from(rt, &[1])?;
    show_word_from(rt, &[255, 1])?;
    show_word_from(rt, &[6, 10, 15])
}

fn refused_generators(rt: &impl Print) -> io::Result<()> {
    show_word_from(rt, &[2, 65])?;
    show_word_from(rt, &[2, 67])?;
    show_word_from(rt, &[4, 6])?;
    show_word_from(rt, &[0, 1])?;
    show_word_from(rt, &[0])
}

// 10, 3, 8, 3, 10, 16, which has the word 91, and 7, 3, 255: joined, in the other order, with the minimal generators of 91 for the first; the
// first with itself, and with 0.
fn joined_lists(rt: &impl Print) -> io::Result<()> {
    show_word_from(rt, &[10, 3, 8, 3, 10, 16, 7, 3, 255])?;
    show_word_from(rt, &[7, 3, 255, 10, 3, 8, 3, 10, 16])?;
    show_generators(rt, 91)?;
    show_word_from(rt, &[3, 8, 10, 7, 3, 255])?;
    show_word_from(rt, &[10, 3, 8, 3, 10, 16, 10, 3, 8, 3, 10, 16])?;
    show_word_from(rt, &[10, 3, 8, 3, 10, 16, 0])
}

// 6, 10, then 55, then 15, then 4, 255, each joined to what is held, which is reduced where it has a word; then all at once.
fn lists_in_stages(rt: &impl Print) -> io::Result<()> {
    show_word_from(rt, &[6, 10])?;
    show_word_from(rt, &[6, 10, 55])?;
    show_word_from(rt, &[6, 10, 55, 15])?;
    show_generators(rt, 272971231)?;
    show_word_from(rt, &[6, 10, 15, 4, 255])?;
    show_generators(rt, 70999)?;
    show_word_from(rt, &[6, 10, 55, 15, 4, 255])
}

fn elementary_counts(rt: &impl Print) -> io::Result<()> {
    show_elementary(rt, 7, 5)?;
    show_elementary(rt, 10, 5)?;
    show_elementary(rt, 63, 32)?;
    show_elementary(rt, 48, 32)?;
    show_elementary(rt, 0, 0)?;
    show_elementary(rt, 18446744073709551615, 32)?;
    show_elementary(rt, 7, 33)
}

fn coordinates_out(rt: &impl Print) -> io::Result<()> {
    show_coordinates(rt, 0)?;
    show_coordinates(rt, 1)?;
    show_coordinates(rt, 91)?;
    show_coordinates(rt, 111)?;
    show_coordinates(rt, 427392895)?;
    show_coordinates(rt, 4294967295)?;
    show_coordinates(rt, 6148914691236517205)?;
    show_coordinates(rt, 13)?;
    show_coordinates(rt, 8589934591)
}

fn coordinates_back(rt: &impl Print) -> io::Result<()> {
    show_word_from_coordinates(rt, b"")?;
    show_word_from_coordinates(rt, &[1])?;
    show_word_from_coordinates(rt, &[2, 1])?;
    show_word_from_coordinates(rt, &[3, 2])?;
    show_word_from_coordinates(rt, &[3, 1])?;
    show_word_from_coordinates(rt, &[32])?;
    show_word_from_coordinates(rt, &[11, 21])?;
    show_word_from_coordinates(rt, &[1u8; 32])
}

fn refused_coordinates(rt: &impl Print) -> io::Result<()> {
    show_word_from_coordinates(rt, &[0])?;
    show_word_from_coordinates(rt, &[255, 0])?;
    show_word_from_coordinates(rt, &[33])?;
    show_word_from_coordinates(rt, &[1u8; 33])?;
    show_word_from_coordinates(rt, &[1, 255])?;
    show_word_from_coordinates(rt, &[1, 3])?;
    show_word_from_coordinates(rt, &[4, 1])?;
    show_word_from_coordinates(rt, &[1, 31])?;
    show_word_from_coordinates(rt, &[16, 1, 14])?;
    show_word_from_coordinates(rt, &[17, 1, 14])
}

// 6, 10, 6, of which the first 6 is removed; changes that are refused; then 55 and 15, with which there is a word.
fn short_history(rt: &impl Print) -> io::Result<()> {
    let mut editor = editor::empty();
    show_add(rt, &mut editor, 6)?;
    show_add(rt, &mut editor, 10)?;
    show_add(rt, &mut editor, 6)?;
    show_remove(rt, &mut editor, 6)?;
    show_add(rt, &mut editor, 0)?;
    show_remove(rt, &mut editor, 7)?;
    show_remove(rt, &mut editor, 0)?;
    show_add(rt, &mut editor, 55)?;
    show_add(rt, &mut editor, 15)?;
    show_remove(rt, &mut editor, 15)
}

// Twenty additions, of which sixteen are held; an added 0 is still refused 7; then one is removed and another added.
fn long_history(rt: &impl Print) -> io::Result<()> {
    let mut editor = editor::empty();
    let twenty = [
        4, 8, 12, 16, 20, 24, 28, 32, 36, 40, 44, 48, 52, 56, 60, 64, 68, 72, 76, 80,
    ];
    show_additions(rt, &mut editor, &twenty)?;
    show_add(rt, &mut editor, 0)?;
    show_remove(rt, &mut editor, 4)?;
    show_add(rt, &mut editor, 255)?;
    show_remove(rt, &mut editor, 255)?;
    show_add(rt, &mut editor, 7)
}

// States that are not right: a length of 17, a held 0, a place past the length that is not 0, an answer that the bytes do not give.
fn wrong_states(rt: &impl Print) -> io::Result<()> {
    let ones = [1; 16];
    let zeros = [0; 16];
    show_add(
        rt,
        &mut Editor {
            bytes: ones,
            length: 17,
            answer: Ok(0),
        },
        0,
    )?;
    show_remove(
        rt,
        &mut Editor {
            bytes: zeros,
            length: 1,
            answer: Err(Refusal::ZeroGenerator),
        },
        0,
    )?;
    show_remove(
        rt,
        &mut Editor {
            bytes: ones,
            length: 15,
            answer: Ok(0),
        },
        1,
    )?;
    show_add(
        rt,
        &mut Editor {
            bytes: ones,
            length: 16,
            answer: Ok(1),
        },
        1,
    )
}

// An unfinished walk of the window from 3 to 40.
fn walk_on(genus: u64, word: u64) -> Walk {
    Walk {
        genus,
        word,
        window: Window {
            lowest: 3,
            highest: 40,
        },
        finished: false,
    }
}

// A walk of genus 4 in the window from 3 to 4 that is told finished.
fn walk_done(word: u64) -> Walk {
    Walk {
        genus: 4,
        word,
        window: Window {
            lowest: 3,
            highest: 4,
        },
        finished: true,
    }
}

// Walks that are written, and then those that are refused.
fn jobs_out(rt: &impl Print) -> io::Result<()> {
    show_job(rt, walk_on(4, 15), 0)?;
    show_job(rt, walk_on(15, 32767), 72623859790382856)?;
    show_job(rt, walk_done(0), 18446744073709551615)?;
    show_job(rt, walk_on(33, 15), 0)?;
    show_job(rt, walk_on(5, 15), 0)?;
    show_job(rt, walk_on(4, 85), 0)?;
    show_job(rt, walk_done(15), 0)
}

// Version 1 without its byte and with it, and version 2.
fn jobs_back(rt: &impl Print) -> io::Result<()> {
    show_read(rt, &[1, 4])?;
    show_read(rt, &[7, 4, 3, 4])?;
    show_read(rt, &[7, 4, 6, 33])?;
    show_read(rt, &[33, 4])?;
    show_read(rt, &[9, 4, 71, 0, 0, 0, 0, 0, 0, 0])?;
    show_read(rt, &[129, 1, 4])?;
    show_read(rt, &[145, 2, 4, 8, 7, 6, 5, 4, 3, 2, 1])?;
    show_read(rt, &[183, 2, 4, 3, 4, 0, 1, 0, 0, 0, 0, 0, 0])
}

// By the order of the questions.
fn refused_jobs(rt: &impl Print) -> io::Result<()> {
    show_read(rt, b"")?;
    show_read(rt, &[192])?;
    show_read(rt, &[129, 0])?;
    show_read(rt, &[129, 3, 4])?;
    show_read(rt, &[65, 4])?;
    show_read(rt, &[17, 4])?;
    show_read(rt, &[1])?;
    show_read(rt, &[2])?;
    show_read(rt, &[1, 4, 0])?;
    show_read(rt, &[0])?;
    show_read(rt, &[41, 33, 15, 0, 0, 0, 0, 0, 0, 0])?;
    show_read(rt, &[1, 33])?;
    show_read(rt, &[9, 33, 13, 0, 0, 0, 0, 0, 0, 0])?;
    show_read(rt, &[9, 3, 13, 0, 0, 0, 0, 0, 0, 0])?;
    show_read(rt, &[11, 4, 5, 71, 0, 0, 0, 0, 0, 0, 0])
}

fn censuses(rt: &impl Print) -> io::Result<()> {
    show_census(rt, 0, 2210)?;
    show_census(rt, 1, 2210)?;
    show_census(rt, 3, 2212)?;
    show_census(rt, 6, 2211)?;
    show_census(rt, 32, 2209)?;
    show_census(rt, 33, 2210)?;
    show_census(rt, 33, 2209)?;
    show_census(rt, 18446744073709551615, 0)
}

fn main(rt: HostRuntime) -> io::Result<()> {
    generators_out(&rt)?;
    words_back(&rt)?;
    refused_generators(&rt)?;
    joined_lists(&rt)?;
    lists_in_stages(&rt)?;
    elementary_counts(&rt)?;
    coordinates_out(&rt)?;
    coordinates_back(&rt)?;
    refused_coordinates(&rt)?;
    censuses(&rt)?;
    short_history(&rt)?;
    long_history(&rt)?;
    wrong_states(&rt)?;
    jobs_out(&rt)?;
    jobs_back(&rt)?;
    refused_jobs(&rt)
}
