// Runs further cases of the papers on gap words, openings, seed tables, children, windows of multiplicities, searches and descendants, and
// prints what the calls answer. What it prints is held to the stored file: the tables of the descendants of example 1.4 worked by hand by
// lemma 3.1, the rest computed apart from the plain definitions. The marked cases are proved: proofs/Marked.antt.
#![tactic(auto)]

use answers::{Element, Refusal};
use console::{write_answer, write_refused};
use std::io;
use walk::Walk;
use windows::Window;
use words::Report;

// Genus, multiplicity, reported conductor and largest gap.
fn write_report(rt: &impl Print, report: Report) -> io::Result<()> {
    print!(rt;
        " {} {} {} {}",
        report.genus, report.multiplicity, report.conductor, report.largest_gap
    )
}

// A number that was looked for, or that there is none.
fn write_number_or_none(rt: &impl Print, number: Option<u64>) -> io::Result<()> {
    match number {
        Some(n) => print!(rt; " {n}"),
        None => print!(rt; " none"),
    }
}

// What a call looked for, that there is none, or the number of a refusal.
fn write_found(rt: &impl Print, answer: Result<Option<u64>, Refusal>) -> io::Result<()> {
    match answer {
        Ok(number) => write_number_or_none(rt, number),
        Err(refusal) => write_refused(&mut io::writer(rt), refusal),
    }
}

fn show_look(rt: &impl Print, word: u64) -> io::Result<()> {
    print!(rt; "look {word}:")?;
    match words::look(word) {
        Ok(report) => write_report(rt, report)?,
        Err(refusal) => write_refused(&mut io::writer(rt), refusal)?,
    }
    println!(rt;)
}

// What is told of a word, accepted or not.
fn show_told(rt: &impl Print, word: u64) -> io::Result<()> {
    print!(rt; "told of {word}:")?;
    write_report(rt, words::tell(word))?;
    println!(rt;)
}

// Conductor and multiplicity of a word, accepted or not.
fn show_both(rt: &impl Print, word: u64) -> io::Result<()> {
    let both = words::conductor_and_multiplicity(word);
    println!(rt;
        "conductor and multiplicity {word}: {} {}",
        both.conductor, both.multiplicity
    )
}

// How many gaps the shortest impossible opening of a word has.
fn show_opening(rt: &impl Print, word: u64) -> io::Result<()> {
    print!(rt; "opening {word}:")?;
    write_number_or_none(rt, words::opening(word))?;
    println!(rt;)
}

// A seed table and the number of 1s in its row 0, or the number of a refusal.
fn write_table(rt: &impl Print, word: u64) -> io::Result<()> {
    match tables::seed_table(word) {
        Ok(given) => print!(rt; " {} {}", given.table, given.generators),
        Err(refusal) => write_refused(&mut io::writer(rt), refusal),
    }
}

fn show_table(rt: &impl Print, word: u64) -> io::Result<()> {
    print!(rt; "seed table {word}:")?;
    write_table(rt, word)?;
    println!(rt;)
}

// The child at an element, and its table.
fn show_child(rt: &impl Print, word: u64, element: u64) -> io::Result<()> {
    print!(rt; "child {word} without {element}:")?;
    let answer = tables::child(word, Element(element));
    write_answer(&mut io::writer(rt), answer)?;
    if let Ok(child) = answer {
        print!(rt; " table")?;
        write_table(rt, child)?;
    }
    println!(rt;)
}

// 000, examples 1.4 and 2.3: the semigroup {0, 5, 8, ..} and its four descendants.
fn example_1_4(rt: &impl Print) -> io::Result<()> {
    show_look(rt, 111)?;
    show_table(rt, 111)?;
    show_child(rt, 111, 8)?;
    show_child(rt, 111, 9)?;
    show_child(rt, 111, 10)?;
    show_child(rt, 111, 11)?;
    show_child(rt, 111, 12)
}

// 000, examples 1.5 and 2.4: the semigroup {0, 8, 10, 11, 14, ..} and its three descendants.
fn example_1_5(rt: &impl Print) -> io::Result<()> {
    show_look(rt, 6527)?;
    show_table(rt, 6527)?;
    show_child(rt, 6527, 14)?;
    show_child(rt, 6527, 15)?;
    show_child(rt, 6527, 17)
}

// 001: the semigroup {0, 8, 16, 18, 19, 24, 26, 27, 30, ..} and its three descendants.
fn example_of_001(rt: &impl Print) -> io::Result<()> {
    show_look(rt, 427392895)?;
    show_table(rt, 427392895)?;
    show_child(rt, 427392895, 30)?;
    show_child(rt, 427392895, 31)?;
    show_child(rt, 427392895, 33)
}

// Words of every kind: accepted and refused, with the gap 64 and without, and that of all gaps up to 64.
fn any_word(rt: &impl Print) -> io::Result<()> {
    show_both(rt, 0)?;
    show_both(rt, 2)?;
    show_both(rt, 13)?;
    show_both(rt, 6148914691236517205)?;
    show_both(rt, 9223372036854775807)?;
    show_both(rt, 9223372036854775808)?;
    show_both(rt, 18446744073709551614)?;
    show_both(rt, 18446744073709551615)
}

// What is reported of the word without gaps, of the words after it, and of words that a look refuses. The conductor by which tables and
// children are counted is that of source 000: the table of the word 0 has one entry, and its one child is at 1.
fn reported_numbers(rt: &impl Print) -> io::Result<()> {
    show_look(rt, 0)?;
    show_look(rt, 1)?;
    show_look(rt, 4294967295)?;
    show_look(rt, 6148914691236517205)?;
    show_told(rt, 0)?;
    show_told(rt, 2)?;
    show_told(rt, 13)?;
    show_told(rt, 9223372036854775807)?;
    show_told(rt, 9223372036854775808)?;
    show_told(rt, 18446744073709551615)?;
    show_table(rt, 0)?;
    show_child(rt, 0, 1)?;
    show_child(rt, 0, 2)
}

// Openings of 13, 2 and 0; of closed sets with 32, 33, 34 and 64 gaps; of the gaps 1 and 4; of a semigroup of genus 22, and of its gaps without
// 5, several of which are sums then; of the gaps 1 to 31 and 64; of 64 alone; and of the gaps 1 to 64 without 21, where 42 is the only sum,
// and without 32, where 64 is.
fn openings(rt: &impl Print) -> io::Result<()> {
    show_opening(rt, 13)?;
    show_opening(rt, 2)?;
    show_opening(rt, 0)?;
    show_opening(rt, 4294967295)?;
    show_opening(rt, 8589934591)?;
    show_opening(rt, 9223372045444710399)?;
    show_opening(rt, 18446744073709551615)?;
    show_opening(rt, 9)?;
    show_opening(rt, 427392895)?;
    show_opening(rt, 427392879)?;
    show_opening(rt, 9223372039002259455)?;
    show_opening(rt, 9223372036854775808)?;
    show_opening(rt, 18446744073708503039)?;
    show_opening(rt, 18446744071562067967)
}

// Words and elements at the ends of their range.
fn ends_of_range(rt: &impl Print) -> io::Result<()> {
    show_look(rt, 18446744073709551615)?;
    show_look(rt, 9223372036854775808)?;
    show_table(rt, 13)?;
    show_child(rt, 13, 5)?;
    show_child(rt, 6148914691236517205, 65)?;
    show_child(rt, 0, 0)?;
    show_child(rt, 0, 18446744073709551615)
}

// The next words of a walk, at most eight, by batches of one, and its mark where none are left.
fn show_words(rt: &impl Print, mut walk: Walk) -> io::Result<()> {
    for _ in 0..8 {
        let mut list = [0; 1];
        let written = match walk::batch(&mut walk, &mut list) {
            Ok(written) => written,
            Err(refusal) => return write_refused(&mut io::writer(rt), refusal),
        };
        if written.count == 1 {
            print!(rt; " {}", list[0])?;
        }
        if written.finished {
            return print!(rt; " finished");
        }
    }
    Ok(())
}

// The first words of the walk that a call began in a window.
fn show_begun(rt: &impl Print, begun: Result<Walk, Refusal>) -> io::Result<()> {
    match begun {
        Ok(first) => show_words(rt, first)?,
        Err(refusal) => write_refused(&mut io::writer(rt), refusal)?,
    }
    println!(rt;)
}

// A fresh walk in a window.
fn show_window(rt: &impl Print, genus: u64, lowest: u8, highest: u8) -> io::Result<()> {
    print!(rt; "window of genus {genus} {lowest} {highest}:")?;
    show_begun(rt, walk::fresh_in(genus, Window { lowest, highest }))
}

// A walk that starts at a word.
fn show_start(rt: &impl Print, word: u64, lowest: u8, highest: u8) -> io::Result<()> {
    print!(rt; "start at {word} {lowest} {highest}:")?;
    show_begun(rt, walk::start_in(word, Window { lowest, highest }))
}

// Windows of genus 4, their ends and empty ones, and of genus 32.
fn windows(rt: &impl Print) -> io::Result<()> {
    show_window(rt, 4, 3, 4)?;
    show_window(rt, 4, 0, 2)?;
    show_window(rt, 4, 5, 255)?;
    show_window(rt, 4, 4, 3)?;
    show_window(rt, 4, 6, 33)?;
    show_window(rt, 0, 1, 1)?;
    show_window(rt, 0, 2, 255)?;
    show_window(rt, 32, 33, 33)?;
    show_window(rt, 32, 32, 32)?;
    show_window(rt, 32, 2, 3)?;
    show_window(rt, 32, 1, 1)?;
    show_window(rt, 33, 4, 3)?;
    show_start(rt, 71, 3, 4)?;
    show_start(rt, 71, 5, 33)?;
    show_start(rt, 85, 0, 255)?;
    show_start(rt, 13, 4, 3)
}

// The first word of a genus with a largest gap and a multiplicity.
fn show_find(rt: &impl Print, genus: u64, largest_gap: i8, multiplicity: u8) -> io::Result<()> {
    print!(rt; "find {genus} {largest_gap} {multiplicity}:")?;
    write_found(rt, search::find(genus, largest_gap, multiplicity))?;
    println!(rt;)
}

// Searches for the only semigroup with the numbers, for the first of several, and where there is none, and refused ones.
fn searches(rt: &impl Print) -> io::Result<()> {
    show_find(rt, 0, -1, 1)?;
    show_find(rt, 0, -1, 2)?;
    show_find(rt, 4, 7, 2)?;
    show_find(rt, 4, 6, 2)?;
    show_find(rt, 4, 4, 5)?;
    show_find(rt, 5, 7, 4)?;
    show_find(rt, 4, -1, 1)?;
    show_find(rt, 4, -128, 3)?;
    show_find(rt, 10, 17, 7)?;
    show_find(rt, 32, 63, 2)?;
    show_find(rt, 32, 32, 33)?;
    show_find(rt, 32, 59, 6)?;
    show_find(rt, 32, 57, 29)?;
    show_find(rt, 32, 38, 5)?;
    show_find(rt, 32, 127, 255)?;
    show_find(rt, 33, 63, 2)?;
    show_find(rt, 18446744073709551615, -1, 1)
}

fn show_grandchildren(rt: &impl Print, word: u64) -> io::Result<()> {
    print!(rt; "grandchildren {word}:")?;
    write_answer(&mut io::writer(rt), tables::grandchildren(word))?;
    println!(rt;)
}

// Grandchildren by the first two rows, of words that have one row, of words of genus 31 and 32, and of refused words.
fn grandchildren(rt: &impl Print) -> io::Result<()> {
    show_grandchildren(rt, 91)?;
    show_grandchildren(rt, 3)?;
    show_grandchildren(rt, 0)?;
    show_grandchildren(rt, 1)?;
    show_grandchildren(rt, 5)?;
    show_grandchildren(rt, 111)?;
    show_grandchildren(rt, 85)?;
    show_grandchildren(rt, 2147483647)?;
    show_grandchildren(rt, 1537228672809129301)?;
    show_grandchildren(rt, 4294967295)?;
    show_grandchildren(rt, 6442450943)?;
    show_grandchildren(rt, 6148914691236517205)?;
    show_grandchildren(rt, 72057598064459775)?;
    show_grandchildren(rt, 292805464964331487)?;
    show_grandchildren(rt, 13)?;
    show_grandchildren(rt, 8589934591)?;
    show_grandchildren(rt, 18446744073709551615)
}

// The elements below 128 at which a word has a child.
fn elements_with_a_child(rt: &impl Print, word: u64) -> io::Result<()> {
    for element in 0..128 {
        if tables::child(word, Element(element)).is_ok() {
            print!(rt; " {element}")?;
        }
    }
    Ok(())
}

// The table of a word with its number, and where its children are.
fn show_children(rt: &impl Print, word: u64) -> io::Result<()> {
    print!(rt; "children {word} table")?;
    write_table(rt, word)?;
    print!(rt; " at")?;
    elements_with_a_child(rt, word)?;
    println!(rt;)
}

// As many children as row 0 has 1s, up to genus 31; none at genus 32, and of refused words.
fn children(rt: &impl Print) -> io::Result<()> {
    show_children(rt, 0)?;
    show_children(rt, 1)?;
    show_children(rt, 5)?;
    show_children(rt, 111)?;
    show_children(rt, 75)?;
    show_children(rt, 2147483647)?;
    show_children(rt, 1537228672809129301)?;
    show_children(rt, 1261567)?;
    show_children(rt, 4294967295)?;
    show_children(rt, 6148914691236517205)?;
    show_children(rt, 292805464964331487)?;
    show_children(rt, 13)?;
    show_children(rt, 8589934591)?;
    show_children(rt, 18446744073709551615)
}

// How many descendants of a genus a word has, and the first of them.
fn show_descendants(rt: &impl Print, word: u64, genus: u64) -> io::Result<()> {
    print!(rt; "descendants of {word} of genus {genus}:")?;
    write_answer(&mut io::writer(rt), counts::count(word, genus))?;
    print!(rt; " from")?;
    write_found(rt, descendants::first_descendant(word, genus))?;
    println!(rt;)
}

// Descendants of a word's own genus, of larger ones and of a smaller one, of words that have many or none, and of refused words and genera.
fn descendants(rt: &impl Print) -> io::Result<()> {
    show_descendants(rt, 0, 0)?;
    show_descendants(rt, 11, 4)?;
    show_descendants(rt, 19, 4)?;
    show_descendants(rt, 5, 3)?;
    show_descendants(rt, 91, 5)?;
    show_descendants(rt, 91, 4)?;
    show_descendants(rt, 255, 20)?;
    show_descendants(rt, 639, 20)?;
    show_descendants(rt, 21845, 20)?;
    show_descendants(rt, 1261567, 31)?;
    show_descendants(rt, 1261567, 32)?;
    show_descendants(rt, 1431655765, 32)?;
    show_descendants(rt, 4294967295, 32)?;
    show_descendants(rt, 6148914691236517205, 32)?;
    show_descendants(rt, 13, 33)?;
    show_descendants(rt, 8589934591, 20)?;
    show_descendants(rt, 5, 33)?;
    show_descendants(rt, 0, 18446744073709551615)
}

// Children, grandchildren and great-grandchildren of source 001's example, and great-grandchildren of words with k of 3 and below.
fn great_grandchildren(rt: &impl Print) -> io::Result<()> {
    show_descendants(rt, 427392895, 23)?;
    show_descendants(rt, 427392895, 24)?;
    show_descendants(rt, 427392895, 25)?;
    show_descendants(rt, 91, 8)?;
    show_descendants(rt, 79, 8)?;
    show_descendants(rt, 463, 10)?;
    show_descendants(rt, 159, 9)?;
    show_descendants(rt, 11, 6)?;
    show_descendants(rt, 3, 5)?;
    show_descendants(rt, 1, 4)?;
    show_descendants(rt, 0, 3)
}

fn main(rt: HostRuntime) -> io::Result<()> {
    example_1_4(&rt)?;
    example_1_5(&rt)?;
    example_of_001(&rt)?;
    any_word(&rt)?;
    reported_numbers(&rt)?;
    openings(&rt)?;
    ends_of_range(&rt)?;
    windows(&rt)?;
    searches(&rt)?;
    grandchildren(&rt)?;
    children(&rt)?;
    descendants(&rt)?;
    great_grandchildren(&rt)
}
