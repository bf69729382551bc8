// Prints the totals of genus 0 to 32, by the count call and by a walk in batches of an odd size; those of the windows of one multiplicity
// of genus 20; and compares a plain search of all gap sets up to genus 12 with a walk, word by word. What it prints is held to the stored
// file: the totals are those published in A007323, those by multiplicity were computed apart from the plain definitions.
#![tactic(auto)]

use answers::Refusal;
use console::{write_answer, write_refused};
use std::io;
use walk::Walk;
use windows::Window;

// ---- totals

// The number of words that a walk writes in batches into the lent list, at most `most` batches.
fn walked_into(mut walk: Walk, most: u64, list: &mut [u64]) -> Result<u64, Refusal> {
    let mut total: u64 = 0;
    for _ in 0..most {
        let written = walk::batch(&mut walk, list)?;
        total = total.wrapping_add(written.count as u64);
        if written.finished {
            break;
        }
    }
    Ok(total)
}

// The same of a walk that a fresh call gave, with lists of a size, at most 4,095.
fn walked(begun: Result<Walk, Refusal>, most: u64, size: usize) -> Result<u64, Refusal> {
    let mut list = [0; 4095];
    walked_into(begun?, most, &mut list[..size.min(4095)])
}

// An odd size of lists for a genus.
fn odd_size(genus: u64) -> usize {
    (genus % 33) as usize * 124 + 3
}

// The total of a genus by the count call, and by a walk of at most as many batches.
fn show_total(rt: &impl Print, genus: u64) -> io::Result<()> {
    print!(rt; "genus {genus}: count")?;
    let count = counts::count(0, genus);
    write_answer(&mut io::writer(rt), count)?;
    print!(rt; " walked")?;
    let walked = walked(walk::fresh(genus), count.unwrap_or(0), odd_size(genus));
    write_answer(&mut io::writer(rt), walked)?;
    println!(rt;)
}

fn totals(rt: &impl Print) -> io::Result<()> {
    for genus in 0..33 {
        show_total(rt, genus)?;
    }
    Ok(())
}

// Genus 20 by its windows of one multiplicity, from 0 to 22.
fn windows(rt: &impl Print) -> io::Result<()> {
    for m in 0..23 {
        let window = Window {
            lowest: m,
            highest: m,
        };
        print!(rt; "genus 20 multiplicity {m}: walked")?;
        write_answer(
            &mut io::writer(rt),
            walked(walk::fresh_in(20, window), 50000, 7),
        )?;
        println!(rt;)?;
    }
    Ok(())
}

// ---- a plain search of gap sets, compared word by word with a walk

// A search under way: the walk that it is compared with, the closed gap sets found, and the places where the two differ.
#[derive(Drop)]
struct Progress {
    walk: Walk,
    found: u64,
    different: u64,
}

fn is_gap(word: u64, x: u64) -> bool {
    0 < x && x <= 64 && word >> (x - 1) & 1 == 1
}

// Is x a sum of two positive elements, by trying them all?
fn sum_of_two(word: u64, x: u64) -> bool {
    (1..x).any(|a| !is_gap(word, a) && !is_gap(word, x - a))
}

// Is no gap up to `top` a sum of two positive elements?
fn closed_up_to(word: u64, top: u64) -> bool {
    (1..65).all(|x| top < x || !is_gap(word, x) || !sum_of_two(word, x))
}

// A gap set that the search made: where it is closed, the walk must give it next.
fn compare(word: u64, top: u64, progress: &mut Progress) {
    if !closed_up_to(word, top) {
        return;
    }
    progress.found = progress.found.wrapping_add(1);
    let mut list = [0; 1];
    let moved = walk::batch(&mut progress.walk, &mut list);
    if moved.is_err() || list[0] != word {
        progress.different = progress.different.wrapping_add(1);
    }
}

// All gap sets with `left` gaps more, from x + 1 to `top`, in list order.
fn search(word: u64, left: u64, x: u64, top: u64, progress: &mut Progress) {
    if left == 0 {
        compare(word, top, progress);
    } else if x < 64 && x < top {
        search(word | 1 << x, left - 1, x + 1, top, progress);
        search(word, left, x + 1, top, progress);
    }
}

// The search of a genus, compared with a walk.
fn search_of(rt: &impl Print, genus: u8, walk: Walk) -> io::Result<()> {
    let mut progress = Progress {
        walk,
        found: 0,
        different: 0,
    };
    let gaps = u64::from(genus);
    search(0, gaps, 0, 2 * gaps, &mut progress);
    print!(rt; " {} found, {} differ", progress.found, progress.different)?;
    if !progress.walk.finished {
        print!(rt; ", unfinished")?;
    }
    Ok(())
}

fn searches(rt: &impl Print) -> io::Result<()> {
    for genus in 0..13 {
        print!(rt; "search of genus {genus}:")?;
        match walk::fresh(u64::from(genus)) {
            Ok(walk) => search_of(rt, genus, walk)?,
            Err(refusal) => write_refused(&mut io::writer(rt), refusal)?,
        }
        println!(rt;)?;
    }
    Ok(())
}

fn main(rt: HostRuntime) -> io::Result<()> {
    totals(&rt)?;
    windows(&rt)?;
    searches(&rt)
}
