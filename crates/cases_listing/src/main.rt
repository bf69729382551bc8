// Runs further cases of the listing: what the listing program writes for its input, which is empty here; header lines in lists that are too
// short for them and in others; and what the program writes for other inputs. What it prints is held to the stored file, which was computed
// apart from the plain definitions.
#![tactic(auto)]

use console::write_answer;
use listing::Listing;
use requests::Request;
use std::io;

// The first bytes of a list, as many as a call tells, at most all.
fn write_front(rt: &impl Print, list: &[u8], length: usize) -> io::Result<()> {
    rt.write_all(&list[..length.min(list.len())])
}

// The first page of a listing, in a list of 200 places: the header, and at most six lines.
fn show_page(rt: &impl Print, mut listing: Listing) -> io::Result<()> {
    let mut out = [0; 200];
    match listing::next_page(&mut listing, &mut out) {
        Ok(page) => write_front(rt, &out, page.bytes),
        Err(refusal) => console::write_refusal_line(&mut io::writer(rt), refusal),
    }
}

// The first page of the listing of a genus.
fn show_listing(rt: &impl Print, genus: u64) -> io::Result<()> {
    match listing::fresh(genus) {
        Ok(listing) => show_page(rt, listing),
        Err(refusal) => console::write_refusal_line(&mut io::writer(rt), refusal),
    }
}

// The header lines of genus 0 to 20.
fn show_header_lines(rt: &impl Print) -> io::Result<()> {
    let mut out = [0; 1024];
    match listing::headers(&mut out) {
        Ok(length) => write_front(rt, &out, length as usize),
        Err(refusal) => console::write_refusal_line(&mut io::writer(rt), refusal),
    }
}

// What the program writes for an input, of a listing the first page.
fn show_text(rt: &impl Print, input: &[u8]) -> io::Result<()> {
    match requests::read(input) {
        Ok(Request::Headers) => show_header_lines(rt),
        Ok(Request::Listing(genus)) => show_listing(rt, genus),
        Err(refusal) => console::write_refusal_line(&mut io::writer(rt), refusal),
    }
}

// What the program writes for standard input.
fn show_input(rt: &(impl Print + Input)) -> io::Result<()> {
    let mut input = [0; 4];
    let n = console::read_front(&mut rt.reader(), &mut input)?;
    show_text(rt, &input[..n])
}

// The first and the last place of a list, if it has places.
fn write_ends(rt: &impl Print, list: &[u8]) -> io::Result<()> {
    if let (Some(first), Some(last)) = (list.first(), list.last()) {
        print!(rt; " {first} {last}")?;
    }
    Ok(())
}

// How many places are lent to the call for header lines, its answer, and the first and the last place afterwards.
fn show_headers(rt: &impl Print, out: &mut [u8]) -> io::Result<()> {
    let answer = listing::headers(out);
    let places = out.len();
    print!(rt; "headers in {places}:")?;
    write_answer(&mut io::writer(rt), answer)?;
    print!(rt; ":")?;
    write_ends(rt, out)?;
    println!(rt;)
}

// In lists of 7s.
fn headers(rt: &impl Print) -> io::Result<()> {
    show_headers(rt, &mut [7u8; 1])?;
    show_headers(rt, &mut [7u8; 385])?;
    show_headers(rt, &mut [7u8; 386])?;
    show_headers(rt, &mut [7u8; 400])
}

// What the program writes for an input, which a line tells before it.
fn show(rt: &impl Print, input_told: &str, input: &[u8]) -> io::Result<()> {
    println!(rt; "{input_told}:")?;
    show_text(rt, input)
}

fn listings(rt: &impl Print) -> io::Result<()> {
    show(rt, "3 and a line feed", b"3\n")?;
    show(rt, "03 and a line feed", b"03\n")?;
    show(rt, "00 and a line feed", b"00\n")?;
    show(rt, "32 and a line feed", b"32\n")
}

fn refused_inputs(rt: &impl Print) -> io::Result<()> {
    show(rt, "33 and a line feed", b"33\n")?;
    show(rt, "a line feed", b"\n")?;
    show(rt, "two line feeds", b"\n\n")?;
    show(rt, "3", b"3")?;
    show(rt, "003 and a line feed", b"003\n")?;
    show(rt, "3 and two line feeds", b"3\n\n")?;
    show(rt, "3, a blank and a line feed", b"3 \n")?;
    show(rt, "-1 and a line feed", b"-1\n")?;
    show(rt, "a and a line feed", b"a\n")?;
    show(rt, "3, a carriage return and a line feed", b"3\r\n")
}

fn main(rt: HostRuntime) -> io::Result<()> {
    show_input(&rt)?;
    headers(&rt)?;
    listings(&rt)?;
    refused_inputs(&rt)
}
