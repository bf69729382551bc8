// The listing program: reads a genus from standard input and writes its listing; the header lines of genus 0 to 20 where the input is empty;
// or the line of a refusal. Where it can't read or write, it ends with the error.
#![tactic(auto)]

use listing::Listing;
use requests::Request;
use std::io;

// Writes the header lines of genus 0 to 20.
fn write_headers(rt: &impl Print) -> io::Result<()> {
    let mut lines = [0; 756];
    match listing::headers(&mut lines) {
        Ok(length) => rt.write_all(&lines[..length as usize]),
        Err(refusal) => console::write_refusal_line(&mut io::writer(rt), refusal),
    }
}

// Writes the pages of a listing, until one is the last.
fn write_pages(rt: &impl Print, mut listing: Listing) -> io::Result<()> {
    let mut out = [0; 65536];
    loop {
        match listing::next_page(&mut listing, &mut out) {
            Ok(page) => {
                rt.write_all(&out[..page.bytes])?;
                if page.finished {
                    return Ok(());
                }
            }
            Err(refusal) => return console::write_refusal_line(&mut io::writer(rt), refusal),
        }
    }
}

// Writes the listing of a genus.
fn write_listing(rt: &impl Print, genus: u64) -> io::Result<()> {
    match listing::fresh(genus) {
        Ok(listing) => write_pages(rt, listing),
        Err(refusal) => console::write_refusal_line(&mut io::writer(rt), refusal),
    }
}

fn main(rt: HostRuntime) -> io::Result<()> {
    let mut input = [0; 4];
    let n = console::read_front(&mut rt.reader(), &mut input)?;
    match requests::read(&input[..n]) {
        Ok(Request::Headers) => write_headers(&rt),
        Ok(Request::Listing(genus)) => write_listing(&rt, genus),
        Err(refusal) => console::write_refusal_line(&mut io::writer(&rt), refusal),
    }
}
