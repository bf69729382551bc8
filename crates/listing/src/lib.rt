// The listing of a genus as text in lent lists of bytes, header lines alone, and the line of a refusal.
#![tactic(auto)]

ghost use Rattle.std.specs.Prelude.{◌+◌, ◌*◌, ◌/◌, ◌≤◌, min, ◌≡◌, cond, ◌++◌, leb, length};
ghost use Rattle.semigroups.specs.Lists.{joined};
ghost use Rattle.answers.specs.Answers.{number_of, answered, listed};
ghost use Rattle.listing.specs.Decimal.{decimal};
ghost use Rattle.listing.specs.Text.{field, header, header_of, header_lines, headers_of, line_of, refusal_line_of};
ghost use Rattle.listing.specs.Writing.{pair_of, Puts};
ghost use Rattle.listing.specs.Pages.{fresh_listing_of, heading_of, lines_within, turned, page_of};

use answers::Refusal;
use walk::Walk;

// A listing under way: whether its header was written, and the walk over the semigroups whose lines were not.
#[derive(Clone, Copy, Debug, PartialEq, Eq)]
pub struct Listing {
    pub headed: bool,
    pub walk: Walk,
}

// What is told of a page: how many bytes it has, and whether it is the last. Both are told of every page.
#[derive(Clone, Copy, Debug, PartialEq, Eq)]
pub struct Page {
    pub bytes: usize,
    pub finished: bool,
}

// Writes the two digits of a number below 100, and gives the place after them. Here and below the list and the place are two parameters: what would
// hold both has to be lent to each call and asked for the place after it.
#[tactic(auto, unfolding(crate::specs::Writing::pair_of))]
fn put_pair(out: &mut [u8], at: usize, n: u8) -> usize
    requires { at + 2 ≤ length out.old }
    ensures { Puts out.old at (pair_of n) out.new result }
{
    out[at] = b'0' + n / 10;
    out[at + 1] = b'0' + n % 10;
    at + 2
}

// Writes a number in decimal from the place `at` on, two digits at a time, and gives the place after it.
fn put_number(out: &mut [u8], at: usize, n: u64) -> usize
    requires { at + length (decimal n) ≤ length out.old }
    ensures { Puts out.old at (decimal n) out.new result }
{
    if n < 10 {
        out[at] = b'0' + n as u8;
        return at + 1;
    }
    if n < 100 {
        return put_pair(out, at, n as u8);
    }
    let next = put_number(out, at, n / 100);
    put_pair(out, next, (n % 100) as u8)
}

// Writes a number in decimal and the byte that ends it.
#[tactic(auto, using(crate::proofs::Lines::length_field))]
fn put_field(out: &mut [u8], at: usize, n: u64, end: u8) -> usize
    requires { at + length (field n end) ≤ length out.old }
    ensures { Puts out.old at (field n end) out.new result }
{
    let next = put_number(out, at, n);
    out[next] = end;
    next + 1
}

// Writes bytes.
#[tactic(auto, using(crate::proofs::Writing::puts_part))]
fn put_bytes(out: &mut [u8], at: usize, bytes: &[u8]) -> usize
    requires { at + length bytes.now ≤ length out.old }
    ensures { Puts out.old at bytes.now out.new result }
{
    let end = at + bytes.len();
    out[at..end].copy_from_slice(bytes);
    end
}

// Writes the line of a semigroup.
fn put_line(out: &mut [u8], at: usize, word: u64) -> usize
    requires { at + 27 ≤ length out.old }
    ensures { Puts out.old at (line_of word) out.new result }
{
    let told = words::tell(word);
    let first = put_field(out, at, word, b' ');
    let second = put_field(out, first, told.conductor, b' ');
    put_field(out, second, told.multiplicity, b'\n')
}

// Writes the lines of semigroups.
fn put_lines(out: &mut [u8], at: usize, words: &[u64]) -> usize
    requires { at + length words.now * 27 ≤ length out.old }
    ensures { Puts out.old at (joined line_of words.now) out.new result }
{
    let mut next = at;
    for &word in words {
        next = put_line(out, next, word);
    }
    next
}

// Writes the line of a refusal to the front of a list of at least 11 places, and gives its length.
pub fn refusal_line(refusal: Refusal, out: &mut [u8]) -> Result<u64, Refusal>
    ensures { (answered result, out.new) ≡ refusal_line_of (number_of refusal) out.old }
{
    if out.len() < 11 {
        return Err(Refusal::ListTooShort);
    }
    let next = put_bytes(out, 0, b"refused ");
    let end = put_field(out, next, refusal.number(), b'\n');
    Ok(end as u64)
}

// A listing of a genus, of which nothing was written: refused above genus 32.
#[tactic(auto, using(answers::proofs::Answers::handed_on, crate::proofs::Pages::fresh_listing))]
pub fn fresh(genus: u64) -> Result<Listing, Refusal>
    ensures { answered result ≡ fresh_listing_of genus }
{
    let walk = walk::fresh(genus)?;
    Ok(Listing {
        headed: false,
        walk,
    })
}

// Writes a header.
fn put_header(out: &mut [u8], at: usize, genus: u64, count: u64) -> usize
    requires { (genus ≤ 32) × (at + 36 ≤ length out.old) }
    ensures { Puts out.old at (header genus count) out.new result }
{
    let first = put_bytes(out, at, b"genus ");
    let second = put_field(out, first, genus, b' ');
    let third = put_bytes(out, second, b"count ");
    put_field(out, third, count, b'\n')
}

// Writes the header of a genus: up to genus 32 the count is given.
#[tactic(auto, using(crate::proofs::HeaderLines::count_given, crate::proofs::HeaderLines::count_not_refused, crate::proofs::Writing::puts_as))]
fn put_header_of(out: &mut [u8], at: usize, genus: u64) -> usize
    requires { (genus ≤ 32) × (at + 36 ≤ length out.old) }
    ensures { Puts out.old at (header_of genus) out.new result }
{
    match counts::count(0, genus) {
        Ok(count) => put_header(out, at, genus, count),
        Err(_) => at,
    }
}

// Writes the header of a genus to the front of a list, unless it was written, and gives the place after it.
#[tactic(auto, using(crate::proofs::Writing::puts_nothing), unfolding(crate::specs::Pages::heading_of))]
fn put_heading(out: &mut [u8], headed: bool, genus: u64) -> usize
    requires { (genus ≤ 32) × (36 ≤ length out.old) }
    ensures { Puts out.old 0 (heading_of headed genus) out.new result }
{
    if headed {
        return 0;
    }
    put_header_of(out, 0, genus)
}

// Writes the header lines of genus 0 to 20 to the front of a list.
fn put_headers(out: &mut [u8]) -> usize
    requires { 1024 ≤ length out.old }
    ensures { Puts out.old 0 header_lines out.new result }
{
    let mut next = 0;
    for genus in 0..21 {
        next = put_header_of(out, next, genus);
    }
    next
}

// Writes the header lines of genus 0 to 20 to the front of a list, and gives their length. Refused in a list that does not hold all of them:
// then nothing is written, so that they are made in a list of their own first.
pub fn headers(out: &mut [u8]) -> Result<u64, Refusal>
    ensures { listed result out.new ≡ headers_of out.old }
{
    let mut lines = [0; 1024];
    let end = put_headers(&mut lines);
    if out.len() < end {
        return Err(Refusal::ListTooShort);
    }
    put_bytes(out, 0, &lines[..end]);
    Ok(end as u64)
}

// Writes the text of a page to the front of a list: the header, unless it was written, and the lines of the words.
fn put_page(out: &mut [u8], headed: bool, genus: u64, words: &[u64]) -> usize
    requires genus_bound { (genus ≤ 32) × (36 ≤ length out.old) }
    requires words_in_bounds { length (heading_of headed genus) + length words.now * 27 ≤ length out.old }
    ensures { Puts out.old 0 (heading_of headed genus ++ joined line_of words.now) out.new result }
{
    let at = put_heading(out, headed, genus);
    put_lines(out, at, words)
}

// How many lines surely fit in that many places, at most 4,096.
fn lines_in(room: usize) -> usize
    ensures { result ≡ min 4096 (room / 27) }
{
    (room / 27).min(4096)
}

// How many lines a page has in a list of that many places: none in fewer than 64.
#[tactic(auto, unfolding(crate::specs::Pages::lines_within))]
fn lines_within(headed: bool, places: usize) -> usize
    ensures { result ≡ cond (leb 64 places) (lines_within headed places) 0 }
{
    if places < 64 {
        return 0;
    }
    if headed {
        return lines_in(places);
    }
    lines_in(places - 36)
}

// The next page, with a list of 4,096 words for those whose lines it writes. The walk is moved in a copy, so that a list too short leaves the
// listing as it was.
fn page_by(listing: &mut Listing, words: &mut [u64], out: &mut [u8]) -> Result<Page, Refusal>
    requires { length words.old ≡ 4096 }
    ensures { turned result listing.new out.new ≡ page_of listing.old out.old }
{
    let Listing { headed, mut walk } = *listing;
    let genus = walk.genus;
    let most = lines_within(headed, out.len());
    let written = walk::batch(&mut walk, &mut words[..most])?;
    if out.len() < 64 {
        return Err(Refusal::ListTooShort);
    }
    let bytes = put_page(out, headed, genus, &words[..written.count]);
    *listing = Listing { headed: true, walk };
    Ok(Page {
        bytes,
        finished: written.finished,
    })
}

// Writes the next page of a listing to the front of a list: the header, if it was not written, and as many lines as surely fit. Refused
// where the walk is, and in a list of fewer than 64 places: then nothing is written, and the listing is as it was.
pub fn next_page(listing: &mut Listing, out: &mut [u8]) -> Result<Page, Refusal>
    ensures { turned result listing.new out.new ≡ page_of listing.old out.old }
{
    let mut words = [0; 4096];
    page_by(listing, &mut words, out)
}
