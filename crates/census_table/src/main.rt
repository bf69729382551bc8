// The census program: reads a genus from standard input and writes a table of the numbers of its semigroups, with a line for each
// multiplicity and a column for each conductor that occurs, or the line of a refusal, 10 for an empty input, too. Where it can't read or
// write, it ends with the error.
#![tactic(auto)]

use answers::Refusal;
use requests::Request;
use std::io;

// The multiplicities and the conductors of a census go from 0 up to these, which are not reached.
const MULTIPLICITIES: usize = 34;

const CONDUCTORS: usize = 65;

const PLACES: usize = MULTIPLICITIES * CONDUCTORS;

// The numbers of the semigroups of a genus as the census call writes them: at place 65 m + c that of multiplicity m and conductor c.
#[derive(Drop)]
struct Table {
    places: [u64; PLACES],
}

impl Table {
    // The number of semigroups with a multiplicity and a conductor: 0 where the table has no place for them.
    fn number_at(&self, multiplicity: usize, conductor: usize) -> u64 {
        if MULTIPLICITIES <= multiplicity || CONDUCTORS <= conductor {
            return 0;
        }
        self.places[CONDUCTORS * multiplicity + conductor]
    }

    // The number of all semigroups.
    fn total(&self) -> u64 {
        self.places.iter().fold(0u64, |sum, &n| sum.wrapping_add(n))
    }

    // Is there a semigroup with a multiplicity?
    fn occurs(&self, multiplicity: usize) -> bool {
        (0..CONDUCTORS).any(|conductor| self.number_at(multiplicity, conductor) != 0)
    }

    // The largest number in the column of a conductor.
    fn largest(&self, conductor: usize) -> u64 {
        (0..MULTIPLICITIES)
            .map(|multiplicity| self.number_at(multiplicity, conductor))
            .max()
            .unwrap_or(0)
    }

    // The width of the column of a conductor, the number of digits of the largest number in it, its head included: none where there is no
    // semigroup with the conductor.
    fn column_width(&self, conductor: usize) -> Option<usize> {
        match self.largest(conductor) {
            0 => None,
            largest => Some(digits(largest.max(conductor as u64))),
        }
    }
}

// The number of digits of a number.
fn digits(n: u64) -> usize {
    match n.checked_ilog10() {
        Some(exponent) => exponent as usize + 1,
        None => 1,
    }
}

// Writes a number of semigroups after two blanks, right-aligned in the width of its column: `.` for none.
fn write_cell(rt: &impl Print, width: usize, n: u64) -> io::Result<()> {
    if n == 0 {
        return print!(rt; "  {:>width$}", ".");
    }
    print!(rt; "  {n:>width$}")
}

// Writes the line of the heads: the conductors that occur.
fn write_heads(rt: &impl Print, table: &Table) -> io::Result<()> {
    print!(rt; "m\\c")?;
    for conductor in 0..CONDUCTORS {
        if let Some(width) = table.column_width(conductor) {
            print!(rt; "  {conductor:>width$}")?;
        }
    }
    println!(rt;)
}

// Writes the line of a multiplicity.
fn write_line(rt: &impl Print, table: &Table, multiplicity: usize) -> io::Result<()> {
    print!(rt; "{multiplicity:>3}")?;
    for conductor in 0..CONDUCTORS {
        if let Some(width) = table.column_width(conductor) {
            write_cell(rt, width, table.number_at(multiplicity, conductor))?;
        }
    }
    println!(rt;)
}

// Writes the lines of the multiplicities that occur.
fn write_lines(rt: &impl Print, table: &Table) -> io::Result<()> {
    for multiplicity in 0..MULTIPLICITIES {
        if table.occurs(multiplicity) {
            write_line(rt, table, multiplicity)?;
        }
    }
    Ok(())
}

// Writes the number of semigroups of a genus, the table, and the mean conductor: the sum of the conductors over that number.
fn write_table(rt: &impl Print, genus: u64, table: &Table, sum: u64) -> io::Result<()> {
    let total = table.total();
    println!(rt; "genus {genus} count {total}")?;
    write_heads(rt, table)?;
    write_lines(rt, table)?;
    println!(rt; "mean conductor {sum}/{total}")
}

// Writes the census of a genus.
fn write_census(rt: &impl Print, genus: u64) -> io::Result<()> {
    let mut table = Table {
        places: [0; PLACES],
    };
    match census::census(genus, &mut table.places) {
        Ok(sum) => write_table(rt, genus, &table, sum),
        Err(refusal) => console::write_refusal_line(&mut io::writer(rt), refusal),
    }
}

fn main(rt: HostRuntime) -> io::Result<()> {
    let mut input = [0; 4];
    let n = console::read_front(&mut rt.reader(), &mut input)?;
    match requests::read(&input[..n]) {
        Ok(Request::Headers) => console::write_refusal_line(
            &mut io::writer(&rt),
            Refusal::MalformedInput,
        ),
        Ok(Request::Listing(genus)) => write_census(&rt, genus),
        Err(refusal) => console::write_refusal_line(&mut io::writer(&rt), refusal),
    }
}
