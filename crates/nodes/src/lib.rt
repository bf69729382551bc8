// A semigroup under way, which carries its word, seed table and conductor: its child, the rows of its table, and the numbers of its grandchildren
// and great-grandchildren; and the offsets that are the bits of a number, one by one.
#![tactic(auto)]

ghost use Rattle.std.specs.Prelude.{◌≡◌, ◌-◌, ◌^◌, ◌<◌, ◌≤◌, count_ones, MatchOption};
ghost use Rattle.std.specs.Iterator.{at_most};
ghost use Rattle.semigroups.specs.Elements.{element_at};
ghost use Rattle.seeds.specs.Child.{raked};
ghost use Rattle.seeds.specs.Grandchildren.{pairs};
ghost use Rattle.seeds.specs.GreatGrandchildren.{triples};
ghost use Rattle.nodes.specs.Nodes.{node_of, child_node, first_row, second_row, row_at, RowFrom, TakenOff, lowest_offset, childless_at, next_offset};
ghost use Rattle.nodes.specs.RowCounts.{count_by_rows, grandchildren_at, great_count_by_rows};

use answers::{Element, Index, Offset};

mod subtree;

pub use subtree::Subtree;

// A semigroup under way: its word, its seed table and its conductor, which is that of source 000.
#[derive(Clone, Copy, Debug, PartialEq, Eq)]
pub struct Node {
    pub word: u64,
    pub table: u64,
    pub conductor: u64,
}

// The table with d rakings: what it has in common with the word moved up by 1, by 2, .. and by d. These are had by doubling: `moved` is the
// word moved up by 1 to `done`, all anded.
fn rake(word: u64, table: u64, d: u64) -> u64
    requires { d < 64 }
    ensures { result ≡ raked word table d }
{
    if d == 0 {
        return table;
    }
    let mut moved = word << 1;
    let mut done = 1;
    while done < d - done {
        moved = moved & (moved << done);
        done = done + done;
    }
    table & moved & (moved << (d - done))
}

// The number of pairs among n.
fn pairs_among(n: u64) -> u64
    requires { n ≤ 65 }
    ensures { result ≡ pairs n }
{
    (n * n - n) / 2
}

// The number of triples among n.
fn triples_among(n: u64) -> u64
    requires { n ≤ 65 }
    ensures { result ≡ triples n }
{
    let p = pairs_among(n);
    (p * n - p - p) / 3
}

impl Node {
    // The node of the word 0.
    pub fn root() -> Node
        ensures { result ≡ node_of 0 }
    {
        Node {
            word: 0,
            table: 1,
            conductor: 1,
        }
    }

    // The child at an offset from the conductor: the semigroup without the generator there.
    pub fn child(self, d: Offset) -> Node
        ensures { result ≡ child_node self d.0 }
    {
        let w = self.word;
        let c = self.conductor;
        if w == 0 {
            return Node {
                word: 1,
                table: 3,
                conductor: 2,
            };
        }
        if c < 2 {
            return self;
        }
        let e = Element::at_offset(c, d);
        if 63 < e.0 {
            return self;
        }
        let s = rake(w, self.table, d.0);
        Node {
            word: w | (1 << (e.0 - 1)),
            table: (s >> (d.0 + 1)) | (7 << (e.0 - 2)),
            conductor: e.0 + 1,
        }
    }

    // The row of the table that begins at an element of the word below 64: it has as many bits as the word, moved down by the element, has low
    // bits that differ from those of the next number.
    fn row_from(self, element: u64) -> u64
        requires { element < 64 }
        ensures { RowFrom self element result }
    {
        let later = self.word >> element;
        (self.table >> element) & (later ^ std::num::wrapping_add_u64(later, 1))
    }

    // Row 0 of the table: the offsets of the generators not below the conductor, as bits.
    pub fn first_row(self) -> u64
        ensures { result ≡ first_row self }
    {
        self.row_from(0)
    }

    // The number of 1s in row 0: of the generators not below the conductor.
    pub fn generators(self) -> u64
        ensures { result ≡ count_ones (first_row self) }
    {
        let row = self.first_row();
        u64::count_ones(row) as u64
    }

    // Row 1 of the table: the offsets of the order-one seeds, as bits. It begins at the multiplicity.
    pub fn second_row(self) -> u64
        ensures { result ≡ second_row self }
    {
        let m = words::multiplicity_of(self.word);
        if 63 < m {
            return 0;
        }
        self.row_from(m)
    }

    // The second positive element, that of index 2. Each number above 64 is an element.
    pub fn second_element(self) -> u64
        ensures { result ≡ element_at self.word 2 }
    {
        let m = words::multiplicity_of(self.word);
        if 63 < m {
            return m + 1;
        }
        m + words::multiplicity_of(self.word >> m)
    }

    // Row 2 of the table: the offsets of the order-two seeds, as bits. It begins at the second positive element.
    pub fn third_row(self) -> u64
        ensures { result ≡ row_at self 2 }
    {
        let a = self.second_element();
        if 63 < a {
            return 0;
        }
        self.row_from(a)
    }

    // The number of grandchildren by rows 0 and 1 alone, where k is at least 2: each two generators not below the conductor make one, and each
    // of them that is an order-one seed too makes one more.
    pub fn grandchildren_by_rows(self) -> u64
        ensures { result ≡ count_by_rows self }
    {
        let first = self.first_row();
        if first == 0 {
            return 0;
        }
        let both = first & self.second_row();
        pairs_among(self.generators()) + u64::count_ones(both) as u64
    }

    // The number of great-grandchildren by rows 0, 1 and 2 alone, where k is at least 3: each three generators not below the conductor make
    // one, each of them that is an order-one seed makes one with each other, and each of them that is an order-two seed makes one where the
    // table has a 1 as many entries on as row 1 has.
    pub fn great_grandchildren_by_rows(self) -> u64
        ensures { result ≡ great_count_by_rows self }
    {
        let first = self.first_row();
        if first == 0 {
            return 0;
        }
        let n = self.generators();
        let seeds = first & self.second_row();
        let others = triples_among(n) + u64::count_ones(seeds) as u64 * (n - 1);
        let a = self.second_element();
        if 63 < a {
            return others;
        }
        let u = a - words::multiplicity_of(self.word);
        let last = first & self.row_from(a) & (self.table >> u);
        others + u64::count_ones(last) as u64
    }

    // The number of grandchildren: the word 0 and the words with k below 2 have no row 1.
    pub fn grandchildren(self) -> u64
        ensures { result ≡ grandchildren_at self }
    {
        if self.word == 0 {
            return 2;
        }
        let k = Index::of_conductor(self.conductor, words::genus_of(self.word));
        if k.0 < 2 {
            return pairs_among(words::multiplicity_of(self.word)) + 3;
        }
        self.grandchildren_by_rows()
    }

    // Has the child at the lowest of some offsets no generators, as far as rows 0 and 1 tell it? The offsets are those of row 0 from one on. Where
    // k is at least 2, the child has none if no offset comes after its own and its own is not in row 1.
    pub fn is_childless_at(self, low: Lowest) -> bool
        ensures { result ≡ childless_at self low.at.0 low.rest }
    {
        if low.rest != 0 {
            return false;
        }
        if self.conductor <= words::multiplicity_of(self.word) {
            return false;
        }
        let at = low.at;
        if 63 < at.0 {
            return true;
        }
        self.second_row() >> at.0 & 1 != 1
    }

    // The offset of the word's first gap not below the conductor.
    pub fn next_offset(self, word: u64) -> Offset
        ensures { result.0 ≡ next_offset self.conductor word }
    {
        let c = self.conductor;
        if c == 0 {
            return Offset(0);
        }
        if 64 < c {
            return Offset(0);
        }
        let later = word >> (c - 1);
        if later == 0 {
            return Offset(0);
        }
        Offset(u64::trailing_zeros(later) as u64)
    }
}

// The lowest of some offsets, which are the bits of a number, and the others.
#[derive(Clone, Copy, Debug, PartialEq, Eq)]
pub struct Lowest {
    pub at: Offset,
    pub rest: u64,
}

// Takes the lowest of some offsets off; where there are none, it gives 64 and 0. Its callers ask for none first; `Bits` gives an `Option`.
pub fn lowest_of(bits: u64) -> Lowest
    ensures { (result.at.0 ≡ lowest_offset bits) × (result.rest ≡ bits - 2 ^ lowest_offset bits) }
{
    if bits == 0 {
        return Lowest {
            at: Offset(64),
            rest: 0,
        };
    }
    let at = u64::trailing_zeros(bits) as u64;
    Lowest {
        at: Offset(at),
        rest: bits & (bits - 1),
    }
}

// Takes the lowest of some offsets off, where there are some.
fn take_lowest(bits: u64) -> Option<Lowest>
    ensures { MatchOption result (bits ≡ 0) (λ l. TakenOff bits l.at.0 l.rest) }
{
    if bits == 0 {
        return None;
    }
    Some(lowest_of(bits))
}

// The offsets that are the bits of a number, from the lowest on: each comes with the others that are left.
#[derive(Drop)]
pub struct Bits(pub u64);

impl Iterator for Bits {
    type Item = Lowest;

    ghost next_gives = { λ s r t. MatchOption r ((s.0 ≡ 0) × (t.0 ≡ 0)) (λ l. TakenOff s.0 l.at.0 l.rest × (t.0 ≡ l.rest)) };

    ghost remaining = { λ s. at_most s.0 };

    fn next(&mut self) -> Option<Lowest> {
        let low = take_lowest(self.0)?;
        self.0 = low.rest;
        Some(low)
    }
}
