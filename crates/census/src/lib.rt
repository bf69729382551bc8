// The census of a genus: how many semigroups it has of each multiplicity and reported conductor, at the places of a lent list, and the sum of
// these conductors. It goes down the tree once, to the nodes three levels above the genus: their rows 0, 1 and 2 tell the places of the words
// below them. Only where k, the number of elements below the conductor, is 1 or 2, which holds for few nodes of each genus, are the nodes below
// made.
#![tactic(auto)]

ghost use Rattle.std.specs.Prelude.{◌+◌, ◌^◌, ◌≤◌, ◌<◌, ◌≡◌, map, length};
ghost use Rattle.semigroups.specs.Lists.{fronted};
ghost use Rattle.semigroups.specs.Words.{conductor};
ghost use Rattle.semigroups.specs.Elements.{element_at, multiplicity};
ghost use Rattle.semigroups.specs.Positions.{positions};
ghost use Rattle.semigroups.specs.Tree.{leaves};
ghost use Rattle.answers.specs.Answers.{listed};
ghost use Rattle.nodes.specs.NewGaps.{TwoRows};
ghost use Rattle.census.specs.Census.{census_of};
ghost use Rattle.census.specs.Private.{census_place, blank, one_more_at, tallied, ArePlaces, RoomFor, conductors_in};

use answers::Refusal;
use nodes::{Bits, Subtree};

// Sets the 2,210 places to 0.
fn clear_places(out: &mut [u64])
    requires { 2210 ≤ length out.old }
    ensures { out.new ≡ fronted (blank 2210) out.old }
{
    out[..2210].fill(0);
}

// The place of a word: 65 times its multiplicity and its reported conductor.
#[tactic(auto, using(semigroups::proofs::Operations::conductor_le, semigroups::proofs::Operations::multiplicity_le, semigroups::proofs::Reported::reported_le), unfolding(words::specs::Looks::report_of, crate::specs::Private::census_place))]
fn place_of(word: u64) -> u64
    ensures { result ≡ census_place word }
{
    let report = words::tell(word);
    let m = report.multiplicity;
    let c = report.conductor;
    65 * m + c
}

// Adds one at a place. The number in `RoomFor` is another in each function here, so that it is no fact of the list alone.
#[tactic(auto, unfolding(crate::specs::Private::one_more_at))]
fn add_one(place: u64, out: &mut [u64])
    requires { (place < 2210) × RoomFor 1 out.old }
    ensures { out.new ≡ one_more_at place out.old }
{
    out[place as usize] += 1;
}

// Adds one at the place `first` and a position, for each of the positions that are the bits of a number.
fn tally_bits(first: u64, bits: u64, out: &mut [u64])
    requires are_places { ArePlaces first bits }
    requires room_for { RoomFor (length (positions bits)) out.old }
    ensures { out.new ≡ tallied (map (λ i. first + i) (positions bits)) out.old }
{
    for low in Bits(bits) {
        add_one(first + low.at.0, out);
    }
}

// Counts the words two levels below a word that has these generators not below its conductor, of which `seeds` tells the order-one seeds: they
// have its multiplicity, and their conductors are two more than the bits of their last gaps.
fn tally_by_rows(word: u64, generators: u64, seeds: u64, out: &mut [u64])
    requires two_rows { TwoRows word (multiplicity word) generators seeds }
    requires room_for { RoomFor (length (leaves 2 word)) out.old }
    ensures { out.new ≡ tallied (map census_place (leaves 2 word)) out.old }
{
    let m = words::multiplicity_of(word);
    let first = 65 * m + 2;
    for low in Bits(generators) {
        let e = 1 << low.at.0;
        tally_bits(first, low.rest | (seeds & e) << m, out);
    }
}

// Counts the words two levels below a node whose conductor is above its multiplicity, from rows 0 and 1 alone.
fn tally_grandchildren(tree: Subtree, out: &mut [u64])
    requires left { tree.left ≡ 2 }
    requires word_bound { multiplicity tree.node.word < conductor tree.node.word }
    requires room_for { RoomFor (length (leaves 2 tree.node.word)) out.old }
    ensures { out.new ≡ tallied (map census_place (leaves 2 tree.node.word)) out.old }
{
    let n = tree.node;
    let up = n.conductor - 1;
    tally_by_rows(n.word, n.first_row() << up, n.second_row() << up, out);
}

// Counts the words three levels below a node whose conductor is above its second positive element, from rows 0, 1 and 2 alone: rows 0 and 1 of
// each child tell the words below it.
fn tally_great_grandchildren(tree: Subtree, out: &mut [u64])
    requires left { tree.left ≡ 3 }
    requires word_bound { element_at tree.node.word 2 < conductor tree.node.word }
    requires room_for { RoomFor (length (leaves 3 tree.node.word)) out.old }
    ensures { out.new ≡ tallied (map census_place (leaves 3 tree.node.word)) out.old }
{
    let n = tree.node;
    let w = n.word;
    let up = n.conductor - 1;
    let m = words::multiplicity_of(w);
    let u = n.second_element() - m;
    let generators = n.first_row() << up;
    let seeds = n.second_row() << up;
    let last = n.third_row() << up;
    for low in Bits(generators) {
        let e = 1 << low.at.0;
        tally_by_rows(
            w + e,
            low.rest | (seeds & e) << m,
            seeds | (last & e) << u,
            out,
        );
    }
}

// Counts the words at the end of a part of the tree, each at its place.
fn tally(tree: Subtree, out: &mut [u64])
    requires room_for { RoomFor (length (leaves tree.left tree.node.word)) out.old }
    ensures { out.new ≡ tallied (map census_place (leaves tree.left tree.node.word)) out.old }
{
    let n = tree.node;
    match tree.left {
        0 => add_one(place_of(n.word), out),
        2 if words::multiplicity_of(n.word) < n.conductor => tally_grandchildren(tree, out),
        3 if n.second_element() < n.conductor => tally_great_grandchildren(tree, out),
        _ => {
            for low in Bits(n.first_row()) {
                let child = Subtree {
                    node: n.child(low.at),
                    left: tree.left - 1,
                };
                tally(child, out);
            }
        }
    }
}

// The sum over the places: the number at each, times its conductor.
fn sum_of_conductors(out: &[u64]) -> u64
    requires { (2210 ≤ length out.now) × (conductors_in out.now < 2 ^ 64) }
    ensures { result ≡ conductors_in out.now }
{
    let mut sum: u64 = 0;
    for (p, number) in out[..2210].iter().enumerate() {
        let conductor = p as u64 % 65;
        sum += conductor * number;
    }
    sum
}

// The census of a genus: place 65 m + c of the lent list gets the number of semigroups with multiplicity m and reported conductor c, for m
// from 0 to 33 and c from 0 to 64, and the sum of all conductors is given. Refused above genus 32 and with fewer than 2,210 places: then
// nothing is written.
#[tactic(auto, using(crate::proofs::Theorems::refused_genus, crate::proofs::Theorems::refused_list))]
pub fn census(genus: u64, out: &mut [u64]) -> Result<u64, Refusal>
    ensures { listed result out.new ≡ census_of genus out.old }
{
    if 32 < genus {
        return Err(Refusal::GenusTooLarge);
    }
    if out.len() < 2210 {
        return Err(Refusal::ListTooShort);
    }
    clear_places(out);
    tally(Subtree::of_genus(genus), out);
    Ok(sum_of_conductors(out))
}
