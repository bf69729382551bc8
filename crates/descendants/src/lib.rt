// The words below a word in the tree: of a genus the first of its descendants, and the words of a window from one on, written into a lent list.
#![tactic(auto)]

ghost use Rattle.std.specs.Prelude.{◌+◌, ◌≤◌, ◌<◌, ◌≡◌, Ok};
ghost use mathlib.Core.List.{head?, Memᴰ};
ghost use Rattle.semigroups.specs.Lists.{on_from};
ghost use Rattle.semigroups.specs.Words.{conductor};
ghost use Rattle.semigroups.specs.Elements.{element_at, multiplicity};
ghost use Rattle.semigroups.specs.Positions.{above};
ghost use Rattle.semigroups.specs.Tree.{leaves};
ghost use Rattle.answers.specs.Answers.{answered, sought, sought_answered};
ghost use Rattle.nodes.specs.Nodes.{first_row};
ghost use Rattle.nodes.specs.Levels.{NodeWithLevels};
ghost use Rattle.nodes.specs.Branches.{branches, Offsets};
ghost use Rattle.nodes.specs.NewGaps.{TwoRows, Upper};
ghost use Rattle.lending.specs.Lending.{put_all};
ghost use Rattle.descendants.specs.Descendants.{first_descendant_of, write_from_of};
ghost use Rattle.descendants.specs.Cut.{from_multiplicity};

use answers::{Offset, Refusal};
use lending::NoRoom;
use nodes::{Bits, Node, Subtree};
use windows::Window;

// Those of a row's offsets that come after one.
fn later(row: u64, offset: Offset) -> u64
    requires { offset.0 < 63 }
    ensures { result ≡ above row offset.0 }
{
    let passed = offset.0 + 1;
    (row >> passed) << passed
}

// Writes the children of a node at the offsets that are the bits of `row`.
fn put_children(n: Node, row: u64, at: usize, out: &mut [u64]) -> Result<usize, NoRoom>
    requires node_with_levels { NodeWithLevels 1 n }
    requires offsets { Offsets n.word row }
    ensures { (out.new, result) ≡ put_all (branches 0 n.word row) (out.old, Ok at) }
{
    lending::put_bits(n.word, row << (n.conductor - 1), at, out)
}

// Writes the words two levels below a word of multiplicity m that has these generators not below its conductor; `seeds` tells which of them are
// order-one seeds. As in a word, bit i is the number i + 1. For each generator e, in order, these are the word without e and without a later
// generator, and last, where e is a seed, that without e and e + m.
fn put_by_rows(
    word: u64,
    generators: u64,
    seeds: u64,
    m: u64,
    from: usize,
    out: &mut [u64],
) -> Result<usize, NoRoom>
    requires two_rows { TwoRows word m generators seeds }
    ensures { (out.new, result) ≡ put_all (leaves 2 word) (out.old, Ok from) }
{
    let mut at = from;
    for low in Bits(generators) {
        let e = 1 << low.at.0;
        at = lending::put_bits(word + e, low.rest | (seeds & e) << m, at, out)?;
    }
    Ok(at)
}

// Writes the words two levels below a node whose conductor is above its multiplicity, from rows 0 and 1 alone.
fn put_grandchildren(n: Node, at: usize, out: &mut [u64]) -> Result<usize, NoRoom>
    requires node_with_levels { NodeWithLevels 2 n }
    requires word_bound { multiplicity n.word < conductor n.word }
    ensures { (out.new, result) ≡ put_all (leaves 2 n.word) (out.old, Ok at) }
{
    let up = n.conductor - 1;
    let m = words::multiplicity_of(n.word);
    put_by_rows(
        n.word,
        n.first_row() << up,
        n.second_row() << up,
        m,
        at,
        out,
    )
}

// Writes the words three levels below a node whose conductor is above its second positive element, from rows 0, 1 and 2 alone: for each
// generator e, in order, those two levels below the word without e. Its generators are the later ones and, where e is an order-one seed, e + m;
// its order-one seeds are the later ones and, where e is an order-two seed, e + u, with u the length of row 1.
fn put_great_grandchildren(n: Node, from: usize, out: &mut [u64]) -> Result<usize, NoRoom>
    requires node_with_levels { NodeWithLevels 3 n }
    requires word_bound { element_at n.word 2 < conductor n.word }
    ensures { (out.new, result) ≡ put_all (leaves 3 n.word) (out.old, Ok from) }
{
    let w = n.word;
    let up = n.conductor - 1;
    let m = words::multiplicity_of(w);
    let u = n.second_element() - m;
    let seeds = n.second_row() << up;
    let last = n.third_row() << up;
    let generators = n.first_row() << up;
    let mut at = from;
    for low in Bits(generators) {
        let e = 1 << low.at.0;
        at = put_by_rows(
            w + e,
            low.rest | (seeds & e) << m,
            seeds | (last & e) << u,
            m,
            at,
            out,
        )?;
    }
    Ok(at)
}

// Writes the words at the end of a part of the tree, one level or more below its node; without generators there are none.
#[cycle(emit_emit_from)]
fn emit(tree: Subtree, at: usize, out: &mut [u64]) -> Result<usize, NoRoom>
    requires le_left { 1 ≤ tree.left }
    ensures { (out.new, result) ≡ put_all (leaves tree.left tree.node.word) (out.old, Ok at) }
{
    let n = tree.node;
    let row = n.first_row();
    if row == 0 {
        return Ok(at);
    }
    match tree.left {
        2 if words::multiplicity_of(n.word) < n.conductor => put_grandchildren(n, at, out),
        3 if n.second_element() < n.conductor => put_great_grandchildren(n, at, out),
        _ => emit_from(n, row, tree.left - 1, at, out),
    }
}

// Writes those `left` levels below the children of a node whose offsets are the bits of `row`, those of row 0 from one on. A child without
// generators is not made.
// The node and the levels are no `Subtree` here: with one the walk takes 1.015 of the instructions, and of the time 1.013 where both are placed best.
// By `for low in Bits(row)` the walk of genus 32 takes 1.08 of the time (docs/DECISIONS.md, Speed).
#[cycle(emit_emit_from)]
fn emit_from(n: Node, row: u64, left: u64, from: usize, out: &mut [u64]) -> Result<usize, NoRoom>
    requires node_with_levels { NodeWithLevels (left + 1) n }
    requires upper { Upper (first_row n) row }
    ensures { (out.new, result) ≡ put_all (branches left n.word row) (out.old, Ok from) }
{
    if left == 0 {
        return put_children(n, row, from, out);
    }
    let mut rest = row;
    let mut at = from;
    while rest != 0 {
        let low = nodes::lowest_of(rest);
        if !n.is_childless_at(low) {
            let child = Subtree {
                node: n.child(low.at),
                left,
            };
            at = emit(child, at, out)?;
        }
        rest = low.rest;
    }
    Ok(at)
}

// Writes the words at the end of a part of the tree from `word` on, which is one of them, that have at least the lowest multiplicity: first
// those below the child that has it. All later ones have the multiplicity of the node, so that below the lowest they are cut.
fn resume(tree: Subtree, word: u64, lowest: u8, at: usize, out: &mut [u64]) -> Result<usize, NoRoom>
    requires fact { Memᴰ word (leaves tree.left tree.node.word) }
    requires lowest_bound { lowest ≤ multiplicity word }
    ensures { (out.new, result) ≡ put_all (from_multiplicity lowest (on_from word (leaves tree.left tree.node.word))) (out.old, Ok at) }
{
    if tree.left == 0 {
        return lending::put(word, at, out);
    }
    let n = tree.node;
    let d = n.next_offset(word);
    let child = Subtree {
        node: n.child(d),
        left: tree.left - 1,
    };
    let next = resume(child, word, lowest, at, out)?;
    if words::multiplicity_of(n.word) < lowest as u64 {
        return Ok(next);
    }
    emit_from(n, later(n.first_row(), d), tree.left - 1, next, out)
}

// The first of the words at the end of a part of the tree, or that there is none: the one that finds no room in a list without places.
fn first_leaf(tree: Subtree) -> Option<u64>
    ensures { sought result ≡ head? (leaves tree.left tree.node.word) }
{
    let n = tree.node;
    if tree.left == 0 {
        return Some(n.word);
    }
    emit_from(n, n.first_row(), tree.left - 1, 0, &mut [])
        .err()
        .map(|full| full.next)
}

// Writes the words of a window of a genus from a word on, in list order, as far as the list lasts: refused where the window does not hold the
// word, and then nothing is written.
pub fn write_from(
    genus: u64,
    word: u64,
    window: Window,
    out: &mut [u64],
) -> Result<Result<usize, NoRoom>, Refusal>
    ensures { (answered result, out.new) ≡ write_from_of genus window.lowest window.highest word out.old }
{
    if !window.has_word(genus, word) {
        return Err(Refusal::WalkOutOfOrder);
    }
    Ok(resume(Subtree::of_genus(genus), word, window.lowest, 0, out))
}

// The first semigroup in list order of a genus whose smallest gaps are exactly the word's gaps, or that there is none: refused where the word
// is, and above genus 32.
pub fn first_descendant(word: u64, genus: u64) -> Result<Option<u64>, Refusal>
    ensures { sought_answered result ≡ first_descendant_of word genus }
{
    let n = tables::node_of(word)?;
    if 32 < genus {
        return Err(Refusal::GenusTooLarge);
    }
    let own = words::genus_of(word);
    if genus < own {
        return Ok(None);
    }
    Ok(first_leaf(Subtree {
        node: n,
        left: genus - own,
    }))
}
