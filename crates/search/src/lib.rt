// The search for a semigroup with a wanted genus, largest gap and multiplicity: down the tree below the first word of the multiplicity, past
// every branch that can't reach the largest gap.
#![tactic(auto)]

ghost use Rattle.std.specs.Prelude.{◌+◌, ◌*◌, ◌-◌, ◌%◌, ◌^◌, ◌≤◌, ◌<◌, ◌≡◌, pos};
ghost use mathlib.Core.List.{head?};
ghost use Rattle.semigroups.specs.Sets.{sum_of_two};
ghost use Rattle.semigroups.specs.Words.{conductor};
ghost use Rattle.semigroups.specs.Tree.{leaves};
ghost use Rattle.seeds.specs.Seeds.{set_below};
ghost use Rattle.answers.specs.Answers.{sought, sought_answered};
ghost use Rattle.nodes.specs.Nodes.{node_of};
ghost use Rattle.nodes.specs.Branches.{branches, Offsets};
ghost use Rattle.search.specs.Wanted.{wanted_list, find_of};
ghost use Rattle.search.specs.Private.{with_largest_gap};

use answers::{Element, Offset, Refusal};
use nodes::{Bits, Node, Subtree};

// Is `gap`, which is not below the node's conductor c, a sum of two elements below c? Below 2 c the table tells, by source 001; from 2 c on no
// number is one. Such a sum is an element of every semigroup below the node.
fn is_low_sum(n: Node, gap: u64) -> bool
    requires n_value { n ≡ node_of n.word }
    requires conductor_le_gap { (n.conductor ≤ gap) × (gap ≤ 63) }
    ensures { result ≡ sum_of_two (set_below n.word (conductor n.word)) gap }
{
    let c = n.conductor;
    let offset = Offset::of_element(c, Element(gap));
    if c <= offset.0 {
        return false;
    }
    n.table >> offset.0 & 1 != 1
}

// Of the children of a node at the offsets that are the bits of `rest`, the one whose largest gap is `gap`: the bit at the offset of `gap`
// decides.
fn child_with(tree: Subtree, rest: u64, gap: u64) -> Option<u64>
    requires left { tree.left ≡ 1 }
    requires offsets { Offsets tree.node.word rest }
    requires conductor_le_gap { (tree.node.conductor ≤ gap) × (gap ≤ 63) }
    ensures { sought result ≡ head? (with_largest_gap gap (branches 0 tree.node.word rest)) }
{
    let n = tree.node;
    let offset = Offset::of_element(n.conductor, Element(gap));
    if rest >> offset.0 & 1 != 1 {
        return None;
    }
    Some(n.word + (1 << (gap - 1)))
}

// The first of the words at the end of a part of the tree, 1 level or more below its node, whose largest gap is `gap`.
#[cycle(first_among_first_below)]
fn first_below(tree: Subtree, gap: u64) -> Option<u64>
    requires left { 1 ≤ tree.left }
    requires conductor_le_gap { (tree.node.conductor ≤ gap) × (gap ≤ 63) }
    ensures { sought result ≡ head? (with_largest_gap gap (leaves tree.left tree.node.word)) }
{
    let n = tree.node;
    if is_low_sum(n, gap) {
        return None;
    }
    first_among(tree, n.first_row(), gap)
}

// The same of the words below those children of its node whose offsets are the bits of `rest`. It is inline, as the last level then needs no
// call: with it the searches of genus 32 take 1.1 times as long.
#[inline(always)]
#[cycle(first_among_first_below)]
fn first_among(tree: Subtree, rest: u64, gap: u64) -> Option<u64>
    requires left { 1 ≤ tree.left }
    requires offsets { Offsets tree.node.word rest }
    requires conductor_le_gap { (tree.node.conductor ≤ gap) × (gap ≤ 63) }
    ensures { sought result ≡ head? (with_largest_gap gap (branches (tree.left - 1) tree.node.word rest)) }
{
    if tree.left == 1 {
        return child_with(tree, rest, gap);
    }
    first_by_child(tree, rest, gap)
}

// The same, 2 levels or more below its node. After the new gap e of a child there are `left` gaps to come, so that the largest is at least
// e + left: where that is above `gap`, it is so for all later children too.
#[cycle(first_among_first_below)]
fn first_by_child(tree: Subtree, rest: u64, gap: u64) -> Option<u64>
    requires left { 2 ≤ tree.left }
    requires offsets { Offsets tree.node.word rest }
    requires conductor_le_gap { (tree.node.conductor ≤ gap) × (gap ≤ 63) }
    ensures { sought result ≡ head? (with_largest_gap gap (branches (tree.left - 1) tree.node.word rest)) }
{
    let left = tree.left - 1;
    for low in Bits(rest) {
        let e = Element::at_offset(tree.node.conductor, low.at);
        if gap < e.0 + left {
            return None;
        }
        let child = Subtree {
            node: tree.node.child(low.at),
            left,
        };
        let found = first_below(child, gap);
        if found.is_some() {
            return found;
        }
    }
    None
}

// The node of the semigroup of 0 and all numbers from `m` on, the first of multiplicity m: no number from m to 2 m - 1 is a sum of two
// elements below m, so that its table has m entries 1.
#[tactic(auto, using(semigroups::proofs::Bits::one_shl, nodes::proofs::FirstNode::first_node))]
fn first_node(m: u64) -> Node
    requires { (1 ≤ m) × (m ≤ 33) }
    ensures { result ≡ node_of (2 ^ (m - 1) - 1) }
{
    Node {
        word: (1 << (m - 1)) - 1,
        table: (1 << m) - 1,
        conductor: m,
    }
}

// The first word of a genus of at least 1 with a largest gap and a multiplicity. A semigroup of genus g has a multiplicity from 2 to g + 1
// and a largest gap from g to 2 g - 1, which is no multiple of the multiplicity; with multiplicity g + 1 there is one.
fn first_with(genus: u64, gap: u64, m: u64) -> Option<u64>
    requires { (1 ≤ genus) × (genus ≤ 32) }
    ensures { sought result ≡ head? (wanted_list genus (pos gap) m) }
{
    if m < 2 {
        return None;
    }
    if genus + 1 < m {
        return None;
    }
    if gap < genus {
        return None;
    }
    if 2 * genus <= gap {
        return None;
    }
    if gap % m == 0 {
        return None;
    }
    let n = first_node(m);
    if genus < m {
        if gap == genus {
            return Some(n.word);
        }
        return None;
    }
    let tree = Subtree {
        node: n,
        left: genus - m + 1,
    };
    first_among(tree, n.first_row() - 1, gap)
}

// The word of genus 0 with a largest gap and a multiplicity: the word 0 has -1 and 1.
fn of_genus_0(largest_gap: i8, multiplicity: u8) -> Option<u64>
    ensures { sought result ≡ head? (wanted_list 0 largest_gap multiplicity) }
{
    if largest_gap != -1 {
        return None;
    }
    if multiplicity != 1 {
        return None;
    }
    Some(0)
}

// The first semigroup in list order with a genus, a largest gap, which is -1 where there are no gaps, and a multiplicity, or that there is
// none: refused above genus 32.
pub fn find(genus: u64, largest_gap: i8, multiplicity: u8) -> Result<Option<u64>, Refusal>
    ensures { sought_answered result ≡ find_of genus largest_gap multiplicity }
{
    if 32 < genus {
        return Err(Refusal::GenusTooLarge);
    }
    if genus == 0 {
        return Ok(of_genus_0(largest_gap, multiplicity));
    }
    if largest_gap < 0 {
        return Ok(None);
    }
    Ok(first_with(genus, largest_gap as u64, multiplicity as u64))
}
