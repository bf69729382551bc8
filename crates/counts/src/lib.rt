// The number of semigroups of a genus whose smallest gaps are exactly a word's, by the tree.
#![tactic(auto)]

ghost use Rattle.std.specs.Prelude.{◌+◌, ◌≤◌, ◌≡◌, length};
ghost use Rattle.semigroups.specs.Words.{conductor};
ghost use Rattle.semigroups.specs.Tree.{leaves};
ghost use Rattle.answers.specs.Answers.{answered};
ghost use Rattle.nodes.specs.Nodes.{first_row};
ghost use Rattle.nodes.specs.Levels.{NodeWithLevels};
ghost use Rattle.nodes.specs.Branches.{branches};
ghost use Rattle.nodes.specs.NewGaps.{Upper};
ghost use Rattle.counts.specs.Counts.{count_of};

use answers::Refusal;
use nodes::{Node, Subtree};

// How many words there are at the end of a part of the tree: one level below its node, as many as the node says; two levels below a node whose
// conductor is above its multiplicity, as many as rows 0 and 1 tell; three levels below a node whose conductor is above its second positive
// element, as many as rows 0, 1 and 2 tell.
#[cycle(count_node_sum_from)]
fn count_node(tree: Subtree) -> u64
    ensures { result ≡ length (leaves tree.left tree.node.word) }
{
    let n = tree.node;
    match tree.left {
        0 => 1,
        1 => n.generators(),
        2 if words::multiplicity_of(n.word) < n.conductor => n.grandchildren_by_rows(),
        3 if n.second_element() < n.conductor => n.great_grandchildren_by_rows(),
        _ => sum_from(n.word, n.table, n.conductor, n.first_row(), tree.left - 1),
    }
}

// How many there are `left` levels below those children of a node, given by its parts, whose offsets are the bits of `row`, those of row 0 from one
// on: the sum from a generator on is that child's count plus the sum from the next. A child without generators has none, and is not made. The node
// and the levels are no `Subtree` here, as numbers go through registers: so the count takes 0.7 of the time (docs/DESIGN-PASS.md, point 5).
#[cycle(count_node_sum_from)]
fn sum_from(word: u64, table: u64, conductor: u64, row: u64, left: u64) -> u64
    requires le_left { 1 ≤ left }
    requires node_with_levels { NodeWithLevels (left + 1) record { word = word; table = table; conductor = conductor } }
    requires upper { Upper (first_row record { word = word; table = table; conductor = conductor }) row }
    ensures { result ≡ length (branches left word row) }
{
    if row == 0 {
        return 0;
    }
    let low = nodes::lowest_of(row);
    let node = Node {
        word,
        table,
        conductor,
    };
    let mut own = 0;
    if !node.is_childless_at(low) {
        own = count_node(Subtree {
            node: node.child(low.at),
            left,
        });
    }
    own + sum_from(word, table, conductor, low.rest, left)
}

// The number of semigroups of a genus whose smallest gaps are exactly the word's gaps: refused where the word is, and above genus 32.
pub fn count(word: u64, genus: u64) -> Result<u64, Refusal>
    ensures { answered result ≡ count_of word genus }
{
    let n = tables::node_of(word)?;
    if 32 < genus {
        return Err(Refusal::GenusTooLarge);
    }
    let own = words::genus_of(word);
    if genus < own {
        return Ok(0);
    }
    Ok(count_node(Subtree {
        node: n,
        left: genus - own,
    }))
}
