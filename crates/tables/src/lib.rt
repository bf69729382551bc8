// Seed tables, children and grandchildren of words: the calls that go through the node of a word.
#![tactic(auto)]

ghost use Rattle.std.specs.Prelude.{◌<◌, ◌≡◌};
ghost use Rattle.answers.specs.Answers.{answered};
ghost use Rattle.words.specs.Looks.{Accepted};
ghost use Rattle.nodes.specs.Nodes.{node_of};
ghost use Rattle.nodes.specs.Levels.{NodeWithLevels};
ghost use Rattle.tables.specs.Answers.{node_answer, table_of, child_of, grandchildren_of};

use answers::{Element, Offset, Refusal};
use nodes::Node;

// A seed table, and the number of 1s in its row 0: of the generators not below the conductor.
#[derive(Clone, Copy, Debug, PartialEq, Eq)]
pub struct Table {
    pub table: u64,
    pub generators: u64,
}

// The node of an accepted word: down the tree from the word 0, one gap of the word after the other.
fn reached(word: u64) -> Node
    requires { Accepted word }
    ensures { result ≡ node_of word }
{
    let mut n = Node::root();
    while n.word != word {
        n = n.child(n.next_offset(word));
    }
    n
}

// The node of a word: refused with more than 32 gaps or a set that is not closed under addition.
pub fn node_of(word: u64) -> Result<Node, Refusal>
    ensures { answered result ≡ node_answer word }
{
    words::look(word)?;
    Ok(reached(word))
}

// The seed table of a word and the number of 1s in its row 0, with the same refusals. At genus 32 too the number is given, although every
// child is refused.
pub fn seed_table(word: u64) -> Result<Table, Refusal>
    ensures { answered result ≡ table_of word }
{
    let n = node_of(word)?;
    Ok(Table {
        table: n.table,
        generators: n.generators(),
    })
}

// The word without an element, from the node of a word of genus 31 at most: refused where the element is no generator or is below
// the conductor. No number of levels goes with the node, so that it is no `Subtree`.
fn removed(n: Node, element: Element) -> Result<u64, Refusal>
    requires { NodeWithLevels 1 n }
    ensures { answered result ≡ child_of n.word element.0 }
{
    let c = n.conductor;
    if element.0 < c {
        return Err(Refusal::NotAGenerator);
    }
    let d = Offset::of_element(c, element);
    if 63 < d.0 {
        return Err(Refusal::NotAGenerator);
    }
    if n.first_row() >> d.0 & 1 != 1 {
        return Err(Refusal::NotAGenerator);
    }
    let next = n.child(d);
    Ok(next.word)
}

// The word of the child without an element: the refusals of a look, and then at genus 32, and where the element is no generator or is
// below the conductor.
pub fn child(word: u64, element: Element) -> Result<u64, Refusal>
    ensures { answered result ≡ child_of word element.0 }
{
    let report = words::look(word)?;
    if 31 < report.genus {
        return Err(Refusal::GenusTooLarge);
    }
    removed(reached(word), element)
}

// The number of grandchildren of a word, the semigroups with two gaps more whose smallest gaps are the word's: the refusals of a look. At genus
// 31 and 32 it is given too, although no word of a grandchild is accepted.
pub fn grandchildren(word: u64) -> Result<u64, Refusal>
    ensures { answered result ≡ grandchildren_of word }
{
    let n = node_of(word)?;
    Ok(n.grandchildren())
}
