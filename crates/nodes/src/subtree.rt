// A part of the tree: a node and the levels below it.

ghost use Rattle.std.specs.Prelude.{min, ◌≡◌};
ghost use Rattle.nodes.specs.Nodes.{node_of};
ghost use Rattle.nodes.specs.Levels.{NodeWithLevels};

use crate::Node;

// A node and a number of levels of the tree below it: the node is that of an accepted word, and the levels end at genus 32 at most.
#[derive(Clone, Copy)]
pub struct Subtree {
    pub node: Node,
    pub left: u64,
    pub ghost levels: { NodeWithLevels left node },
}

impl Subtree {
    // The whole tree down to a genus, or to genus 32 where it is larger.
    pub fn of_genus(genus: u64) -> Subtree
        ensures { (result.node ≡ node_of 0) × (result.left ≡ min genus 32) }
    {
        Subtree {
            node: Node::root(),
            left: genus.min(32),
        }
    }
}
