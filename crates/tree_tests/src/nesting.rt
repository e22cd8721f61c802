//! How deep the nodes and lists of a tree stand in one another.

ghost use Rattle.std.specs.Prelude.{◌≡◌, ◌+◌, ◌-◌, max, IfOk};
ghost use Rattle.js_tree.specs.Tree.{tree_of};
ghost use Rattle.tree_tests.specs.Collecting.{nesting};

use js_tree::Node;
use tree_rewrite::{Visit, visit_tree};

/// The depth of the node that is visited, and the greatest depth so far.
#[derive(Clone, Copy)]
pub struct Nesting {
    depth: u32,
    greatest: u32,
}

/// More levels than can be counted.
#[derive(Debug, Drop)]
pub struct TooDeep;

impl Visit for Nesting {
    type Place = ();

    type Fault = TooDeep;

    ghost enter = { λ s p t. record { depth = s.depth + 1; greatest = max s.greatest (s.depth + 1) } };

    ghost inside = { λ p t k. p };

    ghost leave = { λ s p t. record { depth = s.depth - 1; greatest = s.greatest } };

    fn enter(&mut self, _place: (), _node: &Node) -> Result<(), TooDeep> {
        let Some(depth) = self.depth.checked_add(1) else {
            return Err(TooDeep);
        };
        self.depth = depth;
        self.greatest = self.greatest.max(depth);
        Ok(())
    }

    fn inside(_place: (), _node: &Node, _k: usize) {}

    fn leave(&mut self, _place: (), _node: &Node) -> Result<(), TooDeep> {
        self.depth = self.depth.saturating_sub(1);
        Ok(())
    }
}

/// How many nodes and lists of a tree stand in one another at most.
pub fn measure_nesting(node: &Node) -> Result<u32, TooDeep>
    ensures { IfOk result (λ n. n ≡ nesting (tree_of node.now)) }
{
    let mut nesting = Nesting {
        depth: 0,
        greatest: 0,
    };
    visit_tree(&mut nesting, (), node)?;
    Ok(nesting.greatest)
}
