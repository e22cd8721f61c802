ghost use Rattle.std.specs.Prelude.{◌≡◌, ℕ, Option, OnOk, IfOk, option_map};
ghost use Rattle.js_tree.specs.Parts.{Top, top};
ghost use Rattle.js_tree.specs.Tree.{Tree, tree_of};
ghost use Rattle.tree_rewrite.specs.Rewritten.{rewritten};

use js_tree::Node;
use std::alloc::Global;

/// What becomes of each node at its place. The value itself is the state that is handed on from node to node.
pub trait Rewrite {
    /// What a place says of the node that stands there.
    type Place: Copy;

    type Fault;

    /// What is put in a tree's place. What is put is not searched; a tree that keeps its place has its parts rewritten.
    ghost before: { Self → Self.Place → Tree → Option Tree × Self };

    /// The place of each part, by the place of the node and the node without its parts.
    ghost inside: { Self.Place → Top → ℕ → Self.Place };

    /// What becomes of a tree whose parts are rewritten already.
    ghost after: { Self → Self.Place → Tree → Tree × Self };

    fn before(
        &mut self,
        alloc: Global,
        place: Self::Place,
        node: &Node,
    ) -> Result<Option<Node>, Self::Fault>
        ensures { IfOk result (λ r. (option_map tree_of r, self.new) ≡ before self.old place (tree_of node.now)) };

    fn inside(place: Self::Place, node: &Node, k: usize) -> Self::Place
        ensures { result ≡ inside place (top node.now) k };

    fn after(
        &mut self,
        alloc: Global,
        place: Self::Place,
        node: &mut Node,
    ) -> Result<(), Self::Fault>
        ensures { OnOk result ((tree_of node.new, self.new) ≡ after self.old place (tree_of node.old)) };
}

/// Rewrites a whole tree in place. After a fault the tree is rewritten in part, and still a tree.
pub fn rewrite_tree<R: Rewrite>(
    alloc: Global,
    rules: &mut R,
    place: R::Place,
    node: &mut Node,
) -> Result<(), R::Fault>
    ensures { OnOk result ((tree_of node.new, rules.new) ≡ rewritten R.before R.inside R.after place rules.old (tree_of node.old)) }
{
    match rules.before(alloc, place, node) {
        Ok(Some(put)) => {
            node.set(put);
            return Ok(());
        }
        Ok(None) => {}
        Err(fault) => return Err(fault),
    }
    let count = node.kid_count();
    for k in 0..count {
        let inner = R::inside(place, node, k);
        let mut kid = node.replace_kid(k, Node::absent(alloc));
        let outcome = rewrite_tree(alloc, rules, inner, &mut kid);
        node.put_kid(k, kid);
        if let Err(fault) = outcome {
            return Err(fault);
        }
    }
    rules.after(alloc, place, node)
}
