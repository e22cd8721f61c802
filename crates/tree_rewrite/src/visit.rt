ghost use Rattle.std.specs.Prelude.{◌≡◌, ℕ, OnOk};
ghost use Rattle.js_tree.specs.Parts.{Top, top};
ghost use Rattle.js_tree.specs.Tree.{Tree, tree_of};
ghost use Rattle.tree_rewrite.specs.Visited.{visited};

use js_tree::Node;

/// What is seen at each node of a tree that stays as it is. The value itself is the state that is handed on from node
/// to node.
pub trait Visit {
    /// What a place says of the node that stands there.
    type Place: Copy;

    type Fault;

    /// The state inside a node, before its first part.
    ghost enter: { Self → Self.Place → Tree → Self };

    /// The place of each part, by the place of the node and the node without its parts.
    ghost inside: { Self.Place → Top → ℕ → Self.Place };

    /// The state behind a node, after its last part.
    ghost leave: { Self → Self.Place → Tree → Self };

    fn enter(&mut self, place: Self::Place, node: &Node) -> Result<(), Self::Fault>
        ensures { OnOk result (self.new ≡ enter self.old place (tree_of node.now)) };

    fn inside(place: Self::Place, node: &Node, k: usize) -> Self::Place
        ensures { result ≡ inside place (top node.now) k };

    fn leave(&mut self, place: Self::Place, node: &Node) -> Result<(), Self::Fault>
        ensures { OnOk result (self.new ≡ leave self.old place (tree_of node.now)) };
}

/// Visits a whole tree: each node once, in text order, a node before its parts.
pub fn visit_tree<V: Visit>(rules: &mut V, place: V::Place, node: &Node) -> Result<(), V::Fault>
    ensures { OnOk result (rules.new ≡ visited V.enter V.inside V.leave place rules.old (tree_of node.now)) }
{
    if let Err(fault) = rules.enter(place, node) {
        return Err(fault);
    }
    let parts = node.kids();
    let count = parts.len();
    for k in 0..count {
        let inner = V::inside(place, node, k);
        if let Err(fault) = visit_tree(rules, inner, &parts[k]) {
            return Err(fault);
        }
    }
    rules.leave(place, node)
}
