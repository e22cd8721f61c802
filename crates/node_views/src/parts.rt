//! The parts of a node of a kind, where it has as many as its kind has.

ghost use Rattle.std.specs.Prelude.{◌≡◌, MatchOption};
ghost use Rattle.node_views.specs.Views.{IsOf, part_at, text_of};

use js_tree::{Kind, Node};

/// The text of a node of this kind, which has no parts.
pub(crate) fn one_text<'a>(node: &'a Node, kind: Kind) -> Option<&'a str>
    ensures { MatchOption result (IsOf kind 0 node.now → ⊥) (λ x. IsOf kind 0 node.now × (x.now ≡ text_of node.now)) }
{
    if node.is(kind) && node.kid_count() == 0 {
        Some(node.text())
    } else {
        None
    }
}

/// The one part of a node of this kind.
pub(crate) fn one_part<'a>(node: &'a Node, kind: Kind) -> Option<&'a Node>
    ensures { MatchOption result (IsOf kind 1 node.now → ⊥) (λ p. IsOf kind 1 node.now × (p.now ≡ part_at 0 node.now)) }
{
    let kids = node.kids();
    if node.is(kind) && kids.len() == 1 {
        Some(&kids[0])
    } else {
        None
    }
}

/// The two parts of a node of this kind.
pub(crate) fn two_parts<'a>(node: &'a Node, kind: Kind) -> Option<(&'a Node, &'a Node)>
    ensures { MatchOption result (IsOf kind 2 node.now → ⊥) (λ p. IsOf kind 2 node.now × ((p.0.now ≡ part_at 0 node.now) × (p.1.now ≡ part_at 1 node.now))) }
{
    let kids = node.kids();
    if node.is(kind) && kids.len() == 2 {
        Some((&kids[0], &kids[1]))
    } else {
        None
    }
}

/// The three parts of a node of this kind.
pub(crate) fn three_parts<'a>(node: &'a Node, kind: Kind) -> Option<(&'a Node, &'a Node, &'a Node)>
    ensures { MatchOption result (IsOf kind 3 node.now → ⊥) (λ p. IsOf kind 3 node.now × ((p.0.now ≡ part_at 0 node.now) × ((p.1.now ≡ part_at 1 node.now) × (p.2.now ≡ part_at 2 node.now)))) }
{
    let kids = node.kids();
    if node.is(kind) && kids.len() == 3 {
        Some((&kids[0], &kids[1], &kids[2]))
    } else {
        None
    }
}
