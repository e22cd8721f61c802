//! How a tree is freed: no function here calls itself, so that a deep tree takes no stack, and none asks for memory.

ghost use Rattle.std.specs.Prelude.{◌≡◌, ◌≢◌, ◌<◌, ◌+◌, [], ⊤, MatchOption};
ghost use Rattle.js_tree.specs.Weight.{left_to_free, left_to_open, weights, waiting_weight, weight};

use crate::node::Node;
use js_items::Items;

/// Frees a part and all that stands below it.
pub(crate) fn free(part: Node) {
    let mut next = part;
    let mut waiting: Option<Items<Node>> = None;
    loop {
        match step(next, waiting) {
            None => break,
            Some((part, rest)) => {
                next = part;
                waiting = rest;
            }
        }
    }
}

/// Frees one part but for its kids, and says which part is next, and which wait behind it.
fn step(part: Node, waiting: Option<Items<Node>>) -> Option<(Node, Option<Items<Node>>)>
    ensures { MatchOption result ⊤ (λ r. left_to_free r.0 r.1 < left_to_free part waiting) }
{
    let parts = part.into_kids();
    if parts.is_empty() {
        parts.destroy_empty();
        match waiting {
            None => None,
            Some(others) => take(others),
        }
    } else {
        enter(parts, waiting)
    }
}

/// The first of the parts is next; where others wait already, they stand in its place, and come last.
fn enter(parts: Items<Node>, waiting: Option<Items<Node>>) -> Option<(Node, Option<Items<Node>>)>
    requires { parts ≢ [] }
    ensures { MatchOption result ⊤ (λ r. left_to_free r.0 r.1 < left_to_open parts waiting) }
{
    match waiting {
        None => take(parts),
        Some(others) => {
            let mut parts = parts;
            let first = parts.replace(0, Node::list(others));
            Some((first, Some(parts)))
        }
    }
}

/// Takes the last part out of those that wait. A list that is empty then is freed.
fn take(waiting: Items<Node>) -> Option<(Node, Option<Items<Node>>)>
    ensures { MatchOption result ⊤ (λ r. weight r.0 + waiting_weight r.1 ≡ weights waiting) }
{
    let mut parts = waiting;
    let last = parts.pop();
    match last {
        None => {
            parts.destroy_empty();
            None
        }
        Some(part) => {
            if parts.is_empty() {
                parts.destroy_empty();
                Some((part, None))
            } else {
                Some((part, Some(parts)))
            }
        }
    }
}
