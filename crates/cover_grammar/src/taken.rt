//! Nodes taken apart.

ghost use Rattle.std.specs.Prelude.{◌≡◌};
ghost use Rattle.js_tree.specs.Parts.{kids, top};
ghost use Rattle.cover_grammar.specs.Becomes.{Becomes, sole, both};
ghost use Rattle.cover_grammar.specs.Converted.{list_in};

use js_reader::Halt;
use js_tree::{Form, Node};
use std::alloc::Global;

/// The part of a node that has one.
pub(crate) fn into_sole(alloc: Global, node: Node) -> Result<Node, Halt>
    ensures { Becomes (λ n. n) (sole (kids node)) result }
{
    if node.kid_count() != 1 {
        return Err(Halt::Unread);
    }
    let mut node = node;
    Ok(node.replace_kid(0, Node::absent(alloc)))
}

/// The parts of a node that has two.
pub(crate) fn into_both(alloc: Global, node: Node) -> Result<(Node, Node), Halt>
    ensures { Becomes (λ p. (p.0, p.1)) (both (kids node)) result }
{
    if node.kid_count() != 2 {
        return Err(Halt::Unread);
    }
    let mut node = node;
    let first = node.replace_kid(0, Node::absent(alloc));
    let second = node.replace_kid(1, Node::absent(alloc));
    Ok((first, second))
}

/// The list that is the one part of a node.
pub(crate) fn into_list(alloc: Global, node: Node) -> Result<Node, Halt>
    ensures { Becomes (λ n. n) (list_in (sole (kids node))) result }
{
    let list = into_sole(alloc, node)?;
    match list.form() {
        Form::List => Ok(list),
        Form::Absent => Err(Halt::Unread),
        Form::Node(_) => Err(Halt::Unread),
    }
}
