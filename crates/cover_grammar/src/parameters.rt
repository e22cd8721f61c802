//! What was read in parentheses, as the parameters of an arrow function (ECMAScript 15.3).

ghost use Rattle.std.specs.Prelude.{◌≡◌, Some};
ghost use Rattle.js_syntax.specs.Nodes.{parameter_of as made_of};
ghost use Rattle.js_term.specs.Term.{absent};
ghost use Rattle.js_tree.specs.TermOf.{term};
ghost use Rattle.js_reading.specs.Targets.{parameter_as, parameter_rest, pattern_rest};
ghost use Rattle.cover_grammar.specs.Becomes.{Becomes};
ghost use Rattle.cover_grammar.specs.Parameters.{parameter_bound};

use crate::patterns::{to_pattern_element, to_pattern_rest};
use crate::taken::into_both;
use js_reader::Halt;
use js_term::is_kind;
use js_tree::{Form, Kind, Node, Texts};
use std::alloc::Global;

#[tactic(auto, using(js_tree::proofs::TermOf::term_hole))]
fn plain_parameter(alloc: Global, pattern: Node) -> Result<Node, Halt>
    ensures { Becomes term (Some (made_of (term pattern) absent)) result }
{
    Ok(Node::formal_parameter(alloc, pattern, Node::absent(alloc))?)
}

/// A pattern with a default is a parameter with an initializer.
#[tactic(auto, using(crate::proofs::Formed::parameter_is))]
fn parameter_of(alloc: Global, pattern: Node) -> Result<Node, Halt>
    ensures { Becomes term (parameter_as (Some (term pattern))) result }
{
    let kind = match pattern.form() {
        Form::Node(kind) => kind,
        Form::Absent => return Err(Halt::Unread),
        Form::List => return Err(Halt::Unread),
    };
    if !is_kind(kind, Kind::AssignmentPattern) {
        return plain_parameter(alloc, pattern);
    }
    if pattern.kid_count() != 2 {
        return plain_parameter(alloc, pattern);
    }
    let (bound, initializer) = into_both(alloc, pattern)?;
    Ok(Node::formal_parameter(alloc, bound, initializer)?)
}

/// The parameter that was read as a target, which may have a default.
pub fn to_parameter(alloc: Global, node: Node) -> Result<Node, Halt>
    ensures { Becomes term (parameter_bound (term node)) result }
{
    let pattern = to_pattern_element(alloc, node)?;
    parameter_of(alloc, pattern)
}

#[tactic(auto, using(crate::proofs::Formed::rest_formed_is))]
fn rest_parameter_of(alloc: Global, pattern: Node) -> Result<Node, Halt>
    ensures { Becomes term (parameter_rest (Some (term pattern))) result }
{
    match pattern.form() {
        Form::Absent => Ok(pattern),
        _ => Ok(Node::of_one(alloc, Kind::FormalParameterRest, Texts::None, pattern)?),
    }
}

/// The rest that was read as that of a target; nothing stays nothing.
pub fn to_rest_parameter(alloc: Global, node: Node) -> Result<Node, Halt>
    ensures { Becomes term (parameter_rest (pattern_rest (term node))) result }
{
    let pattern = to_pattern_rest(alloc, node)?;
    rest_parameter_of(alloc, pattern)
}
