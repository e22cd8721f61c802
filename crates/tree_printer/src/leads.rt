//! What the text of a part begins with.

ghost use Rattle.std.specs.Prelude.{◌≡◌, map};
ghost use Rattle.js_term.specs.Term.{all};
ghost use Rattle.js_tree.specs.TermOf.{term};
ghost use Rattle.js_tree.specs.Words.{texts_seen};
ghost use Rattle.js_syntax.specs.Edges.{begins_with_part};
ghost use Rattle.print_layout.specs.Needs.{front_needs, leads, leads_first, never};
ghost use Rattle.tree_printer.specs.Openings.{test_of};

use crate::needs::front_needs;
use crate::prefix::has_no_prefix;
use js_tree::{Form, Kind, Node, Texts};

/// What a text may not begin with.
#[derive(Clone, Copy, Debug, PartialEq, Eq)]
pub enum Opening {
    /// `{`
    Brace,
    /// `function` or `class`, and `async function`.
    Definition,
    /// Any of these.
    Any,
}

impl Opening {
    /// Whether the text of a node of this kind begins so.
    fn is_of(self, kind: Kind) -> bool
        ensures { result ≡ test_of self kind }
    {
        match kind {
            Kind::ObjectExpression | Kind::ObjectAssignmentTarget => {
                !matches!(self, Opening::Definition)
            }
            Kind::FunctionExpression | Kind::ClassExpression => !matches!(self, Opening::Brace),
            _ => false,
        }
    }
}

/// Whether the text of a node of this kind begins with that of its first part.
fn begins_with_part(kind: Kind, texts: &Texts) -> bool
    ensures { result ≡ begins_with_part kind (texts_seen texts.now) }
{
    match kind {
        Kind::SequenceExpression
        | Kind::AssignmentExpression
        | Kind::ConditionalExpression
        | Kind::LogicalExpression
        | Kind::BinaryExpression
        | Kind::ChainExpression
        | Kind::CallExpression
        | Kind::StaticMemberExpression
        | Kind::ComputedMemberExpression
        | Kind::PrivateFieldExpression
        | Kind::TaggedTemplateExpression => true,
        Kind::UpdateExpression => has_no_prefix(texts),
        _ => false,
    }
}

/// Whether the text of a part, which stands in no parentheses, begins so.
pub fn leads(opening: Opening, part: &Node) -> bool
    ensures { result ≡ leads (test_of opening) never (term part.now) }
{
    leads_in(opening, Kind::ExpressionStatement, &Texts::None, part)
}

/// Whether the text of the first part of a node of this kind begins so.
#[cycle(leads)]
#[tactic(auto, using(js_tree::proofs::TermOf::term_is, crate::proofs::Smaller::parts_fall))]
fn leads_in(opening: Opening, kind: Kind, texts: &Texts, part: &Node) -> bool
    ensures { result ≡ leads (test_of opening) (front_needs kind (texts_seen texts.now)) (term part.now) }
{
    match part.form() {
        Form::Absent => false,
        Form::List => leads_first(opening, kind, texts, part.kids()),
        Form::Node(inner) => {
            if front_needs(kind, texts, part) {
                false
            } else if begins_with_part(inner, part.texts()) {
                leads_first(opening, inner, part.texts(), part.kids())
            } else {
                opening.is_of(inner)
            }
        }
    }
}

#[cycle(leads)]
fn leads_first(opening: Opening, kind: Kind, texts: &Texts, parts: &[Node]) -> bool
    ensures { result ≡ leads_first (test_of opening) (front_needs kind (texts_seen texts.now)) (all (map term parts.now)) }
{
    match parts {
        [] => false,
        [first, ..] => leads_in(opening, kind, texts, first),
    }
}
