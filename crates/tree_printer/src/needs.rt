//! Where parentheses are printed.

ghost use Rattle.std.specs.Prelude.{◌≡◌};
ghost use Rattle.js_syntax.specs.Edges.{has_kind, is_string_kind};
ghost use Rattle.js_term.specs.Term.{none};
ghost use Rattle.js_tree.specs.TermOf.{term};
ghost use Rattle.js_tree.specs.Words.{texts_seen};
ghost use Rattle.print_layout.specs.Needs.{front_needs, inside, is_fronted, is_held, is_in, is_misread, is_number_kind, needs};

use crate::leads::{Opening, leads};
use crate::least::{first_least, least};
use crate::levels::{is_coalesce_left, is_looser};
use js_tree::{Form, Kind, Node, Texts};

fn is_number_kind(kind: Kind) -> bool
    ensures { result ≡ is_number_kind kind }
{
    matches!(kind, Kind::NumericLiteral)
}

fn is_string_kind(kind: Kind) -> bool
    ensures { result ≡ is_string_kind kind }
{
    matches!(kind, Kind::StringLiteral)
}

#[tactic(auto, using(js_tree::proofs::TermOf::term_is))]
fn is_number(node: &Node) -> bool
    ensures { result ≡ has_kind is_number_kind (term node.now) }
{
    match node.form() {
        Form::Absent | Form::List => false,
        Form::Node(kind) => is_number_kind(kind),
    }
}

#[tactic(auto, using(js_tree::proofs::TermOf::term_is))]
fn is_string(node: &Node) -> bool
    ensures { result ≡ has_kind is_string_kind (term node.now) }
{
    match node.form() {
        Form::Absent | Form::List => false,
        Form::Node(kind) => is_string_kind(kind),
    }
}

/// Whether the first part would be read as something else: the object of a member is no bare number, and what stands
/// before `??` is no `||` and no `&&`.
fn is_misread(kind: Kind, texts: &Texts, part: &Node) -> bool
    ensures { result ≡ is_misread kind (texts_seen texts.now) (term part.now) }
{
    match kind {
        Kind::StaticMemberExpression
        | Kind::ComputedMemberExpression
        | Kind::PrivateFieldExpression => is_number(part),
        Kind::LogicalExpression => texts.first() == "??" && !is_coalesce_left(part),
        _ => false,
    }
}

/// Whether the first part stands in parentheses, whatever the text of the whole may begin with.
pub fn front_needs(kind: Kind, texts: &Texts, part: &Node) -> bool
    ensures { result ≡ front_needs kind (texts_seen texts.now) (term part.now) }
{
    is_misread(kind, texts, part) || is_looser(first_least(kind, texts), part)
}

/// Whether a statement, a default export or the body of an arrow begins as none may.
fn is_fronted(kind: Kind, k: usize, part: &Node) -> bool
    ensures { result ≡ is_fronted kind k (term part.now) }
{
    match kind {
        Kind::ExpressionStatement => leads(Opening::Any, part) || is_string(part),
        Kind::ExportDefaultDeclaration => leads(Opening::Definition, part),
        Kind::ArrowFunctionExpression => k != 0 && leads(Opening::Brace, part),
        _ => false,
    }
}

/// Whether the part numbered so of a node of this kind stands in parentheses, as its place asks for.
#[tactic(auto, using(crate::proofs::Places::later_needs))]
pub fn needs(kind: Kind, texts: &Texts, k: usize, part: &Node) -> bool
    ensures { result ≡ needs kind (texts_seen texts.now) k (term part.now) }
{
    if k == 0 {
        is_fronted(kind, 0, part) || front_needs(kind, texts, part)
    } else {
        is_fronted(kind, k, part) || is_looser(least(kind, texts, k), part)
    }
}

/// Whether a bare `in` may stand in the part numbered so, by whether one may in the whole (ECMAScript 14.7.4).
pub fn inside(i: bool, kind: Kind, k: usize) -> bool
    ensures { result ≡ inside i kind k }
{
    match kind {
        Kind::ForStatement | Kind::ForInStatement | Kind::ForOfStatement => k != 0,
        Kind::VariableDeclaration
        | Kind::SequenceExpression
        | Kind::AssignmentExpression
        | Kind::YieldExpression
        | Kind::LogicalExpression
        | Kind::BinaryExpression
        | Kind::UnaryExpression
        | Kind::AwaitExpression
        | Kind::UpdateExpression
        | Kind::ChainExpression => i,
        Kind::VariableDeclarator | Kind::ArrowFunctionExpression => k == 0 || i,
        Kind::ConditionalExpression => k == 1 || i,
        Kind::CallExpression
        | Kind::StaticMemberExpression
        | Kind::ComputedMemberExpression
        | Kind::PrivateFieldExpression
        | Kind::TaggedTemplateExpression
        | Kind::NewExpression => k != 0 || i,
        _ => true,
    }
}

/// Whether it is an expression with a bare `in`.
pub fn is_in(kind: Kind, texts: &Texts) -> bool
    ensures { result ≡ is_in kind (texts_seen texts.now) }
{
    match kind {
        Kind::BinaryExpression => texts.first() == "in",
        Kind::PrivateInExpression => true,
        _ => false,
    }
}

/// Whether parentheses stand round a node, by whether its place asks for them and whether a bare `in` may stand there.
pub fn is_held(i: bool, is_needed: bool, kind: Kind, texts: &Texts) -> bool
    ensures { result ≡ is_held i (λ t. is_needed) kind (texts_seen texts.now) none }
{
    is_needed || (!i && is_in(kind, texts))
}
