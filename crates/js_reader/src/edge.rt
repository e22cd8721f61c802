//! How the text of a part ends.

ghost use Rattle.std.specs.Prelude.{◌≡◌, ◌∷◌, [], map, not, codes};
ghost use Rattle.js_term.specs.Term.{absent, all, flag, is_text};
ghost use Rattle.js_term.specs.declared.kind.Kind.TheVariants.{UpdateExpression};
ghost use Rattle.js_syntax.specs.Edges as spec;
ghost use Rattle.js_tree.specs.Parts.{kids};
ghost use Rattle.js_tree.specs.TermOf.{term};
ghost use Rattle.js_tree.specs.Words.{flags_word, texts_seen, word_text};
ghost use Rattle.js_reader.specs.Edges.{edge_of, edge_in};

use crate::nodes::is_called;
use bitflags::Flags;
use js_chars::RegExpFlags;
use js_term::Kind;
use js_tree::{Form, Node, Texts, Word};

/// What stands at the end of a part: it decides which tokens go on with it behind a line end (ECMAScript 12.10.1).
#[derive(Clone, Copy, Debug, PartialEq, Eq)]
pub enum Edge {
    /// An expression that a call or an operator goes on with.
    Full,
    /// An update with its operator behind.
    Updated,
    /// An expression that ends in none, as an arrow function with a block.
    Loose,
    /// A list of exports.
    Exports,
    /// A field named `get` or `set`.
    Accessor,
    /// A field named `static`.
    Static,
    /// Anything else.
    Plain,
}

fn is_set(word: Word) -> bool
    ensures { result ≡ not (is_text (word_text word) []) }
{
    !matches!(word, Word::Unset)
}

#[tactic(auto, using(crate::proofs::Edges::has_letters))]
fn are_set(flags: RegExpFlags) -> bool
    ensures { result ≡ not (is_text (flags_word flags) []) }
{
    flags.contains(RegExpFlags::D)
        || flags.contains(RegExpFlags::G)
        || flags.contains(RegExpFlags::I)
        || flags.contains(RegExpFlags::M)
        || flags.contains(RegExpFlags::S)
        || flags.contains(RegExpFlags::U)
        || flags.contains(RegExpFlags::V)
        || flags.contains(RegExpFlags::Y)
}

/// Whether the operator of an update with these texts stands in front.
fn is_prefix(texts: &Texts) -> bool
    ensures { result ≡ spec.ends_with_part UpdateExpression (texts_seen texts.now) }
{
    match texts {
        Texts::RegExp(flags, _) => are_set(*flags),
        Texts::Two(_, prefix) => is_set(*prefix),
        _ => false,
    }
}

fn ends_with_part(kind: Kind, texts: &Texts) -> bool
    ensures { result ≡ spec.ends_with_part kind (texts_seen texts.now) }
{
    match kind {
        Kind::SequenceExpression
        | Kind::AssignmentExpression
        | Kind::ArrowFunctionExpression
        | Kind::YieldExpression
        | Kind::ConditionalExpression
        | Kind::LogicalExpression
        | Kind::BinaryExpression
        | Kind::PrivateInExpression
        | Kind::UnaryExpression
        | Kind::AwaitExpression => true,
        Kind::UpdateExpression => is_prefix(texts),
        _ => false,
    }
}

fn own_edge(kind: Kind) -> Edge
    ensures { edge_of result ≡ spec.own_edge kind }
{
    match kind {
        Kind::UpdateExpression => Edge::Updated,
        Kind::FunctionBody => Edge::Loose,
        _ => Edge::Full,
    }
}

/// The edge of a part that ends in no part of its own.
#[tactic(auto, using(js_tree::proofs::TermOf::term_is))]
fn outer_edge(node: &Node) -> Option<Edge>
    ensures { spec.edge (term node.now) ≡ edge_in result (all (map term (kids node.now))) }
{
    match node.form() {
        Form::Absent => Some(Edge::Loose),
        Form::List => None,
        Form::Node(kind) => {
            if ends_with_part(kind, node.texts()) {
                None
            } else {
                Some(own_edge(kind))
            }
        }
    }
}

/// The right edge of an expression.
pub fn right_edge(node: &Node) -> Edge
    ensures { edge_of result ≡ spec.edge (term node.now) }
{
    match outer_edge(node) {
        Some(edge) => edge,
        None => match node.kids() {
            [] => Edge::Loose,
            [.., last] => right_edge(last),
        },
    }
}

/// The edge of an initializer, which may be absent.
#[tactic(auto, using(js_tree::proofs::TermOf::term_is))]
fn initializer_edge(initializer: &Node) -> Edge
    ensures { edge_of result ≡ spec.edge_or_plain (term initializer.now) }
{
    if initializer.is_absent() {
        Edge::Plain
    } else {
        right_edge(initializer)
    }
}

/// The edge of one declarator: of its initializer.
#[tactic(auto, using(crate::proofs::Edges::declared_two, crate::proofs::Edges::declared_other, js_tree::proofs::TermOf::term_is))]
fn declarator_edge(declarator: &Node) -> Edge
    ensures { edge_of result ≡ spec.declared_edge (term declarator.now ∷ []) }
{
    let Form::Node(_) = declarator.form() else {
        return Edge::Plain;
    };
    match declarator.kids() {
        [_, initializer] => initializer_edge(initializer),
        _ => Edge::Plain,
    }
}

/// The edge of a declaration: of its last initializer.
pub fn declared_edge(declarators: &[Node]) -> Edge
    ensures { edge_of result ≡ spec.declared_edge (map term declarators.now) }
{
    match declarators {
        [] => Edge::Plain,
        [.., last] => declarator_edge(last),
    }
}

/// The edge of a field: of its initializer, or by its name.
#[tactic(auto, using(js_tree::proofs::TermOf::term_is, crate::proofs::Edges::field_with))]
pub fn field_edge(is_static: bool, computed: bool, key: &Node, value: &Node) -> Edge
    ensures { edge_of result ≡ spec.field_edge (flag is_static (codes "static")) computed (term key.now) (term value.now) }
{
    if !value.is_absent() {
        return right_edge(value);
    }
    bare_field_edge(is_static, computed, key)
}

/// The edge of a field without an initializer.
fn bare_field_edge(is_static: bool, computed: bool, key: &Node) -> Edge
    ensures { edge_of result ≡ spec.field_edge (flag is_static (codes "static")) computed (term key.now) absent }
{
    if computed {
        Edge::Plain
    } else if is_called(key, "get") || is_called(key, "set") {
        Edge::Accessor
    } else if !is_static && is_called(key, "static") {
        Edge::Static
    } else {
        Edge::Plain
    }
}
