//! Where two signs would be read as one.

ghost use Rattle.js_syntax.specs.Edges.{is_word_operator};
ghost use Rattle.js_term.specs.Scope.{kid};
ghost use Rattle.js_term.specs.Term.{first, flag, is_text};
ghost use Rattle.js_tree.specs.Parts.{top};
ghost use Rattle.js_tree.specs.Words.{texts_seen};
ghost use Rattle.print_layout.specs.Rows.{blank, is_sign_of, meets};
ghost use Rattle.std.specs.Prelude.{◌≡◌, ◌++◌, ◌||◌};
ghost use Rattle.tree_printer.specs.Printed.{terms};

use crate::asks::when;
use crate::texts::is_set;
use js_tree::{Form, Kind, Node, Texts};

/// Whether a text is another one twice.
#[tactic(auto, using(crate::proofs::Twice::text_append))]
fn is_twice(text: &str, half: &str) -> bool
    ensures { result ≡ is_text text.now (half.now ++ half.now) }
{
    match text.as_bytes().strip_prefix(half.as_bytes()) {
        None => false,
        Some(rest) => rest == half.as_bytes(),
    }
}

/// Whether a node of this kind begins with the sign before it.
fn is_sign_of(operator: &str, kind: Kind, texts: &Texts) -> bool
    ensures { result ≡ is_sign_of operator.now kind (texts_seen texts.now) }
{
    match texts {
        Texts::None => false,
        _ => match kind {
            Kind::UnaryExpression => texts.first() == operator,
            Kind::UpdateExpression => is_twice(texts.first(), operator) && is_set(texts, 1),
            _ => false,
        },
    }
}

/// Whether the argument begins with the sign before it.
#[tactic(auto, using(js_tree::proofs::TermOf::term_is, crate::proofs::Kids::kid_all_map))]
fn meets(n: &Node) -> bool
    ensures { result ≡ meets (first (top n.now).texts) (kid 0 (terms n.now)) }
{
    match n.kid(0) {
        None => false,
        Some(part) => match part.form() {
            Form::Absent => false,
            Form::List => false,
            Form::Node(kind) => is_sign_of(n.text(), kind, part.texts()),
        },
    }
}

fn is_word_operator(operator: &str) -> bool
    ensures { result ≡ is_word_operator operator.now }
{
    match operator {
        "delete" | "void" | "typeof" | "instanceof" | "in" => true,
        _ => false,
    }
}

/// A blank between an operator and its argument, where they would be read as one without it.
pub fn sign_gap(n: &Node) -> &'static str
    ensures { result.now ≡ flag (is_word_operator (first (top n.now).texts) || meets (first (top n.now).texts) (kid 0 (terms n.now))) blank }
{
    when(is_word_operator(n.text()) || meets(n), " ")
}
