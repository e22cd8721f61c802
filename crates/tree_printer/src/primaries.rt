//! The rows of primary expressions and patterns.

ghost use Rattle.js_tree.specs.Parts.{top};
ghost use Rattle.std.specs.Prelude.{◌≡◌, ◌∷◌, []};
ghost use Rattle.tree_printer.specs.Pieces.{pieces_of};
ghost use Rattle.print_layout.specs.Rows.{pair, pattern_row, primary_row};
ghost use Rattle.js_syntax.specs.Parts.{is_set_at, text_at};
ghost use Rattle.js_term.specs.Scope.{kid};
ghost use Rattle.print_layout.specs.Rows.{defaulted, method_words, say};
ghost use Rattle.std.specs.Prelude.{◌++◌, codes};
ghost use Rattle.js_term.specs.Term.{flag};
ghost use Rattle.tree_printer.specs.Printed.{object_property, terms};

use crate::asks::{
    closing, ends_in_hole, ends_open, flagged, has, has_items, is_part_set, opening, rest_comma,
    when,
};
use crate::functions::function_row;
use crate::piece::Piece::{self, Each, Part, Quoted, Say, Woven};
use crate::piece::row;
use crate::texts::is_method;
use js_tree::{Kind, Node, Texts};

/// Primary expressions (ECMAScript 13.2).
#[tactic(auto, using(crate::proofs::Braces::in_braces))]
pub fn primary_row<'a>(i: bool, kind: Kind, n: &'a Node) -> [Piece<'a>; 9]
    ensures { pieces_of result ≡ primary_row i kind (top n.now).texts (terms n.now) }
{
    match kind {
        Kind::PrivateIdentifier => row!(Say("#"), Say(n.text())),
        Kind::StringLiteral => row!(Quoted(n.text())),
        Kind::NullLiteral => row!(Say("null")),
        Kind::RegExpLiteral => row!(Say("/"), Say(n.text()), Say("/"), second_text(n)),
        Kind::TemplateLiteral => row!(Say("`"), Woven(0, 1), Say("`")),
        Kind::ThisExpression => row!(Say("this")),
        Kind::Super => row!(Say("super")),
        Kind::ImportMeta => row!(Say("import.meta")),
        Kind::NewTarget => row!(Say("new.target")),
        Kind::ParenthesizedExpression => row!(Say("("), Part(0), Say(")")),
        Kind::ArrayExpression => row!(
            Say("["),
            Each(", ", 0),
            Say(when(ends_in_hole(n, 0), ",")),
            Say("]")
        ),
        Kind::SpreadElement => row!(Say("..."), Part(0)),
        Kind::ObjectExpression => {
            let some = has_items(n, 0);
            row!(Say(opening(some)), Each(", ", 0), Say(closing(some)))
        }
        Kind::ObjectProperty => property_row(n),
        _ => pattern_row(i, kind, n),
    }
}

/// The second text, as of a regular expression its flags.
fn second_text<'a>(n: &'a Node) -> Piece<'a>
    ensures { pieces_of (result ∷ []) ≡ say (text_at 1 (top n.now).texts) ∷ [] }
{
    match n.texts() {
        Texts::None | Texts::Text(_) | Texts::One(_) => Say(""),
        Texts::RegExp(flags, _) => Piece::Flags(*flags),
        Texts::Two(_, word) => Say(word.as_str()),
        Texts::Three(_, word, _) => Say(word.as_str()),
        Texts::Four(_, word, _, _) => Say(word.as_str()),
    }
}

/// A property of an object: a name alone, a method, or a key and its value.
fn property_row<'a>(n: &'a Node) -> [Piece<'a>; 9]
    ensures { pieces_of result ≡ object_property (top n.now).texts (terms n.now) }
{
    if flagged(n, 2) {
        return row!(Part(1));
    }
    let method = is_method(n.texts());
    row!(
        Say(when(method, method_words(n))),
        Say(when(flagged(n, 3), "[")),
        Part(0),
        Say(when(flagged(n, 3), "]")),
        Say(when(!method, ": ")),
        Part(1)
    )
}

/// The words before the key of a method.
pub fn method_words<'a>(n: &Node) -> &'a str
    ensures { result.now ≡ method_words (text_at 0 (top n.now).texts) (kid 1 (terms n.now)) }
{
    match n.text() {
        "get" => "get ",
        "set" => "set ",
        _ => flag_words(is_part_set(n, 1, 0), is_part_set(n, 1, 1)),
    }
}

fn flag_words<'a>(is_async: bool, is_generator: bool) -> &'a str
    ensures { result.now ≡ flag is_async (codes "async ") ++ flag is_generator (codes "*") }
{
    match (is_async, is_generator) {
        (true, true) => "async *",
        (true, false) => "async ",
        (false, true) => "*",
        (false, false) => "",
    }
}

/// Patterns (ECMAScript 13.15.5, 14.3.3).
#[tactic(auto, using(crate::proofs::Braces::in_braces))]
fn pattern_row<'a>(i: bool, kind: Kind, n: &'a Node) -> [Piece<'a>; 9]
    ensures { pieces_of result ≡ pattern_row i kind (top n.now).texts (terms n.now) }
{
    match kind {
        Kind::ObjectPattern | Kind::ObjectAssignmentTarget => {
            let some = has_items(n, 0) || has(n, 1);
            row!(
                Say(opening(some)),
                Each(", ", 0),
                Say(rest_comma(n)),
                Part(1),
                Say(closing(some))
            )
        }
        Kind::BindingProperty | Kind::AssignmentTargetProperty => pair_row(n),
        Kind::ArrayPattern | Kind::ArrayAssignmentTarget => row!(
            Say("["),
            Each(", ", 0),
            Say(rest_comma(n)),
            Part(1),
            Say(when(ends_open(n), ",")),
            Say("]")
        ),
        Kind::AssignmentPattern | Kind::AssignmentTargetWithDefault => defaulted(n),
        Kind::BindingRestElement | Kind::AssignmentTargetRest => row!(Say("..."), Part(0)),
        _ => function_row(i, kind, n),
    }
}

/// A key and its value, or one name for both.
fn pair_row<'a>(n: &'a Node) -> [Piece<'a>; 9]
    ensures { pieces_of result ≡ pair (is_set_at 0 (top n.now).texts) (is_set_at 1 (top n.now).texts) }
{
    if flagged(n, 1) {
        return row!(Part(1));
    }
    row!(
        Say(when(flagged(n, 0), "[")),
        Part(0),
        Say(when(flagged(n, 0), "]")),
        Say(": "),
        Part(1)
    )
}

/// A part, or a part with a default.
pub fn defaulted<'a>(n: &'a Node) -> [Piece<'a>; 9]
    ensures { pieces_of result ≡ defaulted (terms n.now) }
{
    if has(n, 1) {
        row!(Part(0), Say(" = "), Part(1))
    } else {
        row!(Part(0))
    }
}
