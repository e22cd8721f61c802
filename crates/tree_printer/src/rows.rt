//! The row of each kind.

ghost use Rattle.js_tree.specs.Parts.{top};
ghost use Rattle.print_layout.specs.Rows.{method_row, row};
ghost use Rattle.std.specs.Prelude.{◌≡◌};
ghost use Rattle.tree_printer.specs.Pieces.{pieces_of};
ghost use Rattle.tree_printer.specs.Printed.{row_as, terms, update};

use crate::asks::{either, flagged, set, there};
use crate::piece::Piece::{self, Each, Part, Say};
use crate::piece::row;
use crate::primaries::primary_row;
use crate::signs::sign_gap;
use js_tree::{Kind, Node};

/// The row of a node of a kind, that stands as the function of a method or by itself.
pub fn row_as<'a>(method: bool, i: bool, kind: Kind, n: &'a Node) -> [Piece<'a>; 9]
    ensures { pieces_of result ≡ row_as method i kind (top n.now).texts (terms n.now) }
{
    if method {
        method_row()
    } else {
        row(i, kind, n)
    }
}

/// The function of a method: its parameters and its body.
fn method_row<'a>() -> [Piece<'a>; 9]
    ensures { pieces_of result ≡ method_row }
{
    row!(Part(1), Say(" "), Part(2))
}

/// Expressions of operations (ECMAScript 13.3 to 13.16).
fn row<'a>(i: bool, kind: Kind, n: &'a Node) -> [Piece<'a>; 9]
    ensures { pieces_of result ≡ row i kind (top n.now).texts (terms n.now) }
{
    match kind {
        Kind::SequenceExpression => row!(Each(", ", 0)),
        Kind::AssignmentExpression | Kind::LogicalExpression | Kind::BinaryExpression => {
            row!(Part(0), Say(" "), Say(n.text()), Say(" "), Part(1))
        }
        Kind::ArrowFunctionExpression => {
            row!(Say(set(n, 0, "async ")), Part(0), Say(" => "), Part(1))
        }
        Kind::YieldExpression => row!(
            Say("yield"),
            Say(set(n, 0, "*")),
            Say(there(n, 0, " ")),
            Part(0)
        ),
        Kind::ConditionalExpression => row!(Part(0), Say(" ? "), Part(1), Say(" : "), Part(2)),
        Kind::PrivateInExpression => row!(Part(0), Say(" in "), Part(1)),
        Kind::UnaryExpression => row!(Say(n.text()), Say(sign_gap(n)), Part(0)),
        Kind::AwaitExpression => row!(Say("await "), Part(0)),
        Kind::UpdateExpression => update_row(n),
        Kind::ChainExpression => row!(Part(0)),
        Kind::CallExpression => row!(
            Part(0),
            Say(set(n, 0, "?.")),
            Say("("),
            Each(", ", 1),
            Say(")")
        ),
        Kind::ImportExpression => row!(
            Say("import("),
            Part(0),
            Say(there(n, 1, ", ")),
            Part(1),
            Say(")")
        ),
        Kind::StaticMemberExpression | Kind::PrivateFieldExpression => {
            row!(Part(0), Say(either(flagged(n, 0), "?.", ".")), Part(1))
        }
        Kind::ComputedMemberExpression => row!(
            Part(0),
            Say(set(n, 0, "?.")),
            Say("["),
            Part(1),
            Say("]")
        ),
        Kind::TaggedTemplateExpression => row!(Part(0), Part(1)),
        Kind::NewExpression => row!(Say("new "), Part(0), Say("("), Each(", ", 1), Say(")")),
        _ => primary_row(i, kind, n),
    }
}

/// An operator before or behind its target.
fn update_row<'a>(n: &'a Node) -> [Piece<'a>; 9]
    ensures { pieces_of result ≡ update (top n.now).texts }
{
    if flagged(n, 1) {
        row!(Say(n.text()), Part(0))
    } else {
        row!(Part(0), Say(n.text()))
    }
}
