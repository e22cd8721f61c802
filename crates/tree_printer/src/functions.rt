//! The rows of functions and classes.

ghost use Rattle.js_tree.specs.Parts.{top};
ghost use Rattle.std.specs.Prelude.{◌≡◌};
ghost use Rattle.tree_printer.specs.Pieces.{pieces_of};
ghost use Rattle.print_layout.specs.Rows.{function_row};
ghost use Rattle.tree_printer.specs.Printed.{terms};

use crate::asks::{closing, flagged, has_items, opening, rest_comma, set, there, when};
use crate::modules::module_row;
use crate::piece::Piece::{self, Each, Part, Say};
use crate::piece::row;
use crate::primaries::{defaulted, method_words};
use js_tree::{Kind, Node};

/// Functions and classes (ECMAScript 15).
#[tactic(auto, using(crate::proofs::Braces::in_braces))]
pub fn function_row<'a>(i: bool, kind: Kind, n: &'a Node) -> [Piece<'a>; 9]
    ensures { pieces_of result ≡ function_row i kind (top n.now).texts (terms n.now) }
{
    match kind {
        Kind::FunctionDeclaration | Kind::FunctionExpression => row!(
            Say(set(n, 0, "async ")),
            Say("function"),
            Say(set(n, 1, "*")),
            Say(there(n, 0, " ")),
            Part(0),
            Part(1),
            Say(" "),
            Part(2)
        ),
        Kind::FormalParameters => row!(
            Say("("),
            Each(", ", 0),
            Say(rest_comma(n)),
            Part(1),
            Say(")")
        ),
        Kind::FormalParameter => defaulted(n),
        Kind::FormalParameterRest => row!(Part(0)),
        Kind::FunctionBody => {
            let some = has_items(n, 0) || has_items(n, 1);
            let gap = has_items(n, 0) && has_items(n, 1);
            row!(
                Say(opening(some)),
                Each(" ", 0),
                Say(when(gap, " ")),
                Each(" ", 1),
                Say(closing(some))
            )
        }
        Kind::ClassDeclaration | Kind::ClassExpression => row!(
            Say("class"),
            Say(there(n, 0, " ")),
            Part(0),
            Say(there(n, 1, " extends ")),
            Part(1),
            Say(" "),
            Part(2)
        ),
        Kind::ClassBody => {
            let some = has_items(n, 0);
            row!(Say(opening(some)), Each(" ", 0), Say(closing(some)))
        }
        Kind::StaticBlock => {
            let some = has_items(n, 0);
            row!(
                Say("static "),
                Say(opening(some)),
                Each(" ", 0),
                Say(closing(some))
            )
        }
        Kind::MethodDefinition => row!(
            Say(set(n, 2, "static ")),
            Say(method_words(n)),
            Say(when(flagged(n, 1), "[")),
            Part(0),
            Say(when(flagged(n, 1), "]")),
            Part(1)
        ),
        Kind::PropertyDefinition => row!(
            Say(set(n, 1, "static ")),
            Say(when(flagged(n, 0), "[")),
            Part(0),
            Say(when(flagged(n, 0), "]")),
            Say(there(n, 1, " = ")),
            Part(1),
            Say(";")
        ),
        _ => module_row(i, kind, n),
    }
}
