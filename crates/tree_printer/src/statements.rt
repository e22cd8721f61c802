//! The rows of statements.

ghost use Rattle.js_tree.specs.Parts.{top};
ghost use Rattle.std.specs.Prelude.{◌≡◌};
ghost use Rattle.tree_printer.specs.Pieces.{pieces_of};
ghost use Rattle.print_layout.specs.Rows.{statement_row};
ghost use Rattle.tree_printer.specs.Printed.{terms};

use crate::asks::{closing, either, has, has_items, opening, set, there, when};
use crate::piece::Piece::{self, Each, Part, Say};
use crate::piece::row;
use crate::primaries::defaulted;
use js_tree::{Kind, Node};

/// Statements and declarations (ECMAScript 14); the first text of any other kind.
#[tactic(auto, using(crate::proofs::Braces::in_braces))]
pub fn statement_row<'a>(i: bool, kind: Kind, n: &'a Node) -> [Piece<'a>; 9]
    ensures { pieces_of result ≡ statement_row i kind (top n.now).texts (terms n.now) }
{
    match kind {
        Kind::BlockStatement => {
            let some = has_items(n, 0);
            row!(Say(opening(some)), Each(" ", 0), Say(closing(some)))
        }
        Kind::BreakStatement => { row!(Say("break"), Say(there(n, 0, " ")), Part(0), Say(";")) }
        Kind::ContinueStatement => {
            row!(Say("continue"), Say(there(n, 0, " ")), Part(0), Say(";"))
        }
        Kind::DebuggerStatement => row!(Say("debugger;")),
        Kind::DoWhileStatement => { row!(Say("do "), Part(0), Say(" while ("), Part(1), Say(");")) }
        Kind::EmptyStatement => row!(Say(";")),
        Kind::ExpressionStatement => row!(Part(0), Say(";")),
        Kind::ForInStatement => row!(
            Say("for ("),
            Part(0),
            Say(" in "),
            Part(1),
            Say(") "),
            Part(2)
        ),
        Kind::ForOfStatement => row!(
            Say("for "),
            Say(set(n, 0, "await ")),
            Say("("),
            Part(0),
            Say(" of "),
            Part(1),
            Say(") "),
            Part(2)
        ),
        Kind::ForStatement => row!(
            Say("for ("),
            Part(0),
            Say("; "),
            Part(1),
            Say("; "),
            Part(2),
            Say(") "),
            Part(3)
        ),
        Kind::IfStatement => row!(
            Say("if ("),
            Part(0),
            Say(") "),
            Part(1),
            Say(there(n, 2, " else ")),
            Part(2)
        ),
        Kind::LabeledStatement => row!(Part(0), Say(": "), Part(1)),
        Kind::ReturnStatement => { row!(Say("return"), Say(there(n, 0, " ")), Part(0), Say(";")) }
        Kind::SwitchStatement => {
            let some = has_items(n, 1);
            row!(
                Say("switch ("),
                Part(0),
                Say(") "),
                Say(opening(some)),
                Each(" ", 1),
                Say(closing(some))
            )
        }
        Kind::SwitchCase => row!(
            Say(either(has(n, 0), "case ", "default")),
            Part(0),
            Say(":"),
            Say(when(has_items(n, 1), " ")),
            Each(" ", 1)
        ),
        Kind::ThrowStatement => row!(Say("throw "), Part(0), Say(";")),
        Kind::TryStatement => row!(
            Say("try "),
            Part(0),
            Say(there(n, 1, " ")),
            Part(1),
            Say(there(n, 2, " finally ")),
            Part(2)
        ),
        Kind::CatchClause => row!(
            Say("catch "),
            Say(there(n, 0, "(")),
            Part(0),
            Say(there(n, 0, ") ")),
            Part(1)
        ),
        Kind::CatchParameter => row!(Part(0)),
        Kind::WhileStatement => row!(Say("while ("), Part(0), Say(") "), Part(1)),
        Kind::VariableDeclaration => row!(
            Say(n.text()),
            Say(" "),
            Each(", ", 0),
            Say(when(i, ";"))
        ),
        Kind::VariableDeclarator => defaulted(n),
        _ => row!(Say(n.text())),
    }
}
