//! The rows of modules.

ghost use Rattle.js_tree.specs.Parts.{top};
ghost use Rattle.std.specs.Prelude.{◌≡◌, ◌∷◌, ◌||◌, []};
ghost use Rattle.js_syntax.specs.Parts.{is_node};
ghost use Rattle.js_syntax.specs.Printable.{same};
ghost use Rattle.js_term.specs.declared.kind.Kind.TheVariants as Kind;
ghost use Rattle.tree_printer.specs.Pieces.{pieces_of};
ghost use Rattle.js_term.specs.Scope.{kid};
ghost use Rattle.print_layout.specs.Rows.{are_one, hashbang_line, module_row, say, specifier};
ghost use Rattle.tree_printer.specs.Printed.{terms};

use crate::asks::{closing, either, has_items, is_part, opening, part_text, there, when};
use crate::imports::import_row;
use crate::piece::Piece::{self, Each, Hashbang, Part, Say};
use crate::piece::row;
use crate::statements::statement_row;
use js_tree::{Kind, Node, Texts};

/// Modules, imports and exports (ECMAScript 16.2).
#[tactic(auto, using(crate::proofs::Braces::in_braces))]
pub fn module_row<'a>(i: bool, kind: Kind, n: &'a Node) -> [Piece<'a>; 9]
    ensures { pieces_of result ≡ module_row i kind (top n.now).texts (terms n.now) }
{
    match kind {
        Kind::Program => row!(
            hashbang(n),
            Each("\n", 0),
            Say(when(has_items(n, 0), "\n")),
            Each("\n", 1),
            Say(when(has_items(n, 1), "\n"))
        ),
        Kind::Directive => row!(Say(n.text()), Say(";")),
        Kind::ImportDeclaration => import_row(n),
        Kind::ImportSpecifier | Kind::ExportSpecifier => specifier_row(n),
        Kind::ImportDefaultSpecifier => row!(Part(0)),
        Kind::ImportNamespaceSpecifier => row!(Say("* as "), Part(0)),
        Kind::ExportAllDeclaration => row!(
            Say("export *"),
            Say(there(n, 0, " as ")),
            Part(0),
            Say(" from "),
            Part(1),
            Say(";")
        ),
        Kind::ExportNamedDeclaration => {
            let some = has_items(n, 0);
            row!(
                Say("export "),
                Say(opening(some)),
                Each(", ", 0),
                Say(closing(some)),
                Say(";")
            )
        }
        Kind::ExportFromDeclaration => {
            let some = has_items(n, 0);
            row!(
                Say("export "),
                Say(opening(some)),
                Each(", ", 0),
                Say(closing(some)),
                Say(" from "),
                Part(1),
                Say(";")
            )
        }
        Kind::ExportDeclaration => row!(Say("export "), Part(0)),
        Kind::ExportDefaultDeclaration => row!(
            Say("export default "),
            Part(0),
            Say(either(is_definition(n), "", ";"))
        ),
        _ => statement_row(i, kind, n),
    }
}

/// The line of a hashbang, where the module has one.
fn hashbang<'a>(n: &'a Node) -> Piece<'a>
    ensures { pieces_of (result ∷ []) ≡ say (hashbang_line (top n.now).texts) ∷ [] }
{
    match n.texts() {
        Texts::None => Say(""),
        _ => Hashbang(n.text()),
    }
}

fn is_definition(n: &Node) -> bool
    ensures { result ≡ (is_node Kind.FunctionDeclaration (kid 0 (terms n.now)) || is_node Kind.ClassDeclaration (kid 0 (terms n.now))) }
{
    is_part(n, 0, Kind::FunctionDeclaration) || is_part(n, 0, Kind::ClassDeclaration)
}

/// The names of a specifier, or one for both.
fn specifier_row<'a>(n: &'a Node) -> [Piece<'a>; 9]
    ensures { pieces_of result ≡ specifier (terms n.now) }
{
    if are_one(n) {
        row!(Part(0))
    } else {
        row!(Part(0), Say(" as "), Part(1))
    }
}

fn are_one(n: &Node) -> bool
    ensures { result ≡ are_one (kid 0 (terms n.now)) (kid 1 (terms n.now)) }
{
    same(
        is_part(n, 0, Kind::StringLiteral),
        is_part(n, 1, Kind::StringLiteral),
    ) && part_text(n, 0) == part_text(n, 1)
}

fn same(one: bool, other: bool) -> bool
    ensures { result ≡ same one other }
{
    if one { other } else { !other }
}
