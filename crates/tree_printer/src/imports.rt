//! The row of an import: what stands before the braces, and what in them (ECMAScript 16.2.2).

ghost use Rattle.js_term.specs.Scope.{kid};
ghost use Rattle.js_term.specs.Term.{all};
ghost use Rattle.js_tree.specs.TermOf.{term};
ghost use Rattle.print_layout.specs.Rows.{has_named, outside};
ghost use Rattle.std.specs.Prelude.{◌≡◌, ◌<◌, map};
ghost use Rattle.tree_printer.specs.Pieces.{pieces_of};
ghost use Rattle.tree_printer.specs.Printed.{import, import_of, is_list, is_named, terms};

use crate::asks::{closing, opening};
use crate::piece::Piece::{self, Heads, Part, Past, Say};
use crate::piece::{listed, row};
use js_term::is_kind;
use js_tree::{Form, Kind, Node};

/// An import: its specifiers, where it has any, and where it imports from.
#[tactic(auto, using(crate::proofs::Clauses::import_is, crate::proofs::Clauses::import_is_not, crate::proofs::Kids::kid_items))]
pub fn import_row<'a>(n: &'a Node) -> [Piece<'a>; 9]
    ensures { pieces_of result ≡ import (terms n.now) }
{
    if is_list(n, 0) {
        let items = listed(n, 0);
        clause_row(outside(items), has_named(items))
    } else {
        row!(Say("import "), Part(1), Say(";"))
    }
}

/// By how many specifiers stand before the braces, and whether any stand in them.
fn clause_row<'a>(count: usize, some: bool) -> [Piece<'a>; 9]
    ensures { pieces_of result ≡ import_of count some }
{
    match count {
        0 => in_braces(some),
        _ => behind(count, some),
    }
}

#[tactic(auto, using(crate::proofs::Braces::in_braces))]
fn in_braces<'a>(some: bool) -> [Piece<'a>; 9]
    ensures { pieces_of result ≡ import_of 0 some }
{
    row!(
        Say("import "),
        Heads(0, ", ", 0),
        Say(opening(some)),
        Past(0, ", ", 0),
        Say(closing(some)),
        Say(" from "),
        Part(1),
        Say(";")
    )
}

#[tactic(auto, using(crate::proofs::Clauses::named_later))]
fn behind<'a>(count: usize, some: bool) -> [Piece<'a>; 9]
    requires { 0 < count }
    ensures { pieces_of result ≡ import_of count some }
{
    if some {
        [
            Say("import "),
            Heads(count, ", ", 0),
            Say(", "),
            Say("{ "),
            Past(count, ", ", 0),
            Say(" }"),
            Say(" from "),
            Part(1),
            Say(";"),
        ]
    } else {
        row!(
            Say("import "),
            Heads(count, ", ", 0),
            Say(" from "),
            Part(1),
            Say(";")
        )
    }
}

/// Whether the part numbered so is a list.
#[tactic(auto, using(js_tree::proofs::TermOf::term_is, crate::proofs::Kids::kid_all_map))]
fn is_list(n: &Node, k: usize) -> bool
    ensures { result ≡ is_list (kid k (terms n.now)) }
{
    match n.kid(k) {
        None => false,
        Some(part) => match part.form() {
            Form::Absent => false,
            Form::List => true,
            Form::Node(_) => false,
        },
    }
}

/// Whether a specifier stands in braces.
#[tactic(auto, using(js_tree::proofs::TermOf::term_is))]
fn is_named(n: &Node) -> bool
    ensures { result ≡ is_named (term n.now) }
{
    match n.form() {
        Form::Absent => false,
        Form::List => false,
        Form::Node(kind) => is_kind(kind, Kind::ImportSpecifier),
    }
}

/// How many specifiers stand before the braces.
fn outside(items: &[Node]) -> usize
    ensures { result ≡ outside (all (map term items.now)) }
{
    for j in 0..items.len() {
        if is_named(&items[j]) {
            return j;
        }
    }
    items.len()
}

/// Whether any specifier stands in braces.
fn has_named(items: &[Node]) -> bool
    ensures { result ≡ has_named (all (map term items.now)) }
{
    for j in 0..items.len() {
        if is_named(&items[j]) {
            return true;
        }
    }
    false
}
