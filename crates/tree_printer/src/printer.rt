//! The interpreter of rows.

ghost use Rattle.js_tree.specs.TermOf.{term};
ghost use Rattle.js_tree.specs.Words.{texts_seen};
ghost use Rattle.print_layout.specs.Layout.{is_method_part, module_text, part_at, separated, spread, template};
ghost use Rattle.print_layout.specs.Needs.{is_in};
ghost use Rattle.std.specs.Prelude.{◌≡◌, ◌++◌, ◌&&◌, ◌||◌, not, IfOk, OnOk, map, string_bytes};
ghost use Rattle.tree_printer.specs.Pieces.{pieces_of, said};
ghost use Rattle.tree_printer.specs.Printed.{item_text, parts, shown};

use crate::needs::{inside, is_held, needs};
use crate::piece::{Piece, heads, listed, past};
use crate::rows::row_as;
use crate::strings::{print_flags, print_hashbang, print_string, push_if};
use crate::texts::is_method;
use js_tree::{Form, Kind, Node, Texts};
use std::alloc::{AllocError, Global};

/// The text of a module, that spells the tree with parentheses where a part would be read otherwise without them.
pub fn print_module(alloc: Global, program: &Node) -> Result<String, AllocError>
    ensures { IfOk result (λ out. string_bytes out ≡ module_text (term program.now)) }
{
    let mut out = String::new(alloc);
    print_part(&mut out, false, true, false, program)?;
    Ok(out)
}

/// A part, as the function of a method or by itself, by whether a bare `in` may stand there and whether the place holds
/// it in parentheses.
#[cycle(print)]
fn print_part(
    out: &mut String,
    method: bool,
    i: bool,
    held: bool,
    n: &Node,
) -> Result<(), AllocError>
    ensures { OnOk result (string_bytes out.new ≡ string_bytes out.old ++ shown method i held (term n.now)) }
{
    match n.form() {
        Form::Absent => Ok(()),
        Form::List => Ok(()),
        Form::Node(kind) => {
            let parenthesized = is_parenthesized(method, i, held, kind, n.texts());
            let bare = allows_in(method, i, parenthesized);
            let pieces = row_as(method, bare, kind, n);
            push_if(out, parenthesized, "(")?;
            print_row(out, bare, kind, n, &pieces)?;
            push_if(out, parenthesized, ")")
        }
    }
}

#[cycle(print)]
fn print_row(
    out: &mut String,
    i: bool,
    kind: Kind,
    n: &Node,
    pieces: &[Piece],
) -> Result<(), AllocError>
    ensures { OnOk result (string_bytes out.new ≡ string_bytes out.old ++ spread (pieces_of pieces.now) (parts i kind n.now)) }
{
    for piece in pieces {
        print_piece(out, i, kind, n, *piece)?;
    }
    Ok(())
}

#[cycle(print)]
fn print_piece(
    out: &mut String,
    i: bool,
    kind: Kind,
    n: &Node,
    piece: Piece,
) -> Result<(), AllocError>
    ensures { OnOk result (string_bytes out.new ≡ string_bytes out.old ++ said piece.entry (parts i kind n.now)) }
{
    match piece {
        Piece::Nothing => Ok(()),
        Piece::Say(text) => out.push_str(text),
        Piece::Quoted(text) => print_string(out, text),
        Piece::Hashbang(text) => print_hashbang(out, text),
        Piece::Flags(flags) => print_flags(out, flags),
        Piece::Part(k) => match n.kid(k) {
            None => Ok(()),
            Some(part) => print_part(
                out,
                is_method_part(kind, n.texts(), k),
                inside(i, kind, k),
                needs(kind, n.texts(), k, part),
                part,
            ),
        },
        Piece::Each(separator, k) => print_items(out, i, kind, n, k, separator, listed(n, k)),
        Piece::Heads(m, separator, k) => {
            print_items(out, i, kind, n, k, separator, heads(listed(n, k), m))
        }
        Piece::Past(m, separator, k) => {
            print_items(out, i, kind, n, k, separator, past(listed(n, k), m))
        }
        Piece::Woven(m, k) => print_template(out, i, kind, n, m, k),
    }
}

/// The items of the list numbered so, with a separator between.
#[cycle(print)]
fn print_items(
    out: &mut String,
    i: bool,
    kind: Kind,
    n: &Node,
    k: usize,
    separator: &str,
    items: &[Node],
) -> Result<(), AllocError>
    ensures { OnOk result (string_bytes out.new ≡ string_bytes out.old ++ separated separator.now (map (item_text i kind n.now k) items.now)) }
{
    for j in 0..items.len() {
        push_if(out, j != 0, separator)?;
        print_item(out, i, kind, n, k, &items[j])?;
    }
    Ok(())
}

/// An item of the list numbered so.
#[cycle(print)]
fn print_item(
    out: &mut String,
    i: bool,
    kind: Kind,
    n: &Node,
    k: usize,
    item: &Node,
) -> Result<(), AllocError>
    ensures { OnOk result (string_bytes out.new ≡ string_bytes out.old ++ item_text i kind n.now k item.now) }
{
    let held = needs(kind, n.texts(), k, item);
    print_part(out, false, inside(i, kind, k), held, item)
}

/// The texts of a template, which are the items of one list, with the items of another between.
#[cycle(print)]
fn print_template(
    out: &mut String,
    i: bool,
    kind: Kind,
    n: &Node,
    m: usize,
    k: usize,
) -> Result<(), AllocError>
    ensures { OnOk result (string_bytes out.new ≡ string_bytes out.old ++ template (part_at m (parts i kind n.now)).items (part_at k (parts i kind n.now)).items) }
{
    let quasis = listed(n, m);
    let expressions = listed(n, k);
    for j in 0..quasis.len() {
        print_item(out, i, kind, n, m, &quasis[j])?;
        if j >= expressions.len() {
            return Ok(());
        }
        out.push_str("${")?;
        print_item(out, i, kind, n, k, &expressions[j])?;
        out.push_str("}")?;
    }
    Ok(())
}

/// Whether the part numbered so is the function of a method.
fn is_method_part(kind: Kind, texts: &Texts, k: usize) -> bool
    ensures { result ≡ is_method_part kind (texts_seen texts.now) k }
{
    match kind {
        Kind::MethodDefinition => k != 0,
        Kind::ObjectProperty => k != 0 && is_method(texts),
        _ => false,
    }
}

/// Whether parentheses stand round a node.
fn is_parenthesized(method: bool, i: bool, held: bool, kind: Kind, texts: &Texts) -> bool
    ensures { result ≡ (not method && (held || (not i && is_in kind (texts_seen texts.now)))) }
{
    !method && is_held(i, held, kind, texts)
}

/// Whether a bare `in` may stand in a node.
fn allows_in(method: bool, i: bool, parenthesized: bool) -> bool
    ensures { result ≡ (method || (i || parenthesized)) }
{
    method || i || parenthesized
}
