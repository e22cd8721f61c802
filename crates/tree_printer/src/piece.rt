//! What rows are made of.

ghost use Rattle.js_tree.specs.Parts.{kids};
ghost use Rattle.std.specs.Prelude.{◌≡◌, drop, slice_get, take};
ghost use Rattle.tree_printer.specs.Printed.{listed};

use js_tree::{Form, Node, RegExpFlags};

/// A piece of a row: a text as it stands, in quotes, as a hashbang's line, or the letters of flags; the part numbered
/// so; the items of the list numbered so with a separator between, all, only so many at the front, or all but so many;
/// or the texts of a template with its expressions between.
#[derive(Clone, Copy)]
pub enum Piece<'a> {
    Nothing,
    Say(&'a str),
    Quoted(&'a str),
    Hashbang(&'a str),
    Flags(RegExpFlags),
    Part(usize),
    Each(&'a str, usize),
    Heads(usize, &'a str, usize),
    Past(usize, &'a str, usize),
    Woven(usize, usize),
}

/// The items of the part numbered so, where it is a list.
pub fn listed(n: &Node, k: usize) -> &[Node]
    ensures { result.now ≡ listed (slice_get (kids n.now) k) }
{
    match n.kid(k) {
        None => &[],
        Some(part) => match part.form() {
            Form::List => part.kids(),
            Form::Absent => &[],
            Form::Node(_) => &[],
        },
    }
}

/// So many items at the front.
pub fn heads(items: &[Node], count: usize) -> &[Node]
    ensures { result.now ≡ take count items.now }
{
    if count < items.len() {
        &items[..count]
    } else {
        items
    }
}

/// The items behind so many at the front.
pub fn past(items: &[Node], count: usize) -> &[Node]
    ensures { result.now ≡ drop count items.now }
{
    if count < items.len() {
        &items[count..]
    } else {
        &[]
    }
}

macro_rules! row {
    ($a:expr) => {
        $crate::piece::row!($a, $crate::piece::Piece::Nothing)
    };
    ($a:expr, $b:expr) => {
        $crate::piece::row!($a, $b, $crate::piece::Piece::Nothing)
    };
    ($a:expr, $b:expr, $c:expr) => {
        $crate::piece::row!($a, $b, $c, $crate::piece::Piece::Nothing)
    };
    ($a:expr, $b:expr, $c:expr, $d:expr) => {
        $crate::piece::row!($a, $b, $c, $d, $crate::piece::Piece::Nothing)
    };
    ($a:expr, $b:expr, $c:expr, $d:expr, $e:expr) => {
        $crate::piece::row!($a, $b, $c, $d, $e, $crate::piece::Piece::Nothing)
    };
    ($a:expr, $b:expr, $c:expr, $d:expr, $e:expr, $f:expr) => {
        $crate::piece::row!($a, $b, $c, $d, $e, $f, $crate::piece::Piece::Nothing)
    };
    ($a:expr, $b:expr, $c:expr, $d:expr, $e:expr, $f:expr, $g:expr) => {
        $crate::piece::row!($a, $b, $c, $d, $e, $f, $g, $crate::piece::Piece::Nothing)
    };
    ($a:expr, $b:expr, $c:expr, $d:expr, $e:expr, $f:expr, $g:expr, $h:expr) => {
        [
            $a,
            $b,
            $c,
            $d,
            $e,
            $f,
            $g,
            $h,
            $crate::piece::Piece::Nothing,
        ]
    };
}

pub(crate) use row;
