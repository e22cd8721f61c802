//! What rows ask of the parts of a node.

ghost use Rattle.js_syntax.specs.Parts.{is_node, is_present, is_set_at, text_of, texts_of};
ghost use Rattle.js_term.specs.Scope.{kid};
ghost use Rattle.js_term.specs.Term.{all, flag, items};
ghost use Rattle.js_tree.specs.TermOf.{term};
ghost use Rattle.js_tree.specs.Parts.{top};
ghost use Rattle.print_layout.specs.Rows.{comma, ends_in_hole, ends_open, has_items, is_hole, set, there};
ghost use Rattle.std.specs.Prelude.{◌≡◌, if◌then◌else◌, map};
ghost use Rattle.tree_printer.specs.Printed.{closing, opening, terms};

use crate::piece::listed;
use crate::texts::is_set;
use js_term::is_kind;
use js_tree::{Form, Kind, Node};

/// Whether something stands at the part numbered so.
#[tactic(auto, using(js_tree::proofs::TermOf::term_is, crate::proofs::Kids::kid_all_map))]
pub fn has(n: &Node, k: usize) -> bool
    ensures { result ≡ is_present (kid k (terms n.now)) }
{
    match n.kid(k) {
        None => false,
        Some(part) => match part.form() {
            Form::Absent => false,
            Form::List => true,
            Form::Node(_) => true,
        },
    }
}

/// Whether the list numbered so has something in it.
#[tactic(auto, using(crate::proofs::Kids::kid_has_items))]
pub fn has_items(n: &Node, k: usize) -> bool
    ensures { result ≡ has_items (kid k (terms n.now)) }
{
    match listed(n, k) {
        [] => false,
        [_, ..] => true,
    }
}

/// Whether the part numbered so is of this kind.
#[tactic(auto, using(js_tree::proofs::TermOf::term_is, crate::proofs::Kids::kid_all_map))]
pub fn is_part(n: &Node, k: usize, kind: Kind) -> bool
    ensures { result ≡ is_node kind (kid k (terms n.now)) }
{
    match n.kid(k) {
        None => false,
        Some(part) => match part.form() {
            Form::Absent => false,
            Form::List => false,
            Form::Node(here) => is_kind(here, kind),
        },
    }
}

/// Whether the flag numbered `j` of the part numbered `k` is set.
#[tactic(auto, using(js_tree::proofs::TermOf::term_is, crate::proofs::Kids::kid_all_map))]
pub fn is_part_set(n: &Node, k: usize, j: usize) -> bool
    ensures { result ≡ is_set_at j (texts_of (kid k (terms n.now))) }
{
    match n.kid(k) {
        None => false,
        Some(part) => match part.form() {
            Form::Absent => false,
            Form::List => false,
            Form::Node(_) => is_set(part.texts(), j),
        },
    }
}

/// The first text of the part numbered so.
#[tactic(auto, using(js_tree::proofs::TermOf::term_is, crate::proofs::Kids::kid_all_map))]
pub fn part_text(n: &Node, k: usize) -> &str
    ensures { result.now ≡ text_of (kid k (terms n.now)) }
{
    match n.kid(k) {
        None => "",
        Some(part) => match part.form() {
            Form::Absent => "",
            Form::List => "",
            Form::Node(_) => part.text(),
        },
    }
}

/// Whether the flag numbered so is set.
pub fn flagged(n: &Node, k: usize) -> bool
    ensures { result ≡ is_set_at k (top n.now).texts }
{
    is_set(n.texts(), k)
}

/// A text where it is to stand.
pub fn when<'a>(set: bool, text: &'a str) -> &'a str
    ensures { result.now ≡ flag set text.now }
{
    if set { text } else { "" }
}

/// One of two texts.
pub fn either<'a>(first: bool, one: &'a str, other: &'a str) -> &'a str
    ensures { result.now ≡ (if first then one.now else other.now) }
{
    if first { one } else { other }
}

/// A word for the flag numbered so, where it is set.
pub fn set<'a>(n: &Node, k: usize, word: &'a str) -> &'a str
    ensures { result.now ≡ set k (top n.now).texts word.now }
{
    when(flagged(n, k), word)
}

/// A word before or behind a part that is there.
pub fn there<'a>(n: &Node, k: usize, word: &'a str) -> &'a str
    ensures { result.now ≡ there (kid k (terms n.now)) word.now }
{
    when(has(n, k), word)
}

/// What stands before the pieces in braces, by whether there are any.
pub fn opening<'a>(some: bool) -> &'a str
    ensures { result.now ≡ opening some }
{
    if some { "{ " } else { "{" }
}

/// What stands behind the pieces in braces, by whether there are any.
pub fn closing<'a>(some: bool) -> &'a str
    ensures { result.now ≡ closing some }
{
    if some { " }" } else { "}" }
}

/// Whether nothing stands here.
#[tactic(auto, using(js_tree::proofs::TermOf::term_is))]
fn is_hole(n: &Node) -> bool
    ensures { result ≡ is_hole (term n.now) }
{
    match n.form() {
        Form::Absent => true,
        Form::List => false,
        Form::Node(_) => false,
    }
}

#[tactic(auto, using(crate::proofs::Holes::last_hole, crate::proofs::Holes::no_hole))]
fn is_last_hole(items: &[Node]) -> bool
    ensures { result ≡ ends_in_hole (all (map term items.now)) }
{
    match items.last() {
        None => false,
        Some(last) => is_hole(last),
    }
}

/// Whether the last item of the list numbered so is a hole.
#[tactic(auto, using(crate::proofs::Kids::kid_items))]
pub fn ends_in_hole(n: &Node, k: usize) -> bool
    ensures { result ≡ ends_in_hole (items (kid k (terms n.now))) }
{
    is_last_hole(listed(n, k))
}

/// Whether items end with a hole, with no rest behind them.
pub fn ends_open(n: &Node) -> bool
    ensures { result ≡ ends_open (terms n.now) }
{
    !has(n, 1) && ends_in_hole(n, 0)
}

/// The comma between items and a rest behind them.
pub fn rest_comma<'a>(n: &Node) -> &'a str
    ensures { result.now ≡ flag (has_items (kid 0 (terms n.now))) (there (kid 1 (terms n.now)) comma) }
{
    when(has_items(n, 0), there(n, 1, ", "))
}
