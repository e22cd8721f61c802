ghost use Rattle.std.specs.Prelude.{◌≡◌};
ghost use Rattle.js_syntax.specs.Parts.{parts_of};
ghost use Rattle.js_syntax.specs.ModuleTree.{has_jumps};
ghost use Rattle.module_tree.specs.JumpsSeen.{jumps_of, in_labelled, has_jumps_in, parts_have_jumps};

use crate::enclosing::EnclosingLabel;
use crate::jumps::{
    Jumps, allows_jump, in_statement, is_labelled, is_loop, is_root_of_jumps, no_jumps,
};
use js_rules::{Form, View};

/// Whether each `break` and `continue` of the tree names a label round it (of a loop for `continue`) or stands in a loop
/// (`break` also in a `switch`), and nested labels differ (ECMAScript 14.8.1, 14.9.1, 14.13.1). Functions, arrows and
/// static blocks begin anew.
pub fn has_jumps<V: View>(view: V) -> bool
    ensures { result ≡ has_jumps (V.term view) }
{
    has_jumps_in(view, no_jumps())
}

/// Whether it is so round a place of which this holds.
#[cycle(walk)]
fn has_jumps_in<V: View>(view: V, jumps: Jumps<V>) -> bool
    ensures { result ≡ has_jumps_in (jumps_of V.term jumps.entry) (V.term view) }
{
    match view.form() {
        Form::Absent => true,
        Form::List => parts_have_jumps(view, jumps),
        Form::Node(kind) => {
            if !allows_jump(jumps, kind, &view) {
                false
            } else if is_labelled(kind) {
                labelled_has_jumps(view, jumps)
            } else if is_root_of_jumps(kind) {
                parts_have_jumps(view, no_jumps())
            } else {
                parts_have_jumps(view, in_statement(jumps, kind))
            }
        }
    }
}

/// Whether it is so in the parts of a labelled statement.
#[cycle(walk)]
fn labelled_has_jumps<V: View>(statement: V, jumps: Jumps<V>) -> bool
    ensures { result ≡ parts_have_jumps (in_labelled (jumps_of V.term jumps.entry) (parts_of (V.term statement))) (parts_of (V.term statement)) }
{
    let enclosing = EnclosingLabel {
        label: statement.part(0),
        of_loop: is_loop(statement.part(1)),
        outer: jumps.labels,
    };
    let inner = Jumps {
        labels: Some(&enclosing),
        breaks: jumps.breaks,
        continues: jumps.continues,
    };
    parts_have_jumps(statement, inner)
}

/// Whether it is so in each part of the list or node.
#[cycle(walk)]
fn parts_have_jumps<V: View>(view: V, jumps: Jumps<V>) -> bool
    ensures { result ≡ parts_have_jumps (jumps_of V.term jumps.entry) (parts_of (V.term view)) }
{
    for n in 0..view.count() {
        if !has_jumps_in(view.part(n), jumps) {
            return false;
        }
    }
    true
}
