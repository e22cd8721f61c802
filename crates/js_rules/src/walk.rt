ghost use Rattle.std.specs.Prelude.{◌≡◌, ℕ, ◌<◌, Bool, List};
ghost use Rattle.js_term.specs.Term.{Term, list, node, Terms, Text};
ghost use Rattle.js_term.specs.declared.kind.Kind.{Kind as TermKind};
ghost use Rattle.js_syntax.specs.Everywhere.{everywhere};
ghost use Rattle.js_syntax.specs.Parts.{count, parts_of, texts_of};
ghost use Rattle.js_rules.specs.Seen.{HasForm};

use crate::view::{Form, View};
use js_term::Kind;

/// A rule over a whole tree: what holds round the kids of a node, and what may stand where that holds.
pub trait Rule {
    type Context: Copy;

    ghost Round: { Type 0 };

    ghost round: { Self.Context → Round };

    ghost inside: { Round → TermKind → List Text → Terms → ℕ → Round };

    ghost item: { Round → Round };

    ghost allows: { Round → TermKind → List Text → Terms → Bool };

    ghost allows_list: { Round → Terms → Bool };

    ghost allows_absent: { Round → Bool };

    fn inside<V: View>(context: &Self::Context, kind: Kind, view: &V, n: usize) -> Self::Context
        requires { V.term view.now ≡ node kind (texts_of (V.term view.now)) (parts_of (V.term view.now)) }
        ensures { round result ≡ inside (round context.now) kind (texts_of (V.term view.now)) (parts_of (V.term view.now)) n };

    fn item(context: &Self::Context) -> Self::Context
        ensures { round result ≡ item (round context.now) };

    fn allows<V: View>(context: &Self::Context, kind: Kind, view: &V) -> bool
        requires { V.term view.now ≡ node kind (texts_of (V.term view.now)) (parts_of (V.term view.now)) }
        ensures { result ≡ allows (round context.now) kind (texts_of (V.term view.now)) (parts_of (V.term view.now)) };

    fn allows_list<V: View>(context: &Self::Context, view: &V) -> bool
        requires { V.term view.now ≡ list (parts_of (V.term view.now)) }
        ensures { result ≡ allows_list (round context.now) (parts_of (V.term view.now)) };

    fn allows_absent(context: &Self::Context) -> bool
        ensures { result ≡ allows_absent (round context.now) };
}

/// Whether the rule holds of the tree, whose root stands where the context holds.
pub fn everywhere<R: Rule, V: View>(context: R::Context, view: V) -> bool
    ensures { result ≡ everywhere R.inside R.item R.allows R.allows_list R.allows_absent (R.round context) (V.term view) }
{
    match view.form() {
        Form::Absent => R::allows_absent(&context),
        Form::List => {
            if !R::allows_list(&context, &view) {
                return false;
            }
            let inner = R::item(&context);
            for n in 0..view.count() {
                if !everywhere::<R, V>(inner, view.part(n)) {
                    return false;
                }
            }
            true
        }
        Form::Node(kind) => {
            if !R::allows(&context, kind, &view) {
                return false;
            }
            for n in 0..view.count() {
                let inner = R::inside(&context, kind, &view, n);
                if !everywhere::<R, V>(inner, view.part(n)) {
                    return false;
                }
            }
            true
        }
    }
}
