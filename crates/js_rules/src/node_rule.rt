ghost use Rattle.std.specs.Prelude.{◌≡◌, ℕ, Bool, List, true};
ghost use Rattle.js_term.specs.Term.{node, Terms, Text};
ghost use Rattle.js_term.specs.declared.kind.Kind.{Kind as TermKind};
ghost use Rattle.js_syntax.specs.Everywhere.{at_each_node};
ghost use Rattle.js_syntax.specs.Parts.{parts_of, texts_of};

use crate::view::View;
use crate::walk::{Rule, everywhere};
use js_term::Kind;
use std::marker::PhantomData;

/// A rule that asks at nodes alone; what holds round a list holds round its items.
pub trait NodeRule {
    type Context: Copy;

    ghost Round: { Type 0 };

    ghost round: { Self.Context → Round };

    ghost inside: { Round → TermKind → List Text → Terms → ℕ → Round };

    ghost allows: { Round → TermKind → List Text → Terms → Bool };

    /// What holds round the kid numbered `n`.
    fn inside<V: View>(context: &Self::Context, kind: Kind, view: &V, n: usize) -> Self::Context
        requires { V.term view.now ≡ node kind (texts_of (V.term view.now)) (parts_of (V.term view.now)) }
        ensures { round result ≡ inside (round context.now) kind (texts_of (V.term view.now)) (parts_of (V.term view.now)) n };

    /// Whether the node may stand where the context holds.
    fn allows<V: View>(context: &Self::Context, kind: Kind, view: &V) -> bool
        requires { V.term view.now ≡ node kind (texts_of (V.term view.now)) (parts_of (V.term view.now)) }
        ensures { result ≡ allows (round context.now) kind (texts_of (V.term view.now)) (parts_of (V.term view.now)) };
}

/// The rule that asks so at each node.
pub struct AtEachNode<R>(PhantomData<R>);

impl<R: NodeRule> Rule for AtEachNode<R> {
    type Context = R::Context;

    ghost Round = { R.Round };

    ghost round = { R.round };

    ghost inside = { R.inside };

    ghost item = { λ c. c };

    ghost allows = { R.allows };

    ghost allows_list = { λ c ts. true };

    ghost allows_absent = { λ c. true };

    fn inside<V: View>(context: &R::Context, kind: Kind, view: &V, n: usize) -> R::Context {
        R::inside(context, kind, view, n)
    }

    fn item(context: &R::Context) -> R::Context {
        *context
    }

    fn allows<V: View>(context: &R::Context, kind: Kind, view: &V) -> bool {
        R::allows(context, kind, view)
    }

    fn allows_list<V: View>(_context: &R::Context, _view: &V) -> bool {
        true
    }

    fn allows_absent(_context: &R::Context) -> bool {
        true
    }
}

/// Whether the rule holds of the tree, whose root stands where the context holds.
pub fn at_each_node<R: NodeRule, V: View>(context: R::Context, view: V) -> bool
    ensures { result ≡ at_each_node R.inside R.allows (R.round context) (V.term view) }
{
    everywhere::<AtEachNode<R>, V>(context, view)
}
