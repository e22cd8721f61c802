ghost use Rattle.std.specs.Prelude.{◌≡◌, Bool};
ghost use Rattle.js_syntax.specs.Parts.{parts_of, texts_of};
ghost use Rattle.js_syntax.specs.Printable.{spine_inside, allows_links, has_link};

use crate::node_rule::NodeRule;
use crate::view::{Form, View};
use js_term::Kind;

/// Optional links stand only on the spine of a chain, and each chain has one; the context says whether a place is on a
/// spine.
pub struct LinksRule;

/// Whether there is an optional link on the spine that begins here.
#[tactic(auto, using(crate::proofs::Parts::node_part_is_smaller, crate::proofs::Spines::first_link))]
fn has_link<V: View>(view: V) -> bool
    ensures { result ≡ has_link (V.term view) }
{
    let Form::Node(kind) = view.form() else {
        return false;
    };
    match kind {
        Kind::CallExpression
        | Kind::StaticMemberExpression
        | Kind::ComputedMemberExpression
        | Kind::PrivateFieldExpression => view.is_set(0) || has_link(view.part(0)),
        _ => false,
    }
}

impl NodeRule for LinksRule {
    type Context = bool;

    ghost Round = { Bool };

    ghost round = { λ b. b };

    ghost inside = { spine_inside };

    ghost allows = { allows_links };

    fn inside<V: View>(context: &bool, kind: Kind, _view: &V, n: usize) -> bool {
        match kind {
            Kind::ChainExpression => true,
            Kind::CallExpression
            | Kind::StaticMemberExpression
            | Kind::ComputedMemberExpression
            | Kind::PrivateFieldExpression => *context && n == 0,
            _ => false,
        }
    }

    #[tactic(auto, using(crate::proofs::Spines::first_link))]
    fn allows<V: View>(context: &bool, kind: Kind, view: &V) -> bool {
        match kind {
            Kind::ChainExpression => has_link(view.part(0)),
            Kind::CallExpression
            | Kind::StaticMemberExpression
            | Kind::ComputedMemberExpression
            | Kind::PrivateFieldExpression => *context || !view.is_set(0),
            _ => true,
        }
    }
}
