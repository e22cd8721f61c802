ghost use Rattle.std.specs.Prelude.{◌≡◌, Bool};
ghost use Rattle.js_syntax.specs.ModuleTree.{exports_inside, allows_export};

use crate::node_rule::NodeRule;
use crate::view::View;
use js_term::Kind;

/// What an export without a source exports is named by an identifier; the context says whether its specifiers stand at
/// a place.
pub struct ExportsRule;

impl NodeRule for ExportsRule {
    type Context = bool;

    ghost Round = { Bool };

    ghost round = { λ b. b };

    ghost inside = { exports_inside };

    ghost allows = { allows_export };

    fn inside<V: View>(_context: &bool, kind: Kind, _view: &V, _n: usize) -> bool {
        match kind {
            Kind::ExportNamedDeclaration => true,
            _ => false,
        }
    }

    fn allows<V: View>(context: &bool, _kind: Kind, view: &V) -> bool {
        !*context || view.part(0).is(Kind::Identifier)
    }
}
