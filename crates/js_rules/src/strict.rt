ghost use Rattle.std.specs.Prelude.{◌≡◌};
ghost use Rattle.js_term.specs.Kinds.{is_among};
ghost use Rattle.js_syntax.specs.Parts.{texts_of};
ghost use Rattle.js_syntax.specs.ModuleTree.{is_strict_name, target_inside, allows_name, arguments_inside, allows_arguments, the_same, allows_length, names};
ghost use Rattle.std.specs.Prelude.{Bool};

use crate::node_rule::NodeRule;
use crate::view::View;
use js_term::Kind;

/// No binding and no simple target is `arguments` or `eval`; the context says whether a target stands at a place.
pub struct TargetRule;

/// No `arguments` of its own in field initializers and static blocks; the context says whether a place has none.
pub struct ArgumentsRule;

/// Names have at most 65535 bytes.
pub struct LengthRule;

fn is_strict_name<V: View>(name: &V) -> bool
    ensures { result ≡ is_strict_name (texts_of (V.term name.now)) }
{
    !(name.text_is("arguments") || name.text_is("eval"))
}

impl NodeRule for TargetRule {
    type Context = bool;

    ghost Round = { Bool };

    ghost round = { λ b. b };

    ghost inside = { target_inside };

    ghost allows = { allows_name };

    fn inside<V: View>(_context: &bool, kind: Kind, _view: &V, n: usize) -> bool {
        match kind {
            Kind::AssignmentExpression
            | Kind::ForInStatement
            | Kind::ForOfStatement
            | Kind::AssignmentTargetWithDefault => n == 0,
            Kind::AssignmentTargetProperty => n > 0,
            Kind::UpdateExpression | Kind::ArrayAssignmentTarget | Kind::AssignmentTargetRest =>
                true,
            _ => false,
        }
    }

    fn allows<V: View>(context: &bool, kind: Kind, view: &V) -> bool {
        match kind {
            Kind::BindingIdentifier => is_strict_name(view),
            Kind::Identifier => !*context || is_strict_name(view),
            _ => true,
        }
    }
}

impl NodeRule for ArgumentsRule {
    type Context = bool;

    ghost Round = { Bool };

    ghost round = { λ b. b };

    ghost inside = { arguments_inside };

    ghost allows = { allows_arguments };

    fn inside<V: View>(context: &bool, kind: Kind, _view: &V, n: usize) -> bool {
        match kind {
            Kind::FunctionDeclaration | Kind::FunctionExpression => false,
            Kind::PropertyDefinition if n > 0 => true,
            Kind::StaticBlock => true,
            _ => *context,
        }
    }

    fn allows<V: View>(context: &bool, kind: Kind, view: &V) -> bool {
        match kind {
            Kind::Identifier => !(*context && view.text_is("arguments")),
            _ => true,
        }
    }
}

fn is_name(kind: Kind) -> bool
    ensures { result ≡ is_among kind names }
{
    matches!(
        kind,
        Kind::BindingIdentifier
            | Kind::Identifier
            | Kind::IdentifierName
            | Kind::PrivateIdentifier
            | Kind::LabelIdentifier
    )
}

impl NodeRule for LengthRule {
    type Context = ();

    ghost Round = { Unit {0} };

    ghost round = { λ u. tt };

    ghost inside = { the_same };

    ghost allows = { allows_length };

    fn inside<V: View>(_context: &(), _kind: Kind, _view: &V, _n: usize) -> () {}

    fn allows<V: View>(_context: &(), kind: Kind, view: &V) -> bool {
        !is_name(kind) || view.text().len() <= 65535
    }
}
