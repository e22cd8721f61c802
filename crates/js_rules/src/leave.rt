ghost use Rattle.std.specs.Prelude.{◌≡◌};
ghost use Rattle.js_syntax.specs.ModuleTree.{Leave as LeaveRound, leave_inside, allows_leave, no_leave, body_leave};
ghost use Rattle.js_rules.specs.Contexts.{leave_of};

use crate::node_rule::NodeRule;
use crate::view::View;
use js_term::Kind;

/// What may stand at a place: `await`, `yield`, `return` and `new.target`.
#[derive(Clone, Copy)]
pub struct Leave {
    pub awaits: bool,
    pub yields: bool,
    pub returns: bool,
    pub has_target: bool,
}

/// Of the functions, arrows, field initializers and static blocks round a node the innermost one decides what of
/// `await`, `yield`, `return` and `new.target` may stand there.
pub struct LeaveRule;

/// Parameters, field initializers and static blocks.
fn no_leave(has_target: bool) -> Leave
    ensures { leave_of result ≡ no_leave has_target }
{
    Leave {
        awaits: false,
        yields: false,
        returns: false,
        has_target,
    }
}

/// The body of a function or arrow.
fn body_leave(is_async: bool, is_generator: bool, has_target: bool) -> Leave
    ensures { leave_of result ≡ body_leave is_async is_generator has_target }
{
    Leave {
        awaits: is_async,
        yields: is_generator,
        returns: true,
        has_target,
    }
}

impl NodeRule for LeaveRule {
    type Context = Leave;

    ghost Round = { LeaveRound };

    ghost round = { leave_of };

    ghost inside = { leave_inside };

    ghost allows = { allows_leave };

    fn inside<V: View>(context: &Leave, kind: Kind, view: &V, n: usize) -> Leave {
        match kind {
            Kind::FunctionDeclaration | Kind::FunctionExpression => {
                if n < 2 {
                    no_leave(true)
                } else {
                    body_leave(view.is_set(0), view.is_set(1), true)
                }
            }
            Kind::ArrowFunctionExpression => {
                if n == 0 {
                    no_leave(context.has_target)
                } else {
                    body_leave(view.is_set(0), false, context.has_target)
                }
            }
            Kind::PropertyDefinition => { if n == 0 { *context } else { no_leave(true) } }
            Kind::StaticBlock => no_leave(true),
            _ => *context,
        }
    }

    fn allows<V: View>(context: &Leave, kind: Kind, view: &V) -> bool {
        match kind {
            Kind::AwaitExpression => context.awaits,
            Kind::ForOfStatement => context.awaits || !view.is_set(0),
            Kind::YieldExpression => context.yields,
            Kind::ReturnStatement => context.returns,
            Kind::NewTarget => context.has_target,
            _ => true,
        }
    }
}
