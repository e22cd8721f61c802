ghost use Rattle.std.specs.Prelude.{◌≡◌, nat_le};
ghost use Rattle.js_syntax.specs.Parts.{parts_of, texts_of, count_if};
ghost use Rattle.js_syntax.specs.ModuleTree.{Initializers as InitializersRound, initializers_inside, allows_part, declaration_asks, is_initialized, has_parameters, is_accessor, is_constructor};
ghost use Rattle.js_rules.specs.Contexts.{initializers_of};

use crate::node_rule::NodeRule;
use crate::view::{View, one_if};
use js_term::Kind;

/// Which declarators at a place have an initializer; a declaration in the head of `for .. in` or `for .. of` stands
/// `InHead`.
#[derive(Clone, Copy)]
pub enum Initializers {
    OfAll,
    OfPatterns,
    OfNone,
    InHead,
}

/// Getters have no, setters one parameter; `const` declarators and patterns outside loop heads have an initializer; a
/// class has at most one constructor.
pub struct PartsRule;

fn declaration_asks<V: View>(context: Initializers, declaration: &V) -> Initializers
    ensures { initializers_of result ≡ declaration_asks (initializers_of context) (texts_of (V.term declaration.now)) }
{
    match context {
        Initializers::InHead => Initializers::OfNone,
        _ => {
            if declaration.text_is("const") {
                Initializers::OfAll
            } else {
                Initializers::OfPatterns
            }
        }
    }
}

fn is_initialized<V: View>(context: Initializers, declarator: &V) -> bool
    ensures { result ≡ is_initialized (initializers_of context) (parts_of (V.term declarator.now)) }
{
    match context {
        Initializers::OfAll => declarator.part(1).is_present(),
        Initializers::OfPatterns => {
            declarator.part(0).is(Kind::BindingIdentifier) || declarator.part(1).is_present()
        }
        _ => true,
    }
}

fn has_parameters<V: View>(n: usize, function: &V) -> bool
    ensures { result ≡ has_parameters n (V.term function.now) }
{
    let parameters = function.part(1);
    parameters.part(0).count() == n && !parameters.part(1).is_present()
}

fn is_accessor<V: View>(method: &V) -> bool
    ensures { result ≡ is_accessor (texts_of (V.term method.now)) (parts_of (V.term method.now)) }
{
    let function = method.part(1);
    (!method.text_is("get") || has_parameters(0, &function))
        && (!method.text_is("set") || has_parameters(1, &function))
}

impl NodeRule for PartsRule {
    type Context = Initializers;

    ghost Round = { InitializersRound };

    ghost round = { initializers_of };

    ghost inside = { initializers_inside };

    ghost allows = { allows_part };

    fn inside<V: View>(context: &Initializers, kind: Kind, view: &V, n: usize) -> Initializers {
        match kind {
            Kind::ForInStatement | Kind::ForOfStatement if n == 0 => Initializers::InHead,
            Kind::VariableDeclaration => declaration_asks(*context, view),
            _ => Initializers::OfNone,
        }
    }

    fn allows<V: View>(context: &Initializers, kind: Kind, view: &V) -> bool {
        match kind {
            Kind::VariableDeclarator => is_initialized(*context, view),
            Kind::MethodDefinition | Kind::ObjectProperty => is_accessor(view),
            Kind::ClassBody => has_one_constructor(&view.part(0)),
            _ => true,
        }
    }
}

fn is_constructor<V: View>(element: &V) -> bool
    ensures { result ≡ is_constructor (V.term element.now) }
{
    element.is(Kind::MethodDefinition) && element.text_is("constructor")
}

/// Whether at most one of these elements is a constructor.
fn has_one_constructor<V: View>(elements: &V) -> bool
    ensures { result ≡ nat_le (count_if is_constructor (parts_of (V.term elements.now))) 1 }
{
    let mut number = 0;
    for n in 0..elements.count() {
        number += one_if(is_constructor(&elements.part(n)));
    }
    number <= 1
}
