ghost use Rattle.std.specs.Prelude.{◌≡◌};
ghost use Rattle.js_syntax.specs.Parts.{parts_of, texts_of};
ghost use Rattle.js_syntax.specs.Super.{Home as HomeRound, home_inside, allows_super, with_super, class_home, method_home, property_home, allows_object, allows_callee, is_method};
ghost use Rattle.js_rules.specs.Contexts.{home_of, super_of};

use crate::node_rule::NodeRule;
use crate::view::View;
use js_term::Kind;

/// No `super`, `super.x` alone, or `super()` too.
#[derive(Clone, Copy)]
pub enum Super {
    Nowhere,
    AsObject,
    AsCallee,
}

/// The `super` that stands at a place, in a function that begins there, and in the constructor of the class whose body
/// is there.
#[derive(Clone, Copy)]
pub struct Home {
    pub here: Super,
    pub function: Super,
    pub constructor: Super,
}

/// `super.x` stands in methods, field initializers, static blocks and arrows there; `super()` in constructors of
/// classes with heritage, and arrows there.
pub struct SuperRule;

fn with_super(here: Super) -> Home
    ensures { home_of result ≡ with_super (super_of here) }
{
    Home {
        here,
        function: Super::Nowhere,
        constructor: Super::Nowhere,
    }
}

/// Inside a class, where a constructor is known by the class's heritage.
fn class_home<V: View>(home: &Home, heritage: &V) -> Home
    ensures { home_of result ≡ class_home (home_of home.now) (V.term heritage.now) }
{
    Home {
        here: home.here,
        function: Super::Nowhere,
        constructor: if heritage.is_present() {
            Super::AsCallee
        } else {
            Super::AsObject
        },
    }
}

/// Round the function of a method.
fn method_home(home: &Home, is_constructor: bool) -> Home
    ensures { home_of result ≡ method_home (home_of home.now) is_constructor }
{
    Home {
        here: home.here,
        function: if is_constructor {
            home.constructor
        } else {
            Super::AsObject
        },
        constructor: Super::Nowhere,
    }
}

/// Round the value of a property, which may be a method.
fn property_home(home: &Home, is_method: bool) -> Home
    ensures { home_of result ≡ property_home (home_of home.now) is_method }
{
    Home {
        here: home.here,
        function: if is_method {
            Super::AsObject
        } else {
            Super::Nowhere
        },
        constructor: Super::Nowhere,
    }
}

fn is_method<V: View>(property: &V) -> bool
    ensures { result ≡ is_method (texts_of (V.term property.now)) }
{
    property.text_is("get") || property.text_is("set") || property.is_set(1)
}

fn allows_object(form: Super) -> bool
    ensures { result ≡ allows_object (super_of form) }
{
    match form {
        Super::Nowhere => false,
        _ => true,
    }
}

fn allows_callee(form: Super) -> bool
    ensures { result ≡ allows_callee (super_of form) }
{
    match form {
        Super::AsCallee => true,
        _ => false,
    }
}

impl NodeRule for SuperRule {
    type Context = Home;

    ghost Round = { HomeRound };

    ghost round = { home_of };

    ghost inside = { home_inside };

    ghost allows = { allows_super };

    fn inside<V: View>(context: &Home, kind: Kind, view: &V, n: usize) -> Home {
        match kind {
            Kind::FunctionDeclaration => with_super(Super::Nowhere),
            Kind::FunctionExpression => with_super(context.function),
            Kind::ClassDeclaration | Kind::ClassExpression => class_home(context, &view.part(1)),
            Kind::ClassBody => *context,
            Kind::MethodDefinition if n > 0 => method_home(context, view.text_is("constructor")),
            Kind::ObjectProperty if n > 0 => property_home(context, is_method(view)),
            Kind::PropertyDefinition if n > 0 => with_super(Super::AsObject),
            Kind::StaticBlock => with_super(Super::AsObject),
            _ => with_super(context.here),
        }
    }

    fn allows<V: View>(context: &Home, kind: Kind, view: &V) -> bool {
        let is_super = view.part(0).is(Kind::Super);
        match kind {
            Kind::StaticMemberExpression | Kind::ComputedMemberExpression => {
                !is_super || allows_object(context.here)
            }
            Kind::CallExpression => !is_super || allows_callee(context.here),
            _ => true,
        }
    }
}
