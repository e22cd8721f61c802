ghost use Rattle.std.specs.Prelude.{◌≡◌};
ghost use Rattle.js_term.specs.Lexeme.{is_one_of};
ghost use Rattle.js_syntax.specs.Parts.{parts_of};
ghost use Rattle.js_syntax.specs.ModuleTree.{is_declared, declared_by, private_name, private_names};
ghost use Rattle.js_term.specs.Scope.{kid};
ghost use Rattle.js_rules.specs.OuterSeen.{declared_names, terms_of};

use crate::outer::Outer;
use crate::view::View;
use js_term::Kind;

/// Whether the element of a class declares this private name.
fn names<V: View>(element: &V, name: &str) -> bool
    ensures { result ≡ is_one_of name.now (private_name (kid 0 (parts_of (V.term element.now)))) }
{
    let key = element.part(0);
    key.is(Kind::PrivateIdentifier) && key.text_is_also(name)
}

/// Whether one of these elements declares it.
fn one_names<V: View>(elements: &V, name: &str) -> bool
    ensures { result ≡ is_one_of name.now (private_names (parts_of (V.term elements.now))) }
{
    for n in 0..elements.count() {
        if names(&elements.part(n), name) {
            return true;
        }
    }
    false
}

/// Whether the class declares it.
fn declares<V: View>(class: &V, name: &str) -> bool
    ensures { result ≡ is_one_of name.now (declared_by (parts_of (V.term class.now))) }
{
    one_names(&class.part(2).part(0), name)
}

/// Whether one of these classes declares it.
pub fn is_declared<V: View>(name: &str, classes: Option<&Outer<V>>) -> bool
    ensures { result ≡ is_declared name.now (declared_names (terms_of V.term classes.entry)) }
{
    let mut rest = classes;
    while let Some(class) = rest {
        if declares(&class.view, name) {
            return true;
        }
        rest = class.outer;
    }
    false
}
