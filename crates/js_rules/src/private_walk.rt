ghost use Rattle.std.specs.Prelude.{◌≡◌};
ghost use Rattle.js_syntax.specs.Everywhere.{first_two_then};
ghost use Rattle.js_syntax.specs.Parts.{parts_of};
ghost use Rattle.js_rules.specs.OuterSeen.{declared_names, terms_of, has_private_names_in, parts_have_private_names, is_class};

use crate::outer::Outer;
use crate::private::is_declared;
use crate::view::{Form, View};
use js_term::{Kind, is_kind};

/// Whether private names are declared by a class round them, of the classes given and those of the tree.
#[cycle(private)]
pub fn has_private_names<V: View>(view: V, classes: Option<&Outer<V>>) -> bool
    ensures { result ≡ has_private_names_in (declared_names (terms_of V.term classes.entry)) (V.term view) }
{
    match view.form() {
        Form::Absent => true,
        Form::List => parts_have_private_names(view, classes, classes),
        Form::Node(kind) => {
            if is_kind(kind, Kind::PrivateIdentifier) && !is_declared(view.text(), classes) {
                return false;
            }
            if is_class(kind) {
                let here = Outer {
                    view,
                    outer: classes,
                };
                parts_have_private_names(view, classes, Some(&here))
            } else {
                parts_have_private_names(view, classes, classes)
            }
        }
    }
}

fn is_class(kind: Kind) -> bool
    ensures { result ≡ is_class kind }
{
    is_kind(kind, Kind::ClassDeclaration) || is_kind(kind, Kind::ClassExpression)
}

/// The classes round the part numbered `n` of a node. The first two parts of a class, its name and its heritage, stand
/// outside it, and its body inside.
fn classes_round<'a, V: View>(
    n: usize,
    outside: Option<&'a Outer<'a, V>>,
    inside: Option<&'a Outer<'a, V>>,
) -> Option<&'a Outer<'a, V>>
    ensures { declared_names (terms_of V.term result) ≡ first_two_then (declared_names (terms_of V.term outside.entry)) (declared_names (terms_of V.term inside.entry)) n }
{
    if n < 2 { outside } else { inside }
}

/// Whether they are so in each part of the list or node: in the first two by the classes outside, in the others by those
/// inside.
#[cycle(private)]
fn parts_have_private_names<V: View>(
    view: V,
    outside: Option<&Outer<V>>,
    inside: Option<&Outer<V>>,
) -> bool
    ensures { result ≡ parts_have_private_names (declared_names (terms_of V.term outside.entry)) (declared_names (terms_of V.term inside.entry)) (parts_of (V.term view)) }
{
    for n in 0..view.count() {
        if !has_private_names(view.part(n), classes_round(n, outside, inside)) {
            return false;
        }
    }
    true
}
