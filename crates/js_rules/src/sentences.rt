ghost use Rattle.std.specs.Prelude.{◌≡◌, ◌<◌, ◌≤◌, ◌+◌, nat_le};
ghost use Rattle.js_term.specs.Scope.{kid};
ghost use Rattle.js_term.specs.declared.kind.Kind.TheVariants.{ImportSpecifier};
ghost use Rattle.js_syntax.specs.Parts.{parts_of, texts_of, text_of, text_at, count, count_if, each, is_node};
ghost use Rattle.js_syntax.specs.Printable.{ends_open, leaves_else, is_named, is_for_of, is_try, is_default, is_switch, is_template, are_plain_specifiers, is_import_clause, is_constructor_key, is_method_definition, is_value_of, is_one_name, marks_shorthand, is_property, is_sound};
ghost use Rattle.js_rules.specs.Seen.{from};

use crate::view::{Form, View, one_if};
use js_term::Kind;

/// Whether the statement ends in an `if` without `else`.
#[tactic(auto, using(crate::proofs::Parts::node_part_is_smaller, crate::proofs::Spines::kid_open))]
fn ends_open<V: View>(view: V) -> bool
    ensures { result ≡ ends_open (V.term view) }
{
    let Form::Node(kind) = view.form() else {
        return false;
    };
    match kind {
        Kind::IfStatement => !view.part(2).is_present() || ends_open(view.part(2)),
        Kind::LabeledStatement | Kind::WhileStatement => ends_open(view.part(1)),
        Kind::ForStatement => ends_open(view.part(3)),
        Kind::ForInStatement | Kind::ForOfStatement => ends_open(view.part(2)),
        _ => false,
    }
}

fn leaves_else<V: View>(statement: &V) -> bool
    ensures { result ≡ leaves_else (parts_of (V.term statement.now)) }
{
    !statement.part(2).is_present() || !ends_open(statement.part(1))
}

fn is_for_of<V: View>(statement: &V) -> bool
    ensures { result ≡ is_for_of (texts_of (V.term statement.now)) (parts_of (V.term statement.now)) }
{
    let left = statement.part(0);
    statement.is_set(0) || !(left.is(Kind::Identifier) && left.text_is("async"))
}

fn is_default<V: View>(case: &V) -> bool
    ensures { result ≡ is_default (V.term case.now) }
{
    !case.part(0).is_present()
}

/// Whether at most one case of these is a default.
fn has_one_default<V: View>(cases: &V) -> bool
    ensures { result ≡ nat_le (count_if is_default (parts_of (V.term cases.now))) 1 }
{
    let mut number = 0;
    for n in 0..cases.count() {
        number += one_if(is_default(&cases.part(n)));
    }
    number <= 1
}

/// Whether there is one text more than expressions.
fn is_template<V: View>(template: &V) -> bool
    ensures { result ≡ is_template (parts_of (V.term template.now)) }
{
    let texts = template.part(0).count();
    texts > 0 && texts - 1 == template.part(1).count()
}

/// Whether each of the specifiers from `start` on names an import.
fn are_named<V: View>(specifiers: &V, start: usize) -> bool
    ensures { result ≡ each (is_node ImportSpecifier) (from start (parts_of (V.term specifiers.now))) }
{
    for n in start..specifiers.count() {
        if !specifiers.part(n).is(Kind::ImportSpecifier) {
            return false;
        }
    }
    true
}

/// Whether the specifiers from `start` on are one that is no default, or all name imports.
#[tactic(auto, using(crate::proofs::Clauses::plain_one, crate::proofs::Clauses::plain_others))]
fn are_plain_specifiers<V: View>(specifiers: &V, start: usize) -> bool
    requires { start ≤ 1 }
    ensures { result ≡ are_plain_specifiers (from start (parts_of (V.term specifiers.now))) }
{
    if specifiers.count() == start + 1 {
        !specifiers.part(start).is(Kind::ImportDefaultSpecifier)
    } else {
        are_named(specifiers, start)
    }
}

/// Whether a default specifier is the first, and a namespace specifier the last, behind at most a default one.
#[tactic(auto, using(crate::proofs::Clauses::clause_of))]
fn is_import_clause<V: View>(specifiers: &V) -> bool
    ensures { result ≡ is_import_clause (parts_of (V.term specifiers.now)) }
{
    let start = one_if(specifiers.part(0).is(Kind::ImportDefaultSpecifier));
    are_plain_specifiers(specifiers, start)
}

fn is_constructor_key<V: View>(key: &V) -> bool
    ensures { result ≡ is_constructor_key (V.term key.now) }
{
    (key.is(Kind::IdentifierName) || key.is(Kind::StringLiteral)) && key.text_is("constructor")
}

/// Whether the kind `constructor` stands where it has to.
fn is_method_definition<V: View>(method: &V) -> bool
    ensures { result ≡ is_method_definition (texts_of (V.term method.now)) (parts_of (V.term method.now)) }
{
    let has_key = !method.is_set(1) && !method.is_set(2) && is_constructor_key(&method.part(0));
    method.text_is("constructor") == has_key
}

/// Whether the value, or the left side of its default, is this name.
#[tactic(auto, using(crate::proofs::Parts::node_part_is_smaller, crate::proofs::Spines::first_value))]
fn is_value_of<V: View>(name: &str, value: V) -> bool
    ensures { result ≡ is_value_of name.now (V.term value) }
{
    let Form::Node(kind) = value.form() else {
        return false;
    };
    match kind {
        Kind::Identifier | Kind::BindingIdentifier => value.text_is(name),
        Kind::AssignmentPattern | Kind::AssignmentTargetWithDefault => {
            is_value_of(name, value.part(0))
        }
        _ => false,
    }
}

fn is_one_name<V: View>(property: &V) -> bool
    ensures { result ≡ is_one_name (parts_of (V.term property.now)) }
{
    let key = property.part(0);
    key.is(Kind::IdentifierName) && is_value_of(key.text(), property.part(1))
}

fn marks_shorthand<V: View>(property: &V, mark: usize) -> bool
    ensures { result ≡ marks_shorthand (text_at mark (texts_of (V.term property.now))) (parts_of (V.term property.now)) }
{
    !property.is_set(mark) || is_one_name(property)
}

fn is_property<V: View>(property: &V) -> bool
    ensures { result ≡ is_property (texts_of (V.term property.now)) (parts_of (V.term property.now)) }
{
    (property.text_is("init") || !property.is_set(1)) && marks_shorthand(property, 2)
}

/// Whether the sentences on nodes of the kind hold.
pub fn is_sound<V: View>(kind: Kind, view: &V) -> bool
    ensures { result ≡ is_sound kind (texts_of (V.term view.now)) (parts_of (V.term view.now)) }
{
    match kind {
        Kind::IfStatement => leaves_else(view),
        Kind::ForOfStatement => is_for_of(view),
        Kind::TryStatement => view.part(1).is_present() || view.part(2).is_present(),
        Kind::SwitchStatement => has_one_default(&view.part(1)),
        Kind::TemplateLiteral => is_template(view),
        Kind::ImportDeclaration => is_import_clause(&view.part(0)),
        Kind::MethodDefinition => is_method_definition(view),
        Kind::ObjectProperty => is_property(view),
        Kind::BindingProperty | Kind::AssignmentTargetProperty => marks_shorthand(view, 1),
        _ => true,
    }
}
