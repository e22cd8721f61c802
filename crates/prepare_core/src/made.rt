//! The nodes that the runner makes. They stand nowhere in the text that the module was read from.
ghost use Rattle.js_term.specs.Node.{identifier_of, string_of, member_of, call_of, property_of, boolean_of};
ghost use Rattle.js_term.specs.Term.{all};
ghost use Rattle.small_tree.specs.TermOf.{expression_term, property_term};
ghost use Rattle.module_model.specs.Shape.{import_name, detached};
ghost use Rattle.std.specs.Prelude.{◌≡◌, IfOk, map, true};

use crate::imported::Import;
use crate::rebuilt::sequence;
use crate::room::room;
use small_tree::{
    BooleanLiteral, Boxed, CallExpression, Expression, Ident, IdentifierName, IdentifierReference,
    Items, NumericLiteral, ObjectProperty, PropertyKind, Span, StaticMemberExpression,
    StringLiteral,
};
use std::alloc::{AllocError, Global};

pub(crate) const MADE: Span = Span { start: 0, end: 0 };

#[tactic(auto, using(crate::proofs::Nodes::identifier_made))]
fn identifier(name: Ident) -> Expression
    ensures { expression_term result ≡ identifier_of name }
{
    Expression::Identifier(IdentifierReference {
        span: MADE,
        name,
        reference_id: None,
    })
}

pub(crate) fn identifier_named(name: &Ident) -> Result<Expression, AllocError>
    ensures { IfOk result (λ it. expression_term it ≡ identifier_of name.now) }
{
    Ok(identifier(name.clone()?))
}

#[tactic(auto, using(crate::proofs::Nodes::string_made))]
pub(crate) fn string(value: Ident) -> Expression
    ensures { expression_term result ≡ string_of value }
{
    Expression::StringLiteral(StringLiteral { span: MADE, value })
}

#[tactic(auto, using(crate::proofs::Nodes::member_made))]
pub(crate) fn member(
    alloc: Global,
    object: Expression,
    name: Ident,
) -> Result<Expression, AllocError>
    ensures { IfOk result (λ it. expression_term it ≡ member_of (expression_term object) name) }
{
    Ok(Expression::StaticMemberExpression(StaticMemberExpression {
        span: MADE,
        object: Boxed::new(alloc, object)?,
        property: IdentifierName { span: MADE, name },
        optional: false,
    }))
}

#[tactic(auto, using(crate::proofs::Nodes::call_made))]
pub(crate) fn call(
    alloc: Global,
    callee: Expression,
    arguments: Items<Expression>,
) -> Result<Expression, AllocError>
    ensures { IfOk result (λ it. expression_term it ≡ call_of (expression_term callee) (all (map expression_term arguments))) }
{
    Ok(Expression::CallExpression(CallExpression {
        span: MADE,
        callee: Boxed::new(alloc, callee)?,
        arguments,
        optional: false,
    }))
}

pub(crate) fn property(
    alloc: Global,
    key: &Ident,
    value: Expression,
) -> Result<ObjectProperty, AllocError>
    ensures { IfOk result (λ it. property_term expression_term it ≡ property_of key.now (expression_term value)) }
{
    let name = key.clone()?;
    Ok(ObjectProperty {
        span: MADE,
        kind: PropertyKind::Init,
        key: IdentifierName { span: MADE, name },
        value: Boxed::new(alloc, value)?,
        method: false,
        shorthand: false,
        computed: false,
    })
}

#[tactic(auto, using(crate::proofs::Nodes::true_made))]
pub(crate) fn true_property(alloc: Global, key: &Ident) -> Result<ObjectProperty, AllocError>
    ensures { IfOk result (λ it. property_term expression_term it ≡ property_of key.now (boolean_of true)) }
{
    let value = Expression::BooleanLiteral(BooleanLiteral {
        span: MADE,
        value: true,
    });
    property(alloc, key, value)
}

/// `(0, value)`: a call of it passes no `this`.
#[tactic(auto, using(crate::proofs::Nodes::number_made))]
pub(crate) fn detach(alloc: Global, value: Expression) -> Result<Expression, AllocError>
    ensures { IfOk result (λ it. expression_term it ≡ detached (expression_term value)) }
{
    let raw = Ident::new(alloc, "0")?;
    let mut expressions = room(alloc, 2)?;
    expressions.push(Expression::NumericLiteral(NumericLiteral { span: MADE, raw }))?;
    expressions.push(value)?;
    Ok(sequence(MADE, expressions))
}

pub(crate) fn import_text(alloc: Global, number: usize) -> Result<Ident, AllocError>
    ensures { IfOk result (λ it. it ≡ import_name number) }
{
    let text = format!(in alloc; "__vite_ssr_import_{number}__")?;
    Ident::new(alloc, text.as_str())
}

/// The member of its request that an imported name stands for.
pub(crate) fn import_member(alloc: Global, import: &Import) -> Result<Expression, AllocError>
    ensures { IfOk result (λ it. expression_term it ≡ member_of (identifier_of (import_name import.now.request)) import.now.name) }
{
    let object = identifier_named(&import.object)?;
    member(alloc, object, import.name.clone()?)
}
