//! Expressions with their depths, as they are made.

ghost use Rattle.std.specs.Prelude.{◌≡◌, ◌<◌, ◌≤◌, ◌+◌, ◌^◌, max, map, IfOk};
ghost use Rattle.js_term.specs.Term as t;
ghost use Rattle.js_term.specs.Node as node;
ghost use Rattle.js_term.specs.Spells as spell;
ghost use Rattle.small_tree.specs.TermOf.{expression_term};

use small_tree::{
    Boxed, CallExpression, Expression, Ident, IdentifierName, IdentifierReference, Items,
    NumericLiteral, Span, StaticMemberExpression, StringLiteral,
};
use std::alloc::{AllocError, Global};

/// An expression and its depth.
#[derive(Drop)]
pub(crate) struct Found {
    pub(crate) tree: Expression,
    pub(crate) depth: usize,
    ghost deep: { depth ≡ t.depth (expression_term tree) },
    ghost some: { 0 < depth },
}

/// Expressions, and the depth of the deepest.
#[derive(Drop)]
pub(crate) struct Listing {
    pub(crate) items: Items<Expression>,
    pub(crate) deepest: usize,
    ghost deep: { deepest ≡ t.depths (t.all (map expression_term items)) },
}

#[tactic(auto, using(small_tree::proofs::Levels::e_Identifier))]
pub(crate) fn identifier(span: Span, name: Ident) -> Found
    ensures depth { result.depth ≡ 1 }
    ensures tree { expression_term result.tree ≡ node.identifier_of name }
{
    Found {
        tree: Expression::Identifier(IdentifierReference {
            span,
            name,
            reference_id: None,
        }),
        depth: 1,
    }
}

#[tactic(auto, using(small_tree::proofs::Levels::e_NumericLiteral))]
pub(crate) fn number(span: Span, raw: Ident) -> Found
    ensures depth { result.depth ≡ 1 }
    ensures tree { expression_term result.tree ≡ node.number_of raw }
{
    Found {
        tree: Expression::NumericLiteral(NumericLiteral { span, raw }),
        depth: 1,
    }
}

#[tactic(auto, using(small_tree::proofs::Levels::e_StringLiteral))]
pub(crate) fn string(literal: StringLiteral) -> Found
    ensures depth { result.depth ≡ 1 }
    ensures tree { expression_term result.tree ≡ node.string_of literal.value }
{
    Found {
        tree: Expression::StringLiteral(literal),
        depth: 1,
    }
}

#[tactic(auto, using(small_tree::proofs::Levels::e_StaticMemberExpression))]
pub(crate) fn member(
    alloc: Global,
    span: Span,
    object: Found,
    property: IdentifierName,
) -> Result<Found, AllocError>
    requires { object.depth < 2 ^ 32 }
    ensures depth { IfOk result (λ f. f.depth ≡ object.depth + 1) }
    ensures tree { IfOk result (λ f. expression_term f.tree ≡ node.member_of (expression_term object.tree) property.name) }
{
    let depth = object.depth + 1;
    let object = Boxed::new(alloc, object.tree)?;
    Ok(Found {
        tree: Expression::StaticMemberExpression(StaticMemberExpression {
            span,
            object,
            property,
            optional: false,
        }),
        depth,
    })
}

#[tactic(auto, using(small_tree::proofs::Levels::e_CallExpression))]
pub(crate) fn call(
    alloc: Global,
    span: Span,
    callee: Found,
    arguments: Listing,
) -> Result<Found, AllocError>
    requires callee { callee.depth < 2 ^ 32 }
    requires arguments { arguments.deepest < 2 ^ 32 }
    ensures depth { IfOk result (λ f. f.depth ≡ max callee.depth arguments.deepest + 1) }
    ensures tree { IfOk result (λ f. expression_term f.tree ≡ node.call_of (expression_term callee.tree) (t.all (map expression_term arguments.items))) }
{
    let depth = callee.depth.max(arguments.deepest) + 1;
    let callee = Boxed::new(alloc, callee.tree)?;
    Ok(Found {
        tree: Expression::CallExpression(CallExpression {
            span,
            callee,
            arguments: arguments.items,
            optional: false,
        }),
        depth,
    })
}

/// Whether an expression is a string.
pub(crate) fn is_string(tree: &Expression) -> bool
    ensures { result ≡ spell.is_string_literal (expression_term tree.now) }
{
    matches!(tree, Expression::StringLiteral(_))
}
