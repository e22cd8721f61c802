//! Nodes of a tree with other parts, at their places in the text.
ghost use Rattle.js_term.specs.Node.{array_of, await_of, object_of, parenthesized_of, return_of, sequence_of, statement_of};
ghost use Rattle.js_term.specs.Term.{all, maybe};
ghost use Rattle.small_tree.specs.TermOf.{declarator_term, expression_term, function_term, property_term, statement_term};
ghost use Rattle.prepare_core.specs.Carried.{call_with, declarator_with, function_with, member_with, property_with};
ghost use Rattle.std.specs.Prelude.{◌≡◌, IfOk, map, option_map};

use crate::copies::{copy_directives, copy_id, copy_parameters};
use small_tree::{
    ArrayExpression, AwaitExpression, Boxed, CallExpression, Expression, ExpressionStatement,
    FormalParameters, Function, FunctionBody, Items, ObjectExpression, ObjectProperty,
    ParenthesizedExpression, ReturnStatement, SequenceExpression, Span, Statement,
    StaticMemberExpression, VariableDeclaration, VariableDeclarator,
};
use std::alloc::{AllocError, Global};

#[tactic(auto, using(crate::proofs::Nodes::array_made))]
pub(crate) fn array(span: Span, elements: Items<Expression>) -> Expression
    ensures { expression_term result ≡ array_of (all (map expression_term elements)) }
{
    Expression::ArrayExpression(ArrayExpression { span, elements })
}

#[tactic(auto, using(crate::proofs::Nodes::await_made))]
pub(crate) fn awaited(span: Span, argument: Boxed<Expression>) -> Expression
    ensures { expression_term result ≡ await_of (expression_term argument) }
{
    Expression::AwaitExpression(AwaitExpression { span, argument })
}

#[tactic(auto, using(crate::proofs::Nodes::object_made))]
pub(crate) fn object(span: Span, properties: Items<ObjectProperty>) -> Expression
    ensures { expression_term result ≡ object_of (all (map (property_term expression_term) properties)) }
{
    Expression::ObjectExpression(ObjectExpression { span, properties })
}

#[tactic(auto, using(crate::proofs::Nodes::parenthesized_made))]
pub(crate) fn parenthesized(span: Span, expression: Boxed<Expression>) -> Expression
    ensures { expression_term result ≡ parenthesized_of (expression_term expression) }
{
    Expression::ParenthesizedExpression(ParenthesizedExpression { span, expression })
}

#[tactic(auto, using(crate::proofs::Nodes::sequence_made))]
pub(crate) fn sequence(span: Span, expressions: Items<Expression>) -> Expression
    ensures { expression_term result ≡ sequence_of (all (map expression_term expressions)) }
{
    Expression::SequenceExpression(SequenceExpression { span, expressions })
}

#[tactic(auto, using(crate::proofs::Nodes::effect_made))]
pub(crate) fn effect(span: Span, expression: Boxed<Expression>) -> Statement
    ensures { statement_term result ≡ statement_of (expression_term expression) }
{
    Statement::ExpressionStatement(ExpressionStatement { span, expression })
}

#[tactic(auto, using(crate::proofs::Nodes::return_made))]
pub(crate) fn returned(span: Span, argument: Option<Boxed<Expression>>) -> Statement
    ensures { statement_term result ≡ return_of (maybe (option_map expression_term argument)) }
{
    Statement::ReturnStatement(ReturnStatement { span, argument })
}

/// `n` with other declarators.
pub(crate) fn with_declarators(
    n: &VariableDeclaration,
    declarations: Items<VariableDeclarator>,
) -> VariableDeclaration
    ensures kind { result.kind ≡ n.now.kind }
    ensures declarations { result.declarations ≡ declarations }
{
    VariableDeclaration {
        span: n.span,
        kind: n.kind,
        declarations,
    }
}

/// `n` with another callee and other arguments.
#[tactic(auto, using(crate::proofs::Nodes::call_rebuilt))]
pub(crate) fn with_callee(
    n: &CallExpression,
    callee: Boxed<Expression>,
    arguments: Items<Expression>,
) -> Expression
    ensures { expression_term result ≡ call_with n.now (expression_term callee) (all (map expression_term arguments)) }
{
    Expression::CallExpression(CallExpression {
        span: n.span,
        callee,
        arguments,
        optional: n.optional,
    })
}

/// `n` with another object.
#[tactic(auto, using(crate::proofs::Nodes::member_rebuilt))]
pub(crate) fn with_object(
    n: &StaticMemberExpression,
    object: Boxed<Expression>,
) -> Result<Expression, AllocError>
    ensures { IfOk result (λ it. expression_term it ≡ member_with n.now (expression_term object)) }
{
    let property = n.property.clone()?;
    Ok(Expression::StaticMemberExpression(StaticMemberExpression {
        span: n.span,
        object,
        property,
        optional: n.optional,
    }))
}

/// `n` with other statements.
#[tactic(auto, using(crate::proofs::Nodes::function_made))]
pub(crate) fn with_statements(
    alloc: Global,
    n: &Function,
    statements: Items<Statement>,
) -> Result<Boxed<Function>, AllocError>
    ensures { IfOk result (λ it. function_term it ≡ function_with n.now (all (map statement_term statements))) }
{
    let id = copy_id(&n.id)?;
    let items = copy_parameters(alloc, n.params.items.as_slice())?;
    let directives = copy_directives(alloc, n.body.directives.as_slice())?;
    let made = Function {
        span: n.span,
        kind: n.kind,
        id,
        is_async: n.is_async,
        is_generator: n.is_generator,
        params: FormalParameters {
            span: n.params.span,
            items,
        },
        body: FunctionBody {
            span: n.body.span,
            directives,
            statements,
        },
        scope_id: n.scope_id,
    };
    Boxed::new(alloc, made)
}

/// `n` with another value, which is spelled out.
pub(crate) fn with_value(
    alloc: Global,
    n: &ObjectProperty,
    value: Expression,
) -> Result<ObjectProperty, AllocError>
    ensures { IfOk result (λ it. property_term expression_term it ≡ property_with n.now (expression_term value)) }
{
    let key = n.key.clone()?;
    Ok(ObjectProperty {
        span: n.span,
        kind: n.kind,
        key,
        value: Boxed::new(alloc, value)?,
        method: n.method,
        shorthand: false,
        computed: n.computed,
    })
}

/// `n` with another initializer.
#[tactic(auto, using(crate::proofs::Nodes::declarator_made))]
pub(crate) fn with_init(
    n: &VariableDeclarator,
    init: Option<Boxed<Expression>>,
) -> Result<VariableDeclarator, AllocError>
    ensures { IfOk result (λ it. declarator_term it ≡ declarator_with n.now (maybe (option_map expression_term init))) }
{
    let id = n.id.clone()?;
    Ok(VariableDeclarator {
        span: n.span,
        id,
        init,
    })
}
