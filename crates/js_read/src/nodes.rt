//! The nodes of statements, as they are made.

ghost use Rattle.std.specs.Prelude.{◌≡◌, [], map, IfOk};
ghost use Rattle.js_term.specs.Term as t;
ghost use Rattle.js_term.specs.Node as node;
ghost use Rattle.small_tree.specs.TermOf.{expression_term, declaration_term, statement_term, function_term, specifier_term};
ghost use Rattle.js_read.specs.Nests.{parameter_names, statements_of};

use small_tree::{
    BindingIdentifier, BindingPattern, Boxed, Declaration, ExportDeclaration, Expression,
    ExpressionStatement, FormalParameters, Function, FunctionBody, FunctionKind, ImportDeclaration,
    ImportSpecifier, Items, ReturnStatement, Span, Statement, StringLiteral, VariableDeclaration,
    VariableDeclarationKind, VariableDeclarator,
};
use std::alloc::{AllocError, Global};

/// The declaration of a constant; `inner` is the span of its declarator.
pub(crate) fn constant(
    alloc: Global,
    span: Span,
    inner: Span,
    id: BindingIdentifier,
    init: Expression,
) -> Result<Declaration, AllocError>
    ensures { IfOk result (λ d. declaration_term d ≡ node.const_of id.name (expression_term init)) }
{
    let init = Boxed::new(alloc, init)?;
    let mut declarations = Items::from_vec(Vec::with_capacity(alloc, 1)?);
    declarations.push(VariableDeclarator {
        span: inner,
        id: BindingPattern::BindingIdentifier(id),
        init: Some(init),
    })?;
    Ok(Declaration::VariableDeclaration(VariableDeclaration {
        span,
        kind: VariableDeclarationKind::Const,
        declarations,
    }))
}

/// The declaration of a function.
pub(crate) fn function(
    alloc: Global,
    span: Span,
    id: BindingIdentifier,
    params: FormalParameters,
    body: FunctionBody,
) -> Result<Declaration, AllocError>
    requires { body.directives ≡ [] }
    ensures { IfOk result (λ d. declaration_term d ≡ node.function_of id.name (parameter_names params) (t.all (statements_of body))) }
{
    let function = Function {
        span,
        kind: FunctionKind::FunctionDeclaration,
        id: Some(id),
        is_async: false,
        is_generator: false,
        params,
        body,
        scope_id: None,
    };
    Ok(Declaration::FunctionDeclaration(Boxed::new(alloc, function)?))
}

/// The declaration as a statement.
pub(crate) fn declared(declaration: Declaration) -> Statement
    ensures { statement_term result ≡ declaration_term declaration }
{
    match declaration {
        Declaration::VariableDeclaration(variables) => Statement::VariableDeclaration(variables),
        Declaration::FunctionDeclaration(function) => Statement::FunctionDeclaration(function),
    }
}

pub(crate) fn returned(
    alloc: Global,
    span: Span,
    argument: Expression,
) -> Result<Statement, AllocError>
    ensures { IfOk result (λ s. statement_term s ≡ node.return_of (expression_term argument)) }
{
    let argument = Some(Boxed::new(alloc, argument)?);
    Ok(Statement::ReturnStatement(ReturnStatement { span, argument }))
}

pub(crate) fn effect(
    alloc: Global,
    span: Span,
    expression: Expression,
) -> Result<Statement, AllocError>
    ensures { IfOk result (λ s. statement_term s ≡ node.statement_of (expression_term expression)) }
{
    let expression = Boxed::new(alloc, expression)?;
    Ok(Statement::ExpressionStatement(ExpressionStatement { span, expression }))
}

pub(crate) fn imported(
    span: Span,
    specifiers: Items<ImportSpecifier>,
    source: StringLiteral,
) -> Statement
    ensures { statement_term result ≡ node.import_declaration_of (t.all (map specifier_term specifiers)) source.value }
{
    Statement::ImportDeclaration(ImportDeclaration {
        span,
        specifiers: Some(specifiers),
        source,
    })
}

pub(crate) fn exported(span: Span, declaration: Declaration) -> Statement
    ensures { statement_term result ≡ node.export_declaration_of (declaration_term declaration) }
{
    Statement::ExportDeclaration(ExportDeclaration { span, declaration })
}
