//! A tree with each imported name written as the member of its request. The tree is made anew beside the old one.
ghost use Rattle.js_term.specs.Node.{identifier_of};
ghost use Rattle.small_tree.specs.TermOf.{expression_term, statement_term, declaration_term, declarator_term, function_term, property_term};
ghost use Rattle.module_model.specs.Resolved.{in_callee, is_reference};
ghost use Rattle.module_model.specs.Run.{written};
ghost use Rattle.prepare_core.specs.Carried.{carried};
ghost use Rattle.prepare_core.specs.Names.{names_env};
ghost use Rattle.std.specs.Prelude.{◌≡◌, ◌++◌, ◌∷◌, [], false, map, IfOk, OnOk, MatchOption};

use crate::copies::copy_import;
use crate::imported::Import;
use crate::made::{detach, import_member};
use crate::names::function_scope;
use crate::rebuilt::{
    array, awaited, effect, object, parenthesized, returned, sequence, with_callee,
    with_declarators, with_init, with_object, with_statements, with_value,
};
use crate::room::room;
use crate::scopes::find_import;
use small_tree::{
    Boxed, Declaration, ExportDeclaration, Expression, Function, Ident, IdentifierReference, Items,
    ObjectProperty, Statement, VariableDeclarator,
};
use std::alloc::{AllocError, Global};
use std::collections::{HashMap, HashSet};

#[tactic(auto, using(crate::proofs::Variants::import_written, crate::proofs::Nodes::identifier_made))]
pub(crate) fn rewrite_reference(
    alloc: Global,
    imports: &HashMap<Ident, Import>,
    scopes: &[HashSet<Ident>],
    n: &IdentifierReference,
) -> Result<Expression, AllocError>
    ensures { IfOk result (λ it. expression_term it ≡ written (names_env imports.now scopes.now) n.now.name) }
{
    match find_import(imports, scopes, &n.name) {
        None => Ok(Expression::Identifier(n.clone()?)),
        Some(import) => import_member(alloc, import),
    }
}

#[tactic(auto, using(crate::proofs::Variants::import_called, crate::proofs::Variants::plain_called, crate::proofs::Nodes::identifier_made))]
fn rewrite_called_reference(
    alloc: Global,
    imports: &HashMap<Ident, Import>,
    scopes: &[HashSet<Ident>],
    n: &IdentifierReference,
) -> Result<Expression, AllocError>
    ensures { IfOk result (λ it. expression_term it ≡ in_callee (identifier_of n.now.name) (written (names_env imports.now scopes.now) n.now.name)) }
{
    match find_import(imports, scopes, &n.name) {
        None => Ok(Expression::Identifier(n.clone()?)),
        Some(import) => detach(alloc, import_member(alloc, import)?),
    }
}

#[tactic(auto, using(crate::proofs::Variants::no_boolean, crate::proofs::Variants::no_number, crate::proofs::Variants::no_string, crate::proofs::Variants::no_array, crate::proofs::Variants::no_await, crate::proofs::Variants::no_call, crate::proofs::Variants::no_function, crate::proofs::Variants::no_object, crate::proofs::Variants::no_parenthesized, crate::proofs::Variants::no_sequence, crate::proofs::Variants::no_member))]
fn as_reference(e: &Expression) -> Option<&IdentifierReference>
    ensures { MatchOption result (is_reference (expression_term e.now) ≡ false) (λ n. e.now ≡ Expression.Identifier n.now) }
{
    match e {
        Expression::Identifier(n) => Some(n),
        Expression::BooleanLiteral(_)
        | Expression::NumericLiteral(_)
        | Expression::StringLiteral(_)
        | Expression::ArrayExpression(_)
        | Expression::AwaitExpression(_)
        | Expression::CallExpression(_)
        | Expression::FunctionExpression(_)
        | Expression::ObjectExpression(_)
        | Expression::ParenthesizedExpression(_)
        | Expression::SequenceExpression(_)
        | Expression::StaticMemberExpression(_) => None,
    }
}

#[cycle(rewrite)]
#[tactic(auto, using(crate::proofs::Variants::identifier_carried, crate::proofs::Variants::boolean_kept, crate::proofs::Variants::number_kept, crate::proofs::Variants::string_kept))]
fn rewrite_expression(
    alloc: Global,
    imports: &HashMap<Ident, Import>,
    scopes: &mut Items<HashSet<Ident>>,
    e: &Expression,
) -> Result<Expression, AllocError>
    ensures scopes { OnOk result (scopes.new ≡ scopes.old) }
    ensures term { IfOk result (λ it. expression_term it ≡ carried (names_env imports.now scopes.old) (expression_term e.now)) }
{
    match e {
        Expression::BooleanLiteral(n) => Ok(Expression::BooleanLiteral(n.clone()?)),
        Expression::NumericLiteral(n) => Ok(Expression::NumericLiteral(n.clone()?)),
        Expression::StringLiteral(n) => Ok(Expression::StringLiteral(n.clone()?)),
        Expression::Identifier(n) => rewrite_reference(alloc, imports, scopes.as_slice(), n),
        Expression::ArrayExpression(n) => {
            let elements = rewrite_each(alloc, imports, scopes, n.elements.as_slice())?;
            Ok(array(n.span, elements))
        }
        Expression::AwaitExpression(n) => {
            let argument = rewrite_boxed(alloc, imports, scopes, n.argument.get())?;
            Ok(awaited(n.span, argument))
        }
        Expression::CallExpression(n) => {
            let callee = rewrite_callee(alloc, imports, scopes, n.callee.get())?;
            let arguments = rewrite_each(alloc, imports, scopes, n.arguments.as_slice())?;
            Ok(with_callee(n, callee, arguments))
        }
        Expression::FunctionExpression(n) => {
            let made = rewrite_function(alloc, imports, scopes, n.get())?;
            Ok(Expression::FunctionExpression(made))
        }
        Expression::ObjectExpression(n) => {
            let properties = rewrite_properties(alloc, imports, scopes, n.properties.as_slice())?;
            Ok(object(n.span, properties))
        }
        Expression::ParenthesizedExpression(n) => {
            let expression = rewrite_boxed(alloc, imports, scopes, n.expression.get())?;
            Ok(parenthesized(n.span, expression))
        }
        Expression::SequenceExpression(n) => {
            let expressions = rewrite_each(alloc, imports, scopes, n.expressions.as_slice())?;
            Ok(sequence(n.span, expressions))
        }
        Expression::StaticMemberExpression(n) => {
            let object = rewrite_boxed(alloc, imports, scopes, n.object.get())?;
            with_object(n, object)
        }
    }
}

#[cycle(rewrite)]
fn rewrite_boxed(
    alloc: Global,
    imports: &HashMap<Ident, Import>,
    scopes: &mut Items<HashSet<Ident>>,
    e: &Expression,
) -> Result<Boxed<Expression>, AllocError>
    ensures scopes { OnOk result (scopes.new ≡ scopes.old) }
    ensures term { IfOk result (λ it. expression_term it ≡ carried (names_env imports.now scopes.old) (expression_term e.now)) }
{
    let made = rewrite_expression(alloc, imports, scopes, e)?;
    Boxed::new(alloc, made)
}

/// A name that became a member is called without its object.
#[cycle(rewrite)]
#[tactic(auto, using(crate::proofs::Variants::callee_reference, crate::proofs::Variants::callee_other))]
fn rewrite_callee(
    alloc: Global,
    imports: &HashMap<Ident, Import>,
    scopes: &mut Items<HashSet<Ident>>,
    e: &Expression,
) -> Result<Boxed<Expression>, AllocError>
    ensures scopes { OnOk result (scopes.new ≡ scopes.old) }
    ensures term { IfOk result (λ it. expression_term it ≡ in_callee (expression_term e.now) (carried (names_env imports.now scopes.old) (expression_term e.now))) }
{
    match as_reference(e) {
        Some(n) => {
            let made = rewrite_called_reference(alloc, imports, scopes.as_slice(), n)?;
            Boxed::new(alloc, made)
        }
        None => rewrite_boxed(alloc, imports, scopes, e),
    }
}

#[cycle(rewrite)]
#[tactic(auto, using(crate::proofs::Lists::one_more))]
fn rewrite_each(
    alloc: Global,
    imports: &HashMap<Ident, Import>,
    scopes: &mut Items<HashSet<Ident>>,
    items: &[Expression],
) -> Result<Items<Expression>, AllocError>
    ensures scopes { OnOk result (scopes.new ≡ scopes.old) }
    ensures terms { IfOk result (λ it. map expression_term it ≡ map (λ e. carried (names_env imports.now scopes.old) (expression_term e)) items.now) }
{
    let mut out = room(alloc, items.len())?;
    for one in items {
        out.push(rewrite_expression(alloc, imports, scopes, one)?)?;
    }
    Ok(out)
}

#[cycle(rewrite)]
#[tactic(auto, using(crate::proofs::Lists::one_more, crate::proofs::Variants::property_carried))]
fn rewrite_properties(
    alloc: Global,
    imports: &HashMap<Ident, Import>,
    scopes: &mut Items<HashSet<Ident>>,
    items: &[ObjectProperty],
) -> Result<Items<ObjectProperty>, AllocError>
    ensures scopes { OnOk result (scopes.new ≡ scopes.old) }
    ensures terms { IfOk result (λ it. map (property_term expression_term) it ≡ map (λ p. carried (names_env imports.now scopes.old) (property_term expression_term p)) items.now) }
{
    let mut out = room(alloc, items.len())?;
    for one in items {
        let value = rewrite_expression(alloc, imports, scopes, one.value.get())?;
        out.push(with_value(alloc, one, value)?)?;
    }
    Ok(out)
}

#[cycle(rewrite)]
#[tactic(auto, using(crate::proofs::Lists::one_more))]
fn rewrite_function(
    alloc: Global,
    imports: &HashMap<Ident, Import>,
    scopes: &mut Items<HashSet<Ident>>,
    n: &Function,
) -> Result<Boxed<Function>, AllocError>
    ensures scopes { OnOk result (scopes.new ≡ scopes.old) }
    ensures term { IfOk result (λ it. function_term it ≡ carried (names_env imports.now scopes.old) (function_term n.now)) }
{
    scopes.push(function_scope(alloc, n)?)?;
    let mut out = room(alloc, n.body.statements.len())?;
    for one in n.body.statements.as_slice() {
        out.push(rewrite_statement(alloc, imports, scopes, one)?)?;
    }
    let _inner = scopes.pop();
    with_statements(alloc, n, out)
}

#[cycle(rewrite)]
#[tactic(auto, using(crate::proofs::Lists::one_more))]
fn rewrite_declarators(
    alloc: Global,
    imports: &HashMap<Ident, Import>,
    scopes: &mut Items<HashSet<Ident>>,
    items: &[VariableDeclarator],
) -> Result<Items<VariableDeclarator>, AllocError>
    ensures scopes { OnOk result (scopes.new ≡ scopes.old) }
    ensures terms { IfOk result (λ it. map declarator_term it ≡ map (λ d. carried (names_env imports.now scopes.old) (declarator_term d)) items.now) }
{
    let mut out = room(alloc, items.len())?;
    for one in items {
        match &one.init {
            None => out.push(with_init(one, None)?)?,
            Some(e) => {
                let init = rewrite_boxed(alloc, imports, scopes, e.get())?;
                out.push(with_init(one, Some(init))?)?;
            }
        }
    }
    Ok(out)
}

#[cycle(rewrite)]
pub(crate) fn rewrite_declaration(
    alloc: Global,
    imports: &HashMap<Ident, Import>,
    scopes: &mut Items<HashSet<Ident>>,
    d: &Declaration,
) -> Result<Declaration, AllocError>
    ensures scopes { OnOk result (scopes.new ≡ scopes.old) }
    ensures term { IfOk result (λ it. declaration_term it ≡ carried (names_env imports.now scopes.old) (declaration_term d.now)) }
{
    match d {
        Declaration::VariableDeclaration(n) => {
            let items = n.declarations.as_slice();
            let declarations = rewrite_declarators(alloc, imports, scopes, items)?;
            Ok(Declaration::VariableDeclaration(with_declarators(n, declarations)))
        }
        Declaration::FunctionDeclaration(n) => {
            let made = rewrite_function(alloc, imports, scopes, n.get())?;
            Ok(Declaration::FunctionDeclaration(made))
        }
    }
}

#[cycle(rewrite)]
pub(crate) fn rewrite_statement(
    alloc: Global,
    imports: &HashMap<Ident, Import>,
    scopes: &mut Items<HashSet<Ident>>,
    s: &Statement,
) -> Result<Statement, AllocError>
    ensures scopes { OnOk result (scopes.new ≡ scopes.old) }
    ensures term { IfOk result (λ it. statement_term it ≡ carried (names_env imports.now scopes.old) (statement_term s.now)) }
{
    match s {
        Statement::ExpressionStatement(n) => {
            let expression = rewrite_boxed(alloc, imports, scopes, n.expression.get())?;
            Ok(effect(n.span, expression))
        }
        Statement::ReturnStatement(n) => match &n.argument {
            None => Ok(returned(n.span, None)),
            Some(e) => {
                let argument = rewrite_boxed(alloc, imports, scopes, e.get())?;
                Ok(returned(n.span, Some(argument)))
            }
        },
        Statement::VariableDeclaration(n) => {
            let items = n.declarations.as_slice();
            let declarations = rewrite_declarators(alloc, imports, scopes, items)?;
            Ok(Statement::VariableDeclaration(with_declarators(n, declarations)))
        }
        Statement::FunctionDeclaration(n) => {
            let made = rewrite_function(alloc, imports, scopes, n.get())?;
            Ok(Statement::FunctionDeclaration(made))
        }
        Statement::ImportDeclaration(n) => Ok(Statement::ImportDeclaration(copy_import(alloc, n)?)),
        Statement::ExportDeclaration(n) => Ok(Statement::ExportDeclaration(ExportDeclaration {
            span: n.span,
            declaration: rewrite_declaration(alloc, imports, scopes, &n.declaration)?,
        })),
    }
}
