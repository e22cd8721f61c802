use js_small::{is_small, is_small_by};
use small_tree::{
    BindingIdentifier, BindingPattern, Boxed, CallExpression, Expression, ExpressionStatement,
    FormalParameter, FormalParameters, Function, FunctionBody, FunctionKind, Ident, IdentifierName,
    IdentifierReference, ImportDeclaration, ImportSpecifier, Items, ModuleExportName,
    NumericLiteral, Program, ReturnStatement, Span, Statement, StaticMemberExpression,
    StringLiteral, VariableDeclaration, VariableDeclarationKind, VariableDeclarator,
};
use std::alloc::{AllocError, Global};
use std::process::Abort;
use std::test::Fail;

const NOWHERE: Span = Span { start: 0, end: 0 };

fn binding(alloc: Global, name: &str) -> Result<BindingIdentifier, AllocError> {
    Ok(BindingIdentifier {
        span: NOWHERE,
        name: Ident::new(alloc, name)?,
        symbol_id: None,
    })
}

fn name(alloc: Global, name: &str) -> Result<IdentifierName, AllocError> {
    Ok(IdentifierName {
        span: NOWHERE,
        name: Ident::new(alloc, name)?,
    })
}

fn reference(alloc: Global, name: &str) -> Result<Expression, AllocError> {
    Ok(Expression::Identifier(IdentifierReference {
        span: NOWHERE,
        name: Ident::new(alloc, name)?,
        reference_id: None,
    }))
}

fn number(alloc: Global, raw: &str) -> Result<Expression, AllocError> {
    Ok(Expression::NumericLiteral(NumericLiteral {
        span: NOWHERE,
        raw: Ident::new(alloc, raw)?,
    }))
}

fn string(alloc: Global, value: &str) -> Result<StringLiteral, AllocError> {
    Ok(StringLiteral {
        span: NOWHERE,
        value: Ident::new(alloc, value)?,
    })
}

/// `object.member(1)`
fn call(alloc: Global, object: &str, member: &str) -> Result<Expression, AllocError> {
    let callee = Expression::StaticMemberExpression(StaticMemberExpression {
        span: NOWHERE,
        object: Boxed::new(alloc, reference(alloc, object)?)?,
        property: name(alloc, member)?,
        optional: false,
    });
    let callee = Boxed::new(alloc, callee)?;
    let mut arguments = Items::new(alloc);
    arguments.push(number(alloc, "1")?)?;
    Ok(Expression::CallExpression(CallExpression {
        span: NOWHERE,
        callee,
        arguments,
        optional: false,
    }))
}

fn variable(
    alloc: Global,
    kind: VariableDeclarationKind,
    name: &str,
    init: Option<Boxed<Expression>>,
) -> Result<Statement, AllocError> {
    let id = BindingPattern::BindingIdentifier(binding(alloc, name)?);
    let mut declarations = Items::new(alloc);
    declarations.push(VariableDeclarator {
        span: NOWHERE,
        id,
        init,
    })?;
    Ok(Statement::VariableDeclaration(VariableDeclaration {
        span: NOWHERE,
        kind,
        declarations,
    }))
}

/// `const name = 1;`
fn constant(alloc: Global, name: &str) -> Result<Statement, AllocError> {
    let init = Some(Boxed::new(alloc, number(alloc, "1")?)?);
    variable(alloc, VariableDeclarationKind::Const, name, init)
}

fn statement(alloc: Global, e: Expression) -> Result<Statement, AllocError> {
    Ok(Statement::ExpressionStatement(ExpressionStatement {
        span: NOWHERE,
        expression: Boxed::new(alloc, e)?,
    }))
}

/// `return name;`
fn returned(alloc: Global, name: &str) -> Result<Statement, AllocError> {
    let argument = Some(Boxed::new(alloc, reference(alloc, name)?)?);
    Ok(Statement::ReturnStatement(ReturnStatement {
        span: NOWHERE,
        argument,
    }))
}

fn parameters(alloc: Global, names: &[&str]) -> Result<FormalParameters, AllocError> {
    let mut items = Items::new(alloc);
    for name in names {
        items.push(FormalParameter {
            span: NOWHERE,
            pattern: BindingPattern::BindingIdentifier(binding(alloc, name)?),
        })?;
    }
    Ok(FormalParameters {
        span: NOWHERE,
        items,
    })
}

fn function(
    alloc: Global,
    name: &str,
    names: &[&str],
    statements: Items<Statement>,
) -> Result<Statement, AllocError> {
    let body = FunctionBody {
        span: NOWHERE,
        directives: Items::new(alloc),
        statements,
    };
    let function = Function {
        span: NOWHERE,
        kind: FunctionKind::FunctionDeclaration,
        id: Some(binding(alloc, name)?),
        is_async: false,
        is_generator: false,
        params: parameters(alloc, names)?,
        body,
        scope_id: None,
    };
    Ok(Statement::FunctionDeclaration(Boxed::new(alloc, function)?))
}

/// `import { name } from 'm';`
fn import(alloc: Global, local: &str) -> Result<Statement, AllocError> {
    let mut specifiers = Items::new(alloc);
    specifiers.push(ImportSpecifier {
        span: NOWHERE,
        imported: ModuleExportName::IdentifierName(name(alloc, local)?),
        local: binding(alloc, local)?,
    })?;
    Ok(Statement::ImportDeclaration(ImportDeclaration {
        span: NOWHERE,
        specifiers: Some(specifiers),
        source: string(alloc, "m")?,
    }))
}

fn one(alloc: Global, a: Statement) -> Result<Items<Statement>, AllocError> {
    let mut items = Items::new(alloc);
    items.push(a)?;
    Ok(items)
}

fn two(alloc: Global, a: Statement, b: Statement) -> Result<Items<Statement>, AllocError> {
    let mut items = one(alloc, a)?;
    items.push(b)?;
    Ok(items)
}

/// Asserts what both tests answer for a module of these statements.
fn expect(
    rt: &impl Abort,
    alloc: Global,
    body: Items<Statement>,
    small: bool,
) -> Result<(), AllocError> {
    let program = Program {
        span: NOWHERE,
        hashbang: None,
        directives: Items::new(alloc),
        body,
        scope_id: None,
    };
    assert_eq!(rt; is_small(&program), small);
    assert_eq!(rt; is_small_by(alloc, &program)?, small);
    Ok(())
}

#[test]
fn imports_calls_and_functions_are_small(rt: HostRuntime) -> Result<(), Fail> {
    let alloc = rt.alloc();
    let mut body = two(
        alloc,
        import(alloc, "a")?,
        statement(alloc, call(alloc, "a", "if")?)?,
    )?;
    let inner = two(alloc, constant(alloc, "a")?, returned(alloc, "a")?)?;
    body.push(function(alloc, "f", &["p", "q"], inner)?)?;
    expect(&rt, alloc, body, true)?;
    Ok(())
}

#[test]
fn no_scope_has_a_name_twice(rt: HostRuntime) -> Result<(), Fail> {
    let alloc = rt.alloc();
    let module = two(alloc, constant(alloc, "x")?, constant(alloc, "x")?)?;
    expect(&rt, alloc, module, false)?;
    let imported = two(alloc, import(alloc, "x")?, constant(alloc, "x")?)?;
    expect(&rt, alloc, imported, false)?;
    let parameters = function(alloc, "f", &["p", "p"], Items::new(alloc))?;
    expect(&rt, alloc, one(alloc, parameters)?, false)?;
    Ok(())
}

#[test]
fn no_inner_function_has_a_name_twice(rt: HostRuntime) -> Result<(), Fail> {
    let alloc = rt.alloc();
    let inner = function(alloc, "g", &["p"], one(alloc, constant(alloc, "p")?)?)?;
    let outer = function(alloc, "f", &[], one(alloc, inner)?)?;
    expect(&rt, alloc, one(alloc, outer)?, false)?;
    Ok(())
}

#[test]
fn some_names_are_not_small(rt: HostRuntime) -> Result<(), Fail> {
    let alloc = rt.alloc();
    for name in ["if", "Object", "__vite_ssr_x", "arguments", "1a"] {
        expect(&rt, alloc, one(alloc, constant(alloc, name)?)?, false)?;
    }
    for name in ["i", "Objects", "_vite_ssr_x", "argument", "a1"] {
        expect(&rt, alloc, one(alloc, constant(alloc, name)?)?, true)?;
    }
    Ok(())
}

#[test]
fn some_statements_are_not_small(rt: HostRuntime) -> Result<(), Fail> {
    let alloc = rt.alloc();
    let directive = statement(alloc, Expression::StringLiteral(string(alloc, "a")?))?;
    expect(&rt, alloc, one(alloc, directive)?, false)?;
    let bare = variable(alloc, VariableDeclarationKind::Const, "x", None)?;
    expect(&rt, alloc, one(alloc, bare)?, false)?;
    let init = Some(Boxed::new(alloc, number(alloc, "1")?)?);
    let changed = variable(alloc, VariableDeclarationKind::Let, "x", init)?;
    expect(&rt, alloc, one(alloc, changed)?, false)?;
    let effect = Statement::ImportDeclaration(ImportDeclaration {
        span: NOWHERE,
        specifiers: None,
        source: string(alloc, "m")?,
    });
    expect(&rt, alloc, one(alloc, effect)?, false)?;
    expect(&rt, alloc, one(alloc, returned(alloc, "x")?)?, false)?;
    Ok(())
}
