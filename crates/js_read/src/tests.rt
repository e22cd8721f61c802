use crate::fault::ReadFault;
use crate::module::read_program;
use small_tree::{
    BindingPattern, Declaration, Expression, FormalParameters, Function, ImportDeclaration,
    ModuleExportName, Program, Span, Statement, VariableDeclaration,
};
use std::alloc::Global;
use std::process::Abort;
use std::test::Fail;

const TEXT: &str =
    " import { a as b } from 'm';\nexport function f(x, y) { return g(x.p, 1); }\nconst s = 't';\nf(s); ";

/// The part of the text that a node stands in.
fn piece(span: Span) -> &'static str {
    TEXT.get(span.start as usize..span.end as usize)
        .unwrap_or("nowhere")
}

fn check_import(rt: &impl Abort, import: &ImportDeclaration) {
    assert_eq!(rt; piece(import.span), "import { a as b } from 'm';");
    assert_eq!(rt; piece(import.source.span), "'m'");
    let Some(specifiers) = &import.specifiers else {
        return assert!(rt; false);
    };
    let Some(specifier) = specifiers.get(0) else {
        return assert!(rt; false);
    };
    assert_eq!(rt; piece(specifier.span), "a as b");
    assert_eq!(rt; piece(specifier.local.span), "b");
    let ModuleExportName::IdentifierName(imported) = &specifier.imported else {
        return assert!(rt; false);
    };
    assert_eq!(rt; piece(imported.span), "a");
}

fn check_parameters(rt: &impl Abort, parameters: &FormalParameters) {
    assert_eq!(rt; piece(parameters.span), "(x, y)");
    let Some(parameter) = parameters.items.get(1) else {
        return assert!(rt; false);
    };
    let BindingPattern::BindingIdentifier(id) = &parameter.pattern;
    assert_eq!(rt; piece(parameter.span), "y");
    assert_eq!(rt; piece(id.span), "y");
}

fn check_call(rt: &impl Abort, call: &Expression) {
    let Expression::CallExpression(call) = call else {
        return assert!(rt; false);
    };
    assert_eq!(rt; piece(call.span), "g(x.p, 1)");
    let Expression::Identifier(callee) = call.callee.get() else {
        return assert!(rt; false);
    };
    assert_eq!(rt; piece(callee.span), "g");
    let Some(Expression::StaticMemberExpression(member)) = call.arguments.get(0) else {
        return assert!(rt; false);
    };
    assert_eq!(rt; piece(member.span), "x.p");
    assert_eq!(rt; piece(member.property.span), "p");
    let Some(Expression::NumericLiteral(number)) = call.arguments.get(1) else {
        return assert!(rt; false);
    };
    assert_eq!(rt; piece(number.span), "1");
}

fn check_function(rt: &impl Abort, function: &Function) {
    assert_eq!(rt;
        piece(function.span),
        "function f(x, y) { return g(x.p, 1); }"
    );
    let Some(id) = &function.id else {
        return assert!(rt; false);
    };
    assert_eq!(rt; piece(id.span), "f");
    check_parameters(rt, &function.params);
    assert_eq!(rt; piece(function.body.span), "{ return g(x.p, 1); }");
    let Some(Statement::ReturnStatement(returned)) = function.body.statements.get(0) else {
        return assert!(rt; false);
    };
    assert_eq!(rt; piece(returned.span), "return g(x.p, 1);");
    let Some(argument) = &returned.argument else {
        return assert!(rt; false);
    };
    check_call(rt, argument.get());
}

fn check_constant(rt: &impl Abort, constant: &VariableDeclaration) {
    assert_eq!(rt; piece(constant.span), "const s = 't';");
    let Some(declarator) = constant.declarations.get(0) else {
        return assert!(rt; false);
    };
    assert_eq!(rt; piece(declarator.span), "s = 't'");
    let BindingPattern::BindingIdentifier(id) = &declarator.id;
    assert_eq!(rt; piece(id.span), "s");
    let Some(init) = &declarator.init else {
        return assert!(rt; false);
    };
    let Expression::StringLiteral(string) = init.get() else {
        return assert!(rt; false);
    };
    assert_eq!(rt; piece(string.span), "'t'");
}

fn check_program(rt: &impl Abort, program: &Program) {
    assert_eq!(rt; piece(program.span), TEXT.trim());
    let Some(Statement::ImportDeclaration(import)) = program.body.get(0) else {
        return assert!(rt; false);
    };
    check_import(rt, import);
    let Some(Statement::ExportDeclaration(export)) = program.body.get(1) else {
        return assert!(rt; false);
    };
    assert_eq!(rt;
        piece(export.span),
        "export function f(x, y) { return g(x.p, 1); }"
    );
    let Declaration::FunctionDeclaration(function) = &export.declaration else {
        return assert!(rt; false);
    };
    check_function(rt, function.get());
    let Some(Statement::VariableDeclaration(constant)) = program.body.get(2) else {
        return assert!(rt; false);
    };
    check_constant(rt, constant);
    let Some(Statement::ExpressionStatement(effect)) = program.body.get(3) else {
        return assert!(rt; false);
    };
    assert_eq!(rt; piece(effect.span), "f(s);");
}

#[test]
fn spans_go_from_the_first_token_to_the_last(rt: HostRuntime) -> Result<(), Fail> {
    let program = read_program(rt.alloc(), TEXT)?;
    check_program(&rt, &program);
    Ok(())
}

fn is_read(alloc: Global, text: &str) -> bool {
    text.len() < 4294967296 && matches!(read_program(alloc, text), Ok(_))
}

fn is_refused(alloc: Global, text: &str) -> bool {
    text.len() < 4294967296 && matches!(read_program(alloc, text), Err(ReadFault::Unread { at: _ }))
}

#[test]
fn reads_a_member_that_is_named_as_a_reserved_word(rt: HostRuntime) -> Result<(), Fail> {
    assert!(rt; is_read(rt.alloc(), "a.default;"));
    Ok(())
}

#[test]
fn refuses_what_is_not_narrow(rt: HostRuntime) -> Result<(), Fail> {
    let texts = [
        "const s = 'a",
        "const s = 'a\";",
        "1.a;",
        "01;",
        "1a;",
        "function f() { return\na; }",
        "let x = 1;",
        "f(a,);",
        "a",
        "'use strict';",
        "const default = 1;",
    ];
    for text in texts {
        assert!(rt; is_refused(rt.alloc(), text), "{text}");
    }
    Ok(())
}

fn calls(alloc: Global, count: usize) -> Result<String, Fail> {
    let mut text = String::new(alloc);
    for _ in 0..count {
        text.push_str("f(")?;
    }
    for _ in 0..count {
        text.push_str(")")?;
    }
    text.push_str(";")?;
    Ok(text)
}

fn functions(alloc: Global, count: usize) -> Result<String, Fail> {
    let mut text = String::new(alloc);
    for _ in 0..count {
        text.push_str("function f() {")?;
    }
    for _ in 0..count {
        text.push_str("}")?;
    }
    Ok(text)
}

// `count` calls in each other have the depth `count` and one more, in a program three more.
#[test]
fn reads_calls_up_to_the_limit(rt: HostRuntime) -> Result<(), Fail> {
    assert!(rt; is_read(rt.alloc(), calls(rt.alloc(), 508)?.as_str()));
    assert!(rt; is_read(rt.alloc(), calls(rt.alloc(), 509)?.as_str()));
    assert!(rt; is_refused(rt.alloc(), calls(rt.alloc(), 510)?.as_str()));
    Ok(())
}

// A function has two levels.
#[test]
fn reads_functions_up_to_the_limit(rt: HostRuntime) -> Result<(), Fail> {
    assert!(rt; is_read(rt.alloc(), functions(rt.alloc(), 255)?.as_str()));
    assert!(rt; is_refused(rt.alloc(), functions(rt.alloc(), 256)?.as_str()));
    Ok(())
}
