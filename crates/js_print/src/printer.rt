ghost use Rattle.js_print.specs.Layout.{IsPrinted, layout, printed, wrapped, in_parentheses, at_level, commas, lines, braces, renamed_text};
ghost use Rattle.js_print.specs.Parts.{function_start, key_start, imported_text};
ghost use Rattle.js_term.specs.Form.{is_printable};
ghost use Rattle.small_tree.specs.TermOf.{expression_term, statement_term, declaration_term, declarator_term, function_term, property_term, program_term, specifier_term, pattern_term, variable_word};
ghost use Rattle.std.specs.Prelude.{◌≡◌, ◌++◌, true, false, map, codes, OnOk, IfOk, string_bytes};

use crate::level::{is_loose_object, is_looser, reads_otherwise};
use crate::strings::{print_lead, print_string};
use small_tree::{
    BindingPattern, Declaration, Expression, FormalParameter, Function, FunctionKind,
    ImportDeclaration, ImportSpecifier, Items, ModuleExportName, ObjectProperty, Program,
    Statement, VariableDeclarationKind, VariableDeclarator,
};
use std::alloc::{AllocError, Global};

/// The text of a module, each statement on a line of its own.
///
/// It spells the tree given with parentheses where a part would be read otherwise without them. The tree is taken, and
/// freed on the way.
#[tactic(auto, using(crate::proofs::Whole::printed_module, crate::proofs::StatementRows::r_Program))]
pub fn print_program(alloc: Global, program: Program) -> Result<String, AllocError>
    requires { is_printable (program_term program) ≡ true }
    ensures layout { IfOk result (λ text. string_bytes text ≡ layout (program_term program)) }
    ensures spells { IfOk result (λ text. IsPrinted (program_term program) (string_bytes text)) }
{
    let mut out = String::new(alloc);
    print_lines(alloc, &mut out, program.body)?;
    Ok(out)
}

/// The room of a line. A piece of memory of more than a kibibyte has the allocator join what was freed before it.
const LINE: usize = 2048;

/// Frees each statement as soon as it is written, while it is at hand. Each line has room of its own, so that the
/// allocator joins the pieces of one statement at the next, and not all of them, out of the caches, at the end.
fn print_lines(alloc: Global, out: &mut String, items: Items<Statement>) -> Result<(), AllocError>
    ensures { OnOk result (string_bytes out.new ≡ string_bytes out.old ++ lines (map (λ s. printed (wrapped (statement_term s))) items)) }
{
    for one in items.into_vec() {
        let mut line = String::with_capacity(alloc, LINE)?;
        print_statement(&mut line, &one)?;
        line.push_str("\n")?;
        out.push_str(line.as_str())?;
    }
    Ok(())
}

#[cycle(print)]
#[tactic(auto, using(crate::proofs::StatementRows::r_VariableDeclaration, crate::proofs::StatementRows::r_FunctionDeclaration, crate::proofs::StatementRows::r_ExpressionStatement, crate::proofs::StatementRows::r_return_none, crate::proofs::StatementRows::r_return_some, crate::proofs::StatementRows::r_ExportDeclaration, std::proofs::lemmas::List::append_assoc))]
fn print_statement(out: &mut String, s: &Statement) -> Result<(), AllocError>
    ensures { OnOk result (string_bytes out.new ≡ string_bytes out.old ++ printed (wrapped (statement_term s.now))) }
{
    match s {
        Statement::ImportDeclaration(n) => print_import(out, n),
        Statement::ExportDeclaration(n) => {
            out.push_str("export ")?;
            print_declaration(out, &n.declaration)
        }
        Statement::VariableDeclaration(n) => {
            print_variables(out, n.kind, n.declarations.as_slice())
        }
        Statement::FunctionDeclaration(n) => print_function(out, n.get()),
        Statement::ReturnStatement(n) => match &n.argument {
            None => out.push_str("return ;"),
            Some(argument) => {
                out.push_str("return ")?;
                print_expression(out, argument.get())?;
                out.push_str(";")
            }
        },
        Statement::ExpressionStatement(n) => {
            let expression = n.expression.get();
            print_held(out, expression, reads_otherwise(expression))?;
            out.push_str(";")
        }
    }
}

#[cycle(print)]
#[tactic(auto, using(crate::proofs::StatementRows::r_d_VariableDeclaration, crate::proofs::StatementRows::r_d_FunctionDeclaration))]
fn print_declaration(out: &mut String, d: &Declaration) -> Result<(), AllocError>
    ensures { OnOk result (string_bytes out.new ≡ string_bytes out.old ++ printed (wrapped (declaration_term d.now))) }
{
    match d {
        Declaration::VariableDeclaration(n) => {
            print_variables(out, n.kind, n.declarations.as_slice())
        }
        Declaration::FunctionDeclaration(n) => print_function(out, n.get()),
    }
}

#[cycle(print)]
#[tactic(auto, using(std::proofs::lemmas::List::append_assoc))]
fn print_variables(
    out: &mut String,
    kind: VariableDeclarationKind,
    items: &[VariableDeclarator],
) -> Result<(), AllocError>
    ensures { OnOk result (string_bytes out.new ≡ string_bytes out.old ++ (variable_word kind ++ (codes " " ++ (commas (map (λ d. printed (wrapped (declarator_term d))) items.now) ++ codes ";")))) }
{
    out.push_str(word_of(kind))?;
    out.push_str(" ")?;
    print_declarators(out, items)?;
    out.push_str(";")
}

fn word_of(kind: VariableDeclarationKind) -> &'static str
    ensures { result.now ≡ variable_word kind }
{
    match kind {
        VariableDeclarationKind::Var => "var",
        VariableDeclarationKind::Let => "let",
        VariableDeclarationKind::Const => "const",
    }
}

#[cycle(print)]
fn print_declarators(out: &mut String, items: &[VariableDeclarator]) -> Result<(), AllocError>
    ensures { OnOk result (string_bytes out.new ≡ string_bytes out.old ++ commas (map (λ d. printed (wrapped (declarator_term d))) items.now)) }
{
    for (i, one) in items.iter().enumerate() {
        print_lead(out, ", ", i)?;
        print_declarator(out, one)?;
    }
    Ok(())
}

#[cycle(print)]
#[tactic(auto, using(crate::proofs::StatementRows::r_declarator_none, crate::proofs::StatementRows::r_declarator_some, std::proofs::lemmas::List::append_assoc))]
fn print_declarator(out: &mut String, n: &VariableDeclarator) -> Result<(), AllocError>
    ensures { OnOk result (string_bytes out.new ≡ string_bytes out.old ++ printed (wrapped (declarator_term n.now))) }
{
    print_pattern(out, &n.id)?;
    out.push_str(" = ")?;
    match &n.init {
        None => Ok(()),
        Some(init) => print_held(out, init.get(), is_looser(init.get(), 2)),
    }
}

fn print_pattern(out: &mut String, pattern: &BindingPattern) -> Result<(), AllocError>
    ensures { OnOk result (string_bytes out.new ≡ string_bytes out.old ++ printed (wrapped (pattern_term pattern.now))) }
{
    match pattern {
        BindingPattern::BindingIdentifier(n) => out.push_str(n.name.as_str()),
    }
}

#[cycle(print)]
#[tactic(auto, using(crate::proofs::StatementRows::function_printed))]
fn print_function(out: &mut String, n: &Function) -> Result<(), AllocError>
    ensures { OnOk result (string_bytes out.new ≡ string_bytes out.old ++ printed (wrapped (function_term n.now))) }
{
    print_function_start(out, n)?;
    print_parameters(out, n.params.items.as_slice())?;
    out.push_str(" ")?;
    print_statements(out, n.body.statements.as_slice())?;
    Ok(())
}

/// The word and the name of a function; a function in method place has neither.
fn print_function_start(out: &mut String, n: &Function) -> Result<(), AllocError>
    ensures { OnOk result (string_bytes out.new ≡ string_bytes out.old ++ function_start n.now.kind n.now.id) }
{
    match n.kind {
        FunctionKind::FunctionExpression => Ok(()),
        FunctionKind::FunctionDeclaration => {
            out.push_str("function ")?;
            match &n.id {
                None => Ok(()),
                Some(id) => out.push_str(id.name.as_str()),
            }
        }
    }
}

#[tactic(auto, using(std::proofs::lemmas::List::append_assoc))]
fn print_parameters(out: &mut String, items: &[FormalParameter]) -> Result<(), AllocError>
    ensures { OnOk result (string_bytes out.new ≡ string_bytes out.old ++ (codes "(" ++ (commas (map (λ p. printed (wrapped (pattern_term p.pattern))) items.now) ++ codes ")"))) }
{
    out.push_str("(")?;
    for (i, one) in items.iter().enumerate() {
        print_lead(out, ", ", i)?;
        print_pattern(out, &one.pattern)?;
    }
    out.push_str(")")
}

#[cycle(print)]
#[tactic(auto, using(crate::proofs::Rows::braces_printed))]
fn print_statements(out: &mut String, items: &[Statement]) -> Result<(), AllocError>
    ensures { OnOk result (string_bytes out.new ≡ string_bytes out.old ++ braces (codes " ") (map (λ s. printed (wrapped (statement_term s))) items.now)) }
{
    if items.is_empty() {
        return out.push_str("{}");
    }
    out.push_str("{ ")?;
    for (i, one) in items.iter().enumerate() {
        print_lead(out, " ", i)?;
        print_statement(out, one)?;
    }
    out.push_str(" }")
}

#[cycle(print)]
#[tactic(auto, using(crate::proofs::Rows::r_BooleanLiteral, crate::proofs::Rows::r_NumericLiteral, crate::proofs::Rows::r_StringLiteral, crate::proofs::Rows::r_Identifier, crate::proofs::Rows::r_ArrayExpression, crate::proofs::Rows::r_SequenceExpression, crate::proofs::Rows::r_AwaitExpression, crate::proofs::Rows::r_ParenthesizedExpression, crate::proofs::Rows::r_CallExpression, crate::proofs::Rows::r_StaticMemberExpression, crate::proofs::Rows::r_FunctionExpression, crate::proofs::Rows::r_ObjectExpression, std::proofs::lemmas::List::append_assoc))]
fn print_expression(out: &mut String, e: &Expression) -> Result<(), AllocError>
    ensures { OnOk result (string_bytes out.new ≡ string_bytes out.old ++ printed (wrapped (expression_term e.now))) }
{
    match e {
        Expression::BooleanLiteral(n) => out.push_str(if n.value { "true" } else { "false" }),
        Expression::NumericLiteral(n) => out.push_str(n.raw.as_str()),
        Expression::StringLiteral(n) => print_string(out, n.value.as_str()),
        Expression::Identifier(n) => out.push_str(n.name.as_str()),
        Expression::ArrayExpression(n) => {
            out.push_str("[")?;
            print_expressions(out, n.elements.as_slice())?;
            out.push_str("]")
        }
        Expression::AwaitExpression(n) => {
            let argument = n.argument.get();
            out.push_str("await ")?;
            print_held(out, argument, is_looser(argument, 16))
        }
        Expression::CallExpression(n) => {
            let callee = n.callee.get();
            print_held(out, callee, is_looser(callee, 19))?;
            out.push_str("(")?;
            print_expressions(out, n.arguments.as_slice())?;
            out.push_str(")")
        }
        Expression::FunctionExpression(n) => print_function(out, n.get()),
        Expression::ObjectExpression(n) => print_properties(out, n.properties.as_slice()),
        Expression::ParenthesizedExpression(n) => {
            out.push_str("(")?;
            print_expression(out, n.expression.get())?;
            out.push_str(")")
        }
        Expression::SequenceExpression(n) => print_expressions(out, n.expressions.as_slice()),
        Expression::StaticMemberExpression(n) => {
            let object = n.object.get();
            print_held(out, object, is_loose_object(object))?;
            out.push_str(".")?;
            out.push_str(n.property.name.as_str())
        }
    }
}

/// An expression, in parentheses where they are needed.
#[cycle(print)]
#[tactic(auto, using(std::proofs::lemmas::List::append_assoc))]
fn print_held(out: &mut String, e: &Expression, is_needed: bool) -> Result<(), AllocError>
    ensures { OnOk result (string_bytes out.new ≡ string_bytes out.old ++ printed (in_parentheses is_needed (wrapped (expression_term e.now)))) }
{
    if !is_needed {
        return print_expression(out, e);
    }
    out.push_str("(")?;
    print_expression(out, e)?;
    out.push_str(")")
}

#[cycle(print)]
fn print_expressions(out: &mut String, items: &[Expression]) -> Result<(), AllocError>
    ensures { OnOk result (string_bytes out.new ≡ string_bytes out.old ++ commas (map (λ e. at_level 2 (expression_term e)) items.now)) }
{
    for (i, one) in items.iter().enumerate() {
        print_lead(out, ", ", i)?;
        print_held(out, one, is_looser(one, 2))?;
    }
    Ok(())
}

#[cycle(print)]
#[tactic(auto, using(crate::proofs::Rows::braces_printed))]
fn print_properties(out: &mut String, items: &[ObjectProperty]) -> Result<(), AllocError>
    ensures { OnOk result (string_bytes out.new ≡ string_bytes out.old ++ braces (codes ", ") (map (λ p. printed (wrapped (property_term expression_term p))) items.now)) }
{
    if items.is_empty() {
        return out.push_str("{}");
    }
    out.push_str("{ ")?;
    for (i, one) in items.iter().enumerate() {
        print_lead(out, ", ", i)?;
        print_key(out, one)?;
        let value = one.value.get();
        print_held(out, value, is_looser(value, 2))?;
    }
    out.push_str(" }")
}

/// The key of a property, with its colon where no method follows.
fn print_key(out: &mut String, n: &ObjectProperty) -> Result<(), AllocError>
    ensures { OnOk result (string_bytes out.new ≡ string_bytes out.old ++ key_start n.now.method n.now.key.name) }
{
    out.push_str(n.key.name.as_str())?;
    if n.method {
        return Ok(());
    }
    out.push_str(": ")
}

#[tactic(auto, using(crate::proofs::StatementRows::import_printed))]
fn print_import(out: &mut String, n: &ImportDeclaration) -> Result<(), AllocError>
    ensures { OnOk result (string_bytes out.new ≡ string_bytes out.old ++ printed (wrapped (statement_term (Statement.ImportDeclaration n.now)))) }
{
    out.push_str("import { ")?;
    print_imported(out, n)?;
    out.push_str(" } from ")?;
    print_string(out, n.source.value.as_str())?;
    out.push_str(";")
}

/// What an import names between its braces.
fn print_imported(out: &mut String, n: &ImportDeclaration) -> Result<(), AllocError>
    ensures { OnOk result (string_bytes out.new ≡ string_bytes out.old ++ imported_text n.now.specifiers) }
{
    match &n.specifiers {
        None => Ok(()),
        Some(specifiers) => print_specifiers(out, specifiers.as_slice()),
    }
}

fn print_specifiers(out: &mut String, items: &[ImportSpecifier]) -> Result<(), AllocError>
    ensures { OnOk result (string_bytes out.new ≡ string_bytes out.old ++ commas (map (λ s. printed (wrapped (specifier_term s))) items.now)) }
{
    for (i, one) in items.iter().enumerate() {
        print_lead(out, ", ", i)?;
        print_specifier(out, one)?;
    }
    Ok(())
}

#[tactic(auto, using(crate::proofs::StatementRows::r_specifier_name, crate::proofs::StatementRows::r_specifier_reference, crate::proofs::StatementRows::r_specifier_string, std::proofs::lemmas::List::append_assoc))]
fn print_specifier(out: &mut String, n: &ImportSpecifier) -> Result<(), AllocError>
    ensures { OnOk result (string_bytes out.new ≡ string_bytes out.old ++ printed (wrapped (specifier_term n.now))) }
{
    let local = n.local.name.as_str();
    match &n.imported {
        ModuleExportName::IdentifierName(name) => print_names(out, name.name.as_str(), local),
        ModuleExportName::IdentifierReference(name) => print_names(out, name.name.as_str(), local),
        ModuleExportName::StringLiteral(name) => {
            print_string(out, name.value.as_str())?;
            out.push_str(" as ")?;
            out.push_str(local)
        }
    }
}

/// Two names of a specifier, or one that stands for both.
#[tactic(auto, using(std::proofs::lemmas::List::append_assoc))]
fn print_names(out: &mut String, imported: &str, local: &str) -> Result<(), AllocError>
    ensures { OnOk result (string_bytes out.new ≡ string_bytes out.old ++ renamed_text false imported.now local.now) }
{
    if imported == local {
        return out.push_str(imported);
    }
    out.push_str(imported)?;
    out.push_str(" as ")?;
    out.push_str(local)
}
