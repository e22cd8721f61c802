//! Small modules, tested without memory.

ghost use Rattle.std.specs.Prelude.{◌≡◌, map};
ghost use Rattle.js_term.specs.Form as form;
ghost use Rattle.js_term.specs.Form.{one, Sort};
ghost use Rattle.js_term.specs.Term.{all};
ghost use Rattle.small_tree.specs.TermOf as tree;
ghost use Rattle.js_small.specs.Small.{small_at, small_each};

use crate::form::{has_small_front, has_small_head, is_constant, is_effect, is_import, is_return};
use crate::repeats::{are_module_names_distinct, has_distinct_names};
use small_tree::{Declaration, Function, Program, Statement};

#[cycle(statement)]
#[tactic(auto, using(crate::proofs::Agree::function_small))]
fn is_function(n: &Function) -> bool
    ensures { result ≡ small_at (one Sort.declaration) (tree.function_term n.now) }
{
    has_small_head(n) && are_statements(n.body.statements.as_slice()) && has_distinct_names(n)
}

#[cycle(statement)]
#[tactic(auto, using(crate::proofs::Agree::statements))]
fn is_statement(s: &Statement) -> bool
    ensures { result ≡ small_at (one Sort.statement) (tree.statement_term s.now) }
{
    match s {
        Statement::ExpressionStatement(n) => is_effect(n.expression.get()),
        Statement::ReturnStatement(n) => is_return(n),
        Statement::VariableDeclaration(n) => is_constant(n),
        Statement::FunctionDeclaration(n) => is_function(n.get()),
        Statement::ImportDeclaration(_) | Statement::ExportDeclaration(_) => false,
    }
}

#[cycle(statement)]
fn are_statements(items: &[Statement]) -> bool
    ensures { result ≡ small_each (one Sort.statement) (all (map tree.statement_term items.now)) }
{
    for item in items {
        if !is_statement(item) {
            return false;
        }
    }
    true
}

#[tactic(auto, using(small_tree::proofs::Levels::d_VariableDeclaration, small_tree::proofs::Levels::d_FunctionDeclaration))]
fn is_declaration(d: &Declaration) -> bool
    ensures { result ≡ small_at (one Sort.declaration) (tree.declaration_term d.now) }
{
    match d {
        Declaration::VariableDeclaration(n) => is_constant(n),
        Declaration::FunctionDeclaration(n) => is_function(n.get()),
    }
}

#[tactic(auto, using(crate::proofs::Agree::statements))]
fn is_item(s: &Statement) -> bool
    ensures { result ≡ small_at (one Sort.item) (tree.statement_term s.now) }
{
    match s {
        Statement::ImportDeclaration(n) => is_import(n),
        Statement::ExportDeclaration(n) => is_declaration(&n.declaration),
        Statement::ExpressionStatement(n) => is_effect(n.expression.get()),
        Statement::VariableDeclaration(n) => is_constant(n),
        Statement::FunctionDeclaration(n) => is_function(n.get()),
        Statement::ReturnStatement(_) => false,
    }
}

fn are_items(items: &[Statement]) -> bool
    ensures { result ≡ small_each (one Sort.item) (all (map tree.statement_term items.now)) }
{
    for item in items {
        if !is_item(item) {
            return false;
        }
    }
    true
}

/// Whether the module is small. It takes no memory; its time grows with the square of the number of names and
/// statements in one scope.
#[tactic(auto, using(crate::proofs::Agree::module_small))]
pub fn is_small(program: &Program) -> bool
    ensures { result ≡ form.is_small (tree.program_term program.now) }
{
    let items = program.body.as_slice();
    has_small_front(program) && are_items(items) && are_module_names_distinct(items)
}
