//! Small modules, tested by sets of names.

ghost use Rattle.std.specs.Prelude.{◌≡◌, map, IfOk};
ghost use Rattle.js_term.specs.Form as form;
ghost use Rattle.js_term.specs.Form.{one, Sort};
ghost use Rattle.js_term.specs.Term.{all};
ghost use Rattle.small_tree.specs.TermOf as tree;
ghost use Rattle.js_small.specs.Small.{small_at, small_each};

use crate::form::{has_small_front, has_small_head, is_constant, is_effect, is_import, is_return};
use crate::sets::{are_module_names_distinct_by, has_distinct_names_by};
use small_tree::{Declaration, Function, Program, Statement};
use std::alloc::{AllocError, Global};

#[cycle(statement_by)]
#[tactic(auto, using(crate::proofs::Agree::function_small))]
fn is_function_by(alloc: Global, n: &Function) -> Result<bool, AllocError>
    ensures { IfOk result (λ b. b ≡ small_at (one Sort.declaration) (tree.function_term n.now)) }
{
    let statements = n.body.statements.as_slice();
    if !has_small_head(n) || !are_statements_by(alloc, statements)? {
        return Ok(false);
    }
    has_distinct_names_by(alloc, n)
}

#[cycle(statement_by)]
#[tactic(auto, using(crate::proofs::Agree::statements))]
fn is_statement_by(alloc: Global, s: &Statement) -> Result<bool, AllocError>
    ensures { IfOk result (λ b. b ≡ small_at (one Sort.statement) (tree.statement_term s.now)) }
{
    match s {
        Statement::ExpressionStatement(n) => Ok(is_effect(n.expression.get())),
        Statement::ReturnStatement(n) => Ok(is_return(n)),
        Statement::VariableDeclaration(n) => Ok(is_constant(n)),
        Statement::FunctionDeclaration(n) => is_function_by(alloc, n.get()),
        Statement::ImportDeclaration(_) | Statement::ExportDeclaration(_) => Ok(false),
    }
}

#[cycle(statement_by)]
fn are_statements_by(alloc: Global, items: &[Statement]) -> Result<bool, AllocError>
    ensures { IfOk result (λ b. b ≡ small_each (one Sort.statement) (all (map tree.statement_term items.now))) }
{
    for item in items {
        if !is_statement_by(alloc, item)? {
            return Ok(false);
        }
    }
    Ok(true)
}

#[tactic(auto, using(small_tree::proofs::Levels::d_VariableDeclaration, small_tree::proofs::Levels::d_FunctionDeclaration))]
fn is_declaration_by(alloc: Global, d: &Declaration) -> Result<bool, AllocError>
    ensures { IfOk result (λ b. b ≡ small_at (one Sort.declaration) (tree.declaration_term d.now)) }
{
    match d {
        Declaration::VariableDeclaration(n) => Ok(is_constant(n)),
        Declaration::FunctionDeclaration(n) => is_function_by(alloc, n.get()),
    }
}

#[tactic(auto, using(crate::proofs::Agree::statements))]
fn is_item_by(alloc: Global, s: &Statement) -> Result<bool, AllocError>
    ensures { IfOk result (λ b. b ≡ small_at (one Sort.item) (tree.statement_term s.now)) }
{
    match s {
        Statement::ImportDeclaration(n) => Ok(is_import(n)),
        Statement::ExportDeclaration(n) => is_declaration_by(alloc, &n.declaration),
        Statement::ExpressionStatement(n) => Ok(is_effect(n.expression.get())),
        Statement::VariableDeclaration(n) => Ok(is_constant(n)),
        Statement::FunctionDeclaration(n) => is_function_by(alloc, n.get()),
        Statement::ReturnStatement(_) => Ok(false),
    }
}

fn are_items_by(alloc: Global, items: &[Statement]) -> Result<bool, AllocError>
    ensures { IfOk result (λ b. b ≡ small_each (one Sort.item) (all (map tree.statement_term items.now))) }
{
    for item in items {
        if !is_item_by(alloc, item)? {
            return Ok(false);
        }
    }
    Ok(true)
}

/// Whether the module is small, by sets of names: its time grows with the length of the module, times the logarithm
/// of the number of names in one scope.
#[tactic(auto, using(crate::proofs::Agree::module_small))]
pub fn is_small_by(alloc: Global, program: &Program) -> Result<bool, AllocError>
    ensures { IfOk result (λ b. b ≡ form.is_small (tree.program_term program.now)) }
{
    let items = program.body.as_slice();
    if !has_small_front(program) || !are_items_by(alloc, items)? {
        return Ok(false);
    }
    are_module_names_distinct_by(alloc, items)
}
