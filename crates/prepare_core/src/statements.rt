//! The parts that the statements of a module play.
ghost use Rattle.small_tree.specs.TermOf.{statement_term, declaration_term};
ghost use Rattle.prepare_core.specs.Names.{is_import, is_export};
ghost use Rattle.std.specs.Prelude.{◌≡◌, false, MatchOption};

use small_tree::{Declaration, ExportDeclaration, ImportDeclaration, Statement};

#[tactic(auto, using(crate::proofs::Parts::effect_no_import, crate::proofs::Parts::return_no_import, crate::proofs::Parts::variables_no_import, crate::proofs::Parts::function_no_import, crate::proofs::Parts::export_no_import))]
pub(crate) fn as_import(s: &Statement) -> Option<&ImportDeclaration>
    ensures { MatchOption result (is_import (statement_term s.now) ≡ false) (λ n. s.now ≡ Statement.ImportDeclaration n.now) }
{
    match s {
        Statement::ImportDeclaration(n) => Some(n),
        Statement::ExpressionStatement(_)
        | Statement::ReturnStatement(_)
        | Statement::VariableDeclaration(_)
        | Statement::FunctionDeclaration(_)
        | Statement::ExportDeclaration(_) => None,
    }
}

#[tactic(auto, using(crate::proofs::Parts::effect_no_export, crate::proofs::Parts::return_no_export, crate::proofs::Parts::variables_no_export, crate::proofs::Parts::function_no_export, crate::proofs::Parts::import_no_export))]
pub(crate) fn as_export(s: &Statement) -> Option<&ExportDeclaration>
    ensures { MatchOption result (is_export (statement_term s.now) ≡ false) (λ n. s.now ≡ Statement.ExportDeclaration n.now) }
{
    match s {
        Statement::ExportDeclaration(n) => Some(n),
        Statement::ExpressionStatement(_)
        | Statement::ReturnStatement(_)
        | Statement::VariableDeclaration(_)
        | Statement::FunctionDeclaration(_)
        | Statement::ImportDeclaration(_) => None,
    }
}

#[tactic(auto, using(crate::proofs::Parts::variables_statement, crate::proofs::Parts::function_statement))]
pub(crate) fn declaration_statement(d: Declaration) -> Statement
    ensures { statement_term result ≡ declaration_term d }
{
    match d {
        Declaration::VariableDeclaration(n) => Statement::VariableDeclaration(n),
        Declaration::FunctionDeclaration(n) => Statement::FunctionDeclaration(n),
    }
}
