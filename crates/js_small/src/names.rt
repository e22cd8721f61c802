//! The names that the parts of a scope declare.

ghost use Rattle.std.specs.Prelude.{◌≡◌, map, option_map};
ghost use Rattle.std.specs.Option.{option_copied};
ghost use Rattle.js_term.specs.Scope.{declared, declared_all};
ghost use Rattle.js_term.specs.Term.{all, maybe};
ghost use Rattle.small_tree.specs.TermOf as tree;
ghost use Rattle.js_small.specs.Names as names;

use small_tree::{
    BindingIdentifier, BindingPattern, Declaration, Function, FunctionKind, Ident, ImportSpecifier,
    Items, Statement, VariableDeclarator,
};

pub(crate) fn pattern_name(pattern: &BindingPattern) -> &Ident
    ensures { result.now ≡ names.pattern_name pattern.now }
{
    match pattern {
        BindingPattern::BindingIdentifier(n) => &n.name,
    }
}

#[tactic(auto, using(crate::proofs::Declares::declarator_declares))]
fn first_declarator(items: &[VariableDeclarator]) -> Option<&Ident>
    ensures { option_copied result ≡ names.first_name (declared_all (all (map tree.declarator_term items.now))) }
{
    match items {
        [] => None,
        [item, ..] => Some(pattern_name(&item.id)),
    }
}

fn name_of(id: &Option<BindingIdentifier>) -> Option<&Ident>
    ensures { option_copied result ≡ names.first_name (declared (maybe (option_map tree.binding_term id.now))) }
{
    match id {
        None => None,
        Some(id) => Some(&id.name),
    }
}

#[tactic(auto, using(crate::proofs::Declares::named_declares, crate::proofs::Declares::value_declares))]
fn function_name(n: &Function) -> Option<&Ident>
    ensures { option_copied result ≡ names.first_name (declared (tree.function_term n.now)) }
{
    match n.kind {
        FunctionKind::FunctionDeclaration => name_of(&n.id),
        FunctionKind::FunctionExpression => None,
    }
}

#[tactic(auto, using(crate::proofs::Declares::declarations))]
fn declaration_name(d: &Declaration) -> Option<&Ident>
    ensures { option_copied result ≡ names.first_name (declared (tree.declaration_term d.now)) }
{
    match d {
        Declaration::VariableDeclaration(n) => first_declarator(n.declarations.as_slice()),
        Declaration::FunctionDeclaration(n) => function_name(n.get()),
    }
}

/// The first name that a statement declares; one of a small module declares no second.
#[tactic(auto, using(crate::proofs::Declares::declarations))]
pub(crate) fn declared_name(s: &Statement) -> Option<&Ident>
    ensures { option_copied result ≡ names.declared_name s.now }
{
    match s {
        Statement::VariableDeclaration(n) => first_declarator(n.declarations.as_slice()),
        Statement::FunctionDeclaration(n) => function_name(n.get()),
        Statement::ExportDeclaration(n) => declaration_name(&n.declaration),
        Statement::ExpressionStatement(_)
        | Statement::ReturnStatement(_)
        | Statement::ImportDeclaration(_) => None,
    }
}

fn items_of(specifiers: &Option<Items<ImportSpecifier>>) -> &[ImportSpecifier]
    ensures { result.now ≡ names.items_of specifiers.now }
{
    match specifiers {
        None => &[],
        Some(items) => items.as_slice(),
    }
}

/// The specifiers of an import; other statements have none.
#[tactic(auto, using(crate::proofs::Declares::imports))]
pub(crate) fn specifiers_of(s: &Statement) -> &[ImportSpecifier]
    ensures { names.imported (tree.statement_term s.now) ≡ names.local_names result.now }
{
    match s {
        Statement::ImportDeclaration(n) => items_of(&n.specifiers),
        Statement::VariableDeclaration(_)
        | Statement::FunctionDeclaration(_)
        | Statement::ExportDeclaration(_)
        | Statement::ExpressionStatement(_)
        | Statement::ReturnStatement(_) => &[],
    }
}
