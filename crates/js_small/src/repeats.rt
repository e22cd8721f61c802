//! Names that a scope declares twice, found by loops over the tree, without memory.

ghost use Rattle.std.specs.Prelude.{◌≡◌, [], ◌++◌};
ghost use Rattle.js_term.specs.Form.{is_distinct};
ghost use Rattle.js_term.specs.Lexeme.{is_one_of};
ghost use Rattle.small_tree.specs.TermOf.{statement_term};
ghost use Rattle.js_small.specs.Names as names;

use crate::names::{declared_name, pattern_name, specifiers_of};
use small_tree::{FormalParameter, Function, Ident, ImportSpecifier, Statement};

fn is_parameter(items: &[FormalParameter], name: &Ident) -> bool
    ensures { result ≡ is_one_of name.now (names.parameter_names items.now) }
{
    for item in items {
        if name == pattern_name(&item.pattern) {
            return true;
        }
    }
    false
}

fn is_local(items: &[ImportSpecifier], name: &Ident) -> bool
    ensures { result ≡ is_one_of name.now (names.local_names items.now) }
{
    for item in items {
        if *name == item.local.name {
            return true;
        }
    }
    false
}

fn declares(s: &Statement, name: &Ident) -> bool
    ensures { result ≡ is_one_of name.now (names.with_name (names.declared_name s.now) []) }
{
    match declared_name(s) {
        None => false,
        Some(declared) => name == declared,
    }
}

#[tactic(auto, using(crate::proofs::Distinct::one_of_named))]
fn is_declared(items: &[Statement], name: &Ident) -> bool
    ensures { result ≡ is_one_of name.now (names.declared_names items.now) }
{
    for item in items {
        if declares(item, name) {
            return true;
        }
    }
    false
}

fn imports(s: &Statement, name: &Ident) -> bool
    ensures { result ≡ is_one_of name.now (names.imported (statement_term s.now)) }
{
    is_local(specifiers_of(s), name)
}

#[tactic(auto, using(crate::proofs::Distinct::one_of_append, std::proofs::lemmas::Grind::common_steps))]
fn is_imported(items: &[Statement], name: &Ident) -> bool
    ensures { result ≡ is_one_of name.now (names.imported_names items.now) }
{
    for item in items {
        if imports(item, name) {
            return true;
        }
    }
    false
}

fn are_parameters_apart(items: &[FormalParameter], statements: &[Statement]) -> bool
    ensures { result ≡ names.apart (names.parameter_names items.now) (names.declared_names statements.now) }
{
    let mut items = items;
    while let [item, later @ ..] = items {
        let name = pattern_name(&item.pattern);
        if is_parameter(later, name) || is_declared(statements, name) {
            return false;
        }
        items = later;
    }
    true
}

#[tactic(auto, using(crate::proofs::Distinct::one_of_append))]
fn is_bound(imports: &[Statement], statements: &[Statement], name: &Ident) -> bool
    ensures { result ≡ is_one_of name.now (names.imported_names imports.now ++ names.declared_names statements.now) }
{
    is_imported(imports, name) || is_declared(statements, name)
}

fn are_locals_apart(
    items: &[ImportSpecifier],
    imports: &[Statement],
    statements: &[Statement],
) -> bool
    ensures { result ≡ names.apart (names.local_names items.now) (names.imported_names imports.now ++ names.declared_names statements.now) }
{
    let mut items = items;
    while let [item, later @ ..] = items {
        let name = &item.local.name;
        if is_local(later, name) || is_bound(imports, statements, name) {
            return false;
        }
        items = later;
    }
    true
}

fn is_import_apart(s: &Statement, imports: &[Statement], statements: &[Statement]) -> bool
    ensures { result ≡ names.apart (names.imported (statement_term s.now)) (names.imported_names imports.now ++ names.declared_names statements.now) }
{
    are_locals_apart(specifiers_of(s), imports, statements)
}

#[tactic(auto, using(crate::proofs::Distinct::apart_append, std::proofs::lemmas::Grind::common_steps))]
fn are_imports_apart(items: &[Statement], statements: &[Statement]) -> bool
    ensures { result ≡ names.apart (names.imported_names items.now) (names.declared_names statements.now) }
{
    let mut items = items;
    while let [item, later @ ..] = items {
        if !is_import_apart(item, later, statements) {
            return false;
        }
        items = later;
    }
    true
}

fn is_declared_again(item: &Statement, later: &[Statement]) -> bool
    ensures { result ≡ names.is_again (names.declared_name item.now) (names.declared_names later.now) }
{
    match declared_name(item) {
        None => false,
        Some(name) => is_declared(later, name),
    }
}

#[tactic(auto, using(crate::proofs::Distinct::distinct_named))]
fn are_declared_once(items: &[Statement]) -> bool
    ensures { result ≡ is_distinct (names.declared_names items.now) }
{
    let mut items = items;
    while let [item, later @ ..] = items {
        if is_declared_again(item, later) {
            return false;
        }
        items = later;
    }
    true
}

/// Whether no parameter and no name of the function's statements is there twice.
#[tactic(auto, using(crate::proofs::Distinct::distinct_append))]
pub(crate) fn has_distinct_names(n: &Function) -> bool
    ensures { result ≡ is_distinct (names.parameter_names n.now.params.items ++ names.declared_names n.now.body.statements) }
{
    let statements = n.body.statements.as_slice();
    are_parameters_apart(n.params.items.as_slice(), statements) && are_declared_once(statements)
}

/// Whether no name that the module imports or declares is there twice.
#[tactic(auto, using(crate::proofs::Distinct::distinct_append))]
pub(crate) fn are_module_names_distinct(items: &[Statement]) -> bool
    ensures { result ≡ is_distinct (names.imported_names items.now ++ names.declared_names items.now) }
{
    are_imports_apart(items, items) && are_declared_once(items)
}
