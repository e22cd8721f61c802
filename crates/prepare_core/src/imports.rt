//! What the names that a module imports stand for.
ghost use Rattle.js_term.specs.Scope.{all_brought, bound_by, brought};
ghost use Rattle.js_term.specs.Term.{all, text_of};
ghost use Rattle.small_tree.specs.TermOf.{export_name_term, import_term, specifier_term, statement_term};
ghost use Rattle.module_model.specs.Meaning.{asked};
ghost use Rattle.module_model.specs.Shape.{import_name};
ghost use Rattle.prepare_core.specs.Names.{HasImports, brought_in};
ghost use Rattle.std.specs.Prelude.{◌≡◌, ◌++◌, ◌∷◌, ◌+◌, ◌<◌, ◌^◌, [], map, length, IfOk, OnOk};

use crate::imported::Import;
use crate::made::import_text;
use crate::statements::as_import;
use small_tree::{Ident, ImportDeclaration, ImportSpecifier, ModuleExportName, Statement};
use std::alloc::{AllocError, Global};
use std::collections::HashMap;

pub(crate) fn exported_name(name: &ModuleExportName) -> &Ident
    ensures { result.now ≡ text_of (export_name_term name.now) }
{
    match name {
        ModuleExportName::IdentifierName(n) => &n.name,
        ModuleExportName::IdentifierReference(n) => &n.name,
        ModuleExportName::StringLiteral(n) => &n.value,
    }
}

/// Adds what a specifier brings in. A name that is there already stays.
fn add_specifier(
    imports: &mut HashMap<Ident, Import>,
    request: usize,
    object: &Ident,
    one: &ImportSpecifier,
) -> Result<(), AllocError>
    requires { object.now ≡ import_name request }
    ensures { OnOk result (HasImports (brought_in imports.old.entries ++ bound_by request (all (specifier_term one.now ∷ []))) imports.new.entries) }
{
    if imports.contains_key(&one.local.name) {
        return Ok(());
    }
    let name = exported_name(&one.imported).clone()?;
    let object = object.clone()?;
    imports.insert(
        one.local.name.clone()?,
        Import {
            request,
            object,
            name,
        },
    )?;
    Ok(())
}

fn add_specifiers(
    imports: &mut HashMap<Ident, Import>,
    request: usize,
    object: &Ident,
    items: &[ImportSpecifier],
) -> Result<(), AllocError>
    requires { object.now ≡ import_name request }
    ensures { OnOk result (HasImports (brought_in imports.old.entries ++ bound_by request (all (map specifier_term items.now))) imports.new.entries) }
{
    for one in items {
        add_specifier(imports, request, object, one)?;
    }
    Ok(())
}

#[tactic(auto, using(crate::proofs::Brought::has_itself))]
fn add_import(
    alloc: Global,
    imports: &mut HashMap<Ident, Import>,
    request: usize,
    n: &ImportDeclaration,
) -> Result<(), AllocError>
    ensures { OnOk result (HasImports (brought_in imports.old.entries ++ brought request (import_term n.now)) imports.new.entries) }
{
    match &n.specifiers {
        None => Ok(()),
        Some(items) => {
            let object = import_text(alloc, request)?;
            add_specifiers(imports, request, &object, items.as_slice())
        }
    }
}

/// Adds what a statement brings in, and hands out the number of the next request.
fn add_statement(
    alloc: Global,
    imports: &mut HashMap<Ident, Import>,
    request: usize,
    s: &Statement,
) -> Result<usize, AllocError>
    requires { request + 1 < 2 ^ 64 }
    ensures names { OnOk result (HasImports (brought_in imports.old.entries ++ brought request (statement_term s.now)) imports.new.entries) }
    ensures next { IfOk result (λ n. n ≡ request + length (asked (statement_term s.now))) }
{
    match as_import(s) {
        None => Ok(request),
        Some(n) => {
            add_import(alloc, imports, request, n)?;
            Ok(request + 1)
        }
    }
}

/// What a module imports: the first import of a name counts.
pub(crate) fn imports_of(
    alloc: Global,
    body: &[Statement],
) -> Result<HashMap<Ident, Import>, AllocError>
    ensures { IfOk result (λ it. HasImports (all_brought 0 (all (map statement_term body.now))) it.entries) }
{
    let mut imports = HashMap::new(alloc);
    let mut request = 0;
    for one in body {
        request = add_statement(alloc, &mut imports, request, one)?;
    }
    Ok(imports)
}
