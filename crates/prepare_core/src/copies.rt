//! Parts of a tree that are kept as they are.
ghost use Rattle.small_tree.specs.TermOf.{import_term};
ghost use Rattle.std.specs.Prelude.{◌≡◌, IfOk};

use crate::room::room;
use small_tree::{
    BindingIdentifier, Directive, FormalParameter, ImportDeclaration, ImportSpecifier, Items,
};
use std::alloc::{AllocError, Global};

pub(crate) fn copy_directives(
    alloc: Global,
    items: &[Directive],
) -> Result<Items<Directive>, AllocError>
    ensures { IfOk result (λ it. it ≡ items.now) }
{
    let mut out = room(alloc, items.len())?;
    for one in items {
        out.push(one.clone()?)?;
    }
    Ok(out)
}

pub(crate) fn copy_parameters(
    alloc: Global,
    items: &[FormalParameter],
) -> Result<Items<FormalParameter>, AllocError>
    ensures { IfOk result (λ it. it ≡ items.now) }
{
    let mut out = room(alloc, items.len())?;
    for one in items {
        out.push(one.clone()?)?;
    }
    Ok(out)
}

fn copy_specifiers(
    alloc: Global,
    items: &[ImportSpecifier],
) -> Result<Items<ImportSpecifier>, AllocError>
    ensures { IfOk result (λ it. it ≡ items.now) }
{
    let mut out = Items::new(alloc);
    for one in items {
        out.push(one.clone()?)?;
    }
    Ok(out)
}

pub(crate) fn copy_id(
    id: &Option<BindingIdentifier>,
) -> Result<Option<BindingIdentifier>, AllocError>
    ensures { IfOk result (λ it. it ≡ id.now) }
{
    match id {
        None => Ok(None),
        Some(n) => Ok(Some(n.clone()?)),
    }
}

fn copy_imported(
    alloc: Global,
    specifiers: &Option<Items<ImportSpecifier>>,
) -> Result<Option<Items<ImportSpecifier>>, AllocError>
    ensures { IfOk result (λ it. it ≡ specifiers.now) }
{
    match specifiers {
        None => Ok(None),
        Some(items) => Ok(Some(copy_specifiers(alloc, items.as_slice())?)),
    }
}

pub(crate) fn copy_import(
    alloc: Global,
    n: &ImportDeclaration,
) -> Result<ImportDeclaration, AllocError>
    ensures { IfOk result (λ it. import_term it ≡ import_term n.now) }
{
    let specifiers = copy_imported(alloc, &n.specifiers)?;
    Ok(ImportDeclaration {
        span: n.span,
        specifiers,
        source: n.source.clone()?,
    })
}
