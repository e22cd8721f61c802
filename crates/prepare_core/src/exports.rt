//! The getters of what a module exports.
ghost use Rattle.js_term.specs.Term.{all, append, one};
ghost use Rattle.small_tree.specs.TermOf.{statement_term};
ghost use Rattle.module_model.specs.Meaning.{handed_out, all_handed_out};
ghost use Rattle.module_model.specs.Run.{getters};
ghost use Rattle.prepare_core.specs.Names.{root_env};
ghost use Rattle.std.specs.Prelude.{◌≡◌, ◌++◌, ◌∷◌, [], map, IfOk, OnOk};

use crate::forms::getter;
use crate::imported::Import;
use crate::made::MADE;
use crate::names::push_declaration;
use crate::runner_names::RunnerNames;
use crate::statements::as_export;
use crate::walk::rewrite_reference;
use small_tree::{Ident, IdentifierReference, Items, Statement};
use std::alloc::{AllocError, Global};
use std::collections::HashMap;

fn push_exported(out: &mut Items<Ident>, s: &Statement) -> Result<(), AllocError>
    ensures { OnOk result (out.new ≡ out.old ++ handed_out (statement_term s.now)) }
{
    match as_export(s) {
        None => Ok(()),
        Some(n) => push_declaration(out, &n.declaration),
    }
}

fn exported(alloc: Global, body: &[Statement]) -> Result<Items<Ident>, AllocError>
    ensures { IfOk result (λ it. it ≡ all_handed_out (all (map statement_term body.now))) }
{
    let mut out = Items::new(alloc);
    for one in body {
        push_exported(&mut out, one)?;
    }
    Ok(out)
}

fn push_getter(
    alloc: Global,
    names: &RunnerNames,
    imports: &HashMap<Ident, Import>,
    out: &mut Items<Statement>,
    name: &Ident,
) -> Result<(), AllocError>
    ensures { OnOk result (all (map statement_term out.new) ≡ append (all (map statement_term out.old)) (getters (root_env imports.now) (name.now ∷ []))) }
{
    let reference = IdentifierReference {
        span: MADE,
        name: name.clone()?,
        reference_id: None,
    };
    let target = rewrite_reference(alloc, imports, &[], &reference)?;
    out.push(getter(alloc, names, name.clone()?, target)?)
}

/// Adds a getter for each name that the module exports.
pub(crate) fn push_getters(
    alloc: Global,
    names: &RunnerNames,
    imports: &HashMap<Ident, Import>,
    out: &mut Items<Statement>,
    body: &[Statement],
) -> Result<(), AllocError>
    ensures { OnOk result (all (map statement_term out.new) ≡ append (all (map statement_term out.old)) (getters (root_env imports.now) (all_handed_out (all (map statement_term body.now))))) }
{
    let exports = exported(alloc, body)?;
    for one in exports.as_slice() {
        push_getter(alloc, names, imports, out, one)?;
    }
    Ok(())
}
