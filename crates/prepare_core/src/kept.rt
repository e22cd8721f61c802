//! What stays of a module's statements.
ghost use Rattle.js_term.specs.Term.{all, append};
ghost use Rattle.small_tree.specs.TermOf.{statement_term};
ghost use Rattle.module_model.specs.Meaning.{kept, all_kept};
ghost use Rattle.prepare_core.specs.Carried.{carried_each};
ghost use Rattle.prepare_core.specs.Names.{is_import, names_env, root_env};
ghost use Rattle.std.specs.Prelude.{◌≡◌, [], false, map, OnOk};

use crate::imported::Import;
use crate::statements::{as_export, as_import, declaration_statement};
use crate::walk::{rewrite_declaration, rewrite_statement};
use small_tree::{Ident, Items, Statement};
use std::alloc::{AllocError, Global};
use std::collections::{HashMap, HashSet};

/// Adds what stays of a statement that is no import: the declaration of an export, or the whole.
fn push_other(
    alloc: Global,
    imports: &HashMap<Ident, Import>,
    scopes: &mut Items<HashSet<Ident>>,
    out: &mut Items<Statement>,
    s: &Statement,
) -> Result<(), AllocError>
    requires { is_import (statement_term s.now) ≡ false }
    ensures scopes { OnOk result (scopes.new ≡ scopes.old) }
    ensures terms { OnOk result (all (map statement_term out.new) ≡ append (all (map statement_term out.old)) (carried_each (names_env imports.now scopes.old) (kept (statement_term s.now)))) }
{
    match as_export(s) {
        None => out.push(rewrite_statement(alloc, imports, scopes, s)?),
        Some(n) => {
            let made = rewrite_declaration(alloc, imports, scopes, &n.declaration)?;
            out.push(declaration_statement(made))
        }
    }
}

fn push_kept(
    alloc: Global,
    imports: &HashMap<Ident, Import>,
    scopes: &mut Items<HashSet<Ident>>,
    out: &mut Items<Statement>,
    s: &Statement,
) -> Result<(), AllocError>
    ensures scopes { OnOk result (scopes.new ≡ scopes.old) }
    ensures terms { OnOk result (all (map statement_term out.new) ≡ append (all (map statement_term out.old)) (carried_each (names_env imports.now scopes.old) (kept (statement_term s.now)))) }
{
    match as_import(s) {
        Some(_) => Ok(()),
        None => push_other(alloc, imports, scopes, out, s),
    }
}

/// Adds what stays of the statements, with each imported name written as the member of its request. Each statement is
/// freed as soon as it is made anew, so that its memory serves the next one.
pub(crate) fn push_all_kept(
    alloc: Global,
    imports: &HashMap<Ident, Import>,
    out: &mut Items<Statement>,
    body: Items<Statement>,
) -> Result<(), AllocError>
    ensures { OnOk result (all (map statement_term out.new) ≡ append (all (map statement_term out.old)) (carried_each (root_env imports.now) (all_kept (all (map statement_term body))))) }
{
    let mut scopes = Items::new(alloc);
    for one in body.into_vec() {
        push_kept(alloc, imports, &mut scopes, out, &one)?;
    }
    Ok(())
}
