//! What a module asks for.
ghost use Rattle.js_term.specs.Term.{all, append, maybe};
ghost use Rattle.small_tree.specs.TermOf.{specifier_term, specifiers_term, statement_term};
ghost use Rattle.module_model.specs.Deps.{AreDeps};
ghost use Rattle.module_model.specs.Meaning.{asked, requests, imported_by, imported_names, sources_of};
ghost use Rattle.module_model.specs.Run.{written_requests};
ghost use Rattle.std.specs.BTreeSet.{IsFromIterResult};
ghost use Rattle.std.specs.Cmp.Lexicographic.{slice_cmp};
ghost use Rattle.std.specs.Ordering.{nat_cmp};
ghost use Rattle.std.specs.Prelude.{◌≡◌, ◌++◌, ◌+◌, ◌<◌, ◌^◌, map, length, option_map, IfOk, OnOk};

use crate::forms::request;
use crate::imports::exported_name;
use crate::room::room;
use crate::runner_names::RunnerNames;
use crate::statements::as_import;
use small_tree::{Ident, ImportSpecifier, Items, Statement};
use std::alloc::{AllocError, Global};
use std::collections::BTreeSet;

#[tactic(auto, using(crate::proofs::Asked::names_next))]
fn names_of(alloc: Global, items: &[ImportSpecifier]) -> Result<Items<Ident>, AllocError>
    ensures { IfOk result (λ it. it ≡ imported_by (all (map specifier_term items.now))) }
{
    let mut out = room(alloc, items.len())?;
    for one in items {
        out.push(exported_name(&one.imported).clone()?)?;
    }
    Ok(out)
}

fn names_asked(
    alloc: Global,
    specifiers: &Option<Items<ImportSpecifier>>,
) -> Result<Option<Items<Ident>>, AllocError>
    ensures { IfOk result (λ it. it ≡ imported_names (maybe (option_map specifiers_term specifiers.now))) }
{
    match specifiers {
        None => Ok(None),
        Some(items) => Ok(Some(names_of(alloc, items.as_slice())?)),
    }
}

/// Adds the request that a statement makes, and hands out the number of the next one.
fn push_request(
    alloc: Global,
    names: &RunnerNames,
    out: &mut Items<Statement>,
    number: usize,
    s: &Statement,
) -> Result<usize, AllocError>
    requires { number + 1 < 2 ^ 64 }
    ensures terms { OnOk result (all (map statement_term out.new) ≡ append (all (map statement_term out.old)) (written_requests number (asked (statement_term s.now)))) }
    ensures next { IfOk result (λ n. n ≡ number + length (asked (statement_term s.now))) }
{
    match as_import(s) {
        None => Ok(number),
        Some(n) => {
            let imported = names_asked(alloc, &n.specifiers)?;
            let source = n.source.value.clone()?;
            out.push(request(alloc, names, number, source, imported)?)?;
            Ok(number + 1)
        }
    }
}

/// Adds the requests of a module, each with its number.
pub(crate) fn push_requests(
    alloc: Global,
    names: &RunnerNames,
    out: &mut Items<Statement>,
    body: &[Statement],
) -> Result<(), AllocError>
    ensures { OnOk result (all (map statement_term out.new) ≡ append (all (map statement_term out.old)) (written_requests 0 (requests (all (map statement_term body.now))))) }
{
    let mut number = 0;
    for one in body {
        number = push_request(alloc, names, out, number, one)?;
    }
    Ok(())
}

fn push_source(out: &mut Vec<Ident>, s: &Statement) -> Result<(), AllocError>
    ensures { OnOk result (out.new.items ≡ out.old.items ++ sources_of (asked (statement_term s.now))) }
{
    if let Some(n) = as_import(s) {
        out.push(n.source.value.clone()?)?;
    }
    Ok(())
}

fn sources(alloc: Global, body: &[Statement]) -> Result<Vec<Ident>, AllocError>
    ensures { IfOk result (λ it. it.items ≡ sources_of (requests (all (map statement_term body.now)))) }
{
    let mut out = Vec::new(alloc);
    for one in body {
        push_source(&mut out, one)?;
    }
    Ok(out)
}

fn source_set(alloc: Global, sources: Vec<Ident>) -> Result<BTreeSet<Ident>, AllocError>
    ensures { IfOk result (IsFromIterResult (slice_cmp nat_cmp) sources.items) }
{
    sources.into_iter().collect(alloc)
}

fn sorted(alloc: Global, set: BTreeSet<Ident>) -> Result<Vec<Ident>, AllocError>
    ensures { IfOk result (λ it. it.items ≡ set.keys) }
{
    set.into_iter().collect(alloc)
}

/// The modules that a module asks for, each once.
pub(crate) fn deps_of(alloc: Global, body: &[Statement]) -> Result<Vec<Ident>, AllocError>
    ensures { IfOk result (λ it. AreDeps (sources_of (requests (all (map statement_term body.now)))) it.items) }
{
    let set = source_set(alloc, sources(alloc, body)?)?;
    sorted(alloc, set)
}
