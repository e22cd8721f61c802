//! Names that a scope declares twice, found by a set of its names.

ghost use Rattle.std.specs.Prelude.{◌≡◌, [], ◌++◌, not, ◌||◌, IfOk, OnOk};
ghost use Rattle.js_term.specs.Term.{Text, is_text};
ghost use Rattle.small_tree.specs.TermOf.{statement_term};
ghost use Rattle.js_small.specs.Seen.{has};
ghost use Rattle.js_term.specs.Form.{is_distinct};
ghost use Rattle.js_small.specs.Names as names;

use crate::names::{declared_name, pattern_name, specifiers_of};
use small_tree::{FormalParameter, Function, Ident, ImportSpecifier, Items, Statement};
use std::alloc::{AllocError, Global};
use std::collections::BTreeSet;

fn add_parameters(out: &mut Items<Ident>, items: &[FormalParameter]) -> Result<(), AllocError>
    ensures { OnOk result (out.new ≡ out.old ++ names.parameter_names items.now) }
{
    for item in items {
        out.push(pattern_name(&item.pattern).clone()?)?;
    }
    Ok(())
}

fn add_locals(out: &mut Items<Ident>, items: &[ImportSpecifier]) -> Result<(), AllocError>
    ensures { OnOk result (out.new ≡ out.old ++ names.local_names items.now) }
{
    for item in items {
        out.push(item.local.name.clone()?)?;
    }
    Ok(())
}

fn add_declared_name(out: &mut Items<Ident>, s: &Statement) -> Result<(), AllocError>
    ensures { OnOk result (out.new ≡ out.old ++ names.with_name (names.declared_name s.now) []) }
{
    if let Some(name) = declared_name(s) {
        out.push(name.clone()?)?;
    }
    Ok(())
}

#[tactic(auto, using(crate::proofs::Distinct::with_name_append, std::proofs::lemmas::Grind::common_steps))]
fn add_declared(out: &mut Items<Ident>, items: &[Statement]) -> Result<(), AllocError>
    ensures { OnOk result (out.new ≡ out.old ++ names.declared_names items.now) }
{
    for item in items {
        add_declared_name(out, item)?;
    }
    Ok(())
}

fn add_imports(out: &mut Items<Ident>, s: &Statement) -> Result<(), AllocError>
    ensures { OnOk result (out.new ≡ out.old ++ names.imported (statement_term s.now)) }
{
    add_locals(out, specifiers_of(s))
}

fn add_imported(out: &mut Items<Ident>, items: &[Statement]) -> Result<(), AllocError>
    ensures { OnOk result (out.new ≡ out.old ++ names.imported_names items.now) }
{
    for item in items {
        add_imports(out, item)?;
    }
    Ok(())
}

/// Adds a name to a set, and says whether it was not there.
#[tactic(auto, using(crate::proofs::NamesKnown::set_grown))]
fn insert(seen: &mut BTreeSet<Ident>, name: &Ident) -> Result<bool, AllocError>
    ensures fresh { IfOk result (λ fresh. fresh ≡ not (has seen.old name.now)) }
    ensures added { OnOk result ((x : Text) → has seen.new x ≡ (is_text x name.now || has seen.old x)) }
{
    match seen.insert(name.clone()?) {
        Ok(fresh) => Ok(fresh),
        Err(_) => Err(AllocError),
    }
}

#[tactic(auto, using(crate::proofs::NamesKnown::none_known, crate::proofs::NamesKnown::passed))]
fn are_distinct(alloc: Global, items: &[Ident]) -> Result<bool, AllocError>
    ensures { IfOk result (λ b. b ≡ is_distinct items.now) }
{
    let mut seen = BTreeSet::new(alloc);
    for item in items {
        if !insert(&mut seen, item)? {
            return Ok(false);
        }
    }
    Ok(true)
}

pub(crate) fn has_distinct_names_by(alloc: Global, n: &Function) -> Result<bool, AllocError>
    ensures { IfOk result (λ b. b ≡ is_distinct (names.parameter_names n.now.params.items ++ names.declared_names n.now.body.statements)) }
{
    let mut out = Items::new(alloc);
    add_parameters(&mut out, n.params.items.as_slice())?;
    add_declared(&mut out, n.body.statements.as_slice())?;
    are_distinct(alloc, out.as_slice())
}

pub(crate) fn are_module_names_distinct_by(
    alloc: Global,
    items: &[Statement],
) -> Result<bool, AllocError>
    ensures { IfOk result (λ b. b ≡ is_distinct (names.imported_names items.now ++ names.declared_names items.now)) }
{
    let mut out = Items::new(alloc);
    add_imported(&mut out, items)?;
    add_declared(&mut out, items)?;
    are_distinct(alloc, out.as_slice())
}
