ghost use Rattle.js_term.specs.Form.{is_small, is_printable};
ghost use Rattle.js_term.specs.Term.{all};
ghost use Rattle.small_tree.specs.TermOf.{program_term, statement_term};
ghost use Rattle.module_model.specs.Deps.{AreDeps};
ghost use Rattle.module_model.specs.Meaning.{meaning, sources_of, all_kept};
ghost use Rattle.module_model.specs.ReadBack.{read_back};
ghost use Rattle.module_model.specs.Run.{run_items};
ghost use Rattle.prepare_core.specs.Carried.{are_direct};
ghost use Rattle.std.specs.Prelude.{◌≡◌, [], true, map, IfOk, Some};

use crate::exports::push_getters;
use crate::fault::PrepareFault;
use crate::imports::imports_of;
use crate::kept::push_all_kept;
use crate::requests::{deps_of, push_requests};
use crate::runner_names::RunnerNames;
use small_tree::{Ident, Items, Program, Statement};
use std::alloc::{AllocError, Global};

/// A module in the runner's forms, and the modules that it asks for, sorted by their bytes.
#[derive(Drop)]
pub struct Prepared {
    pub program: Program,
    pub deps: Vec<Ident>,
    pub dynamic_deps: Vec<Ident>,
}

/// Getters, requests, and the other statements.
fn prepared_body(alloc: Global, body: Items<Statement>) -> Result<Items<Statement>, AllocError>
    requires { are_direct (all_kept (all (map statement_term body))) ≡ true }
    ensures { IfOk result (λ it. all (map statement_term it) ≡ run_items (all (map statement_term body))) }
{
    let names = RunnerNames::new(alloc)?;
    let imports = imports_of(alloc, body.as_slice())?;
    let mut out = Items::new(alloc);
    push_getters(alloc, &names, &imports, &mut out, body.as_slice())?;
    push_requests(alloc, &names, &mut out, body.as_slice())?;
    push_all_kept(alloc, &imports, &mut out, body)?;
    Ok(out)
}

/// The module that does in the runner what the given one does. A small module has no dynamic imports.
pub fn prepare_module(alloc: Global, program: Program) -> Result<Prepared, PrepareFault>
    requires { is_small (program_term program) ≡ true }
    ensures means { IfOk result (λ p. read_back (program_term p.program) ≡ Some (meaning (program_term program))) }
    ensures printable { IfOk result (λ p. is_printable (program_term p.program) ≡ true) }
    ensures deps { IfOk result (λ p. AreDeps (sources_of (meaning (program_term program)).requests) p.deps.items) }
    ensures dynamic_deps { IfOk result (λ p. p.dynamic_deps.items ≡ []) }
{
    let deps = deps_of(alloc, program.body.as_slice())?;
    let Program {
        span,
        hashbang,
        directives,
        body,
        scope_id,
    } = program;
    let made = prepared_body(alloc, body)?;
    Ok(Prepared {
        program: Program {
            span,
            hashbang,
            directives,
            body: made,
            scope_id,
        },
        deps,
        dynamic_deps: Vec::new(alloc),
    })
}
