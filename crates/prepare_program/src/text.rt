// From the text of a module to calls of the module runner.
ghost use Rattle.std.specs.Prelude.{◌≡◌, ◌≤◌, [], Some, true, string_bytes, IfOk, IsErrOf};
ghost use Rattle.js_term.specs.Form.{is_small, is_printable};
ghost use Rattle.js_term.specs.Lexeme.{narrow};
ghost use Rattle.js_term.specs.Spells.{Spells};
ghost use Rattle.js_term.specs.Term.{depth};
ghost use Rattle.small_tree.specs.TermOf.{program_term};
ghost use Rattle.module_model.specs.Deps.{AreDeps};
ghost use Rattle.module_model.specs.Meaning.{meaning, sources_of};
ghost use Rattle.module_model.specs.ReadBack.{read_back};
ghost use Rattle.prepare_program.specs.Prepared.{IsPrepared, IsUnreadable};

use js_ident::Ident;
use js_print::print_program;
use js_read::{ReadFault, read_module};
use prepare_core::{PrepareFault, Prepared, prepare_module};
use small_tree::Program;
use std::alloc::{AllocError, Global};
use thiserror::Error;

// The last byte offset that a span holds.
const MOST_OFFSET: usize = 4294967295;

/// A module as calls of the module runner, with the sources that it imports.
#[derive(Debug, Drop)]
pub struct PreparedText {
    pub module: String,
    pub deps: Vec<Ident>,
    pub dynamic_deps: Vec<Ident>,
}

/// Why the text of a module was not prepared.
#[derive(Debug, Drop, Error)]
pub enum TextFault {
    #[error("the text spells no module that is read")]
    Unread,
    #[error("out of memory")]
    NoMemory,
}

impl From<AllocError> for TextFault {
    ghost use Rattle.prepare_program.specs.declared.text.TextFault.TheVariants.{NoMemory};

    ghost from_gives = { λ _ e. e ≡ NoMemory };

    fn from(_: AllocError) -> TextFault {
        TextFault::NoMemory
    }
}

// The module that the text spells. Byte offsets in a longer text have no room in a span.
fn read(alloc: Global, text: &str) -> Result<Program, TextFault>
    ensures spelled { IfOk result (λ program. Spells narrow text.now (program_term program)) }
    ensures small { IfOk result (λ program. is_small (program_term program) ≡ true) }
    ensures shallow { IfOk result (λ program. depth (program_term program) ≤ 512) }
    ensures unread { IsErrOf result TextFault.Unread → IsUnreadable text.now }
{
    if text.len() > MOST_OFFSET {
        return Err(TextFault::NoMemory);
    }
    match read_module(alloc, text) {
        Ok(program) => Ok(program),
        Err(ReadFault::Unread { .. }) => Err(TextFault::Unread),
        Err(ReadFault::NoMemory) => Err(TextFault::NoMemory),
    }
}

fn prepare(alloc: Global, program: Program) -> Result<Prepared, AllocError>
    requires { is_small (program_term program) ≡ true }
    ensures means { IfOk result (λ made. read_back (program_term made.program) ≡ Some (meaning (program_term program))) }
    ensures printable { IfOk result (λ made. is_printable (program_term made.program) ≡ true) }
    ensures deps { IfOk result (λ made. AreDeps (sources_of (meaning (program_term program)).requests) made.deps.items) }
    ensures dynamic_deps { IfOk result (λ made. made.dynamic_deps.items ≡ []) }
{
    match prepare_module(alloc, program) {
        Ok(made) => Ok(made),
        Err(PrepareFault::NoMemory) => Err(AllocError),
    }
}

/// Reads the module, and writes it as calls of the module runner.
#[tactic(auto, using(crate::proofs::Texts::prepared))]
pub fn prepare_text(alloc: Global, text: &str) -> Result<PreparedText, TextFault>
    ensures made { IfOk result (λ made. IsPrepared text.now (string_bytes made.module) made.deps.items made.dynamic_deps.items) }
    ensures unread { IsErrOf result TextFault.Unread → IsUnreadable text.now }
{
    let program = read(alloc, text)?;
    let Prepared {
        program,
        deps,
        dynamic_deps,
    } = prepare(alloc, program)?;
    let module = print_program(alloc, program)?;
    Ok(PreparedText {
        module,
        deps,
        dynamic_deps,
    })
}
