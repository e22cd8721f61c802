// From the bytes of a request to the line that answers it.
ghost use Rattle.std.specs.Prelude.{◌≡◌, ◌⊎◌, string_bytes, IfOk, IfErr, IfSome};
ghost use Rattle.serde_json.specs.View.{view};
ghost use Rattle.js_term.specs.Term.{Text};
ghost use Rattle.prepare_program.specs.Request.{request, asked_of, for_module};
ghost use Rattle.prepare_program.specs.Prepared.{IsPrepared, IsUnreadable};
ghost use Rattle.prepare_program.specs.Report.{told, IsCaused};
ghost use Rattle.prepare_program.specs.Run.{IsAnswer};

use crate::fault::Fault;
use crate::report::{refusal, report};
use crate::request::module_of;
use crate::{PreparedText, TextFault, prepare_text};
use serde_json::{Category, Value};
use std::alloc::{AllocError, Global};

/// A line that answers a request, with its line feed.
#[derive(Debug, Drop)]
pub(crate) enum Line {
    Report(String),
    Refusal(String),
}

fn read_value(alloc: Global, bytes: &[u8]) -> Result<Value, Fault>
    ensures read { IfOk result (λ value. request bytes.now ≡ asked_of (view value)) }
    ensures refused { IfErr result (λ fault. IfSome (told fault) (IsCaused bytes.now)) }
{
    match Value::from_slice(alloc, bytes) {
        Ok(value) => Ok(value),
        Err(error) => match error.classify() {
            Category::Memory => Err(Fault::NoMemory),
            _ => Err(Fault::NotJson),
        },
    }
}

fn prepared(alloc: Global, text: &str) -> Result<PreparedText, Fault>
    ensures made { IfOk result (λ made. IsPrepared text.now (string_bytes made.module) made.deps.items made.dynamic_deps.items) }
    ensures refused { IfErr result (λ fault. (fault ≡ Fault.NoMemory)
        ⊎ ((fault ≡ Fault.Unread) × IsUnreadable text.now)) }
{
    match prepare_text(alloc, text) {
        Ok(made) => Ok(made),
        Err(TextFault::Unread) => Err(Fault::Unread),
        Err(TextFault::NoMemory) => Err(Fault::NoMemory),
    }
}

// What becomes of the module that the request in these bytes asks for.
fn prepare_request(alloc: Global, bytes: &[u8]) -> Result<PreparedText, Fault>
    ensures made { IfOk result (λ made. (text : Text) × (request bytes.now ≡ for_module text)
        × IsPrepared text (string_bytes made.module) made.deps.items made.dynamic_deps.items) }
    ensures refused { IfErr result (λ fault. IfSome (told fault) (IsCaused bytes.now)) }
{
    let value = read_value(alloc, bytes)?;
    match module_of(&value) {
        Ok(text) => prepared(alloc, text),
        Err(name) => {
            let key = String::from_str(alloc, name)?;
            Err(Fault::BadRequest { key })
        }
    }
}

/// The line that answers the request in these bytes.
#[tactic(auto, using(crate::proofs::Reasons::reason_is_only))]
pub(crate) fn answer(alloc: Global, bytes: &[u8]) -> Result<Line, AllocError>
    ensures { IfOk result (IsAnswer bytes.now) }
{
    match prepare_request(alloc, bytes) {
        Ok(made) => {
            let text = report(alloc, made)?;
            Ok(Line::Report(text))
        }
        Err(fault) => {
            let text = refusal(alloc, fault)?;
            Ok(Line::Refusal(text))
        }
    }
}
