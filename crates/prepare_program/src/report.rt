// The lines that are written: compact JSON and a line feed.
ghost use Rattle.std.specs.Prelude.{◌≡◌, map, string_bytes, false, IfOk, Some, codes};
ghost use Rattle.serde_json.specs.Data.{string, object, member, no_members};
ghost use Rattle.serde_json.specs.View.{view};
ghost use Rattle.serde_json.specs.Written.{has_float};
ghost use Rattle.prepare_program.specs.Report as spec;

use crate::PreparedText;
use crate::fault::Fault;
use js_ident::Ident;
use serde_json::{Value, json};
use std::alloc::{AllocError, Global};

fn texts(alloc: Global, all: Vec<Ident>) -> Result<Vec<Value>, AllocError>
    ensures { IfOk result (λ values. map view values.items ≡ map string all.items) }
{
    let mut values = Vec::new(alloc);
    for text in all {
        let text = String::from_str(alloc, text.as_str())?;
        values.push(Value::String(text))?;
    }
    Ok(values)
}

fn line(alloc: Global, value: Value) -> Result<String, AllocError>
    requires { has_float (view value) ≡ false }
    ensures { IfOk result (λ text. string_bytes text ≡ spec.line (view value)) }
{
    let mut text = value.to_string(alloc)?;
    text.push('\n')?;
    Ok(text)
}

fn report_value(alloc: Global, made: PreparedText) -> Result<Value, AllocError>
    ensures { IfOk result (λ value. view value
        ≡ spec.report (string_bytes made.module) made.deps.items made.dynamic_deps.items) }
{
    let PreparedText {
        module,
        deps,
        dynamic_deps,
    } = made;
    let deps = texts(alloc, deps)?;
    let dynamic_deps = texts(alloc, dynamic_deps)?;
    json!(in alloc; {"deps": deps, "dynamicDeps": dynamic_deps, "module": module})
}

/// The line that reports a module.
pub(crate) fn report(alloc: Global, made: PreparedText) -> Result<String, AllocError>
    ensures { IfOk result (λ text. string_bytes text
        ≡ spec.line (spec.report (string_bytes made.module) made.deps.items made.dynamic_deps.items)) }
{
    let value = report_value(alloc, made)?;
    line(alloc, value)
}

fn named(alloc: Global, name: &str) -> Result<Value, AllocError>
    ensures { IfOk result (λ value. view value
        ≡ object (member (codes "fault") (string name.now) no_members)) }
{
    json!(in alloc; {"fault": name})
}

fn bad_request(alloc: Global, key: String) -> Result<Value, AllocError>
    ensures { IfOk result (λ value. view value
        ≡ spec.fault_value (spec.bad_request (string_bytes key))) }
{
    json!(in alloc; {"fault": "BadRequest", "key": key})
}

fn fault_value(alloc: Global, fault: Fault) -> Result<Value, AllocError>
    ensures { IfOk result (λ value. (reason : spec.Reason) × (spec.told fault ≡ Some reason)
        × (view value ≡ spec.fault_value reason)) }
{
    match fault {
        Fault::NotJson => named(alloc, "NotJson"),
        Fault::BadRequest { key } => bad_request(alloc, key),
        Fault::Unread => named(alloc, "Unread"),
        Fault::NoMemory => Err(AllocError),
    }
}

/// The line that names a fault. Want of memory is named by none.
pub(crate) fn refusal(alloc: Global, fault: Fault) -> Result<String, AllocError>
    ensures { IfOk result (λ text. (reason : spec.Reason) × (spec.told fault ≡ Some reason)
        × (string_bytes text ≡ spec.line (spec.fault_value reason))) }
{
    let value = fault_value(alloc, fault)?;
    line(alloc, value)
}
