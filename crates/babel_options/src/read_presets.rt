// The value of Babel's option `presets`.
ghost use Rattle.std.specs.Prelude.{◌≡◌, map, option_and_then, codes, IfOk, IfErr};
ghost use Rattle.serde_json.specs.View.{view};
ghost use Rattle.babel_values.specs.Entries.{last_entry};
ghost use Rattle.babel_options.specs.Env as env_spec;
ghost use Rattle.babel_options.specs.Plugins.{RefusesOnce, is_one_of};
ghost use Rattle.babel_options.specs.Presets as spec;

use crate::env::BabelEnvOptions;
use crate::fault::OptionsFault;
use crate::presets::BabelPresets;
use crate::read_env::env_of;
use crate::refusal::refusal;
use babel_values::{entries_in, has_entry, is_named, last_entry, name_of};
use js_ident::Ident;
use serde_json::Value;
use std::alloc::{AllocError, Global};

impl BabelPresets {
    /// What the entries of `presets` ask for. A wrong value of `env` is one of the errors of the result.
    pub fn from_entries(alloc: Global, value: &Value) -> Result<BabelPresets, OptionsFault>
        ensures made { IfOk result (spec.ReadsPresets (view value.now)) }
        ensures refused { IfErr result (RefusesOnce (spec.presets_error (view value.now))) }
    {
        let Some(items) = entries_in(value) else {
            let refused = refusal(alloc, "presets", ": wrong shape")?;
            return Err(refused);
        };
        let presets = BabelPresets::read(alloc, items)?;
        Ok(presets)
    }

    pub(crate) fn read(alloc: Global, items: &[Value]) -> Result<BabelPresets, AllocError>
        ensures { IfOk result (spec.IsPresetsOf (map view items.now)) }
    {
        let errors = env_errors(alloc, items)?;
        let unsupported = unsupported(alloc, items)?;
        let env = last_env(alloc, items)?;
        Ok(BabelPresets {
            errors,
            unsupported,
            env,
            jsx: has_entry(items, "react"),
            typescript: has_entry(items, "typescript"),
        })
    }
}

fn last_env(alloc: Global, items: &[Value]) -> Result<Option<BabelEnvOptions>, AllocError>
    ensures { IfOk result (λ env. env ≡ option_and_then env_spec.env_of (last_entry (codes "env") (map view items.now))) }
{
    match last_entry(items, "env") {
        Some(item) => env_of(alloc, item),
        None => Ok(None),
    }
}

#[tactic(auto, using(crate::proofs::Items::dropped))]
fn env_errors(alloc: Global, items: &[Value]) -> Result<Vec<Ident>, AllocError>
    ensures { IfOk result (λ errors. errors.items ≡ spec.env_errors (map view items.now)) }
{
    let mut errors = Vec::new(alloc);
    for item in items {
        if let Some(error) = env_error(alloc, item)? {
            errors.push(error)?;
        }
    }
    Ok(errors)
}

// The error of an entry `env` with a wrong value.
fn env_error(alloc: Global, item: &Value) -> Result<Option<Ident>, AllocError>
    ensures { IfOk result (λ error. error ≡ spec.env_error (view item.now)) }
{
    if !is_named(item, "env") || env_of(alloc, item)?.is_some() {
        return Ok(None);
    }
    let error = Ident::new(alloc, "env: wrong value")?;
    Ok(Some(error))
}

#[tactic(auto, using(crate::proofs::Items::dropped))]
fn unsupported(alloc: Global, items: &[Value]) -> Result<Vec<Ident>, AllocError>
    ensures { IfOk result (λ names. names.items ≡ spec.unsupported (map view items.now)) }
{
    let mut names = Vec::new(alloc);
    for item in items {
        if let Some(name) = name_of(item)
            && !is_known(name)
        {
            let name = Ident::new(alloc, name)?;
            names.push(name)?;
        }
    }
    Ok(names)
}

fn is_known(name: &str) -> bool
    ensures { result ≡ is_one_of name.now spec.known_names }
{
    match name {
        "env" | "react" | "typescript" => true,
        _ => false,
    }
}
