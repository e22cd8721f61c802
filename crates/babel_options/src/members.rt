// The members of the value of Babel's options.
ghost use Rattle.std.specs.Prelude.{◌≡◌, map, option_map, option_and_then, codes, IfOk, IfErr, None};
ghost use Rattle.std.specs.List.{filter_map, list_all};
ghost use Rattle.serde_json.specs.Find.{get};
ghost use Rattle.serde_json.specs.View.{view};
ghost use Rattle.babel_options.specs.Levels.{ArePlugins, ArePresets};
ghost use Rattle.babel_options.specs.Options as spec;
ghost use Rattle.babel_options.specs.Plugins.{RefusesOnce, plugins_error};
ghost use Rattle.babel_options.specs.Presets.{presets_error};

use crate::babel::TestOs;
use crate::fault::OptionsFault;
use crate::plugins::BabelPlugins;
use crate::presets::BabelPresets;
use babel_values::{is_flag, is_flag_or_null, is_text_or_null};
use serde_json::Value;
use std::alloc::{AllocError, Global};

/// The name of the first member that has the wrong shape, `plugins` and `presets` left out.
pub(crate) fn first_misshapen(value: &Value) -> Option<&str>
    ensures { option_map (λ name. name.now) result ≡ spec.first_misshapen spec.shapes (view value.now) }
{
    if !is_text_or_null(value.get("cwd")) {
        return Some("cwd");
    }
    if !is_text_or_null(value.get("sourceType")) {
        return Some("sourceType");
    }
    if !is_text_or_null(value.get("throws")) {
        return Some("throws");
    }
    if !is_flag_or_null(value.get("BABEL_8_BREAKING")) {
        return Some("BABEL_8_BREAKING");
    }
    if !is_os(value.get("os")) {
        return Some("os");
    }
    first_wrong_flag(value)
}

fn first_wrong_flag(value: &Value) -> Option<&str>
    ensures { option_map (λ name. name.now) result ≡ spec.first_misshapen spec.flags (view value.now) }
{
    if !is_flag(value.get("allowReturnOutsideFunction")) {
        return Some("allowReturnOutsideFunction");
    }
    if !is_flag(value.get("allowAwaitOutsideFunction")) {
        return Some("allowAwaitOutsideFunction");
    }
    if !is_flag(value.get("allowUndeclaredExports")) {
        return Some("allowUndeclaredExports");
    }
    if !is_flag(value.get("allowNewTargetOutsideFunction")) {
        return Some("allowNewTargetOutsideFunction");
    }
    if !is_flag(value.get("allowSuperOutsideMethod")) {
        return Some("allowSuperOutsideMethod");
    }
    if !is_flag(value.get("externalHelpers")) {
        return Some("externalHelpers");
    }
    None
}

#[tactic(auto, using(babel_values::proofs::Lists::list_of_items))]
fn is_os(member: Option<&Value>) -> bool
    ensures { result ≡ spec.is_os (option_map (λ v. view v.now) member.entry) }
{
    match member {
        Some(value) => match value.as_array() {
            Some(items) => are_systems(items),
            None => value.is_null(),
        },
        None => true,
    }
}

#[tactic(auto, using(crate::proofs::Items::dropped))]
fn are_systems(items: &[Value]) -> bool
    ensures { result ≡ list_all spec.is_system (map view items.now) }
{
    for item in items {
        if system_of(item).is_none() {
            return false;
        }
    }
    true
}

fn system_of(value: &Value) -> Option<TestOs>
    ensures { result ≡ spec.system_of (view value.now) }
{
    match value.as_str()? {
        "linux" => Some(TestOs::Linux),
        "win32" => Some(TestOs::Win32),
        "windows" => Some(TestOs::Windows),
        "darwin" => Some(TestOs::Darwin),
        _ => None,
    }
}

/// The systems that the member lists.
#[tactic(auto, using(babel_values::proofs::Lists::list_of_items))]
pub(crate) fn os_in(
    alloc: Global,
    member: Option<&Value>,
) -> Result<Option<Vec<TestOs>>, AllocError>
    ensures { IfOk result (λ os. option_map (λ systems. systems.items) os ≡ spec.os_in (option_map (λ v. view v.now) member.entry)) }
{
    match member.and_then(Value::as_array) {
        Some(items) => {
            let systems = systems(alloc, items)?;
            Ok(Some(systems))
        }
        None => Ok(None),
    }
}

#[tactic(auto, using(crate::proofs::Items::dropped))]
fn systems(alloc: Global, items: &[Value]) -> Result<Vec<TestOs>, AllocError>
    ensures { IfOk result (λ systems. systems.items ≡ filter_map spec.system_of (map view items.now)) }
{
    let mut systems = Vec::new(alloc);
    for item in items {
        if let Some(system) = system_of(item) {
            systems.push(system)?;
        }
    }
    Ok(systems)
}

/// The plugins and the presets of the value, as far as it lists them.
#[tactic(auto, using(crate::proofs::Refusals::refuses_first, crate::proofs::Refusals::refuses_later))]
pub(crate) fn lists_in(
    alloc: Global,
    value: &Value,
) -> Result<(Option<BabelPlugins>, Option<BabelPresets>), OptionsFault>
    ensures sound { IfOk result (λ _. spec.lists_error (view value.now) ≡ None) }
    ensures plugins { IfOk result (λ lists. ArePlugins (get (codes "plugins") (view value.now)) lists.0) }
    ensures presets { IfOk result (λ lists. ArePresets (get (codes "presets") (view value.now)) lists.1) }
    ensures refused { IfErr result (RefusesOnce (spec.lists_error (view value.now))) }
{
    let plugins = plugins_in(alloc, value.get("plugins"))?;
    let presets = presets_in(alloc, value.get("presets"))?;
    Ok((plugins, presets))
}

fn plugins_in(alloc: Global, member: Option<&Value>) -> Result<Option<BabelPlugins>, OptionsFault>
    ensures sound { IfOk result (λ _. option_and_then plugins_error (option_map (λ v. view v.now) member.entry) ≡ None) }
    ensures made { IfOk result (ArePlugins (option_map (λ v. view v.now) member.entry)) }
    ensures refused { IfErr result (RefusesOnce (option_and_then plugins_error (option_map (λ v. view v.now) member.entry))) }
{
    match member {
        Some(value) => {
            let plugins = BabelPlugins::from_entries(alloc, value)?;
            Ok(Some(plugins))
        }
        None => Ok(None),
    }
}

fn presets_in(alloc: Global, member: Option<&Value>) -> Result<Option<BabelPresets>, OptionsFault>
    ensures sound { IfOk result (λ _. option_and_then presets_error (option_map (λ v. view v.now) member.entry) ≡ None) }
    ensures made { IfOk result (ArePresets (option_map (λ v. view v.now) member.entry)) }
    ensures refused { IfErr result (RefusesOnce (option_and_then presets_error (option_map (λ v. view v.now) member.entry))) }
{
    match member {
        Some(value) => {
            let presets = BabelPresets::from_entries(alloc, value)?;
            Ok(Some(presets))
        }
        None => Ok(None),
    }
}
