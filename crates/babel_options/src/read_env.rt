// The value of the preset `env`.
ghost use Rattle.std.specs.Prelude.{◌≡◌, ◌≢◌, map, option_map, IfOk, Some};
ghost use Rattle.std.specs.List.{filter_map, list_all};
ghost use Rattle.std.specs.Result.{result_ok};
ghost use Rattle.serde_json.specs.Find.{as_str};
ghost use Rattle.serde_json.specs.View.{view, members_view};
ghost use Rattle.babel_options.specs.Env as spec;
ghost use Rattle.babel_options.specs.Plugins.{is_one_of};
ghost use Rattle.transform_targets.specs.Targets.{no_targets};
ghost use Rattle.transform_targets.specs.Words.{targets_of, words_of};

use crate::env::{BabelEnvOptions, BabelModule};
use babel_values::{flag, option_of, text};
use js_ident::Ident;
use serde_json::{Map, Value};
use std::alloc::{AllocError, Global};
use transform_targets::{EngineTargets, TargetFault, Version, engine_named, version_in};

/// What the value of an entry `env` asks for, if it is right.
#[tactic(auto, unfolding(crate::specs::Env::env_of))]
pub(crate) fn env_of(alloc: Global, item: &Value) -> Result<Option<BabelEnvOptions>, AllocError>
    ensures { IfOk result (λ env. env ≡ spec.env_of (view item.now)) }
{
    if !is_right_object(item.get(1)) {
        return Ok(None);
    }
    let Some(targets) = targets_in(alloc, option_of(item, "targets"))? else {
        return Ok(None);
    };
    let Some(modules) = module_in(option_of(item, "modules")) else {
        return Ok(None);
    };
    let config_path = text(alloc, option_of(item, "configPath"))?;
    Ok(Some(BabelEnvOptions {
        targets,
        bugfixes: flag(option_of(item, "bugfixes"), true),
        spec: flag(option_of(item, "spec"), false),
        loose: flag(option_of(item, "loose"), false),
        modules,
        debug: flag(option_of(item, "debug"), false),
        force_all_transforms: flag(option_of(item, "forceAllTransforms"), false),
        config_path,
        ignore_browserslist_config: flag(option_of(item, "ignoreBrowserslistConfig"), false),
        shipped_proposals: flag(option_of(item, "shippedProposals"), false),
    }))
}

// Whether the value is an object of listed members, or absent.
fn is_right_object(value: Option<&Value>) -> bool
    ensures { result ≡ spec.is_right_object (option_map (λ v. view v.now) value.entry) }
{
    match value {
        Some(value) => match value.as_object() {
            Some(members) => are_right(members),
            None => false,
        },
        None => true,
    }
}

fn are_right(members: &Map<String, Value>) -> bool
    ensures { result ≡ spec.are_right (members_view members.now.entries) }
{
    for (name, value) in members.iter() {
        if !is_right(name.as_str(), value) {
            return false;
        }
    }
    true
}

fn is_right(name: &str, value: &Value) -> bool
    ensures { result ≡ spec.is_right name.now (view value.now) }
{
    if is_flag_name(name) {
        value.is_boolean()
    } else if name == "configPath" {
        value.is_string() || value.is_null()
    } else {
        is_other_name(name)
    }
}

fn is_flag_name(name: &str) -> bool
    ensures { result ≡ is_one_of name.now spec.flag_names }
{
    match name {
        "bugfixes" | "spec" | "loose" | "debug" => true,
        "forceAllTransforms" | "ignoreBrowserslistConfig" | "shippedProposals" => true,
        _ => false,
    }
}

fn is_other_name(name: &str) -> bool
    ensures { result ≡ is_one_of name.now spec.other_names }
{
    match name {
        "targets" | "modules" => true,
        "include" | "exclude" | "useBuiltIns" | "corejs" => true,
        _ => false,
    }
}

fn module_in(member: Option<&Value>) -> Option<BabelModule>
    ensures { result ≡ spec.module_in (option_map (λ v. view v.now) member.entry) }
{
    let Some(value) = member else {
        return Some(BabelModule::Auto);
    };
    match value.as_str() {
        Some(text) => module_named(text),
        None => match value.as_bool() {
            Some(false) => Some(BabelModule::Boolean(false)),
            _ => None,
        },
    }
}

fn module_named(text: &str) -> Option<BabelModule>
    ensures { result ≡ spec.module_by (Some text.now) None }
{
    match text {
        "auto" => Some(BabelModule::Auto),
        "commonjs" | "cjs" => Some(BabelModule::Commonjs),
        _ => None,
    }
}

#[tactic(auto, using(crate::proofs::Named::known, babel_values::proofs::Lists::list_of_items))]
fn targets_in(alloc: Global, member: Option<&Value>) -> Result<Option<EngineTargets>, AllocError>
    ensures { IfOk result (λ targets. targets ≡ spec.targets_in (option_map (λ v. view v.now) member.entry)) }
{
    let Some(value) = member else {
        return Ok(Some(EngineTargets::new(alloc)));
    };
    if let Some(text) = value.as_str() {
        return unless_fault(EngineTargets::from_target(alloc, text));
    }
    if let Some(items) = value.as_array() {
        return targets_in_list(alloc, items);
    }
    match value.as_object() {
        Some(members) => targets_of_engines(alloc, members),
        None => Ok(None),
    }
}

// The targets, where there is no fault.
fn unless_fault(
    named: Result<EngineTargets, TargetFault>,
) -> Result<Option<EngineTargets>, AllocError>
    ensures { IfOk result (λ targets. (targets ≡ result_ok named) × (named ≢ Err TargetFault.NoMemory)) }
{
    match named {
        Ok(targets) => Ok(Some(targets)),
        Err(TargetFault::NoMemory) => Err(AllocError),
        Err(_) => Ok(None),
    }
}

#[tactic(auto, using(crate::proofs::Named::known))]
fn targets_in_list(alloc: Global, items: &[Value]) -> Result<Option<EngineTargets>, AllocError>
    ensures { IfOk result (λ targets. targets ≡ spec.targets_in_list (map view items.now)) }
{
    if !are_texts(items) {
        return Ok(None);
    }
    let words = texts(alloc, items)?;
    unless_fault(EngineTargets::from_target_list(alloc, &words))
}

#[tactic(auto, using(crate::proofs::Items::dropped))]
fn are_texts(items: &[Value]) -> bool
    ensures { result ≡ list_all spec.is_string (map view items.now) }
{
    for item in items {
        if !item.is_string() {
            return false;
        }
    }
    true
}

// The texts among the values.
#[tactic(auto, using(crate::proofs::Items::dropped))]
fn texts(alloc: Global, items: &[Value]) -> Result<Vec<Ident>, AllocError>
    ensures { IfOk result (λ texts. texts.items ≡ filter_map as_str (map view items.now)) }
{
    let mut texts = Vec::new(alloc);
    for item in items {
        if let Some(text) = item.as_str() {
            let text = Ident::new(alloc, text)?;
            texts.push(text)?;
        }
    }
    Ok(texts)
}

fn targets_of_engines(
    alloc: Global,
    members: &Map<String, Value>,
) -> Result<Option<EngineTargets>, AllocError>
    ensures { IfOk result (λ targets. targets ≡ spec.with_engines (Some no_targets) (members_view members.now.entries)) }
{
    let mut targets = EngineTargets::new(alloc);
    for (name, value) in members.iter() {
        let (Some(engine), Some(version)) = (engine_named(name.as_str()), version_of(value)) else {
            return Ok(None);
        };
        targets.insert(engine, version)?;
    }
    Ok(Some(targets))
}

fn version_of(value: &Value) -> Option<Version>
    ensures { result ≡ spec.version_of (view value.now) }
{
    match value.as_str() {
        Some(text) => version_in(text),
        None => {
            let number = value.as_u64()?;
            let major = u32::try_from(number).ok()?;
            Some(Version {
                major,
                minor: 0,
                patch: 0,
            })
        }
    }
}
