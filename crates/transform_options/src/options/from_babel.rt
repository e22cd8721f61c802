ghost use Rattle.std.specs.Prelude.{◌≡◌, ◌++◌, IfOk, IfErr, OnOk};
ghost use Rattle.transform_options.specs.Babel as spec;

use crate::choice::Choice;
use crate::common::helper_loader::HelperLoaderMode;
use crate::options::TransformOptions;
use crate::options::env::EnvOptions;
use crate::options::module::Module;
use babel_options::{BabelEnvOptions, BabelOptions, BabelPlugins, OptionsFault};
use js_ident::Ident;
use std::alloc::{AllocError, Global};
use transform_targets::{ESFeature, FeatureTable};

impl TransformOptions {
    /// What Babel's options ask for.
    pub fn from_babel(
        alloc: Global,
        options: &BabelOptions,
        table: &FeatureTable,
    ) -> Result<TransformOptions, OptionsFault>
        ensures made { IfOk result (spec.IsMadeOf options.now table.now) }
        ensures refused { IfErr result (spec.Refuses (spec.errors_of options.now)) }
    {
        let errors = all_errors(alloc, options)?;
        if !errors.is_empty() {
            return Err(OptionsFault::Refused { errors });
        }
        let cwd = options.cwd.clone()?;
        Ok(TransformOptions {
            cwd,
            env: env_of(options, table),
            helper_mode: helper_mode_of(options.external_helpers),
        })
    }
}

fn all_errors(alloc: Global, options: &BabelOptions) -> Result<Vec<Ident>, AllocError>
    ensures { IfOk result (λ errors. errors.items ≡ spec.errors_of options.now) }
{
    let mut errors = Vec::new(alloc);
    push_all(&mut errors, &options.plugins.errors)?;
    push_all(&mut errors, &options.presets.errors)?;
    Ok(errors)
}

fn push_all(all: &mut Vec<Ident>, more: &[Ident]) -> Result<(), AllocError>
    ensures { OnOk result (all.new.items ≡ all.old.items ++ more.now) }
{
    for text in more {
        let text = text.clone()?;
        all.push(text)?;
    }
    Ok(())
}

fn helper_mode_of(external_helpers: bool) -> HelperLoaderMode
    ensures { result ≡ spec.helper_mode external_helpers }
{
    if external_helpers {
        HelperLoaderMode::External
    } else {
        HelperLoaderMode::Runtime
    }
}

fn env_of(options: &BabelOptions, table: &FeatureTable) -> EnvOptions
    ensures { spec.IsEnvOf options.now table.now result }
{
    let mut env = EnvOptions::by(&Asked {
        plugins: &options.plugins,
        env: &options.presets.env,
        table,
    });
    if let Some(form) = Module::from_babel_plugins(&options.plugins) {
        env.module = form;
    }
    env
}

// What the plugins and the preset ask for.
#[derive(Drop)]
struct Asked<'a> {
    plugins: &'a BabelPlugins,
    env: &'a Option<BabelEnvOptions>,
    table: &'a FeatureTable,
}

impl Asked<'_> {
    fn is_in_preset(&self, feature: ESFeature) -> bool
        ensures { result ≡ spec.is_in_preset self.now.env.now self.now.table.now feature }
    {
        match self.env {
            Some(env) => env.targets.has_feature(feature, self.table),
            None => false,
        }
    }
}

impl Choice for Asked<'_> {
    ghost chosen = { λ asked feature. spec.is_asked asked.plugins.now asked.env.now asked.table.now feature };

    fn is_on(&self, feature: ESFeature) -> bool {
        match feature {
            ESFeature::ES2026ExplicitResourceManagement => self.plugins.has(feature),
            ESFeature::ES2022MatchIndicesRegex
            | ESFeature::ES2022TopLevelAwait
            | ESFeature::ES2020BigInt
            | ESFeature::ES2020ArbitraryModuleNamespaceNames => self.is_in_preset(feature),
            _ => self.plugins.has(feature) || self.is_in_preset(feature),
        }
    }
}
