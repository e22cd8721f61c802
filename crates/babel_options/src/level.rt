// What one level of Babel's options gives, read from its value.
ghost use Rattle.std.specs.Prelude.{◌≡◌, IfOk, IfErr, None};
ghost use Rattle.serde_json.specs.View.{view};
ghost use Rattle.babel_options.specs.Levels as levels;
ghost use Rattle.babel_options.specs.Options as spec;
ghost use Rattle.babel_options.specs.Plugins.{RefusesOnce};

use crate::babel::{BabelOptions, TestOs};
use crate::fault::OptionsFault;
use crate::members::{first_misshapen, lists_in, os_in};
use crate::plugins::BabelPlugins;
use crate::presets::BabelPresets;
use crate::refusal::refusal;
use babel_values::{flag, text};
use js_ident::Ident;
use serde_json::Value;
use std::alloc::{AllocError, Global};

// The members that are never filled up from another level.
#[derive(Drop)]
pub(crate) struct Settings {
    pub cwd: Option<Ident>,
    pub babel_8_breaking: Option<bool>,
    pub os: Option<Vec<TestOs>>,
    pub allow_return_outside_function: bool,
    pub allow_await_outside_function: bool,
    pub allow_undeclared_exports: bool,
    pub allow_new_target_outside_function: bool,
    pub allow_super_outside_method: bool,
    pub external_helpers: bool,
}

impl Settings {
    fn read(alloc: Global, value: &Value) -> Result<Settings, AllocError>
        ensures { IfOk result (levels.AreSettings (spec.level_of (view value.now)).member) }
    {
        let cwd = text(alloc, value.get("cwd"))?;
        let os = os_in(alloc, value.get("os"))?;
        Ok(Settings {
            cwd,
            babel_8_breaking: value.get("BABEL_8_BREAKING").and_then(Value::as_bool),
            os,
            allow_return_outside_function: flag(value.get("allowReturnOutsideFunction"), false),
            allow_await_outside_function: flag(value.get("allowAwaitOutsideFunction"), false),
            allow_undeclared_exports: flag(value.get("allowUndeclaredExports"), false),
            allow_new_target_outside_function: flag(
                value.get("allowNewTargetOutsideFunction"),
                false,
            ),
            allow_super_outside_method: flag(value.get("allowSuperOutsideMethod"), false),
            external_helpers: flag(value.get("externalHelpers"), true),
        })
    }

    // The settings where no level is given.
    fn none() -> Settings
        ensures { levels.AreSettings spec.no_level.member result }
    {
        Settings {
            cwd: None,
            babel_8_breaking: None,
            os: None,
            allow_return_outside_function: false,
            allow_await_outside_function: false,
            allow_undeclared_exports: false,
            allow_new_target_outside_function: false,
            allow_super_outside_method: false,
            external_helpers: false,
        }
    }
}

#[derive(Drop)]
pub(crate) struct Level {
    pub settings: Settings,
    pub source_type: Option<Ident>,
    pub throws: Option<Ident>,
    pub plugins: Option<BabelPlugins>,
    pub presets: Option<BabelPresets>,
}

impl Level {
    #[tactic(auto, using(crate::proofs::Refusals::refuses_first, crate::proofs::Refusals::refuses_later))]
    pub(crate) fn read(alloc: Global, value: &Value) -> Result<Level, OptionsFault>
        ensures sound { IfOk result (λ _. spec.options_error (view value.now) ≡ None) }
        ensures made { IfOk result (levels.IsLevel (spec.level_of (view value.now))) }
        ensures refused { IfErr result (RefusesOnce (spec.options_error (view value.now))) }
    {
        if !value.is_object() {
            let refused = refusal(alloc, "options", ": wrong shape")?;
            return Err(refused);
        }
        if let Some(name) = first_misshapen(value) {
            let refused = refusal(alloc, name, ": wrong shape")?;
            return Err(refused);
        }
        let (plugins, presets) = lists_in(alloc, value)?;
        let settings = Settings::read(alloc, value)?;
        let source_type = text(alloc, value.get("sourceType"))?;
        let throws = text(alloc, value.get("throws"))?;
        Ok(Level {
            settings,
            source_type,
            throws,
            plugins,
            presets,
        })
    }

    // What is given where no level is.
    pub(crate) fn none() -> Level
        ensures { levels.IsLevel spec.no_level result }
    {
        Level {
            settings: Settings::none(),
            source_type: None,
            throws: None,
            plugins: None,
            presets: None,
        }
    }

    // This level, filled up from a later one.
    pub(crate) fn over(self, later: Level) -> Level
        ensures { result ≡ levels.over self later }
    {
        Level {
            settings: self.settings,
            source_type: self.source_type.or(later.source_type),
            throws: self.throws.or(later.throws),
            plugins: self.plugins.or(later.plugins),
            presets: self.presets.or(later.presets),
        }
    }

    pub(crate) fn without_lists(self) -> Level
        ensures { result ≡ levels.without_lists self }
    {
        Level {
            settings: self.settings,
            source_type: self.source_type,
            throws: self.throws,
            plugins: None,
            presets: None,
        }
    }

    // The options, with no plugins and presets where none are given.
    pub(crate) fn finish(self, alloc: Global) -> Result<BabelOptions, AllocError>
        ensures { IfOk result (levels.IsFinished self) }
    {
        let plugins = plugins_or_none(alloc, self.plugins)?;
        let presets = presets_or_none(alloc, self.presets)?;
        let settings = self.settings;
        Ok(BabelOptions {
            cwd: settings.cwd,
            plugins,
            presets,
            source_type: self.source_type,
            throws: self.throws,
            babel_8_breaking: settings.babel_8_breaking,
            os: settings.os,
            allow_return_outside_function: settings.allow_return_outside_function,
            allow_await_outside_function: settings.allow_await_outside_function,
            allow_undeclared_exports: settings.allow_undeclared_exports,
            allow_new_target_outside_function: settings.allow_new_target_outside_function,
            allow_super_outside_method: settings.allow_super_outside_method,
            external_helpers: settings.external_helpers,
        })
    }
}

fn plugins_or_none(alloc: Global, plugins: Option<BabelPlugins>) -> Result<BabelPlugins, AllocError>
    ensures { IfOk result (levels.OrNoPlugins plugins) }
{
    match plugins {
        Some(plugins) => Ok(plugins),
        None => BabelPlugins::read(alloc, &[]),
    }
}

fn presets_or_none(alloc: Global, presets: Option<BabelPresets>) -> Result<BabelPresets, AllocError>
    ensures { IfOk result (levels.OrNoPresets presets) }
{
    match presets {
        Some(presets) => Ok(presets),
        None => BabelPresets::read(alloc, &[]),
    }
}
