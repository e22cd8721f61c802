ghost use Rattle.std.specs.Prelude.{◌≡◌, ◌++◌, false, nat_lt, IfOk, IfErr, None};
ghost use Rattle.transform_options.specs.Babel as babel;
ghost use Rattle.transform_options.specs.Plain.{IsPlain, IsFor};
ghost use Rattle.transform_options.specs.Switches as spec;
ghost use Rattle.transform_options.specs.declared.options.module.Module.TheVariants.{Preserve};
ghost use Rattle.transform_targets.specs.Features.{year};
ghost use Rattle.transform_targets.specs.Targets.{edition_year};
ghost use Rattle.transform_targets.specs.Words.{targets_of, words_of, IsFaultOf};

pub(crate) mod env;
mod from_babel;
pub(crate) mod module;

use crate::choice::Choice;
use crate::common::helper_loader::HelperLoaderMode;
use env::EnvOptions;
use js_ident::Ident;
use std::alloc::Global;
use transform_targets::{ESFeature, ESTarget, FeatureTable, TargetFault};

/// What a transformer does.
#[derive(Debug, Clone, Drop)]
pub struct TransformOptions {
    pub cwd: Option<Ident>,
    pub env: EnvOptions,
    pub helper_mode: HelperLoaderMode,
}

impl TransformOptions {
    // These switches, and nothing else.
    pub(crate) fn plain(env: EnvOptions) -> TransformOptions
        requires { env.module ≡ Preserve }
        ensures env { result.env ≡ env }
        ensures rest { IsPlain result }
    {
        TransformOptions {
            cwd: None,
            env,
            helper_mode: HelperLoaderMode::Runtime,
        }
    }

    /// Everything that is ready to be lowered.
    pub fn enable_all() -> TransformOptions
        ensures switches { spec.Follows result.env (spec.is_enabled false) }
        ensures rest { IsPlain result }
    {
        TransformOptions::plain(EnvOptions::enable_all(false))
    }

    /// What came after an edition.
    pub fn from_es_target(target: ESTarget) -> TransformOptions
        ensures switches { spec.Follows result.env (λ feature. nat_lt (edition_year target) (year feature)) }
        ensures rest { IsPlain result }
    {
        TransformOptions::plain(EnvOptions::by(&Later { target }))
    }
}

impl TransformOptions {
    /// What some of the targets that the text names lacks; commas stand between the words.
    pub fn from_target(
        alloc: Global,
        text: &str,
        table: &FeatureTable,
    ) -> Result<TransformOptions, TargetFault>
        ensures made { IfOk result (λ options. IsFor (targets_of (words_of text.now)) table.now options.env × IsPlain options) }
        ensures refused { IfErr result (IsFaultOf (targets_of (words_of text.now))) }
    {
        let env = EnvOptions::from_target(alloc, text, table)?;
        Ok(TransformOptions::plain(env))
    }

    /// What some of the targets that the words name lacks.
    pub fn from_target_list(
        alloc: Global,
        list: &[Ident],
        table: &FeatureTable,
    ) -> Result<TransformOptions, TargetFault>
        ensures made { IfOk result (λ options. IsFor (targets_of list.now) table.now options.env × IsPlain options) }
        ensures refused { IfErr result (IsFaultOf (targets_of list.now)) }
    {
        let env = EnvOptions::from_target_list(alloc, list, table)?;
        Ok(TransformOptions::plain(env))
    }
}

impl Default for TransformOptions {
    ghost is_default = { λ options. spec.Follows options.env (λ _. false) × IsPlain options };

    fn default() -> TransformOptions {
        TransformOptions::plain(EnvOptions::default())
    }
}

#[derive(Drop)]
struct Later {
    target: ESTarget,
}

impl Choice for Later {
    ghost chosen = { λ later feature. nat_lt (edition_year later.target) (year feature) };

    fn is_on(&self, feature: ESFeature) -> bool {
        self.target.version().major < feature.year()
    }
}
