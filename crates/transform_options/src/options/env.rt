ghost use Rattle.std.specs.Prelude.{◌≡◌, false, IfOk, IfErr};
ghost use Rattle.transform_options.specs.Plain.{IsFor};
ghost use Rattle.transform_options.specs.Switches as spec;
ghost use Rattle.transform_targets.specs.Targets.{has_feature};
ghost use Rattle.transform_targets.specs.Words.{targets_of, words_of, IsFaultOf};

use crate::choice::Choice;
use crate::es2015::ES2015Options;
use crate::es2016::ES2016Options;
use crate::es2017::ES2017Options;
use crate::es2018::ES2018Options;
use crate::es2019::ES2019Options;
use crate::es2020::ES2020Options;
use crate::es2021::ES2021Options;
use crate::es2022::ES2022Options;
use crate::es2026::ES2026Options;
use crate::options::module::Module;
use crate::regexp::RegExpOptions;
use babel_options::BabelEnvOptions;
use js_ident::Ident;
use std::alloc::Global;
use transform_targets::{ESFeature, EngineTargets, FeatureTable, TargetFault};

/// What is lowered, by the edition that brought it.
#[derive(Debug, Clone, Copy)]
pub struct EnvOptions {
    pub module: Module,
    pub es2026: ES2026Options,
    pub es2022: ES2022Options,
    pub es2021: ES2021Options,
    pub es2020: ES2020Options,
    pub es2019: ES2019Options,
    pub es2018: ES2018Options,
    pub es2017: ES2017Options,
    pub es2016: ES2016Options,
    pub es2015: ES2015Options,
    pub regexp: RegExpOptions,
}

impl EnvOptions {
    /// The options that have the switches of this choice on.
    #[tactic(auto, using(crate::proofs::Rows::each_row))]
    pub(crate) fn by<C: Choice>(choice: &C) -> EnvOptions
        ensures switches { spec.Follows result (C.chosen choice.now) }
        ensures preserved { result.module ≡ Module.Preserve }
    {
        EnvOptions {
            module: Module::Preserve,
            es2026: ES2026Options::by(choice),
            es2022: ES2022Options::by(choice),
            es2021: ES2021Options::by(choice),
            es2020: ES2020Options::by(choice),
            es2019: ES2019Options::by(choice),
            es2018: ES2018Options::by(choice),
            es2017: ES2017Options::by(choice),
            es2016: ES2016Options::by(choice),
            es2015: ES2015Options::by(choice),
            regexp: RegExpOptions::by(choice),
        }
    }

    /// Everything that is ready to be lowered, and with `include_unfinished` what is nearly so.
    pub fn enable_all(include_unfinished: bool) -> EnvOptions
        ensures switches { spec.Follows result (spec.is_enabled include_unfinished) }
        ensures preserved { result.module ≡ Module.Preserve }
    {
        EnvOptions::by(&Ready { include_unfinished })
    }

    /// What some of the targets lacks.
    pub fn from_engine_targets(targets: &EngineTargets, table: &FeatureTable) -> EnvOptions
        ensures switches { spec.Follows result (has_feature targets.now table.now) }
        ensures preserved { result.module ≡ Module.Preserve }
    {
        EnvOptions::by(&Lacking { targets, table })
    }
}

impl EnvOptions {
    /// What some of the preset's targets lacks.
    pub fn from_babel_env(env: &BabelEnvOptions, table: &FeatureTable) -> EnvOptions
        ensures switches { spec.Follows result (has_feature env.now.targets table.now) }
        ensures preserved { result.module ≡ Module.Preserve }
    {
        EnvOptions::from_engine_targets(&env.targets, table)
    }
}

impl EnvOptions {
    /// What some of the targets that the text names lacks; commas stand between the words.
    pub fn from_target(
        alloc: Global,
        text: &str,
        table: &FeatureTable,
    ) -> Result<EnvOptions, TargetFault>
        ensures made { IfOk result (IsFor (targets_of (words_of text.now)) table.now) }
        ensures refused { IfErr result (IsFaultOf (targets_of (words_of text.now))) }
    {
        let targets = EngineTargets::from_target(alloc, text)?;
        Ok(EnvOptions::from_engine_targets(&targets, table))
    }

    /// What some of the targets that the words name lacks.
    pub fn from_target_list(
        alloc: Global,
        list: &[Ident],
        table: &FeatureTable,
    ) -> Result<EnvOptions, TargetFault>
        ensures made { IfOk result (IsFor (targets_of list.now) table.now) }
        ensures refused { IfErr result (IsFaultOf (targets_of list.now)) }
    {
        let targets = EngineTargets::from_target_list(alloc, list)?;
        Ok(EnvOptions::from_engine_targets(&targets, table))
    }
}

impl Default for EnvOptions {
    ghost use Rattle.transform_options.specs.declared.options.module.Module.TheVariants.{Preserve};

    ghost is_default = { λ env. spec.Follows env (λ _. false) × (env.module ≡ Preserve) };

    fn default() -> EnvOptions {
        EnvOptions::by(&Nothing)
    }
}

#[derive(Drop)]
struct Nothing;

impl Choice for Nothing {
    ghost chosen = { λ _ _. false };

    fn is_on(&self, _feature: ESFeature) -> bool {
        false
    }
}

#[derive(Drop)]
struct Ready {
    include_unfinished: bool,
}

impl Choice for Ready {
    ghost chosen = { λ ready feature. spec.is_enabled ready.include_unfinished feature };

    fn is_on(&self, feature: ESFeature) -> bool {
        match feature {
            ESFeature::ES2022TopLevelAwait
            | ESFeature::ES2020BigInt
            | ESFeature::ES2020ArbitraryModuleNamespaceNames => false,
            ESFeature::ES2015ArrowFunctions => self.include_unfinished,
            _ => true,
        }
    }
}

#[derive(Drop)]
struct Lacking<'a> {
    targets: &'a EngineTargets,
    table: &'a FeatureTable,
}

impl Choice for Lacking<'_> {
    ghost chosen = { λ lacking feature. has_feature lacking.targets.now lacking.table.now feature };

    fn is_on(&self, feature: ESFeature) -> bool {
        self.targets.has_feature(feature, self.table)
    }
}
