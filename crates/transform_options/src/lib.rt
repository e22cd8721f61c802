//! What a transformer lowers, from its switches, from targets and from Babel's options.
#![tactic(auto)]

mod choice;
mod common;
mod es2015;
mod es2016;
mod es2017;
mod es2018;
mod es2019;
mod es2020;
mod es2021;
mod es2022;
mod es2026;
mod options;
mod plugins;
mod proposals;
mod regexp;
mod switch;
#[cfg(test)]
mod tests;

pub use babel_options::{
    BabelEnvOptions, BabelModule, BabelOptions, BabelPlugins, BabelPresets, OptionsFault,
    SyntaxDecoratorOptions, SyntaxTypeScriptOptions, TestOs, merge_levels,
};
pub use common::helper_loader::HelperLoaderMode;
pub use es2015::ES2015Options;
pub use es2016::ES2016Options;
pub use es2017::ES2017Options;
pub use es2018::ES2018Options;
pub use es2019::ES2019Options;
pub use es2020::ES2020Options;
pub use es2021::ES2021Options;
pub use es2022::ES2022Options;
pub use es2026::ES2026Options;
pub use options::TransformOptions;
pub use options::env::EnvOptions;
pub use options::module::Module;
pub use plugins::PluginsOptions;
pub use proposals::ProposalOptions;
pub use regexp::RegExpOptions;
pub use switch::Switch;
pub use transform_targets::{
    ESFeature, ESTarget, Engine, EngineTargets, FeatureTable, Support, Version,
};
