//! Babel's options, read from values of JSON.
#![tactic(auto)]

mod babel;
mod env;
mod fault;
mod level;
mod members;
mod plugins;
mod presets;
mod read_env;
mod read_options;
mod read_plugins;
mod read_presets;
mod refusal;
#[cfg(test)]
mod tests;

pub use babel::{BabelOptions, TestOs};
pub use env::{BabelEnvOptions, BabelModule};
pub use fault::OptionsFault;
pub use plugins::{BabelPlugins, SyntaxDecoratorOptions, SyntaxTypeScriptOptions};
pub use presets::BabelPresets;
pub use read_options::merge_levels;
