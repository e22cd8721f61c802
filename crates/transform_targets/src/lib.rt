//! What code is lowered for: editions and engines with their versions, and the features that they have or lack.
#![tactic(auto)]

mod engine;
mod engine_targets;
mod es_target;
mod feature;
mod feature_table;
mod target_fault;
#[cfg(test)]
mod tests;
mod version;
mod words;

pub use engine::Engine;
pub use engine_targets::EngineTargets;
pub use es_target::ESTarget;
pub use feature::ESFeature;
pub use feature_table::{FeatureTable, Support};
pub use target_fault::TargetFault;
pub use version::Version;
pub use words::{engine_named, version_in};
