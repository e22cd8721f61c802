//! What it is that a table of scopes agrees with a tree.
//!
//! The definitions stand in `specs/`. Their enum is declared here.
#![tactic(auto)]

ghost use Rattle.scope_agreement.specs.Resolving.{Resolving};

mod stand;

pub use stand::Stand;

/// The scope that declares a name by the frames round a place is the one that `resolve` finds there.
#[tactic(auto, using(crate::proofs::Resolves::resolving))]
pub fn frames_resolve()
    ensures { Resolving }
{}
