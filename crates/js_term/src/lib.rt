//! The model of a syntax tree: terms, their scopes, their spelling, and which of them are printable and small.
//!
//! The definitions stand in `specs/`; the function here is a law over them and does nothing.
#![tactic(auto)]

ghost use Rattle.js_term.specs.Examples.{Examples};

mod kind;

pub use kind::{Kind, is_kind};

/// At small modules the definitions say what their pages say.
#[tactic(auto, using(crate::proofs::Derived::examples))]
pub fn worked_examples()
    ensures { Examples }
{}
