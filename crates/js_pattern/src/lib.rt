//! Patterns of regular expressions: whether a text is one, and which newer forms occur in it.
#![tactic(auto)]

mod pattern;
mod scanner;
#[cfg(test)]
mod tests;

pub use pattern::{Forms, PatternFault, read_pattern};
