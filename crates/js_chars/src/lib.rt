//! Characters and words of ECMAScript, and the flags of a regular expression.
#![tactic(auto)]

mod flags;
mod names;
#[cfg(test)]
mod tests;

pub use flags::RegExpFlags;
pub use names::{is_identifier_name, is_identifier_part, is_identifier_start, is_reserved};
