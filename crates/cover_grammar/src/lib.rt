//! What was read as an expression becomes what a cover grammar lets it be: an assignment target (ECMAScript 13.15.5), a
//! binding pattern (14.3.3), a parameter of an arrow function (15.3).
#![tactic(auto)]

mod parameters;
mod patterns;
mod taken;
mod targets;

pub use parameters::{to_parameter, to_rest_parameter};
pub use patterns::{to_pattern, to_pattern_element};
pub use targets::{to_target, to_target_element};
