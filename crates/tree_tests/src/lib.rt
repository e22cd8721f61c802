//! Tests of whole trees, apart from the crates that they call, so that those are proved once; with small passes as their
//! users would write them, and a notation for trees.
#![tactic(auto)]

#[cfg(test)]
mod bound_names;
mod bound_text;
mod build;
#[cfg(test)]
mod copies;
#[cfg(test)]
mod drops;
mod hiding;
mod identifiers;
mod kinds;
mod nesting;
mod notation;
#[cfg(test)]
mod passes;
mod reading;
#[cfg(test)]
mod rows;
#[cfg(test)]
mod rules;
mod words;

pub use bound_text::joined_names;
pub use hiding::read_visible;
pub use identifiers::{Identifiers, collect_identifiers};
pub use nesting::{Nesting, TooDeep, measure_nesting};
pub use notation::{NotationError, read};
pub use reading::{Import, Standing, read_all};
