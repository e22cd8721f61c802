//! Whether a module is small: one that the module runner takes.
#![tactic(auto)]

mod form;
mod names;
mod repeats;
mod sets;
mod small;
mod small_by;
mod words;

pub use small::is_small;
pub use small_by::is_small_by;
pub use words::{is_decimal, is_word};
