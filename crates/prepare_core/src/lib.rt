//! The module runner: a module in the forms that the runner gives a meaning.
#![tactic(auto)]

mod copies;
mod exports;
mod fault;
mod forms;
mod imported;
mod imports;
mod kept;
mod made;
mod names;
mod prepare;
mod rebuilt;
mod requests;
mod room;
mod runner_names;
mod scopes;
mod statements;
mod walk;

pub use fault::PrepareFault;
pub use js_small::is_small;
pub use prepare::{Prepared, prepare_module};
