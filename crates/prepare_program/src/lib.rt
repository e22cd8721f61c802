//! The program's run: from the bytes of a request to the line that answers it.
#![tactic(auto)]

mod answering;
mod fault;
mod report;
mod request;
mod running;
mod sure;
#[cfg(test)]
mod tests;
#[cfg(test)]
mod tests_of_modules;
mod text;
mod words;

pub use running::run;
pub use sure::run_surely;
pub use text::{PreparedText, TextFault, prepare_text};
