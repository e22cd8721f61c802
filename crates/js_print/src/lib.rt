//! The text of a module: small modules and the module runner's forms.
//!
//! Each statement stands on a line of its own, inside which blanks alone part the tokens.
#![tactic(auto)]

mod level;
mod printer;
mod strings;

pub use printer::print_program;
