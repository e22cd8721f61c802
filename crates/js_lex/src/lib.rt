//! The tokens of a module's text, one at a time.
//!
//! `Tokens` is a cursor over the text, whose model is the text that is left. It copies nothing.
#![tactic(auto)]

mod bytes;
mod lexeme;
mod tokens;

pub use lexeme::Lexeme;
pub use tokens::Tokens;
