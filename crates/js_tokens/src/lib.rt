//! The tokens of a module's text (ECMAScript 12), one at a time.
//!
//! `Tokens` is a cursor over the text, whose model is the text that is left. It copies nothing and takes no memory.
#![tactic(auto)]

mod gaps;
mod goals;
mod lexeme;
mod names;
mod numbers;
mod punctuators;
mod strings;
mod templates;
#[cfg(test)]
mod tests;
mod tokens;
mod values;

pub use goals::{RegularExpressionLiteral, TemplateSubstitutionTail};
pub use lexeme::Lexeme;
pub use punctuators::Punctuator;
pub use tokens::{Span, Tokens};
pub use values::plain_value;
