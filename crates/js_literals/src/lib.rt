//! The values of the tokens of a module's text: strings and templates, the flags of regular expressions, the hashbang.
#![tactic(auto)]

mod escapes;
mod flags;
mod hashbang;
mod splits;
mod strings;
mod templates;
#[cfg(test)]
mod tests;

pub use flags::regexp_flags;
pub use hashbang::{Hashbang, take_hashbang};
pub use strings::string_value;
pub use templates::{plain_template_raw_value, template_raw_value};
