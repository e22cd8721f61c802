//! What a text is at its place in a module (ECMAScript 12): names, numbers, strings, templates, regular expressions.
//!
//! Each test reads its text from the front, byte by byte, and takes no memory.
#![tactic(auto)]

mod cuts;
mod digits;
mod escapes;
mod hex;
mod lines;
mod names;
mod numbers;
mod regexp;
mod strings;
mod template;
#[cfg(test)]
mod tests;

pub use digits::begins_digit;
pub use escapes::has_sound_escapes;
pub use hex::{Number, braced_digits, four_digits, two_digits};
pub use lines::{begins_line_end, is_hashbang};
pub use names::is_name;
pub use numbers::{is_big_integer, is_numeral};
pub use regexp::is_regexp_body;
pub use strings::{is_lead_surrogate, is_raw_string, is_trail_surrogate};
pub use template::is_template_text;
