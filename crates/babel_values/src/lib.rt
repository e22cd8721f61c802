//! The shapes that values have in Babel's options: entries of plugins and presets, and members.
#![tactic(auto)]

mod entries;
mod members;

pub use entries::{entries_in, has_entry, is_entry, is_named, last_entry, name_of, option_of};
pub use members::{flag, is_flag, is_flag_or_null, is_text, is_text_or_null, text};
