//! Words and flags by their letters.

use crate::notation::NotationError;
use bitflags::Flags;
use js_tree::{RegExpFlags, Word};

/// The word among several texts of a node.
pub fn word_of(text: &str) -> Result<Word, NotationError> {
    match text {
        "" => Ok(Word::Unset),
        "async" => Ok(Word::Async),
        "*" => Ok(Word::Star),
        "computed" => Ok(Word::Computed),
        "static" => Ok(Word::Static),
        "shorthand" => Ok(Word::Shorthand),
        "prefix" => Ok(Word::Prefix),
        "constructor" => Ok(Word::Constructor),
        "method" => Ok(Word::Method),
        "init" => Ok(Word::Init),
        "get" => Ok(Word::Get),
        "set" => Ok(Word::Set),
        "++" => Ok(Word::PlusPlus),
        "--" => Ok(Word::MinusMinus),
        "-" => Ok(Word::Minus),
        "await" => Ok(Word::Await),
        _ => Err(NotationError::UnknownTexts),
    }
}

/// The flags of a regular expression; letters that name none are passed over.
pub fn flags_of(letters: &str) -> RegExpFlags {
    let mut flags = RegExpFlags::empty();
    for c in letters.chars() {
        flags |= match c {
            'd' => RegExpFlags::D,
            'g' => RegExpFlags::G,
            'i' => RegExpFlags::I,
            'm' => RegExpFlags::M,
            's' => RegExpFlags::S,
            'u' => RegExpFlags::U,
            'v' => RegExpFlags::V,
            'y' => RegExpFlags::Y,
            _ => RegExpFlags::empty(),
        };
    }
    flags
}
