//! What rows ask of the texts of a node.

ghost use Rattle.js_syntax.specs.Parts.{is_set_at};
ghost use Rattle.js_tree.specs.Words.{texts_seen};
ghost use Rattle.print_layout.specs.Rows.{is_method};
ghost use Rattle.std.specs.Prelude.{◌≡◌};

use crate::prefix::{are_set, is_set as is_set_word};
use js_tree::Texts;

fn is_second_set(texts: &Texts) -> bool
    ensures { result ≡ is_set_at 1 (texts_seen texts.now) }
{
    match texts {
        Texts::None | Texts::Text(_) | Texts::One(_) => false,
        Texts::RegExp(flags, _) => are_set(*flags),
        Texts::Two(_, word) => is_set_word(*word),
        Texts::Three(_, word, _) => is_set_word(*word),
        Texts::Four(_, word, _, _) => is_set_word(*word),
    }
}

/// Whether the text numbered so is not empty.
pub fn is_set(texts: &Texts, k: usize) -> bool
    ensures { result ≡ is_set_at k (texts_seen texts.now) }
{
    match k {
        0 => !texts.first().is_empty(),
        1 => is_second_set(texts),
        2 => match texts {
            Texts::Three(_, _, word) => is_set_word(*word),
            Texts::Four(_, _, word, _) => is_set_word(*word),
            _ => false,
        },
        3 => match texts {
            Texts::Four(_, _, _, word) => is_set_word(*word),
            _ => false,
        },
        _ => false,
    }
}

/// Whether a property with these texts has a function that is printed as a method.
pub fn is_method(texts: &Texts) -> bool
    ensures { result ≡ is_method (texts_seen texts.now) }
{
    is_set(texts, 1) || texts.first() != "init"
}
