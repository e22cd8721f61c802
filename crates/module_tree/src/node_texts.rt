//! The texts of a node: the first, those that are set, and whether its kind has such texts.

ghost use Rattle.std.specs.Prelude.{◌≡◌, ◌∷◌, []};
ghost use Rattle.js_syntax.specs.Parts.{is_set, is_set_at, text_at};
ghost use Rattle.js_syntax.specs.Texts.{has_texts};
ghost use Rattle.js_tree.specs.Words.{word_text, flags_word, texts_seen};

use crate::by_kind;
use crate::regexp::{are_set, are_sound};
use js_rules::Lexicon;
use js_term::Kind;
use js_tree::{RegExpFlags, Texts, Word};

/// Whether it is a flag that is set, or another word.
fn is_set(word: Word) -> bool
    ensures { result ≡ is_set (word_text word) }
{
    !matches!(word, Word::Unset)
}

/// Whether the second text is not empty.
fn is_second_set(texts: &Texts) -> bool
    ensures { result ≡ is_set_at 1 (texts_seen texts.now) }
{
    match texts {
        Texts::None | Texts::Text(_) | Texts::One(_) => false,
        Texts::RegExp(flags, _) => are_set(*flags),
        Texts::Two(_, word) => is_set(*word),
        Texts::Three(_, word, _) => is_set(*word),
        Texts::Four(_, word, _, _) => is_set(*word),
    }
}

/// Whether the text numbered `at` is not empty.
pub fn is_text_set(texts: &Texts, at: usize) -> bool
    ensures { result ≡ is_set_at at (texts_seen texts.now) }
{
    match at {
        0 => !texts.first().is_empty(),
        1 => is_second_set(texts),
        2 => match texts {
            Texts::Three(_, _, word) => is_set(*word),
            Texts::Four(_, _, word, _) => is_set(*word),
            _ => false,
        },
        3 => match texts {
            Texts::Four(_, _, _, word) => is_set(*word),
            _ => false,
        },
        _ => false,
    }
}

/// Whether a node of this kind has such texts.
pub fn has_texts<L: Lexicon>(kind: Kind, texts: &Texts) -> bool
    ensures { result ≡ has_texts kind (texts_seen texts.now) }
{
    match texts {
        Texts::None => by_kind::has_texts::<L>(kind, &[]),
        Texts::Text(text) => has_text::<L>(kind, text.as_str()),
        Texts::RegExp(flags, text) => has_flags::<L>(kind, text.as_str(), *flags),
        Texts::One(word) => has_text::<L>(kind, word.as_str()),
        Texts::Two(a, b) => has_two::<L>(kind, a.as_str(), b.as_str()),
        Texts::Three(a, b, c) => has_three::<L>(kind, a.as_str(), b.as_str(), c.as_str()),
        Texts::Four(a, b, c, d) => {
            has_four::<L>(kind, a.as_str(), b.as_str(), c.as_str(), d.as_str())
        }
    }
}

/// Whether a node of this kind may have one such text.
fn has_text<L: Lexicon>(kind: Kind, text: &str) -> bool
    ensures { result ≡ has_texts kind (text.now ∷ []) }
{
    by_kind::has_texts::<L>(kind, &[text])
}

fn has_two<'a, L: Lexicon>(kind: Kind, a: &'a str, b: &'a str) -> bool
    ensures { result ≡ has_texts kind (a.now ∷ b.now ∷ []) }
{
    by_kind::has_texts::<L>(kind, &[a, b])
}

fn has_three<'a, L: Lexicon>(kind: Kind, a: &'a str, b: &'a str, c: &'a str) -> bool
    ensures { result ≡ has_texts kind (a.now ∷ b.now ∷ c.now ∷ []) }
{
    by_kind::has_texts::<L>(kind, &[a, b, c])
}

fn has_four<'a, L: Lexicon>(kind: Kind, a: &'a str, b: &'a str, c: &'a str, d: &'a str) -> bool
    ensures { result ≡ has_texts kind (a.now ∷ b.now ∷ c.now ∷ d.now ∷ []) }
{
    by_kind::has_texts::<L>(kind, &[a, b, c, d])
}

/// Whether a node of this kind may have a text and the flags of a regular expression. Where none is set, they stand for
/// any flag that is not.
#[tactic(auto, using(crate::proofs::FlagWords::no_flags, crate::proofs::FlagWords::no_word))]
fn has_flags<L: Lexicon>(kind: Kind, text: &str, flags: RegExpFlags) -> bool
    ensures { result ≡ has_texts kind (text.now ∷ flags_word flags ∷ []) }
{
    match kind {
        Kind::RegExpLiteral => L::is_regexp_body(text) && are_sound(flags),
        Kind::FunctionDeclaration
        | Kind::FunctionExpression
        | Kind::PropertyDefinition
        | Kind::BindingProperty
        | Kind::AssignmentTargetProperty
        | Kind::UpdateExpression => {
            !are_set(flags) && by_kind::has_texts::<L>(kind, &[text, ""])
        }
        _ => false,
    }
}
