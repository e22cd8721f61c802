ghost use Rattle.std.specs.Prelude.{◌≡◌, IfOk};
ghost use Rattle.js_term.specs.Term.{first};
ghost use Rattle.js_tree.specs.Words.{texts_seen, words_of};

use crate::word::Word;
use js_chars::RegExpFlags;
use js_ident::Ident;
use std::alloc::AllocError;

/// The texts of a node: none, a name or a literal, a regular expression, or one to four words.
#[derive(Debug, Drop)]
pub enum Texts {
    None,
    Text(Ident),
    RegExp(RegExpFlags, Ident),
    One(Word),
    Two(Word, Word),
    Three(Word, Word, Word),
    Four(Word, Word, Word, Word),
}

impl Texts {
    /// The first of them; the empty one where there is none.
    pub fn first(&self) -> &str
        ensures { result.now ≡ first (texts_seen self.now) }
    {
        match self {
            Texts::None => "",
            Texts::Text(text) => text.as_str(),
            Texts::RegExp(_, pattern) => pattern.as_str(),
            Texts::One(a) => a.as_str(),
            Texts::Two(a, _) => a.as_str(),
            Texts::Three(a, _, _) => a.as_str(),
            Texts::Four(a, _, _, _) => a.as_str(),
        }
    }

    /// The words among them, in their order; behind the last, flags that are not set.
    pub fn words(&self) -> [Word; 4]
        ensures { result ≡ words_of self.now }
    {
        match self {
            Texts::None | Texts::Text(_) | Texts::RegExp(_, _) => [Word::Unset; 4],
            Texts::One(a) => [*a, Word::Unset, Word::Unset, Word::Unset],
            Texts::Two(a, b) => [*a, *b, Word::Unset, Word::Unset],
            Texts::Three(a, b, c) => [*a, *b, *c, Word::Unset],
            Texts::Four(a, b, c, d) => [*a, *b, *c, *d],
        }
    }

    /// Equal texts, which share their letters.
    pub fn try_clone(&self) -> Result<Texts, AllocError>
        ensures { IfOk result (λ it. it ≡ self.now) }
    {
        match self {
            Texts::None => Ok(Texts::None),
            Texts::Text(text) => Ok(Texts::Text(text.clone()?)),
            Texts::RegExp(flags, text) => Ok(Texts::RegExp(*flags, text.clone()?)),
            Texts::One(a) => Ok(Texts::One(*a)),
            Texts::Two(a, b) => Ok(Texts::Two(*a, *b)),
            Texts::Three(a, b, c) => Ok(Texts::Three(*a, *b, *c)),
            Texts::Four(a, b, c, d) => Ok(Texts::Four(*a, *b, *c, *d)),
        }
    }
}
