ghost use Rattle.std.specs.Prelude.{◌≡◌, ℕ, ◌≤◌, cond};
ghost use Rattle.js_term.specs.Term.{Term, node, is_text};
ghost use Rattle.js_term.specs.Scope.{kid};
ghost use Rattle.js_syntax.specs.Parts.{parts_of, texts_of, text_of, is_set_at, is_node, is_present, count};
ghost use Rattle.js_syntax.specs.Texts.{has_texts};
ghost use Rattle.js_rules.specs.Seen.{HasForm};

use crate::lexicon::Lexicon;
use js_term::{Kind, is_kind};

/// What stands at a place: nothing, a list, or a node of some kind.
#[derive(Clone, Copy)]
pub enum Form {
    Absent,
    List,
    Node(Kind),
}

/// A part of a tree, seen by its form, its texts and its own parts.
pub trait View: Copy {
    ghost term: { Self → Term };

    fn form(&self) -> Form
        ensures { HasForm result (term self.now) };

    /// How many kids a node has, or how many items a list.
    fn count(&self) -> usize
        ensures { result ≡ count (parts_of (term self.now)) };

    /// The kid or item numbered `n`; an absent part where there is none.
    fn part(&self, n: usize) -> Self
        ensures { term result ≡ kid n (parts_of (term self.now)) };

    /// The first text; an empty one where there is none.
    fn text(&self) -> &str
        ensures { result.now ≡ text_of (term self.now) };

    /// Whether the text numbered `n` is a flag that is set.
    fn is_set(&self, n: usize) -> bool
        ensures { result ≡ is_set_at n (texts_of (term self.now)) };

    /// Whether a node of this kind has such texts.
    fn has_texts<L: Lexicon>(&self, kind: Kind) -> bool
        requires { term self.now ≡ node kind (texts_of (term self.now)) (parts_of (term self.now)) }
        ensures { result ≡ has_texts kind (texts_of (term self.now)) };

    /// Whether the first text is this word.
    final fn text_is(&self, word: &str) -> bool
        ensures { result ≡ is_text (text_of (term self.now)) word.now }
    {
        self.text() == word
    }

    /// Whether this word is the first text.
    final fn text_is_also(&self, word: &str) -> bool
        ensures { result ≡ is_text word.now (text_of (term self.now)) }
    {
        word == self.text()
    }

    /// Whether it is a node of this kind.
    final fn is(&self, kind: Kind) -> bool
        ensures { result ≡ is_node kind (term self.now) }
    {
        match self.form() {
            Form::Node(own) => is_kind(own, kind),
            _ => false,
        }
    }

    final fn is_present(&self) -> bool
        ensures { result ≡ is_present (term self.now) }
    {
        match self.form() {
            Form::Absent => false,
            _ => true,
        }
    }
}

/// One where it is true, else none.
pub fn one_if(truth: bool) -> usize
    ensures value { result ≡ cond truth 1 0 }
    ensures one_at_most { result ≤ 1 }
{
    if truth { 1 } else { 0 }
}
