//! Whether the operator of an update stands in front or behind (ECMAScript 13.4).

ghost use Rattle.std.specs.Prelude.{◌≡◌};
ghost use Rattle.js_term.specs.declared.kind.Kind.TheVariants.{UpdateExpression};
ghost use Rattle.js_syntax.specs.Edges.{begins_with_part};
ghost use Rattle.js_syntax.specs.Parts.{is_set};
ghost use Rattle.js_tree.specs.Words.{flags_word, texts_seen, word_text};

use bitflags::Flags;
use js_tree::{RegExpFlags, Texts, Word};

/// Whether it is a flag that is set, or another word.
pub fn is_set(word: Word) -> bool
    ensures { result ≡ is_set (word_text word) }
{
    !matches!(word, Word::Unset)
}

/// Whether any flag is set.
#[tactic(auto, using(crate::proofs::Prefixes::set_flags))]
pub fn are_set(flags: RegExpFlags) -> bool
    ensures { result ≡ is_set (flags_word flags) }
{
    flags.contains(RegExpFlags::D)
        || flags.contains(RegExpFlags::G)
        || flags.contains(RegExpFlags::I)
        || flags.contains(RegExpFlags::M)
        || flags.contains(RegExpFlags::S)
        || flags.contains(RegExpFlags::U)
        || flags.contains(RegExpFlags::V)
        || flags.contains(RegExpFlags::Y)
}

/// Whether an update with these texts begins with its part: the second is a flag that is not set.
#[tactic(auto, using(crate::proofs::Prefixes::by_second))]
pub fn has_no_prefix(texts: &Texts) -> bool
    ensures { result ≡ begins_with_part UpdateExpression (texts_seen texts.now) }
{
    match texts {
        Texts::Two(_, word) => !is_set(*word),
        Texts::RegExp(flags, _) => !are_set(*flags),
        _ => false,
    }
}
