//! The flags of a regular expression.

ghost use Rattle.std.specs.Prelude.{◌≡◌};
ghost use Rattle.js_syntax.specs.Parts.{is_set};
ghost use Rattle.js_syntax.specs.Lexical.{is_regexp_flags};
ghost use Rattle.js_tree.specs.Words.{flags_word};

use bitflags::Flags;
use js_tree::RegExpFlags;

/// Whether the flags may stand together: not both `u` and `v` (ECMAScript 22.2.3.4).
#[tactic(auto, using(crate::proofs::FlagWords::sound_flags))]
pub fn are_sound(flags: RegExpFlags) -> bool
    ensures { result ≡ is_regexp_flags (flags_word flags) }
{
    !(flags.contains(RegExpFlags::U) && flags.contains(RegExpFlags::V))
}

/// Whether any flag is set.
#[tactic(auto, using(crate::proofs::FlagWords::set_flags))]
pub fn are_set(flags: RegExpFlags) -> bool
    ensures { result ≡ is_set (flags_word flags) }
{
    flags.contains(RegExpFlags::D)
        || flags.contains(RegExpFlags::G)
        || flags.contains(RegExpFlags::I)
        || flags.contains(RegExpFlags::M)
        || flags.contains(RegExpFlags::S)
        || flags.contains(RegExpFlags::U)
        || flags.contains(RegExpFlags::V)
        || flags.contains(RegExpFlags::Y)
}
