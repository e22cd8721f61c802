//! The flags of a regular expression.

ghost use Rattle.std.specs.Prelude.{◌≡◌, if◌then◌else◌};
ghost use Rattle.js_syntax.specs.Lexical.{has_byte, in_order};
ghost use Rattle.js_tree.specs.Words.{flags_word};

use bitflags::Flags;
use js_chars::RegExpFlags;

fn has_byte(bytes: &[u8], byte: u8) -> bool
    ensures { result ≡ has_byte bytes.now byte }
{
    bytes.iter().any(|other| byte == *other)
}

fn flag_if(letters: &[u8], letter: u8, flag: RegExpFlags) -> RegExpFlags
    ensures { result.0 ≡ (if has_byte letters.now letter then flag.0 else 0) }
{
    if has_byte(letters, letter) {
        flag
    } else {
        RegExpFlags::empty()
    }
}

/// The flags of which the letters stand in the text (ECMAScript 12.9.5, 22.2.3.4), in the order of the alphabet.
#[tactic(auto, using(crate::proofs::FlagWords::in_order_is))]
pub fn regexp_flags(letters: &str) -> RegExpFlags
    ensures { flags_word result ≡ in_order letters.now }
{
    let letters = letters.as_bytes();
    flag_if(letters, b'd', RegExpFlags::D)
        .union(flag_if(letters, b'g', RegExpFlags::G))
        .union(flag_if(letters, b'i', RegExpFlags::I))
        .union(flag_if(letters, b'm', RegExpFlags::M))
        .union(flag_if(letters, b's', RegExpFlags::S))
        .union(flag_if(letters, b'u', RegExpFlags::U))
        .union(flag_if(letters, b'v', RegExpFlags::V))
        .union(flag_if(letters, b'y', RegExpFlags::Y))
}
