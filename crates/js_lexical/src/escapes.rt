//! The escapes of templates.

ghost use Rattle.std.specs.Prelude.{◌≡◌, ◌≤◌, IfSome, length};
ghost use Rattle.js_syntax.specs.Lexical as spec;
ghost use Rattle.js_lexical.specs.Cursors.{left_in};

use crate::digits::begins_digit;
use crate::hex::{two_digits, unicode_digits};

/// What is left behind `\x`.
#[tactic(auto, using(crate::proofs::Sound::hex))]
fn behind_hex(bytes: &[u8]) -> Option<&[u8]>
    ensures left { spec.passes spec.has_sound_escapes (left_in result) ≡ spec.is_sound_hex bytes.now }
    ensures within { IfSome result (λ rest. length rest.now ≤ length bytes.now) }
{
    Some(two_digits(bytes)?.rest)
}

/// What is left behind `\u`.
#[tactic(auto, using(crate::proofs::Sound::unicode))]
fn behind_unicode(bytes: &[u8]) -> Option<&[u8]>
    ensures left { spec.passes spec.has_sound_escapes (left_in result) ≡ spec.is_sound_unicode bytes.now }
    ensures within { IfSome result (λ rest. length rest.now ≤ length bytes.now) }
{
    Some(unicode_digits(bytes)?.rest)
}

/// What is left behind an escape, of which the backslash was passed.
fn behind_escape(bytes: &[u8]) -> Option<&[u8]>
    ensures left { spec.passes spec.has_sound_escapes (left_in result) ≡ spec.is_sound_escape bytes.now }
    ensures within { IfSome result (λ rest. length rest.now ≤ length bytes.now) }
{
    match bytes {
        [] => None,
        [b'u', rest @ ..] => behind_unicode(rest),
        [b'x', rest @ ..] => behind_hex(rest),
        [b'0', rest @ ..] if !begins_digit(rest) => Some(rest),
        [b'0'..=b'9', ..] => None,
        [_, rest @ ..] => Some(rest),
    }
}

fn are_sound(mut bytes: &[u8]) -> bool
    ensures { result ≡ spec.has_sound_escapes bytes.entry.now }
{
    while let [byte, rest @ ..] = bytes {
        bytes = rest;
        if *byte == b'\\' {
            let Some(behind) = behind_escape(rest) else {
                return false;
            };
            bytes = behind;
        }
    }
    true
}

/// Whether each escape of the text is one of a string, with surrogates by themselves too (ECMAScript 12.9.6).
pub fn has_sound_escapes(text: &str) -> bool
    ensures { result ≡ spec.has_sound_escapes text.now }
{
    are_sound(text.as_bytes())
}
