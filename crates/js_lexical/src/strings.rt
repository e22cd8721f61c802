//! Strings as they are written.

ghost use Rattle.std.specs.Prelude.{◌≡◌, ◌≤◌, ℕ, IfSome, length};
ghost use Rattle.js_term.specs.Lexeme.{is_plain, is_quote};
ghost use Rattle.js_syntax.specs.Lexical as spec;
ghost use Rattle.js_lexical.specs.Cursors.{left_in};
ghost use Rattle.js_lexical.specs.Strings as string;

use crate::cuts::without_last;
use crate::digits::begins_digit;
use crate::hex::{braced_digits, four_digits, two_digits};
use crate::lines::begins_line_end;

pub fn is_lead_surrogate(unit: u32) -> bool
    ensures { result ≡ spec.is_lead_surrogate unit }
{
    0xD800 <= unit && unit <= 0xDBFF
}

pub fn is_trail_surrogate(unit: u32) -> bool
    ensures { result ≡ spec.is_trail_surrogate unit }
{
    0xDC00 <= unit && unit <= 0xDFFF
}

/// What is left behind `\x`.
fn behind_hex(bytes: &[u8]) -> Option<&[u8]>
    ensures left { (quote : ℕ) → spec.passes (string.has_value quote) (left_in result) ≡ string.hex_has_value quote bytes.now }
    ensures within { IfSome result (λ rest. length rest.now ≤ length bytes.now) }
{
    Some(two_digits(bytes)?.rest)
}

/// What is left behind a trail surrogate, which has to stand here.
fn behind_trail(bytes: &[u8]) -> Option<&[u8]>
    ensures left { (quote : ℕ) → spec.passes (string.has_value quote) (left_in result) ≡ string.trail_has_value quote bytes.now }
    ensures within { IfSome result (λ rest. length rest.now ≤ length bytes.now) }
{
    match bytes {
        [b'\\', b'u', digits @ ..] => {
            let trail = four_digits(digits)?;
            if is_trail_surrogate(trail.value) {
                Some(trail.rest)
            } else {
                None
            }
        }
        _ => None,
    }
}

/// What is left behind `\u` without a brace. A lead surrogate has a trail surrogate behind it.
fn behind_unit(bytes: &[u8]) -> Option<&[u8]>
    ensures left { (quote : ℕ) → spec.passes (string.has_value quote) (left_in result) ≡ string.unit_has_value quote bytes.now }
    ensures within { IfSome result (λ rest. length rest.now ≤ length bytes.now) }
{
    let unit = four_digits(bytes)?;
    if is_lead_surrogate(unit.value) {
        behind_trail(unit.rest)
    } else if is_trail_surrogate(unit.value) {
        None
    } else {
        Some(unit.rest)
    }
}

/// What is left behind `\u{`, which spells no surrogate.
fn behind_brace(bytes: &[u8]) -> Option<&[u8]>
    ensures left { (quote : ℕ) → spec.passes (string.has_value quote) (left_in result) ≡ string.brace_has_value quote bytes.now }
    ensures within { IfSome result (λ rest. length rest.now ≤ length bytes.now) }
{
    let number = braced_digits(bytes)?;
    if is_lead_surrogate(number.value) || is_trail_surrogate(number.value) {
        None
    } else {
        Some(number.rest)
    }
}

/// What is left behind `\u`.
fn behind_unicode(bytes: &[u8]) -> Option<&[u8]>
    ensures left { (quote : ℕ) → spec.passes (string.has_value quote) (left_in result) ≡ string.unicode_has_value quote bytes.now }
    ensures within { IfSome result (λ rest. length rest.now ≤ length bytes.now) }
{
    match bytes {
        [b'{', digits @ ..] => behind_brace(digits),
        _ => behind_unit(bytes),
    }
}

/// What is left behind a carriage return, with which a line feed is one line end.
fn behind_return(bytes: &[u8]) -> &[u8]
    ensures left { (quote : ℕ) → string.has_value quote result.now ≡ string.return_has_value quote bytes.now }
    ensures within { length result.now ≤ length bytes.now }
{
    match bytes {
        [b'\n', rest @ ..] => rest,
        _ => bytes,
    }
}

/// What is left behind the first byte of U+2028 or U+2029.
fn behind_separator(bytes: &[u8]) -> Option<&[u8]>
    ensures left { (quote : ℕ) → spec.passes (string.has_value quote) (left_in result) ≡ string.separator_has_value quote bytes.now }
    ensures within { IfSome result (λ rest. length rest.now ≤ length bytes.now) }
{
    match bytes {
        [_, _, rest @ ..] => Some(rest),
        _ => None,
    }
}

/// What is left behind an escape, of which the backslash was passed.
fn behind_escape(bytes: &[u8]) -> Option<&[u8]>
    ensures left { (quote : ℕ) → spec.passes (string.has_value quote) (left_in result) ≡ string.escape_has_value quote bytes.now }
    ensures within { IfSome result (λ rest. length rest.now ≤ length bytes.now) }
{
    match bytes {
        [] => None,
        [b'u', rest @ ..] => behind_unicode(rest),
        [b'x', rest @ ..] => behind_hex(rest),
        [b'0', rest @ ..] if !begins_digit(rest) => Some(rest),
        [b'0'..=b'9', ..] => None,
        [b'\n', rest @ ..] => Some(rest),
        [b'\r', rest @ ..] => Some(behind_return(rest)),
        [_, rest @ ..] if begins_line_end(bytes) => behind_separator(rest),
        [_, rest @ ..] => Some(rest),
    }
}

fn is_plain(quote: u8, byte: u8) -> bool
    ensures { result ≡ is_plain quote byte }
{
    byte != quote && byte != b'\\' && byte != b'\n' && byte != b'\r'
}

/// Whether the characters between quotes have a value.
fn have_value(quote: u8, mut bytes: &[u8]) -> bool
    ensures { result ≡ string.has_value quote bytes.entry.now }
{
    while let [byte, rest @ ..] = bytes {
        bytes = rest;
        if *byte == b'\\' {
            let Some(behind) = behind_escape(rest) else {
                return false;
            };
            bytes = behind;
        } else if !is_plain(quote, *byte) {
            return false;
        }
    }
    true
}

/// Whether the text is a string with its quotes, as it is written (ECMAScript 12.9.4).
pub fn is_raw_string(text: &str) -> bool
    ensures { result ≡ spec.is_raw_string text.now }
{
    match text.as_bytes() {
        [quote @ (b'\'' | b'"'), rest @ ..] => match without_last(rest, *quote) {
            Some(characters) => have_value(*quote, characters),
            None => false,
        },
        _ => false,
    }
}
