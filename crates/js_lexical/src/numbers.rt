//! Numeric literals.

ghost use Rattle.std.specs.Prelude.{◌≡◌, not};
ghost use Rattle.std.specs.List.{prefix_len};
ghost use Rattle.js_syntax.specs.Lexical as spec;
ghost use Rattle.js_lexical.specs.Digits.{is_mark};

use crate::cuts::without_last;
use crate::digits::{Radix, are_digits, is_digit};

/// `0`, or digits that do not begin with `0`.
fn is_integer(bytes: &[u8]) -> bool
    ensures { result ≡ spec.is_integer bytes.now }
{
    match bytes {
        [] => false,
        [byte] => is_digit(*byte),
        [first, ..] => *first != b'0' && are_digits(Radix::Decimal, bytes),
    }
}

fn is_radix_integer(bytes: &[u8]) -> bool
    ensures { result ≡ spec.is_radix_integer bytes.now }
{
    match bytes {
        [b'0', b'x' | b'X', digits @ ..] => are_digits(Radix::Hexadecimal, digits),
        [b'0', b'o' | b'O', digits @ ..] => are_digits(Radix::Octal, digits),
        [b'0', b'b' | b'B', digits @ ..] => are_digits(Radix::Binary, digits),
        _ => false,
    }
}

/// What divides a decimal literal.
#[derive(Clone, Copy)]
enum Mark {
    Point,
    Exponent,
}

impl Mark {
    fn is(self, byte: u8) -> bool
        ensures { result ≡ is_mark self byte }
    {
        match self {
            Mark::Point => byte == b'.',
            Mark::Exponent => byte == b'e' || byte == b'E',
        }
    }
}

fn length_before(bytes: &[u8], mark: Mark) -> usize
    ensures { result ≡ prefix_len (λ c. not (is_mark mark c)) bytes.now }
{
    bytes.iter().take_while(|byte| !mark.is(**byte)).count()
}

/// The text up to the mark, and from it on.
fn split_at_mark(bytes: &[u8], mark: Mark) -> (&[u8], &[u8])
    ensures front { result.0.now ≡ spec.up_to (is_mark mark) bytes.now }
    ensures behind { result.1.now ≡ spec.onward (is_mark mark) bytes.now }
{
    bytes.split_at(length_before(bytes, mark))
}

fn are_signed_digits(bytes: &[u8]) -> bool
    ensures { result ≡ spec.are_signed_digits bytes.now }
{
    match bytes {
        [b'+' | b'-', digits @ ..] => are_digits(Radix::Decimal, digits),
        _ => are_digits(Radix::Decimal, bytes),
    }
}

fn is_exponent(bytes: &[u8]) -> bool
    ensures { result ≡ spec.is_exponent bytes.now }
{
    match bytes {
        [] => true,
        [_, digits @ ..] => are_signed_digits(digits),
    }
}

/// What stands before the exponent, by its part up to the point and its part from the point on.
fn is_mantissa(whole: &[u8], fraction: &[u8]) -> bool
    ensures { result ≡ spec.is_mantissa whole.now fraction.now }
{
    match (whole, fraction) {
        (_, []) => is_integer(whole),
        ([], [_, digits @ ..]) => are_digits(Radix::Decimal, digits),
        (_, [_]) => is_integer(whole),
        (_, [_, digits @ ..]) => is_integer(whole) && are_digits(Radix::Decimal, digits),
    }
}

fn is_decimal_literal(bytes: &[u8]) -> bool
    ensures { result ≡ spec.is_decimal_literal bytes.now }
{
    let (mantissa, exponent) = split_at_mark(bytes, Mark::Exponent);
    let (whole, fraction) = split_at_mark(mantissa, Mark::Point);
    is_mantissa(whole, fraction) && is_exponent(exponent)
}

/// Whether the text is a numeric literal and no bigint (ECMAScript 12.9.3).
pub fn is_numeral(text: &str) -> bool
    ensures { result ≡ spec.is_numeral text.now }
{
    let bytes = text.as_bytes();
    is_radix_integer(bytes) || is_decimal_literal(bytes)
}

/// Whether the text is a bigint with its `n` (ECMAScript 12.9.3).
pub fn is_big_integer(text: &str) -> bool
    ensures { result ≡ spec.is_big_integer text.now }
{
    match without_last(text.as_bytes(), b'n') {
        Some(whole) => is_integer(whole) || is_radix_integer(whole),
        None => false,
    }
}
