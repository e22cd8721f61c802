//! Digits, with `_` between them.

ghost use Rattle.std.specs.Prelude.{◌≡◌};
ghost use Rattle.js_term.specs.Lexeme.{is_digit, between};
ghost use Rattle.js_syntax.specs.Lexical as spec;
ghost use Rattle.js_lexical.specs.Digits.{is_digit_of};

/// The digits of a radix.
#[derive(Clone, Copy)]
pub(crate) enum Radix {
    Decimal,
    Hexadecimal,
    Octal,
    Binary,
}

pub(crate) fn is_digit(byte: u8) -> bool
    ensures { result ≡ is_digit byte }
{
    b'0' <= byte && byte <= b'9'
}

pub(crate) fn is_hex(byte: u8) -> bool
    ensures { result ≡ spec.is_hex byte }
{
    is_digit(byte) || (b'a' <= byte && byte <= b'f') || (b'A' <= byte && byte <= b'F')
}

impl Radix {
    fn has(self, byte: u8) -> bool
        ensures { result ≡ is_digit_of self byte }
    {
        match self {
            Radix::Decimal => is_digit(byte),
            Radix::Hexadecimal => is_hex(byte),
            Radix::Octal => b'0' <= byte && byte <= b'7',
            Radix::Binary => byte == b'0' || byte == b'1',
        }
    }
}

/// Whether a digit is next.
pub fn begins_digit(bytes: &[u8]) -> bool
    ensures { result ≡ spec.first_passes is_digit bytes.now }
{
    match bytes {
        [] => false,
        [byte, ..] => is_digit(*byte),
    }
}

/// Whether the text is digits, with a single `_` between two of them or none.
pub(crate) fn are_digits(radix: Radix, mut bytes: &[u8]) -> bool
    ensures { result ≡ spec.are_digits (is_digit_of radix) bytes.entry.now }
{
    while let [byte, rest @ ..] = bytes {
        if !radix.has(*byte) {
            return false;
        }
        bytes = match rest {
            [] => return true,
            [b'_', behind @ ..] => behind,
            _ => rest,
        };
    }
    false
}
