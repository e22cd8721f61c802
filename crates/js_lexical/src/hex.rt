//! Hexadecimal numbers in escapes.

ghost use Rattle.std.specs.Prelude.{◌≡◌, ◌<◌, ◌≤◌, IfSome, false, length};
ghost use Rattle.js_syntax.specs.Lexical as spec;
ghost use Rattle.js_lexical.specs.Cursors as cursor;

/// A number, and the text behind it.
#[derive(Clone, Copy)]
pub struct Number<'a> {
    pub value: u32,
    pub rest: &'a [u8],
}

fn digit_value(byte: u8) -> Option<u32>
    ensures value { result ≡ cursor.digit_value byte }
    ensures few { IfSome result (λ value. value < 16) }
{
    match byte {
        b'0'..=b'9' => Some(u32::from(byte - b'0')),
        b'A'..=b'F' => Some(u32::from(byte - b'A') + 10),
        b'a'..=b'f' => Some(u32::from(byte - b'a') + 10),
        _ => None,
    }
}

fn hex_two(high: u8, low: u8) -> Option<u32>
    ensures value { result ≡ spec.hex_two high low }
    ensures few { IfSome result (λ value. value < 256) }
{
    Some(digit_value(high)? * 16 + digit_value(low)?)
}

/// The two digits at the front.
pub fn two_digits(bytes: &[u8]) -> Option<Number<'_>>
    ensures number { cursor.number_in result ≡ cursor.two_digits bytes.now }
    ensures few { IfSome result (λ number. number.value < 256) }
    ensures within { IfSome result (λ number. length number.rest.now ≤ length bytes.now) }
{
    match bytes {
        [a, b, rest @ ..] => Some(Number {
            value: hex_two(*a, *b)?,
            rest,
        }),
        _ => None,
    }
}

/// The four digits at the front.
pub fn four_digits(bytes: &[u8]) -> Option<Number<'_>>
    ensures number { cursor.number_in result ≡ cursor.four_digits bytes.now }
    ensures few { IfSome result (λ number. number.value < 65536) }
    ensures within { IfSome result (λ number. length number.rest.now ≤ length bytes.now) }
{
    match bytes {
        [a, b, c, d, rest @ ..] => Some(Number {
            value: hex_two(*a, *b)? * 256 + hex_two(*c, *d)?,
            rest,
        }),
        _ => None,
    }
}

/// The digits up to a `}`, where they are worth no more than 0x10FFFF.
pub fn braced_digits(mut bytes: &[u8]) -> Option<Number<'_>>
    ensures number { cursor.number_in result ≡ cursor.braced_digits false 0 bytes.entry.now }
    ensures few { IfSome result (λ number. number.value ≤ 0x10FFFF) }
    ensures within { IfSome result (λ number. length number.rest.now ≤ length bytes.entry.now) }
{
    let mut value = 0;
    let mut has_digit = false;
    while let [byte, rest @ ..] = bytes {
        if *byte == b'}' {
            return if has_digit {
                Some(Number { value, rest })
            } else {
                None
            };
        }
        value = value * 16 + digit_value(*byte)?;
        if value > 0x10FFFF {
            return None;
        }
        has_digit = true;
        bytes = rest;
    }
    None
}

/// The number behind `\u`.
pub(crate) fn unicode_digits(bytes: &[u8]) -> Option<Number<'_>>
    ensures number { cursor.number_in result ≡ cursor.unicode_digits bytes.now }
    ensures within { IfSome result (λ number. length number.rest.now ≤ length bytes.now) }
{
    match bytes {
        [b'{', digits @ ..] => braced_digits(digits),
        _ => four_digits(bytes),
    }
}
