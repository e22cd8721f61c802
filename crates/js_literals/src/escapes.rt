//! The escapes of strings.

ghost use Rattle.std.specs.Prelude.{◌≡◌, ◌≤◌, ◌<◌, Some, true, length, IfSome};
ghost use Rattle.js_lexical.specs.Cursors.{number_in, four_digits};
ghost use Rattle.js_syntax.specs.Lexical as lexical;
ghost use Rattle.js_literals.specs.Escapes as spec;
ghost use Rattle.js_literals.specs.Values.{escape_of};

use js_lexical::{
    Number, begins_digit, begins_line_end, braced_digits, four_digits, is_lead_surrogate,
    is_trail_surrogate, two_digits,
};

/// The character that an escape spells, if it spells one, and what is left behind it.
#[derive(Clone, Copy)]
pub(crate) struct Escape<'a> {
    pub(crate) character: Option<char>,
    pub(crate) rest: &'a [u8],
}

fn character(number: Number<'_>) -> Option<Escape<'_>>
    ensures { escape_of result ≡ spec.character (Some (number.entry.value, number.entry.rest.now)) }
{
    Some(Escape {
        character: Some(char::from_u32(number.value)?),
        rest: number.rest,
    })
}

/// The character of a lead surrogate and the trail surrogate behind it.
fn surrogate_pair(lead: u32, bytes: &[u8]) -> Option<Number<'_>>
    requires { lexical.is_lead_surrogate lead ≡ true }
    ensures { number_in result ≡ spec.surrogate_pair lead bytes.now }
{
    match bytes {
        [b'\\', b'u', digits @ ..] => {
            let trail = four_digits(digits)?;
            if !is_trail_surrogate(trail.value) {
                return None;
            }
            Some(Number {
                value: 0x10000 + (lead - 0xD800) * 0x400 + (trail.value - 0xDC00),
                rest: trail.rest,
            })
        }
        _ => None,
    }
}

/// The code point of `HHHH`, which takes a trail surrogate along.
fn code_point(bytes: &[u8]) -> Option<Number<'_>>
    ensures { number_in result ≡ spec.paired (four_digits bytes.now) }
{
    let unit = four_digits(bytes)?;
    if is_lead_surrogate(unit.value) {
        surrogate_pair(unit.value, unit.rest)
    } else {
        Some(unit)
    }
}

/// The code point behind `\u`.
fn unicode(bytes: &[u8]) -> Option<Number<'_>>
    ensures { number_in result ≡ spec.unicode bytes.now }
{
    match bytes {
        [b'{', digits @ ..] => braced_digits(digits),
        _ => code_point(bytes),
    }
}

/// What is left behind U+2028 or U+2029, of which the first byte was passed.
fn separator(bytes: &[u8]) -> Option<Escape<'_>>
    ensures { escape_of result ≡ spec.separator bytes.now }
{
    match bytes {
        [_, _, rest @ ..] => Some(Escape {
            character: None,
            rest,
        }),
        _ => None,
    }
}

/// The character that a byte behind a backslash stands for.
fn single_escape(byte: u8) -> char
    requires { byte < 128 }
    ensures { result ≡ lexical.escape_value (lexical.single_escape byte) byte }
{
    match byte {
        b'b' => '\u{8}',
        b't' => '\t',
        b'n' => '\n',
        b'v' => '\u{B}',
        b'f' => '\u{C}',
        b'r' => '\r',
        _ => byte as char,
    }
}

/// The escape at the front, of which the backslash was passed.
pub(crate) fn read_escape(bytes: &[u8]) -> Option<Escape<'_>>
    ensures { escape_of result ≡ spec.unescaped bytes.now }
{
    match bytes {
        [] => None,
        [b'u', rest @ ..] => character(unicode(rest)?),
        [b'x', rest @ ..] => character(two_digits(rest)?),
        [b'0', rest @ ..] if !begins_digit(rest) => Some(Escape {
            character: Some('\0'),
            rest,
        }),
        [b'0'..=b'9', ..] => None,
        [b'\r', b'\n', rest @ ..] | [b'\n' | b'\r', rest @ ..] => Some(Escape {
            character: None,
            rest,
        }),
        [_, rest @ ..] if begins_line_end(bytes) => separator(rest),
        [0x80..=0xFF, ..] => Some(Escape {
            character: None,
            rest: bytes,
        }),
        [byte, rest @ ..] => Some(Escape {
            character: Some(single_escape(*byte)),
            rest,
        }),
    }
}
