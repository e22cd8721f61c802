//! The token at the front of a text without a gap there.

ghost use Rattle.std.specs.Prelude.{◌≡◌, ◌<◌, length, drop, slice_index, true};
ghost use Rattle.std.specs.List.{list_all};
ghost use Rattle.js_term.specs.Lexeme as spec;
ghost use Rattle.js_lex.specs.Next as next;
ghost use Rattle.js_lex.specs.Classes.{cut_of, quote_byte};

use crate::bytes::{Class, Quote, goes_on, goes_on_number, is_digit, is_sign, is_start, split_run};

/// A token, without the gap in front of it.
#[derive(Clone, Copy)]
pub enum Lexeme<'a> {
    Word(&'a str),
    Number(&'a str),
    /// A string, by what stands between its quotes.
    String(&'a str),
    Sign(u8),
}

/// A token, and the text behind it.
#[derive(Clone, Copy)]
pub(crate) struct Token<'a> {
    pub(crate) lexeme: Lexeme<'a>,
    pub(crate) rest: &'a str,
}

fn word_stops(rest: &str) -> bool
    ensures { result ≡ spec.not_next spec.goes_on rest.now }
{
    match rest.as_bytes() {
        [] => true,
        [byte, ..] => !goes_on(*byte),
    }
}

fn number_stops(rest: &str) -> bool
    ensures { result ≡ spec.not_next spec.goes_on_number rest.now }
{
    match rest.as_bytes() {
        [] => true,
        [byte, ..] => !goes_on_number(*byte),
    }
}

#[tactic(auto, unfolding(crate::specs::Next::cut_word))]
fn word(text: &str) -> Option<Token<'_>>
    ensures { cut_of result ≡ next.cut_word text.now }
{
    let (name, rest) = split_run(text, Class::Part);
    if !word_stops(rest) {
        return None;
    }
    Some(Token {
        lexeme: Lexeme::Word(name),
        rest,
    })
}

/// Whether a run of digits is a number: it does not begin with a zero, unless it is zero.
fn is_number(digits: &str) -> bool
    requires { list_all spec.is_digit digits.now ≡ true }
    ensures { result ≡ spec.is_decimal digits.now }
{
    match digits.as_bytes() {
        [] => false,
        [_] => true,
        [first, ..] => *first != b'0',
    }
}

#[tactic(auto, using(crate::proofs::Runs::run_passes), unfolding(crate::specs::Next::cut_number))]
fn number(text: &str) -> Option<Token<'_>>
    ensures { cut_of result ≡ next.cut_number text.now }
{
    let (digits, rest) = split_run(text, Class::Digit);
    if !is_number(digits) || !number_stops(rest) {
        return None;
    }
    Some(Token {
        lexeme: Lexeme::Number(digits),
        rest,
    })
}

/// What is behind the byte at the front, which is ASCII.
fn behind_byte(text: &str) -> &str
    requires some { 0 < length text.now }
    requires ascii { slice_index text.now 0 < 128 }
    ensures rest { result.now ≡ drop 1 text.now }
    ensures shorter { length result.now < length text.now }
{
    &text[1..]
}

/// The string with this value, if its quote stands at the front of the rest.
fn closed<'a>(value: &'a str, rest: &'a str, quote: Quote) -> Option<Token<'a>>
    ensures { cut_of result ≡ next.closed_by (quote_byte quote) value.now rest.now }
{
    match rest.as_bytes() {
        [byte, ..] if *byte == quote.byte() => Some(Token {
            lexeme: Lexeme::String(value),
            rest: behind_byte(rest),
        }),
        _ => None,
    }
}

/// The string of which the text is behind the opening quote.
#[tactic(auto, unfolding(crate::specs::Next::cut_string))]
fn string(text: &str, quote: Quote) -> Option<Token<'_>>
    ensures { cut_of result ≡ next.cut_string (quote_byte quote) text.now }
{
    let (value, rest) = split_run(text, Class::Plain(quote));
    closed(value, rest, quote)
}

fn sign(text: &str, byte: u8) -> Option<Token<'_>>
    requires some { 0 < length text.now }
    requires first { byte ≡ slice_index text.now 0 }
    ensures { cut_of result ≡ next.cut_if (spec.is_sign byte) (spec.sign byte) (drop 1 text.now) }
{
    if !is_sign(byte) {
        return None;
    }
    Some(Token {
        lexeme: Lexeme::Sign(byte),
        rest: behind_byte(text),
    })
}

#[tactic(auto, unfolding(crate::specs::Next::cut))]
pub(crate) fn next_token(text: &str) -> Option<Token<'_>>
    ensures { cut_of result ≡ next.cut text.now }
{
    let first = *text.as_bytes().first()?;
    if is_start(first) {
        word(text)
    } else if is_digit(first) {
        number(text)
    } else if first == b'\'' {
        string(behind_byte(text), Quote::Single)
    } else if first == b'"' {
        string(behind_byte(text), Quote::Double)
    } else {
        sign(text, first)
    }
}
