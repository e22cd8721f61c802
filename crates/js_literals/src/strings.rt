//! The values of strings.

ghost use Rattle.std.specs.Prelude.{◌≡◌, ◌++◌, Some, true, IfOk, OnOk, string_bytes, IfSome, length, ◌≤◌};
ghost use Rattle.js_syntax.specs.Lexical.{is_raw_string};
ghost use Rattle.js_tokens.specs.Strings as spec;
ghost use Rattle.js_literals.specs.Escapes.{unescaped};
ghost use Rattle.js_literals.specs.Values.{unescaped_of, added, characters};

use crate::escapes::read_escape;
use crate::splits::split_at_first;
use std::alloc::{AllocError, Global};

/// What stands between the quotes.
fn characters(raw: &str) -> &str
    requires { is_raw_string raw.now ≡ true }
    ensures { result.now ≡ characters raw.now }
{
    &raw[1..raw.len() - 1]
}

/// The character of the escape at the front, of which the backslash was passed, and what is left behind it.
fn split_escape(text: &str) -> Option<(Option<char>, &str)>
    ensures left { unescaped_of result ≡ unescaped text.now }
    ensures within { IfSome result (λ parts. length parts.1.now ≤ length text.now) }
{
    let escape = read_escape(text.as_bytes())?;
    let (_, rest) = text.split_at(text.len() - escape.rest.len());
    Some((escape.character, rest))
}

fn push_character(value: &mut String, character: Option<char>) -> Result<(), AllocError>
    ensures { OnOk result (string_bytes value.new ≡ string_bytes value.old ++ added character) }
{
    match character {
        Some(character) => value.push(character),
        None => Ok(()),
    }
}

/// The value of a string as it is written, with its quotes (ECMAScript 12.9.4).
pub fn string_value(alloc: Global, raw: &str) -> Result<String, AllocError>
    requires { is_raw_string raw.now ≡ true }
    ensures { IfOk result (λ value. spec.string_value raw.now ≡ Some (string_bytes value)) }
{
    let mut text = characters(raw);
    let mut value = String::with_capacity(alloc, text.len())?;
    while let Some((plain, behind)) = split_at_first(text, '\\') {
        value.push_str(plain)?;
        let Some((character, rest)) = split_escape(behind) else {
            unreachable!()
        };
        push_character(&mut value, character)?;
        text = rest;
    }
    value.push_str(text)?;
    Ok(value)
}
