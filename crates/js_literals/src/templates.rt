//! The raw values of templates (TRV, ECMAScript 12.9.6): their characters, with a line feed for CR and for CR LF.

ghost use Rattle.std.specs.Prelude.{◌≡◌, IfOk, IfSome, is_some, string_bytes};
ghost use Rattle.std.specs.List.{list_all};
ghost use Rattle.js_syntax.specs.Lexical.{is_no_return, normal_lines};
ghost use Rattle.js_literals.specs.Escapes.{line_feed};

use crate::splits::split_at_first;
use std::alloc::{AllocError, Global};

fn has_no_return(bytes: &[u8]) -> bool
    ensures { result ≡ list_all is_no_return bytes.now }
{
    bytes.iter().all(|byte| *byte != b'\r')
}

/// The raw value of a template's characters, where it is the characters themselves: without a carriage return.
pub fn plain_template_raw_value(characters: &str) -> Option<&str>
    ensures plain { is_some result ≡ list_all is_no_return characters.now }
    ensures value { IfSome result (λ value. value.now ≡ normal_lines characters.now) }
{
    if !has_no_return(characters.as_bytes()) {
        return None;
    }
    Some(characters)
}

fn behind_line_feed(text: &str) -> &str
    ensures { result.now ≡ line_feed text.now }
{
    match text.strip_prefix('\n') {
        Some(rest) => rest,
        None => text,
    }
}

/// The raw value of a template's characters.
pub fn template_raw_value(alloc: Global, characters: &str) -> Result<String, AllocError>
    ensures { IfOk result (λ value. string_bytes value ≡ normal_lines characters.now) }
{
    let mut value = String::with_capacity(alloc, characters.len())?;
    let mut text = characters;
    while let Some((line, behind)) = split_at_first(text, '\r') {
        value.push_str(line)?;
        value.push('\n')?;
        text = behind_line_feed(behind);
    }
    value.push_str(text)?;
    Ok(value)
}
