ghost use Rattle.std.specs.Prelude.{◌≡◌, ◌++◌, IfOk, OnOk};
ghost use Rattle.std.specs.Str.{chars};
ghost use Rattle.std.specs.String.{string_bytes};
ghost use Rattle.traverse_names.specs.Identifier.{identifier_of, kept_parts, kept_characters};

use js_chars::{is_identifier_name, is_identifier_part, is_identifier_start};
use std::alloc::{AllocError, Global};

/// Makes an identifier name of a text. What follows a dropped character is in upper case, so words are joined as in
/// camel case; a digit may be left in front.
pub fn to_identifier(alloc: Global, input: String) -> Result<String, AllocError>
    ensures { IfOk result (λ text. chars (string_bytes text) ≡ identifier_of (chars (string_bytes input))) }
{
    if is_identifier_name(input.as_str()) {
        return Ok(input);
    }
    let mut text = String::new(alloc);
    push_kept(&mut text, input.as_str())?;
    if text.is_empty() {
        return String::from_str(alloc, "_");
    }
    Ok(text)
}

fn push_kept(text: &mut String, input: &str) -> Result<(), AllocError>
    ensures { OnOk result (chars (string_bytes text.new) ≡ chars (string_bytes text.old) ++ kept_characters (chars input.now)) }
{
    let mut rest = input.chars();
    let Some(first) = rest.next() else {
        return Ok(());
    };
    if is_identifier_start(first) {
        text.push(first)?;
        return push_parts(text, rest.as_str(), false);
    }
    push_parts(text, rest.as_str(), true)
}

fn push_parts(text: &mut String, rest: &str, mut dropped: bool) -> Result<(), AllocError>
    ensures { OnOk result (chars (string_bytes text.new) ≡ chars (string_bytes text.old) ++ kept_parts dropped (chars rest.now)) }
{
    for c in rest.chars() {
        let is_part = is_identifier_part(c);
        if is_part {
            text.push(if dropped { c.to_ascii_uppercase() } else { c })?;
        }
        dropped = !is_part;
    }
    Ok(())
}
