ghost use Rattle.js_print.specs.Layout.{all_escaped, quoted, lead};
ghost use Rattle.std.specs.Prelude.{◌≡◌, ◌++◌, OnOk, string_bytes};
ghost use Rattle.std.specs.Char.{encode_utf8};

use std::alloc::AllocError;

/// A character of a string, escaped where it would not stand for itself between single quotes.
#[tactic(auto, using(crate::proofs::Characters::plain_character))]
fn push_character(out: &mut String, c: char) -> Result<(), AllocError>
    ensures { OnOk result (string_bytes out.new ≡ string_bytes out.old ++ all_escaped (encode_utf8 c)) }
{
    match c {
        '\\' => out.push_str("\\\\"),
        '\'' => out.push_str("\\'"),
        '\n' => out.push_str("\\n"),
        '\r' => out.push_str("\\r"),
        _ => out.push(c),
    }
}

/// A string in single quotes.
#[tactic(auto, using(crate::proofs::Characters::one_character_more))]
pub(crate) fn print_string(out: &mut String, value: &str) -> Result<(), AllocError>
    ensures { OnOk result (string_bytes out.new ≡ string_bytes out.old ++ quoted value.now) }
{
    out.push_str("'")?;
    for c in value.chars() {
        push_character(out, c)?;
    }
    out.push_str("'")
}

/// What stands before the item with this number.
pub(crate) fn print_lead(out: &mut String, separator: &str, index: usize) -> Result<(), AllocError>
    ensures { OnOk result (string_bytes out.new ≡ string_bytes out.old ++ lead separator.now index) }
{
    if index == 0 {
        return Ok(());
    }
    out.push_str(separator)
}
