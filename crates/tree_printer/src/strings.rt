//! The texts of tokens that are not printed as they stand.

ghost use Rattle.js_term.specs.Term.{flag};
ghost use Rattle.js_tree.specs.Words.{flags_word};
ghost use Rattle.print_layout.specs.Rows.{all_escaped, line, quoted};
ghost use Rattle.std.specs.Char.{encode_utf8};
ghost use Rattle.std.specs.Prelude.{◌≡◌, ◌++◌, OnOk, codes, string_bytes};

use bitflags::Flags;
use js_tree::RegExpFlags;
use std::alloc::AllocError;

/// The text where it is to stand.
pub fn push_if(out: &mut String, set: bool, text: &str) -> Result<(), AllocError>
    ensures { OnOk result (string_bytes out.new ≡ string_bytes out.old ++ flag set text.now) }
{
    if set {
        return out.push_str(text);
    }
    Ok(())
}

/// A character of a string, escaped where it would not stand for itself between single quotes.
#[tactic(auto, using(crate::proofs::Characters::plain_character))]
fn push_character(out: &mut String, c: char) -> Result<(), AllocError>
    ensures { OnOk result (string_bytes out.new ≡ string_bytes out.old ++ all_escaped (encode_utf8 c)) }
{
    match c {
        '\\' => out.push_str("\\\\"),
        '\'' => out.push_str("\\'"),
        '\n' => out.push_str("\\n"),
        '\r' => out.push_str("\\r"),
        _ => out.push(c),
    }
}

/// A string in single quotes.
#[tactic(auto, using(crate::proofs::Characters::one_character_more))]
pub fn print_string(out: &mut String, value: &str) -> Result<(), AllocError>
    ensures { OnOk result (string_bytes out.new ≡ string_bytes out.old ++ quoted value.now) }
{
    out.push_str("'")?;
    for c in value.chars() {
        push_character(out, c)?;
    }
    out.push_str("'")
}

/// The line of a hashbang.
#[tactic(auto, using(std::proofs::lemmas::List::append_assoc))]
pub fn print_hashbang(out: &mut String, text: &str) -> Result<(), AllocError>
    ensures { OnOk result (string_bytes out.new ≡ string_bytes out.old ++ (codes "#!" ++ (text.now ++ line))) }
{
    out.push_str("#!")?;
    out.push_str(text)?;
    out.push_str("\n")
}

/// The letters of the flags that are set.
#[tactic(auto, using(std::proofs::lemmas::List::append_assoc))]
pub fn print_flags(out: &mut String, flags: RegExpFlags) -> Result<(), AllocError>
    ensures { OnOk result (string_bytes out.new ≡ string_bytes out.old ++ flags_word flags) }
{
    push_if(out, flags.contains(RegExpFlags::D), "d")?;
    push_if(out, flags.contains(RegExpFlags::G), "g")?;
    push_if(out, flags.contains(RegExpFlags::I), "i")?;
    push_if(out, flags.contains(RegExpFlags::M), "m")?;
    push_if(out, flags.contains(RegExpFlags::S), "s")?;
    push_if(out, flags.contains(RegExpFlags::U), "u")?;
    push_if(out, flags.contains(RegExpFlags::V), "v")?;
    push_if(out, flags.contains(RegExpFlags::Y), "y")
}
