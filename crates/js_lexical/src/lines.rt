//! Line ends.

ghost use Rattle.std.specs.Prelude.{◌≡◌};
ghost use Rattle.js_syntax.specs.Lexical as spec;

/// Whether a line end begins the text: LF, CR, U+2028 or U+2029.
pub fn begins_line_end(bytes: &[u8]) -> bool
    ensures { result ≡ spec.begins_any spec.line_ends bytes.now }
{
    match bytes {
        [b'\n' | b'\r', ..] => true,
        [0xE2, 0x80, 0xA8 | 0xA9, ..] => true,
        _ => false,
    }
}

fn has_line_end(mut bytes: &[u8]) -> bool
    ensures { result ≡ spec.has_line_end bytes.entry.now }
{
    while let [_, rest @ ..] = bytes {
        if begins_line_end(bytes) {
            return true;
        }
        bytes = rest;
    }
    false
}

/// Whether the text may stand behind `#!` (ECMAScript 12.5).
pub fn is_hashbang(text: &str) -> bool
    ensures { result ≡ spec.is_hashbang text.now }
{
    !has_line_end(text.as_bytes())
}
