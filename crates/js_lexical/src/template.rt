//! The raw text between the substitutions of a template.

ghost use Rattle.std.specs.Prelude.{◌≡◌};
ghost use Rattle.std.specs.List.{list_all};
ghost use Rattle.js_syntax.specs.Lexical as spec;

fn has_no_return(bytes: &[u8]) -> bool
    ensures { result ≡ list_all spec.is_no_return bytes.now }
{
    bytes.iter().all(|byte| *byte != b'\r')
}

fn are_template_characters(mut bytes: &[u8]) -> bool
    ensures { result ≡ spec.are_template_characters bytes.entry.now }
{
    while let [byte, rest @ ..] = bytes {
        bytes = match (*byte, rest) {
            (b'\\', [_, behind @ ..]) => behind,
            (b'\\', []) | (b'`', _) | (b'$', [b'{', ..]) => return false,
            _ => rest,
        };
    }
    true
}

/// Whether the text is the raw text of a template's part, in which no carriage return is left (ECMAScript 12.9.6).
pub fn is_template_text(text: &str) -> bool
    ensures { result ≡ spec.is_template_text text.now }
{
    let bytes = text.as_bytes();
    has_no_return(bytes) && are_template_characters(bytes)
}
