//! Names and numbers.

ghost use Rattle.std.specs.Prelude.{◌≡◌, [], ◌∷◌, codes};
ghost use Rattle.std.specs.List.{list_all};
ghost use Rattle.js_term.specs.Form as form;
ghost use Rattle.js_term.specs.Lexeme as spec;

use small_tree::is_reserved;

fn is_digit(byte: u8) -> bool
    ensures { result ≡ spec.is_digit byte }
{
    b'0' <= byte && byte <= b'9'
}

fn is_start(byte: u8) -> bool
    ensures { result ≡ spec.is_start byte }
{
    (b'a' <= byte && byte <= b'z') || (b'A' <= byte && byte <= b'Z') || byte == b'$' || byte == b'_'
}

fn is_part(byte: u8) -> bool
    ensures { result ≡ spec.is_part byte }
{
    is_start(byte) || is_digit(byte)
}

fn are_parts(bytes: &[u8]) -> bool
    ensures { result ≡ list_all spec.is_part bytes.now }
{
    for byte in bytes {
        if !is_part(*byte) {
            return false;
        }
    }
    true
}

fn are_digits(bytes: &[u8]) -> bool
    ensures { result ≡ list_all spec.is_digit bytes.now }
{
    for byte in bytes {
        if !is_digit(*byte) {
            return false;
        }
    }
    true
}

/// Whether the text is an identifier name of ASCII characters.
pub fn is_word(text: &str) -> bool
    ensures { result ≡ spec.is_word text.now }
{
    match text.as_bytes() {
        [] => false,
        [first, rest @ ..] => is_start(*first) && are_parts(rest),
    }
}

/// Whether the text is a decimal integer as it is written, without a leading zero.
pub fn is_decimal(text: &str) -> bool
    ensures { result ≡ spec.is_decimal text.now }
{
    match text.as_bytes() {
        [] => false,
        [byte] => is_digit(*byte),
        [first, rest @ ..] => b'1' <= *first && *first <= b'9' && are_digits(rest),
    }
}

/// Whether the name is one of the runner's own.
fn is_marked(text: &str) -> bool
    ensures { result ≡ form.is_marked text.now }
{
    text.as_bytes().starts_with(b"__vite_ssr_")
}

/// Whether the name is one that strict code does not bind.
fn is_unbindable(text: &str) -> bool
    ensures { result ≡ spec.is_one_of text.now (codes "arguments" ∷ codes "eval" ∷ []) }
{
    match text {
        "arguments" | "eval" => true,
        _ => false,
    }
}

/// Whether a small module may refer to the name.
pub(crate) fn is_small_name(text: &str) -> bool
    ensures { result ≡ form.is_small_name text.now }
{
    is_word(text) && !is_reserved(text) && !is_marked(text) && text != "Object"
}

/// Whether a small module may declare the name.
pub(crate) fn is_small_binding(text: &str) -> bool
    ensures { result ≡ form.is_small_binding text.now }
{
    is_small_name(text) && !is_unbindable(text)
}
