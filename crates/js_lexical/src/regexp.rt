//! The bodies of regular expressions.

ghost use Rattle.std.specs.Prelude.{◌≡◌, false};
ghost use Rattle.js_syntax.specs.Lexical as spec;

use crate::lines::begins_line_end;

/// Whether classes are closed, each `/` stands in one or behind a backslash, and no line ends.
fn is_regexp_rest(mut bytes: &[u8]) -> bool
    ensures { result ≡ spec.is_regexp_rest false bytes.entry.now }
{
    let mut in_class = false;
    while let [byte, rest @ ..] = bytes {
        if begins_line_end(bytes) {
            return false;
        }
        bytes = rest;
        match *byte {
            b'\\' => {
                let [_, behind @ ..] = rest else {
                    return false;
                };
                if begins_line_end(rest) {
                    return false;
                }
                bytes = behind;
            }
            b'[' => in_class = true,
            b']' => in_class = false,
            b'/' if !in_class => return false,
            _ => {}
        }
    }
    !in_class
}

/// Whether the text is the body of a regular expression, between its slashes (ECMAScript 12.9.5).
pub fn is_regexp_body(text: &str) -> bool
    ensures { result ≡ spec.is_regexp_body text.now }
{
    match text.as_bytes() {
        [] | [b'*', ..] => false,
        bytes => is_regexp_rest(bytes),
    }
}
