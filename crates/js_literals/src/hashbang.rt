//! The hashbang at the front of a module's text (ECMAScript 12.5).

ghost use Rattle.std.specs.Prelude.{◌≡◌, ◌≤◌, ◌++◌, false, length, codes, MatchOption};
ghost use Rattle.js_syntax.specs.Lexical.{begins};
ghost use Rattle.js_literals.specs.Hashbangs as spec;

use js_lexical::begins_line_end;

/// What stands behind `#!` on the first line, and what is left from the end of the line on.
#[derive(Clone, Copy)]
pub struct Hashbang<'a> {
    pub text: &'a str,
    pub rest: &'a str,
}

/// What is left from the end of the line on.
fn behind_line(mut bytes: &[u8]) -> &[u8]
    ensures left { result.now ≡ spec.behind_line bytes.entry.now }
    ensures within { length result.now ≤ length bytes.entry.now }
{
    while let [_, rest @ ..] = bytes {
        if begins_line_end(bytes) {
            return bytes;
        }
        bytes = rest;
    }
    bytes
}

/// What is left behind `#!`.
fn behind_mark(text: &str) -> Option<&str>
    ensures { MatchOption result (begins (codes "#!") text.now ≡ false) (λ rest. text.now ≡ codes "#!" ++ rest.now) }
{
    text.strip_prefix('#')?.strip_prefix('!')
}

/// The hashbang at the very front of a text, if one is there.
pub fn take_hashbang(text: &str) -> Option<Hashbang<'_>>
    ensures { spec.CutsHashbang text.now (spec.texts_of result) (spec.rest_of text.now result) }
{
    let line = behind_mark(text)?;
    let end = line.len() - behind_line(line.as_bytes()).len();
    let (text, rest) = line.split_at(end);
    Some(Hashbang { text, rest })
}
