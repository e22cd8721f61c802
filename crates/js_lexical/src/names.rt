//! Identifier names.

ghost use Rattle.std.specs.Prelude.{◌≡◌};
ghost use Rattle.js_syntax.specs.Lexical as spec;

use js_chars::is_identifier_name;

/// Whether the text is an identifier name, reserved or not, of any length (ECMAScript 12.7).
#[tactic(auto, using(crate::proofs::Identifiers::by_characters))]
pub fn is_name(text: &str) -> bool
    ensures { result ≡ spec.is_name text.now }
{
    is_identifier_name(text)
}
