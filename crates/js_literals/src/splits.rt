//! Texts cut at a byte of ASCII.

ghost use Rattle.std.specs.Prelude.{◌≡◌, ◌<◌, true, MatchOption};
ghost use Rattle.std.specs.List.{list_all};
ghost use Rattle.js_literals.specs.Values.{IsSplit, is_other};

/// The text in front of the first of these characters, and the text behind it.
pub(crate) fn split_at_first(text: &str, character: char) -> Option<(&str, &str)>
    requires { character < 128 }
    ensures { MatchOption result (list_all (is_other character) text.now ≡ true) (λ parts. IsSplit character text.now parts.0.now parts.1.now) }
{
    text.split_once(character)
}
