//! Parts of a text.

ghost use Rattle.std.specs.Prelude.{◌≡◌};
ghost use Rattle.js_syntax.specs.Lexical as spec;
ghost use Rattle.js_lexical.specs.Cursors.{left_in};

/// The text without its last byte, where that is this one.
#[tactic(auto, using(crate::proofs::Parts::by_last))]
pub(crate) fn without_last(bytes: &[u8], last: u8) -> Option<&[u8]>
    ensures { left_in result ≡ spec.without_last last bytes.now }
{
    match bytes {
        [] => None,
        [front @ .., byte] => { if *byte == last { Some(front) } else { None } }
    }
}
