//! The flags of a regular expression.

ghost use Rattle.std.specs.Prelude.{◌≡◌, true};
ghost use Rattle.std.specs.List.{filter, list_all};
ghost use Rattle.js_syntax.specs.Lexical.{has_byte, are_distinct, is_regexp_flags};
ghost use Rattle.js_term.specs.Term.{is_text};
ghost use Rattle.module_tree.specs.FlagLetters.{are_flags_among};

fn has_byte(text: &[u8], byte: u8) -> bool
    ensures { result ≡ has_byte text.now byte }
{
    text.iter().any(|b| byte == *b)
}

/// Whether these are the letters that the text has, in their order.
fn are_those_of(text: &[u8], letters: &[u8], found: &[u8]) -> bool
    ensures { result ≡ is_text (filter (has_byte text.now) letters.now) found.now }
{
    match (letters, found) {
        ([], _) => found.is_empty(),
        ([letter, others @ ..], [first, behind @ ..]) if has_byte(text, *letter) => {
            letter == first && are_those_of(text, others, behind)
        }
        ([letter, others @ ..], _) => {
            !has_byte(text, *letter) && are_those_of(text, others, found)
        }
    }
}

/// Whether these are flags, where their letters are these: each once, in this order, and not both `u` and `v`.
#[tactic(auto, using(crate::proofs::InOrder::flags_in_order))]
fn are_flags_among(letters: &[u8], text: &[u8]) -> bool
    requires known { list_all (has_byte letters.now) letters.now ≡ true }
    requires distinct { are_distinct letters.now ≡ true }
    ensures { result ≡ are_flags_among letters.now text.now }
{
    are_those_of(text, letters, text) && !(has_byte(text, b'u') && has_byte(text, b'v'))
}

/// Whether these are flags as a tree has them: in the order of the alphabet.
pub fn is_regexp_flags(text: &str) -> bool
    ensures { result ≡ is_regexp_flags text.now }
{
    are_flags_among(b"dgimsuvy", text.as_bytes())
}
