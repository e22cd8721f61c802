//! Single tokens.

ghost use Rattle.std.specs.Prelude.{◌≡◌, ◌&&◌, not};
ghost use Rattle.js_tokens.specs.Lexemes.{peeked_of};
ghost use Rattle.js_tokens.specs.PunctuatorTexts.{text_of};
ghost use Rattle.js_reading.specs.Reading as spec;
ghost use Rattle.js_reader.specs.Reads.{Reads};
ghost use Rattle.js_reader.specs.Edges.{edge_of};

use crate::edge::Edge;
use crate::fault::Halt;
use js_chars::is_reserved;
use js_ident::Ident;
use js_tokens::{Lexeme, Punctuator, Tokens};
use std::alloc::Global;

/// Whether this punctuator is the next token.
#[tactic(auto, unfolding(js_reading::specs::Reading::sees), using(crate::proofs::Punctuators::same_texts))]
pub fn sees(tokens: &Tokens<'_>, punctuator: Punctuator) -> bool
    ensures { result ≡ spec.sees (text_of punctuator) tokens.now }
{
    match tokens.peek() {
        Some(Lexeme::Punctuator(next)) => next == punctuator,
        _ => false,
    }
}

/// Whether this word is the next token.
#[tactic(auto, unfolding(js_reading::specs::Reading::sees_word))]
pub fn sees_word(tokens: &Tokens<'_>, word: &str) -> bool
    ensures { result ≡ spec.sees_word word.now tokens.now }
{
    match tokens.peek() {
        Some(Lexeme::IdentifierName(next)) => next == word,
        _ => false,
    }
}

#[tactic(auto, unfolding(js_reading::specs::Reading::expect))]
pub fn expect(tokens: &mut Tokens<'_>, punctuator: Punctuator) -> Result<(), Halt>
    ensures { Reads (λ _. tt) (spec.expect (text_of punctuator) tokens.old) result tokens.new }
{
    if !sees(tokens, punctuator) {
        return Err(Halt::Unread);
    }
    tokens.advance();
    Ok(())
}

#[tactic(auto, unfolding(js_reading::specs::Reading::expect_word))]
pub fn expect_word(tokens: &mut Tokens<'_>, word: &str) -> Result<(), Halt>
    ensures { Reads (λ _. tt) (spec.expect_word word.now tokens.old) result tokens.new }
{
    if !sees_word(tokens, word) {
        return Err(Halt::Unread);
    }
    tokens.advance();
    Ok(())
}

/// A name, reserved or not.
#[tactic(auto, unfolding(js_reading::specs::Reading::name))]
pub fn name(alloc: Global, tokens: &mut Tokens<'_>) -> Result<Ident, Halt>
    ensures { Reads (λ x. x) (spec.name tokens.old) result tokens.new }
{
    let Some(Lexeme::IdentifierName(text)) = tokens.peek() else {
        return Err(Halt::Unread);
    };
    let name = Ident::new(alloc, text)?;
    tokens.advance();
    Ok(name)
}

/// A name that may be bound.
#[tactic(auto, unfolding(js_reading::specs::Reading::binding))]
pub fn binding(alloc: Global, tokens: &mut Tokens<'_>) -> Result<Ident, Halt>
    ensures { Reads (λ x. x) (spec.binding tokens.old) result tokens.new }
{
    let name = name(alloc, tokens)?;
    if is_reserved(name.as_str()) {
        return Err(Halt::Unread);
    }
    Ok(name)
}
