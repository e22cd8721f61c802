//! Single tokens: names, a string, and what is always spelled one way.

ghost use Rattle.std.specs.Prelude.{◌≡◌};
ghost use Rattle.js_term.specs.Lexeme.{word, sign};
ghost use Rattle.js_read.specs.Read as spec;
ghost use Rattle.js_read.specs.Gives.{Reads};

use crate::fault::Halt;
use js_lex::{Lexeme, Tokens};
use small_tree::{BindingIdentifier, Ident, IdentifierName, Span, StringLiteral, is_reserved};
use std::alloc::Global;

/// From where a node begins to the end of the last token that was passed.
pub(crate) fn span_from(start: u32, tokens: &Tokens<'_>) -> Span {
    Span {
        start,
        end: tokens.end(),
    }
}

/// Passes a sign.
#[tactic(auto, unfolding(crate::specs::Read::expect))]
pub(crate) fn expect(tokens: &mut Tokens<'_>, mark: u8) -> Result<(), Halt>
    ensures { Reads (λ _. tt) (spec.expect (sign mark) tokens.old) result tokens.new }
{
    if !tokens.sees(mark) {
        return Err(Halt::Unread);
    }
    tokens.advance();
    Ok(())
}

/// Passes a word.
#[tactic(auto, unfolding(crate::specs::Read::expect))]
pub(crate) fn expect_word(tokens: &mut Tokens<'_>, name: &str) -> Result<(), Halt>
    ensures { Reads (λ _. tt) (spec.expect (word name.now) tokens.old) result tokens.new }
{
    if !tokens.sees_word(name) {
        return Err(Halt::Unread);
    }
    tokens.advance();
    Ok(())
}

/// A word, whether it is reserved or not.
#[tactic(auto, unfolding(crate::specs::Read::name))]
pub(crate) fn name(alloc: Global, tokens: &mut Tokens<'_>) -> Result<IdentifierName, Halt>
    ensures { Reads (λ n. n.name) (spec.name tokens.old) result tokens.new }
{
    let start = tokens.start();
    let Some(Lexeme::Word(text)) = tokens.peek() else {
        return Err(Halt::Unread);
    };
    let name = Ident::new(alloc, text)?;
    tokens.advance();
    Ok(IdentifierName {
        span: span_from(start, tokens),
        name,
    })
}

/// A name that is declared.
#[tactic(auto, unfolding(crate::specs::Read::binding))]
pub(crate) fn binding(alloc: Global, tokens: &mut Tokens<'_>) -> Result<BindingIdentifier, Halt>
    ensures { Reads (λ n. n.name) (spec.binding tokens.old) result tokens.new }
{
    let IdentifierName { span, name } = name(alloc, tokens)?;
    if is_reserved(name.as_str()) {
        return Err(Halt::Unread);
    }
    Ok(BindingIdentifier {
        span,
        name,
        symbol_id: None,
    })
}

/// A string.
#[tactic(auto, unfolding(crate::specs::Read::source))]
pub(crate) fn string(alloc: Global, tokens: &mut Tokens<'_>) -> Result<StringLiteral, Halt>
    ensures { Reads (λ n. n.value) (spec.source tokens.old) result tokens.new }
{
    let start = tokens.start();
    let Some(Lexeme::String(text)) = tokens.peek() else {
        return Err(Halt::Unread);
    };
    let value = Ident::new(alloc, text)?;
    tokens.advance();
    Ok(StringLiteral {
        span: span_from(start, tokens),
        value,
    })
}
