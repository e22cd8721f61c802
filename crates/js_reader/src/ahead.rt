//! What the next token says of what may stand here.

ghost use Rattle.std.specs.Prelude.{◌≡◌};
ghost use Rattle.js_reading.specs.Expressions as expressions;
ghost use Rattle.js_reading.specs.Literals as literals;
ghost use Rattle.js_reading.specs.Reading as spec;
ghost use Rattle.js_reading.specs.Statements as statements;

use crate::continuations::begins_key;
use crate::edge::Edge;
use crate::semicolons::{at_end, left_out, same_line};
use crate::tokens::{sees, sees_word};
use js_tokens::{Punctuator, Tokens};

/// Whether a key of a property may begin here.
#[tactic(auto, unfolding(js_reading::specs::Reading::begins_key_at))]
pub fn begins_key_at(tokens: &Tokens<'_>) -> bool
    ensures { result ≡ spec.begins_key_at tokens.now }
{
    match tokens.peek() {
        Some(lexeme) => begins_key(&lexeme),
        None => false,
    }
}

/// Whether the arrow of a function stands here, on the same line (15.3).
#[tactic(auto, unfolding(js_reading::specs::Reading::arrow_here))]
pub fn arrow_here(tokens: &Tokens<'_>) -> bool
    ensures { result ≡ spec.arrow_here tokens.now }
{
    sees(tokens, Punctuator::Arrow) && same_line(tokens)
}

/// Whether nothing stands here that is part of a `return`, a `break` or a `continue`.
#[tactic(auto, unfolding(js_reading::specs::Statements::ends_here))]
pub fn ends_here(tokens: &Tokens<'_>) -> bool
    ensures { result ≡ statements.ends_here tokens.now }
{
    sees(tokens, Punctuator::Semicolon) || left_out(tokens, Edge::Plain) || !same_line(tokens)
}

/// Whether no operand of a `yield` stands here.
#[tactic(auto, unfolding(js_reading::specs::Expressions::ends_operand))]
pub fn ends_operand(tokens: &Tokens<'_>) -> bool
    ensures { result ≡ expressions.ends_operand tokens.now }
{
    !same_line(tokens)
        || at_end(tokens)
        || sees(tokens, Punctuator::CloseParenthesis)
        || sees(tokens, Punctuator::CloseBracket)
        || sees(tokens, Punctuator::CloseBrace)
        || sees(tokens, Punctuator::Comma)
        || sees(tokens, Punctuator::Semicolon)
        || sees(tokens, Punctuator::Colon)
}

/// Whether an `async` in front of it begins a function.
#[tactic(auto, unfolding(js_reading::specs::Statements::begins_async_function))]
pub fn begins_async_function(tokens: &Tokens<'_>) -> bool
    ensures { result ≡ statements.begins_async_function tokens.now }
{
    same_line(tokens) && sees_word(tokens, "function")
}

/// Whether an `async` in front of it marks a method.
#[tactic(auto, unfolding(js_reading::specs::Literals::modifies_method))]
pub fn modifies_method(tokens: &Tokens<'_>) -> bool
    ensures { result ≡ literals.modifies_method tokens.now }
{
    same_line(tokens) && (begins_key_at(tokens) || sees(tokens, Punctuator::Star))
}

/// Whether a `static` in front of it marks an element of a class.
#[tactic(auto, unfolding(js_reading::specs::Literals::modifies_element))]
pub fn modifies_element(tokens: &Tokens<'_>) -> bool
    ensures { result ≡ literals.modifies_element tokens.now }
{
    begins_key_at(tokens) || sees(tokens, Punctuator::Star) || sees(tokens, Punctuator::OpenBrace)
}

/// Whether what stands in front of it is the left side of a `for` over each value.
#[tactic(auto, unfolding(js_reading::specs::Statements::sees_each))]
pub fn sees_each(tokens: &Tokens<'_>) -> bool
    ensures { result ≡ statements.sees_each tokens.now }
{
    sees_word(tokens, "in") || sees_word(tokens, "of")
}
