//! The semicolon, written or left out (ECMAScript 12.10).

ghost use Rattle.std.specs.Prelude.{◌≡◌};
ghost use Rattle.js_tokens.specs.Lexemes.{peeked_of};
ghost use Rattle.js_reading.specs.Reading as spec;
ghost use Rattle.js_reader.specs.Edges.{edge_of};
ghost use Rattle.js_reader.specs.Reads.{Reads};

use crate::continuations::goes_on_with;
use crate::edge::Edge;
use crate::fault::Halt;
use crate::tokens::sees;
use js_tokens::{Lexeme, Punctuator, Tokens};

/// Whether the next token, if one is there, stands on the same line.
#[tactic(auto, unfolding(js_reading::specs::Reading::same_line))]
pub fn same_line(tokens: &Tokens<'_>) -> bool
    ensures { result ≡ spec.same_line tokens.now }
{
    tokens.same_line()
}

#[tactic(auto, unfolding(js_reading::specs::Reading::at_end))]
pub fn at_end(tokens: &Tokens<'_>) -> bool
    ensures { result ≡ spec.at_end tokens.now }
{
    tokens.at_end()
}

/// Whether the token goes on with what ends so; what is no token might.
fn goes_on_at(edge: Edge, next: Option<Lexeme<'_>>) -> bool
    ensures { result ≡ spec.goes_on_at (edge_of edge) (peeked_of next.entry) }
{
    match next {
        Some(lexeme) => goes_on_with(edge, &lexeme),
        None => true,
    }
}

/// Whether a semicolon may be left out here.
#[tactic(auto, unfolding(js_reading::specs::Reading::left_out))]
pub fn left_out(tokens: &Tokens<'_>, edge: Edge) -> bool
    ensures { result ≡ spec.left_out (edge_of edge) tokens.now }
{
    sees(tokens, Punctuator::CloseBrace)
        || at_end(tokens)
        || (!same_line(tokens) && !goes_on_at(edge, tokens.peek()))
}

/// A semicolon, or none where it may be left out.
#[tactic(auto, unfolding(js_reading::specs::Reading::semicolon))]
pub fn semicolon(tokens: &mut Tokens<'_>, edge: Edge) -> Result<(), Halt>
    ensures { Reads (λ _. tt) (spec.semicolon (edge_of edge) tokens.old) result tokens.new }
{
    if sees(tokens, Punctuator::Semicolon) {
        tokens.advance();
        return Ok(());
    }
    if left_out(tokens, edge) {
        return Ok(());
    }
    Err(Halt::Unread)
}

/// The same behind the parenthesis of `do s while (e)`, where it may always be left out.
#[tactic(auto, unfolding(js_reading::specs::Reading::do_end))]
pub fn do_end(tokens: &mut Tokens<'_>) -> Result<(), Halt>
    ensures { Reads (λ _. tt) (spec.do_end tokens.old) result tokens.new }
{
    if sees(tokens, Punctuator::Semicolon) {
        tokens.advance();
        return Ok(());
    }
    if tokens.peek().is_some() || at_end(tokens) {
        return Ok(());
    }
    Err(Halt::Unread)
}
