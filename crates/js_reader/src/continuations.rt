//! Whether a token goes on with what stands in front of it, behind a line end.

ghost use Rattle.std.specs.Prelude.{◌≡◌, ◌∷◌, [], map, codes, take, drop};
ghost use Rattle.js_term.specs.Lexeme.{is_one_of};
ghost use Rattle.js_syntax.specs.Edges as spec;
ghost use Rattle.js_tokens.specs.Lexemes.{lexeme_of};
ghost use Rattle.js_tokens.specs.PunctuatorTexts.{text_of};
ghost use Rattle.js_reader.specs.Edges.{edge_of};

use crate::edge::Edge;
use crate::operators::assignment_operator;
use js_tokens::{Lexeme, Punctuator};

/// Whether it is a binary or logical operator.
fn is_binary_sign(punctuator: Punctuator) -> bool
    ensures { result ≡ is_one_of (text_of punctuator) (take 23 spec.operator_signs) }
{
    matches!(
        punctuator,
        Punctuator::Bar
            | Punctuator::Caret
            | Punctuator::Ampersand
            | Punctuator::Equal
            | Punctuator::Unequal
            | Punctuator::StrictEqual
            | Punctuator::StrictUnequal
            | Punctuator::Less
            | Punctuator::Greater
            | Punctuator::LessEqual
            | Punctuator::GreaterEqual
            | Punctuator::ShiftLeft
            | Punctuator::ShiftRight
            | Punctuator::ShiftRightUnsigned
            | Punctuator::Plus
            | Punctuator::Minus
            | Punctuator::Star
            | Punctuator::Slash
            | Punctuator::Percent
            | Punctuator::Power
            | Punctuator::And
            | Punctuator::Or
            | Punctuator::Coalesce
    )
}

/// Whether it is an assignment operator, `?` or `,`.
fn is_loose_sign(punctuator: Punctuator) -> bool
    ensures { result ≡ is_one_of (text_of punctuator) (drop 23 spec.operator_signs) }
{
    assignment_operator(punctuator).is_some()
        || matches!(punctuator, Punctuator::Question | Punctuator::Comma)
}

#[tactic(auto, using(crate::proofs::Signs::operator_signs_in_parts))]
fn is_operator_sign(punctuator: Punctuator) -> bool
    ensures { result ≡ is_one_of (text_of punctuator) spec.operator_signs }
{
    is_binary_sign(punctuator) || is_loose_sign(punctuator)
}

/// Whether it goes on with an expression, not with a call or a member.
fn is_operator(lexeme: &Lexeme<'_>) -> bool
    ensures { result ≡ spec.is_operator (lexeme_of lexeme.now) }
{
    match lexeme {
        Lexeme::IdentifierName(word) => *word == "in" || *word == "instanceof",
        Lexeme::Punctuator(punctuator) => is_operator_sign(*punctuator),
        _ => false,
    }
}

/// Whether it goes on as a call, a member or a template.
fn is_access(lexeme: &Lexeme<'_>) -> bool
    ensures { result ≡ spec.is_access (lexeme_of lexeme.now) }
{
    match lexeme {
        Lexeme::NoSubstitutionTemplate(_) | Lexeme::TemplateHead(_) => true,
        Lexeme::Punctuator(punctuator) => matches!(
            punctuator,
            Punctuator::OpenParenthesis
                | Punctuator::OpenBracket
                | Punctuator::Point
                | Punctuator::OptionalChaining
        ),
        _ => false,
    }
}

/// Whether a key of a property may begin with it.
pub fn begins_key(lexeme: &Lexeme<'_>) -> bool
    ensures { result ≡ spec.begins_key (lexeme_of lexeme.now) }
{
    match lexeme {
        Lexeme::NoSubstitutionTemplate(_) | Lexeme::TemplateHead(_) => false,
        Lexeme::Punctuator(punctuator) => matches!(punctuator, Punctuator::OpenBracket),
        _ => true,
    }
}

fn is_comma(lexeme: &Lexeme<'_>) -> bool
    ensures { result ≡ spec.is_sign_among (map codes ("," ∷ [])) (lexeme_of lexeme.now) }
{
    match lexeme {
        Lexeme::Punctuator(punctuator) => matches!(punctuator, Punctuator::Comma),
        _ => false,
    }
}

/// Whether it opens a generator method or a block.
fn is_star_or_brace(lexeme: &Lexeme<'_>) -> bool
    ensures { result ≡ spec.is_sign_among (map codes ("*" ∷ "{" ∷ [])) (lexeme_of lexeme.now) }
{
    match lexeme {
        Lexeme::Punctuator(punctuator) => {
            matches!(punctuator, Punctuator::Star | Punctuator::OpenBrace)
        }
        _ => false,
    }
}

fn is_from(lexeme: &Lexeme<'_>) -> bool
    ensures { result ≡ spec.is_from (lexeme_of lexeme.now) }
{
    match lexeme {
        Lexeme::IdentifierName(word) => *word == "from",
        _ => false,
    }
}

/// Whether the token goes on with what ends so, behind a line end.
pub fn goes_on_with(edge: Edge, lexeme: &Lexeme<'_>) -> bool
    ensures { result ≡ spec.goes_on_with (edge_of edge) (lexeme_of lexeme.now) }
{
    match edge {
        Edge::Full => is_operator(lexeme) || is_access(lexeme),
        Edge::Updated => is_operator(lexeme),
        Edge::Loose => is_comma(lexeme),
        Edge::Exports => is_from(lexeme),
        Edge::Accessor => begins_key(lexeme),
        Edge::Static => begins_key(lexeme) || is_star_or_brace(lexeme),
        Edge::Plain => false,
    }
}
