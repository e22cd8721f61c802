//! How tightly a token takes the expression in front of it (ECMAScript 13.3 to 13.15).

ghost use Rattle.std.specs.Prelude.{◌≡◌, ◌≤◌, IfSome, Some, drop};
ghost use Rattle.js_term.specs.Lexeme.{is_one_of};
ghost use Rattle.js_syntax.specs.Edges as edges;
ghost use Rattle.js_syntax.specs.Texts as texts;
ghost use Rattle.js_reading.specs.Operators as spec;
ghost use Rattle.js_reading.specs.Reading as reading;
ghost use Rattle.js_tokens.specs.Lexemes.{lexeme_of};
ghost use Rattle.js_tokens.specs.Next.{lexeme};
ghost use Rattle.js_tokens.specs.PunctuatorTexts.{text_of};

use crate::operators::{assignment_operator, update_operator};
use crate::semicolons::same_line;
use js_tokens::{Lexeme, Punctuator, Tokens};

/// The level of a shift, a sum or a product.
fn arithmetic_level(punctuator: Punctuator) -> Option<u8>
    ensures is { result ≡ edges.level_among (text_of punctuator) (drop 5 edges.operator_levels) }
    ensures small { IfSome result (λ level. level ≤ 14) }
{
    match punctuator {
        Punctuator::ShiftLeft | Punctuator::ShiftRight | Punctuator::ShiftRightUnsigned => Some(12),
        Punctuator::Plus | Punctuator::Minus => Some(13),
        Punctuator::Star | Punctuator::Slash | Punctuator::Percent => Some(14),
        _ => None,
    }
}

/// The level of a comparison.
fn comparison_level(punctuator: Punctuator) -> Option<u8>
    ensures is { result ≡ edges.level_among (text_of punctuator) (drop 3 edges.operator_levels) }
    ensures small { IfSome result (λ level. level ≤ 14) }
{
    match punctuator {
        Punctuator::Equal
        | Punctuator::Unequal
        | Punctuator::StrictEqual
        | Punctuator::StrictUnequal => Some(10),
        Punctuator::Less | Punctuator::Greater | Punctuator::LessEqual | Punctuator::GreaterEqual =>
            Some(11),
        _ => arithmetic_level(punctuator),
    }
}

/// The level of a binary operator but `**`.
pub fn binary_level(punctuator: Punctuator) -> Option<u8>
    ensures is { result ≡ edges.binary_level (text_of punctuator) }
    ensures small { IfSome result (λ level. level ≤ 14) }
{
    match punctuator {
        Punctuator::Bar => Some(7),
        Punctuator::Caret => Some(8),
        Punctuator::Ampersand => Some(9),
        _ => comparison_level(punctuator),
    }
}

/// The level of an update, a chain, a call or a member.
fn access_binds(punctuator: Punctuator) -> u8
    ensures { result ≡ spec.or_zero (edges.level_among (text_of punctuator) (drop 6 spec.sign_levels)) }
{
    match punctuator {
        Punctuator::Increment | Punctuator::Decrement => 17,
        Punctuator::OptionalChaining => 18,
        Punctuator::OpenParenthesis | Punctuator::OpenBracket | Punctuator::Point => 19,
        _ => binary_level(punctuator).unwrap_or(0),
    }
}

/// The level of a conditional or a logical expression, or of a power.
fn logical_binds(punctuator: Punctuator) -> u8
    ensures { result ≡ spec.or_zero (edges.level_among (text_of punctuator) (drop 1 spec.sign_levels)) }
{
    match punctuator {
        Punctuator::Question => 3,
        Punctuator::Coalesce => 4,
        Punctuator::Or => 5,
        Punctuator::And => 6,
        Punctuator::Power => 15,
        _ => access_binds(punctuator),
    }
}

/// The level of what the punctuator makes of an expression in front of it; 0 where it makes nothing of it.
fn sign_binds(punctuator: Punctuator) -> u8
    ensures { result ≡ spec.sign_binds (text_of punctuator) }
{
    match assignment_operator(punctuator) {
        Some(_) => 2,
        None => logical_binds(punctuator),
    }
}

fn word_binds(with_in: bool, name: &str) -> u8
    ensures { result ≡ spec.word_binds with_in name.now }
{
    match name {
        "in" => { if with_in { 11 } else { 0 } }
        "instanceof" => 11,
        _ => 0,
    }
}

fn binds(with_in: bool, next: &Lexeme<'_>) -> u8
    ensures { result ≡ spec.binds with_in (Some (lexeme_of next.now)) }
{
    match next {
        Lexeme::IdentifierName(name) => word_binds(with_in, name),
        Lexeme::NoSubstitutionTemplate(_) | Lexeme::TemplateHead(_) => 19,
        Lexeme::Punctuator(punctuator) => sign_binds(*punctuator),
        _ => 0,
    }
}

/// The level of a member of what has this level.
pub fn member_level(level: u8) -> u8
    ensures { result ≡ edges.member_level level }
{
    if level == 19 { 19 } else { 20 }
}

/// The same as `binds`, where a member keeps the level of what it is a member of.
fn gives(with_in: bool, level: u8, next: &Lexeme<'_>) -> u8
    ensures { result ≡ spec.gives with_in level (Some (lexeme_of next.now)) }
{
    match next {
        Lexeme::NoSubstitutionTemplate(_) | Lexeme::TemplateHead(_) => member_level(level),
        Lexeme::Punctuator(Punctuator::OpenBracket | Punctuator::Point) => member_level(level),
        _ => binds(with_in, next),
    }
}

/// The level that the expression in front of it must have.
fn sign_needs(punctuator: Punctuator) -> u8
    ensures { result ≡ spec.sign_needs (text_of punctuator) }
{
    if assignment_operator(punctuator).is_some() {
        return 19;
    }
    match punctuator {
        Punctuator::Increment | Punctuator::Decrement | Punctuator::OptionalChaining => 19,
        Punctuator::Question | Punctuator::Coalesce => 4,
        Punctuator::Power => 17,
        _ => sign_binds(punctuator),
    }
}

fn needs(with_in: bool, next: &Lexeme<'_>) -> u8
    ensures { result ≡ spec.needs with_in (Some (lexeme_of next.now)) }
{
    match next {
        Lexeme::Punctuator(punctuator) => sign_needs(*punctuator),
        _ => binds(with_in, next),
    }
}

fn is_coalesce_left(level: u8) -> bool
    ensures { result ≡ edges.is_coalesce_left level }
{
    level == 4 || 7 <= level
}

/// Whether an update stands on the same line, and `??` behind no `&&` and no `||`.
fn suits(level: u8, next: &Lexeme<'_>, same_line: bool) -> bool
    ensures { result ≡ spec.suits level (Some (lexeme_of next.now)) same_line }
{
    match next {
        Lexeme::Punctuator(Punctuator::Increment | Punctuator::Decrement) => same_line,
        Lexeme::Punctuator(Punctuator::Coalesce) => is_coalesce_left(level),
        _ => true,
    }
}

/// Whether the token goes on with an expression of this level, in a place of level `least`; `with_in` says whether a bare
/// `in` may stand there.
fn goes_on_by(with_in: bool, least: u8, level: u8, next: &Lexeme<'_>, same_line: bool) -> bool
    ensures { result ≡ spec.goes_on_by with_in least level (Some (lexeme_of next.now)) same_line }
{
    2 <= binds(with_in, next)
        && least <= gives(with_in, level, next)
        && needs(with_in, next) <= level
        && suits(level, next, same_line)
}

/// The same of the next token.
pub fn goes_on(with_in: bool, least: u8, level: u8, tokens: &Tokens<'_>) -> bool
    ensures { result ≡ spec.goes_on_by with_in least level (lexeme tokens.now) (reading.same_line tokens.now) }
{
    match tokens.peek() {
        Some(next) => goes_on_by(with_in, least, level, &next, same_line(tokens)),
        None => false,
    }
}
