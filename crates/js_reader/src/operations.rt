//! What binary and logical operators make of the expression in front of them.

ghost use Rattle.std.specs.Prelude.{◌≡◌, ◌≤◌, Some};
ghost use Rattle.js_tree.specs.Words.{word_text};
ghost use Rattle.js_tokens.specs.PunctuatorTexts.{text_of};
ghost use Rattle.js_reader.specs.Operations as spec;

use crate::levels::binary_level;
use crate::operators::{
    binary_operator, binary_word, logical_level, logical_operator, logical_right,
};
use js_term::Kind;
use js_tokens::Punctuator;
use js_tree::Word;

/// A binary or logical expression but for its operands (ECMAScript 13.6 to 13.13).
#[derive(Clone, Copy)]
pub struct Operation {
    pub kind: Kind,
    pub operator: Word,
    /// The level of the right operand.
    pub right: u8,
    /// The level of the whole.
    pub level: u8,
}

fn binary(operator: Word, level: u8) -> Operation
    requires { level ≤ 14 }
    ensures { spec.operation_of (Some result) ≡ spec.binary_at (word_text operator) (Some level) }
{
    Operation {
        kind: Kind::BinaryExpression,
        operator,
        right: level + 1,
        level,
    }
}

/// The operation of a punctuator, if it is a binary or a logical operator.
pub fn sign_operation(punctuator: Punctuator) -> Option<Operation>
    ensures { spec.operation_of result ≡ spec.operation_at (text_of punctuator) }
{
    if matches!(punctuator, Punctuator::Power) {
        return Some(Operation {
            kind: Kind::BinaryExpression,
            operator: Word::StarStar,
            right: 15,
            level: 15,
        });
    }
    if let Some(operator) = logical_operator(punctuator) {
        return Some(Operation {
            kind: Kind::LogicalExpression,
            operator,
            right: logical_right(punctuator),
            level: logical_level(punctuator),
        });
    }
    let operator = binary_operator(punctuator)?;
    let level = binary_level(punctuator)?;
    Some(binary(operator, level))
}

/// The operation of a word, if it is `in` or `instanceof`.
pub fn word_operation(name: &str) -> Option<Operation>
    ensures { spec.operation_of result ≡ spec.word_operation_at name.now }
{
    let operator = binary_word(name)?;
    Some(binary(operator, 11))
}
