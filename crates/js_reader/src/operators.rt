//! The operators, as they are written and as they stand in a tree.

ghost use Rattle.std.specs.Prelude.{◌≡◌, ◌∷◌, [], IfSome, Some, codes, is_some, map};
ghost use Rattle.js_term.specs.Lexeme.{is_one_of};
ghost use Rattle.js_syntax.specs.Texts as texts;
ghost use Rattle.js_syntax.specs.Edges as edges;
ghost use Rattle.js_reading.specs.Expressions as spec;
ghost use Rattle.js_tokens.specs.PunctuatorTexts.{text_of};
ghost use Rattle.js_tree.specs.Words.{word_text};

use js_tokens::Punctuator;
use js_tree::Word;

/// The operator of an assignment (ECMAScript 13.15).
pub fn assignment_operator(punctuator: Punctuator) -> Option<Word>
    ensures word { IfSome result (λ word. word_text word ≡ text_of punctuator) }
    ensures some { is_some result ≡ is_one_of (text_of punctuator) texts.assignment_operators }
{
    let word = match punctuator {
        Punctuator::Assign => Word::Assign,
        Punctuator::PlusAssign => Word::PlusAssign,
        Punctuator::MinusAssign => Word::MinusAssign,
        Punctuator::StarAssign => Word::StarAssign,
        Punctuator::SlashAssign => Word::SlashAssign,
        Punctuator::PercentAssign => Word::PercentAssign,
        Punctuator::PowerAssign => Word::StarStarAssign,
        Punctuator::ShiftLeftAssign => Word::ShiftLeftAssign,
        Punctuator::ShiftRightAssign => Word::ShiftRightAssign,
        Punctuator::ShiftRightUnsignedAssign => Word::ShiftRightZeroFillAssign,
        Punctuator::AmpersandAssign => Word::AmpersandAssign,
        Punctuator::BarAssign => Word::BarAssign,
        Punctuator::CaretAssign => Word::CaretAssign,
        Punctuator::AndAssign => Word::AndAssign,
        Punctuator::OrAssign => Word::OrAssign,
        Punctuator::CoalesceAssign => Word::CoalesceAssign,
        _ => return None,
    };
    Some(word)
}

/// The operator of an update (13.4).
pub fn update_operator(punctuator: Punctuator) -> Option<Word>
    ensures word { IfSome result (λ word. word_text word ≡ text_of punctuator) }
    ensures some { is_some result ≡ edges.is_update (text_of punctuator) }
{
    match punctuator {
        Punctuator::Increment => Some(Word::PlusPlus),
        Punctuator::Decrement => Some(Word::MinusMinus),
        _ => None,
    }
}

/// The operator of a unary expression, where it is no word (13.5).
pub fn unary_operator(punctuator: Punctuator) -> Option<Word>
    ensures word { IfSome result (λ word. word_text word ≡ text_of punctuator) }
    ensures some { is_some result ≡ edges.is_unary (text_of punctuator) }
{
    match punctuator {
        Punctuator::Plus => Some(Word::Plus),
        Punctuator::Minus => Some(Word::Minus),
        Punctuator::Tilde => Some(Word::Tilde),
        Punctuator::Exclamation => Some(Word::Exclamation),
        _ => None,
    }
}

/// The same, where it is a word.
pub fn unary_word(name: &str) -> Option<Word>
    ensures word { IfSome result (λ word. word_text word ≡ name.now) }
    ensures some { is_some result ≡ spec.is_word_unary name.now }
{
    match name {
        "delete" => Some(Word::Delete),
        "void" => Some(Word::Void),
        "typeof" => Some(Word::Typeof),
        _ => None,
    }
}

/// The operator of a logical expression (13.13).
pub fn logical_operator(punctuator: Punctuator) -> Option<Word>
    ensures word { IfSome result (λ word. word_text word ≡ text_of punctuator) }
    ensures some { is_some result ≡ is_one_of (text_of punctuator) texts.logical_operators }
{
    match punctuator {
        Punctuator::Coalesce => Some(Word::Coalesce),
        Punctuator::Or => Some(Word::Or),
        Punctuator::And => Some(Word::And),
        _ => None,
    }
}

/// The operator of a binary expression but `**`, where it is no word (13.6 to 13.12).
pub fn binary_operator(punctuator: Punctuator) -> Option<Word>
    ensures word { IfSome result (λ word. word_text word ≡ text_of punctuator) }
    ensures some { is_some result ≡ is_some (edges.binary_level (text_of punctuator)) }
{
    let word = match punctuator {
        Punctuator::Bar => Word::Bar,
        Punctuator::Caret => Word::Caret,
        Punctuator::Ampersand => Word::Ampersand,
        Punctuator::Equal => Word::Equality,
        Punctuator::Unequal => Word::Inequality,
        Punctuator::StrictEqual => Word::StrictEquality,
        Punctuator::StrictUnequal => Word::StrictInequality,
        Punctuator::Less => Word::Less,
        Punctuator::Greater => Word::Greater,
        Punctuator::LessEqual => Word::LessEqual,
        Punctuator::GreaterEqual => Word::GreaterEqual,
        Punctuator::ShiftLeft => Word::ShiftLeft,
        Punctuator::ShiftRight => Word::ShiftRight,
        Punctuator::ShiftRightUnsigned => Word::ShiftRightZeroFill,
        Punctuator::Plus => Word::Plus,
        Punctuator::Minus => Word::Minus,
        Punctuator::Star => Word::Star,
        Punctuator::Slash => Word::Slash,
        Punctuator::Percent => Word::Percent,
        _ => return None,
    };
    Some(word)
}

/// The same, where it is a word; both bind at level 11.
pub fn binary_word(name: &str) -> Option<Word>
    ensures word { IfSome result (λ word. word_text word ≡ name.now) }
    ensures level { IfSome result (λ word. edges.binary_level name.now ≡ Some 11) }
    ensures some { is_some result ≡ is_one_of name.now (map codes ("in" ∷ "instanceof" ∷ [])) }
{
    match name {
        "in" => Some(Word::In),
        "instanceof" => Some(Word::Instanceof),
        _ => None,
    }
}

/// The level of a logical expression with this operator, of `&&` where it is no other (13.13).
pub fn logical_level(operator: Punctuator) -> u8
    ensures { result ≡ spec.logical_level (text_of operator) }
{
    match operator {
        Punctuator::Coalesce => 4,
        Punctuator::Or => 5,
        _ => 6,
    }
}

/// The level of its right operand.
pub fn logical_right(operator: Punctuator) -> u8
    ensures { result ≡ spec.logical_right (text_of operator) }
{
    match operator {
        Punctuator::Or => 6,
        _ => 7,
    }
}
