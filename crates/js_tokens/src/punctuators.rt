//! The signs of a module.

ghost use Rattle.std.specs.Prelude.{◌≡◌, ◌∷◌, ℕ, length};
ghost use Rattle.js_term.specs.Lexeme as lexeme;
ghost use Rattle.js_syntax.specs.Lexical as lexical;
ghost use Rattle.js_tokens.specs.Punctuators as spec;
ghost use Rattle.js_tokens.specs.PunctuatorTexts.{text_of, text_in};

/// A punctuator.
#[derive(Clone, Copy, PartialEq, Eq)]
pub enum Punctuator {
    /// `{`
    OpenBrace,
    /// `}`
    CloseBrace,
    /// `(`
    OpenParenthesis,
    /// `)`
    CloseParenthesis,
    /// `[`
    OpenBracket,
    /// `]`
    CloseBracket,
    /// `.`
    Point,
    /// `...`
    Ellipsis,
    /// `;`
    Semicolon,
    /// `,`
    Comma,
    /// `<`
    Less,
    /// `>`
    Greater,
    /// `<=`
    LessEqual,
    /// `>=`
    GreaterEqual,
    /// `==`
    Equal,
    /// `!=`
    Unequal,
    /// `===`
    StrictEqual,
    /// `!==`
    StrictUnequal,
    /// `+`
    Plus,
    /// `-`
    Minus,
    /// `*`
    Star,
    /// `/`
    Slash,
    /// `%`
    Percent,
    /// `**`
    Power,
    /// `++`
    Increment,
    /// `--`
    Decrement,
    /// `<<`
    ShiftLeft,
    /// `>>`
    ShiftRight,
    /// `>>>`
    ShiftRightUnsigned,
    /// `&`
    Ampersand,
    /// `|`
    Bar,
    /// `^`
    Caret,
    /// `!`
    Exclamation,
    /// `~`
    Tilde,
    /// `&&`
    And,
    /// `||`
    Or,
    /// `??`
    Coalesce,
    /// `?`
    Question,
    /// `?.`
    OptionalChaining,
    /// `:`
    Colon,
    /// `=`
    Assign,
    /// `+=`
    PlusAssign,
    /// `-=`
    MinusAssign,
    /// `*=`
    StarAssign,
    /// `/=`
    SlashAssign,
    /// `%=`
    PercentAssign,
    /// `**=`
    PowerAssign,
    /// `<<=`
    ShiftLeftAssign,
    /// `>>=`
    ShiftRightAssign,
    /// `>>>=`
    ShiftRightUnsignedAssign,
    /// `&=`
    AmpersandAssign,
    /// `|=`
    BarAssign,
    /// `^=`
    CaretAssign,
    /// `&&=`
    AndAssign,
    /// `||=`
    OrAssign,
    /// `??=`
    CoalesceAssign,
    /// `=>`
    Arrow,
}

impl Punctuator {
    /// How many bytes it has.
    pub fn length(self) -> usize
        ensures { result ≡ length (text_of self) }
    {
        match self {
            Punctuator::LessEqual
            | Punctuator::GreaterEqual
            | Punctuator::Equal
            | Punctuator::Unequal
            | Punctuator::Power
            | Punctuator::Increment
            | Punctuator::Decrement
            | Punctuator::ShiftLeft
            | Punctuator::ShiftRight
            | Punctuator::And
            | Punctuator::Or
            | Punctuator::Coalesce
            | Punctuator::OptionalChaining
            | Punctuator::PlusAssign
            | Punctuator::MinusAssign
            | Punctuator::StarAssign
            | Punctuator::SlashAssign
            | Punctuator::PercentAssign
            | Punctuator::AmpersandAssign
            | Punctuator::BarAssign
            | Punctuator::CaretAssign
            | Punctuator::Arrow => 2,
            Punctuator::Ellipsis
            | Punctuator::StrictEqual
            | Punctuator::StrictUnequal
            | Punctuator::ShiftRightUnsigned
            | Punctuator::PowerAssign
            | Punctuator::ShiftLeftAssign
            | Punctuator::ShiftRightAssign
            | Punctuator::AndAssign
            | Punctuator::OrAssign
            | Punctuator::CoalesceAssign => 3,
            Punctuator::ShiftRightUnsignedAssign => 4,
            _ => 1,
        }
    }
}

fn begins_digit(bytes: &[u8]) -> bool
    ensures { result ≡ lexical.first_passes lexeme.is_digit bytes.now }
{
    match bytes {
        [byte, ..] => b'0' <= *byte && *byte <= b'9',
        [] => false,
    }
}

fn less(bytes: &[u8]) -> Punctuator
    ensures { text_of result ≡ 60 ∷ spec.behind_less bytes.now }
{
    match bytes {
        [b'<', b'=', ..] => Punctuator::ShiftLeftAssign,
        [b'<', ..] => Punctuator::ShiftLeft,
        [b'=', ..] => Punctuator::LessEqual,
        _ => Punctuator::Less,
    }
}

fn greater(bytes: &[u8]) -> Punctuator
    ensures { text_of result ≡ 62 ∷ spec.behind_greater bytes.now }
{
    match bytes {
        [b'>', b'>', b'=', ..] => Punctuator::ShiftRightUnsignedAssign,
        [b'>', b'>', ..] => Punctuator::ShiftRightUnsigned,
        [b'>', b'=', ..] => Punctuator::ShiftRightAssign,
        [b'>', ..] => Punctuator::ShiftRight,
        [b'=', ..] => Punctuator::GreaterEqual,
        _ => Punctuator::Greater,
    }
}

fn equals(bytes: &[u8]) -> Punctuator
    ensures { text_of result ≡ 61 ∷ spec.behind_equals bytes.now }
{
    match bytes {
        [b'=', b'=', ..] => Punctuator::StrictEqual,
        [b'=', ..] => Punctuator::Equal,
        [b'>', ..] => Punctuator::Arrow,
        _ => Punctuator::Assign,
    }
}

fn exclamation(bytes: &[u8]) -> Punctuator
    ensures { text_of result ≡ 33 ∷ spec.behind_exclamation bytes.now }
{
    match bytes {
        [b'=', b'=', ..] => Punctuator::StrictUnequal,
        [b'=', ..] => Punctuator::Unequal,
        _ => Punctuator::Exclamation,
    }
}

fn plus(bytes: &[u8]) -> Punctuator
    ensures { text_of result ≡ 43 ∷ spec.behind_twice 43 bytes.now }
{
    match bytes {
        [b'+', ..] => Punctuator::Increment,
        [b'=', ..] => Punctuator::PlusAssign,
        _ => Punctuator::Plus,
    }
}

fn minus(bytes: &[u8]) -> Punctuator
    ensures { text_of result ≡ 45 ∷ spec.behind_twice 45 bytes.now }
{
    match bytes {
        [b'-', ..] => Punctuator::Decrement,
        [b'=', ..] => Punctuator::MinusAssign,
        _ => Punctuator::Minus,
    }
}

fn ampersand(bytes: &[u8]) -> Punctuator
    ensures { text_of result ≡ 38 ∷ spec.behind_thrice 38 bytes.now }
{
    match bytes {
        [b'&', b'=', ..] => Punctuator::AndAssign,
        [b'&', ..] => Punctuator::And,
        [b'=', ..] => Punctuator::AmpersandAssign,
        _ => Punctuator::Ampersand,
    }
}

fn bar(bytes: &[u8]) -> Punctuator
    ensures { text_of result ≡ 124 ∷ spec.behind_thrice 124 bytes.now }
{
    match bytes {
        [b'|', b'=', ..] => Punctuator::OrAssign,
        [b'|', ..] => Punctuator::Or,
        [b'=', ..] => Punctuator::BarAssign,
        _ => Punctuator::Bar,
    }
}

fn star(bytes: &[u8]) -> Punctuator
    ensures { text_of result ≡ 42 ∷ spec.behind_thrice 42 bytes.now }
{
    match bytes {
        [b'*', b'=', ..] => Punctuator::PowerAssign,
        [b'*', ..] => Punctuator::Power,
        [b'=', ..] => Punctuator::StarAssign,
        _ => Punctuator::Star,
    }
}

fn slash(bytes: &[u8]) -> Punctuator
    ensures { text_of result ≡ 47 ∷ spec.behind_once bytes.now }
{
    match bytes {
        [b'=', ..] => Punctuator::SlashAssign,
        _ => Punctuator::Slash,
    }
}

fn percent(bytes: &[u8]) -> Punctuator
    ensures { text_of result ≡ 37 ∷ spec.behind_once bytes.now }
{
    match bytes {
        [b'=', ..] => Punctuator::PercentAssign,
        _ => Punctuator::Percent,
    }
}

fn caret(bytes: &[u8]) -> Punctuator
    ensures { text_of result ≡ 94 ∷ spec.behind_once bytes.now }
{
    match bytes {
        [b'=', ..] => Punctuator::CaretAssign,
        _ => Punctuator::Caret,
    }
}

fn question(bytes: &[u8]) -> Punctuator
    ensures { text_of result ≡ 63 ∷ spec.behind_question bytes.now }
{
    match bytes {
        [b'?', b'=', ..] => Punctuator::CoalesceAssign,
        [b'?', ..] => Punctuator::Coalesce,
        [b'.', rest @ ..] if !begins_digit(rest) => Punctuator::OptionalChaining,
        _ => Punctuator::Question,
    }
}

fn point(bytes: &[u8]) -> Option<Punctuator>
    ensures { text_in result ≡ spec.pointed (spec.behind_point bytes.now) }
{
    match bytes {
        [b'.', b'.', ..] => Some(Punctuator::Ellipsis),
        _ if begins_digit(bytes) => None,
        _ => Some(Punctuator::Point),
    }
}

/// The sign at the front, the longest one.
pub(crate) fn punctuator_at(bytes: &[u8]) -> Option<Punctuator>
    ensures { text_in result ≡ spec.punctuator_at bytes.now }
{
    let [byte, rest @ ..] = bytes else {
        return None;
    };
    let sign = match *byte {
        b'{' => Punctuator::OpenBrace,
        b'}' => Punctuator::CloseBrace,
        b'(' => Punctuator::OpenParenthesis,
        b')' => Punctuator::CloseParenthesis,
        b'[' => Punctuator::OpenBracket,
        b']' => Punctuator::CloseBracket,
        b';' => Punctuator::Semicolon,
        b',' => Punctuator::Comma,
        b'~' => Punctuator::Tilde,
        b':' => Punctuator::Colon,
        b'.' => return point(rest),
        b'=' => equals(rest),
        b'!' => exclamation(rest),
        b'+' => plus(rest),
        b'-' => minus(rest),
        b'&' => ampersand(rest),
        b'|' => bar(rest),
        b'*' => star(rest),
        b'/' => slash(rest),
        b'%' => percent(rest),
        b'^' => caret(rest),
        b'<' => less(rest),
        b'>' => greater(rest),
        b'?' => question(rest),
        _ => return None,
    };
    Some(sign)
}
