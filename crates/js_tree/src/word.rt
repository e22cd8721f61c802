ghost use Rattle.std.specs.Prelude.{◌≡◌, cond};
ghost use Rattle.js_tree.specs.declared.word.Word.TheVariants as word;
ghost use Rattle.js_tree.specs.Words.{is_set, word_text};

/// A word among the texts of a node: an operator, the sort of a declaration or a method, or a flag.
#[derive(Clone, Copy, Debug, PartialEq, Eq)]
pub enum Word {
    /// A flag that is not set.
    Unset,
    True,
    False,
    Var,
    Let,
    Const,
    Constructor,
    Method,
    Init,
    Get,
    Set,
    Async,
    Await,
    Computed,
    Static,
    Shorthand,
    Prefix,
    Optional,
    Assign,
    PlusAssign,
    MinusAssign,
    StarAssign,
    SlashAssign,
    PercentAssign,
    StarStarAssign,
    ShiftLeftAssign,
    ShiftRightAssign,
    ShiftRightZeroFillAssign,
    AmpersandAssign,
    CaretAssign,
    BarAssign,
    AndAssign,
    OrAssign,
    CoalesceAssign,
    Or,
    And,
    Coalesce,
    Equality,
    Inequality,
    StrictEquality,
    StrictInequality,
    Less,
    LessEqual,
    Greater,
    GreaterEqual,
    Plus,
    Minus,
    Star,
    Slash,
    Percent,
    StarStar,
    ShiftLeft,
    ShiftRight,
    ShiftRightZeroFill,
    Ampersand,
    Caret,
    Bar,
    In,
    Instanceof,
    Exclamation,
    Tilde,
    Typeof,
    Void,
    Delete,
    PlusPlus,
    MinusMinus,
}

impl Word {
    /// The word as it is written; nothing for a flag that is not set.
    pub fn as_str<'a>(self) -> &'a str
        ensures { result.now ≡ word_text self }
    {
        match self {
            Word::Unset => "",
            Word::True => "true",
            Word::False => "false",
            Word::Var => "var",
            Word::Let => "let",
            Word::Const => "const",
            Word::Constructor => "constructor",
            Word::Method => "method",
            Word::Init => "init",
            Word::Get => "get",
            Word::Set => "set",
            Word::Async => "async",
            Word::Await => "await",
            Word::Computed => "computed",
            Word::Static => "static",
            Word::Shorthand => "shorthand",
            Word::Prefix => "prefix",
            Word::Optional => "?.",
            Word::Assign => "=",
            Word::PlusAssign => "+=",
            Word::MinusAssign => "-=",
            Word::StarAssign => "*=",
            Word::SlashAssign => "/=",
            Word::PercentAssign => "%=",
            Word::StarStarAssign => "**=",
            Word::ShiftLeftAssign => "<<=",
            Word::ShiftRightAssign => ">>=",
            Word::ShiftRightZeroFillAssign => ">>>=",
            Word::AmpersandAssign => "&=",
            Word::CaretAssign => "^=",
            Word::BarAssign => "|=",
            Word::AndAssign => "&&=",
            Word::OrAssign => "||=",
            Word::CoalesceAssign => "??=",
            Word::Or => "||",
            Word::And => "&&",
            Word::Coalesce => "??",
            Word::Equality => "==",
            Word::Inequality => "!=",
            Word::StrictEquality => "===",
            Word::StrictInequality => "!==",
            Word::Less => "<",
            Word::LessEqual => "<=",
            Word::Greater => ">",
            Word::GreaterEqual => ">=",
            Word::Plus => "+",
            Word::Minus => "-",
            Word::Star => "*",
            Word::Slash => "/",
            Word::Percent => "%",
            Word::StarStar => "**",
            Word::ShiftLeft => "<<",
            Word::ShiftRight => ">>",
            Word::ShiftRightZeroFill => ">>>",
            Word::Ampersand => "&",
            Word::Caret => "^",
            Word::Bar => "|",
            Word::In => "in",
            Word::Instanceof => "instanceof",
            Word::Exclamation => "!",
            Word::Tilde => "~",
            Word::Typeof => "typeof",
            Word::Void => "void",
            Word::Delete => "delete",
            Word::PlusPlus => "++",
            Word::MinusMinus => "--",
        }
    }

    /// The word where it is set, as a flag.
    pub fn when(self, set: bool) -> Word
        ensures { result ≡ cond set self word.Unset }
    {
        if set { self } else { Word::Unset }
    }

    /// Whether the flag is set that this word stands for.
    pub fn is_set(self) -> bool
        ensures { result ≡ is_set self }
    {
        !matches!(self, Word::Unset)
    }
}
