//! Words among the texts of a node: operators and flags.

ghost use Rattle.std.specs.Prelude.{◌≡◌, ◌∷◌, [], map, codes};
ghost use Rattle.js_syntax.specs.Texts.{flag, word, assignment_operators, logical_operators, binary_operators, unary_operators, update_operators};

/// Whether it is a flag: its word where it is set, or nothing.
pub fn is_flag(text: &str, set: &str) -> bool
    ensures { result ≡ flag set.now text.now }
{
    text.is_empty() || text == set
}

pub fn is_boolean(text: &str) -> bool
    ensures { result ≡ word (map codes ("true" ∷ "false" ∷ [])) text.now }
{
    matches!(text, "true" | "false")
}

pub fn is_declaration_word(text: &str) -> bool
    ensures { result ≡ word (map codes ("var" ∷ "let" ∷ "const" ∷ [])) text.now }
{
    matches!(text, "var" | "let" | "const")
}

pub fn is_method_word(text: &str) -> bool
    ensures { result ≡ word (map codes ("constructor" ∷ "method" ∷ "get" ∷ "set" ∷ [])) text.now }
{
    matches!(text, "constructor" | "method" | "get" | "set")
}

pub fn is_property_word(text: &str) -> bool
    ensures { result ≡ word (map codes ("init" ∷ "get" ∷ "set" ∷ [])) text.now }
{
    matches!(text, "init" | "get" | "set")
}

pub fn is_assignment_operator(text: &str) -> bool
    ensures { result ≡ word assignment_operators text.now }
{
    match text {
        "=" | "+=" | "-=" | "*=" | "/=" | "%=" | "**=" => true,
        "<<=" | ">>=" | ">>>=" | "&=" | "^=" | "|=" => true,
        "&&=" | "||=" | "??=" => true,
        _ => false,
    }
}

pub fn is_logical_operator(text: &str) -> bool
    ensures { result ≡ word logical_operators text.now }
{
    matches!(text, "??" | "||" | "&&")
}

pub fn is_binary_operator(text: &str) -> bool
    ensures { result ≡ word binary_operators text.now }
{
    match text {
        "|" | "^" | "&" | "==" | "!=" | "===" | "!==" => true,
        "<" | ">" | "<=" | ">=" | "instanceof" | "in" => true,
        "<<" | ">>" | ">>>" | "+" | "-" | "*" | "/" | "%" | "**" => true,
        _ => false,
    }
}

pub fn is_unary_operator(text: &str) -> bool
    ensures { result ≡ word unary_operators text.now }
{
    matches!(text, "delete" | "void" | "typeof" | "+" | "-" | "~" | "!")
}

pub fn is_update_operator(text: &str) -> bool
    ensures { result ≡ word update_operators text.now }
{
    matches!(text, "++" | "--")
}
