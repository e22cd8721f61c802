//! Identifier names and reserved words.

ghost use Rattle.std.specs.Prelude.{◌≡◌};
ghost use Rattle.std.specs.List.{list_all};
ghost use Rattle.std.specs.Str.{chars};
ghost use Rattle.js_chars.specs.Names as spec;
ghost use Rattle.js_term.specs.Lexeme as lexeme;

/// Whether an identifier name may begin with the character.
pub fn is_identifier_start(c: char) -> bool
    ensures { result ≡ spec.is_identifier_start c }
{
    unicode_ident::is_xid_start(c) || c == '$' || c == '_'
}

/// Whether the character may stand in an identifier name behind its first one.
pub fn is_identifier_part(c: char) -> bool
    ensures { result ≡ spec.is_identifier_part c }
{
    unicode_ident::is_xid_continue(c) || matches!(c, '$' | '_' | '\u{200C}' | '\u{200D}')
}

fn are_parts(text: &str) -> bool
    ensures { result ≡ list_all spec.is_identifier_part (chars text.now) }
{
    text.chars().all(|c| is_identifier_part(c))
}

/// Whether the text is an identifier name, reserved or not. Names of any length are.
pub fn is_identifier_name(text: &str) -> bool
    ensures { result ≡ spec.is_identifier_name (chars text.now) }
{
    let mut rest = text.chars();
    match rest.next() {
        Some(first) => is_identifier_start(first) && are_parts(rest.as_str()),
        None => false,
    }
}

fn is_short_reserved(text: &str) -> bool
    ensures { result ≡ lexeme.is_one_of text.now (spec.reserved_within 2 4) }
{
    match text {
        "do" | "if" | "in" | "for" | "new" | "try" | "var" | "let" => true,
        "case" | "else" | "enum" | "null" | "this" | "true" | "void" | "with" => true,
        _ => false,
    }
}

fn is_reserved_of_five(text: &str) -> bool
    ensures { result ≡ lexeme.is_one_of text.now (spec.reserved_within 5 5) }
{
    match text {
        "break" | "catch" | "class" | "const" | "false" | "super" => true,
        "throw" | "while" | "yield" | "await" => true,
        _ => false,
    }
}

fn is_reserved_of_six(text: &str) -> bool
    ensures { result ≡ lexeme.is_one_of text.now (spec.reserved_within 6 6) }
{
    match text {
        "delete" | "export" | "import" | "return" | "switch" | "typeof" => true,
        "static" | "public" => true,
        _ => false,
    }
}

fn is_long_reserved(text: &str) -> bool
    ensures { result ≡ lexeme.is_one_of text.now (spec.reserved_within 7 10) }
{
    match text {
        "default" | "extends" | "finally" | "package" | "private" => true,
        "continue" | "debugger" | "function" | "interface" | "protected" => true,
        "instanceof" | "implements" => true,
        _ => false,
    }
}

/// Whether the word is reserved in module code. It is compared with words of about its length alone.
#[tactic(auto, using(crate::proofs::Reserved::within, crate::proofs::Reserved::shorter, crate::proofs::Reserved::longer))]
pub fn is_reserved(text: &str) -> bool
    ensures { result ≡ lexeme.is_reserved text.now }
{
    let length = text.len();
    if length < 2 || length > 10 {
        return false;
    }
    if length < 5 {
        return is_short_reserved(text);
    }
    if length == 5 {
        return is_reserved_of_five(text);
    }
    if length == 6 {
        return is_reserved_of_six(text);
    }
    is_long_reserved(text)
}
