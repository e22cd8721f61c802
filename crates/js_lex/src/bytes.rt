//! Classes of bytes, and the runs of them at the front of a text.

ghost use Rattle.std.specs.Prelude.{◌≡◌, ◌+◌, ◌≤◌, length};
ghost use Rattle.std.specs.List.{prefix_len};
ghost use Rattle.js_term.specs.Lexeme as spec;
ghost use Rattle.js_lex.specs.Classes.{passes, quote_byte};
ghost use Rattle.js_lex.specs.Next.{run, behind};

pub(crate) fn is_line_end(byte: u8) -> bool
    ensures { result ≡ spec.is_line_end byte }
{
    byte == b'\n' || byte == b'\r'
}

pub(crate) fn is_blank(byte: u8) -> bool
    ensures { result ≡ spec.is_blank byte }
{
    byte == b' ' || byte == b'\t' || is_line_end(byte)
}

pub(crate) fn is_digit(byte: u8) -> bool
    ensures { result ≡ spec.is_digit byte }
{
    b'0' <= byte && byte <= b'9'
}

/// Whether a name may begin so.
pub(crate) fn is_start(byte: u8) -> bool
    ensures { result ≡ spec.is_start byte }
{
    (b'a' <= byte && byte <= b'z') || (b'A' <= byte && byte <= b'Z') || byte == b'$' || byte == b'_'
}

/// Whether a name may go on so.
pub(crate) fn is_part(byte: u8) -> bool
    ensures { result ≡ spec.is_part byte }
{
    is_start(byte) || is_digit(byte)
}

/// Whether a word would go on so: also by a character beyond ASCII, which no name has here.
pub(crate) fn goes_on(byte: u8) -> bool
    ensures { result ≡ spec.goes_on byte }
{
    is_part(byte) || 127 < byte
}

pub(crate) fn goes_on_number(byte: u8) -> bool
    ensures { result ≡ spec.goes_on_number byte }
{
    goes_on(byte) || byte == b'.'
}

/// Whether a string in these quotes has the byte as it is.
pub(crate) fn is_plain(quote: u8, byte: u8) -> bool
    ensures { result ≡ spec.is_plain quote byte }
{
    byte != quote && byte != b'\\' && !is_line_end(byte)
}

pub(crate) fn is_sign(byte: u8) -> bool
    ensures { result ≡ spec.is_sign byte }
{
    match byte {
        b'{' | b'}' | b'(' | b')' | b'[' | b']' => true,
        b',' | b';' | b'.' | b':' | b'=' => true,
        _ => false,
    }
}

/// The quotes round a string.
#[derive(Clone, Copy)]
pub(crate) enum Quote {
    Single,
    Double,
}

impl Quote {
    pub(crate) fn byte(self) -> u8
        ensures { result ≡ quote_byte self }
    {
        match self {
            Quote::Single => b'\'',
            Quote::Double => b'"',
        }
    }
}

/// A set of bytes, to find a run of them.
#[derive(Clone, Copy)]
pub(crate) enum Class {
    Blank,
    Part,
    Digit,
    /// What a string in these quotes has as it is.
    Plain(Quote),
}

fn is_in(class: Class, byte: u8) -> bool
    ensures { result ≡ passes class byte }
{
    match class {
        Class::Blank => is_blank(byte),
        Class::Part => is_part(byte),
        Class::Digit => is_digit(byte),
        Class::Plain(quote) => is_plain(quote.byte(), byte),
    }
}

fn run_length(bytes: &[u8], class: Class) -> usize
    ensures { result ≡ prefix_len (passes class) bytes.now }
{
    bytes.iter().take_while(|b| is_in(class, **b)).count()
}

/// The bytes of the class at the front, and what is behind them.
pub(crate) fn split_run(text: &str, class: Class) -> (&str, &str)
    ensures run { result.0.now ≡ run (passes class) text.now }
    ensures behind { result.1.now ≡ behind (passes class) text.now }
{
    text.split_at(run_length(text.as_bytes(), class))
}
