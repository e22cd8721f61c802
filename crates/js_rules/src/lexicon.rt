ghost use Rattle.std.specs.Prelude.{◌≡◌};
ghost use Rattle.js_syntax.specs.Lexical.{is_name, is_numeral, is_big_integer, is_raw_string, is_template_text, has_sound_escapes, is_regexp_body, is_hashbang};
ghost use Rattle.js_syntax.specs.Texts.{is_free_name};

use js_chars::is_reserved;

/// What a text is at its place in a module.
pub trait Lexicon {
    fn is_name(text: &str) -> bool
        ensures { result ≡ is_name text.now };

    fn is_numeral(text: &str) -> bool
        ensures { result ≡ is_numeral text.now };

    fn is_big_integer(text: &str) -> bool
        ensures { result ≡ is_big_integer text.now };

    fn is_raw_string(text: &str) -> bool
        ensures { result ≡ is_raw_string text.now };

    fn is_template_text(text: &str) -> bool
        ensures { result ≡ is_template_text text.now };

    fn has_sound_escapes(text: &str) -> bool
        ensures { result ≡ has_sound_escapes text.now };

    fn is_regexp_body(text: &str) -> bool
        ensures { result ≡ is_regexp_body text.now };

    fn is_hashbang(text: &str) -> bool
        ensures { result ≡ is_hashbang text.now };
}

/// Whether the text is a name that is not reserved.
pub fn is_free_name<L: Lexicon>(text: &str) -> bool
    ensures { result ≡ is_free_name text.now }
{
    L::is_name(text) && !is_reserved(text)
}
