use js_rules::Lexicon;

/// The lexical grammar of module code (ECMAScript 12), by `js_lexical`.
pub struct LexicalGrammar;

impl Lexicon for LexicalGrammar {
    fn is_name(text: &str) -> bool {
        js_lexical::is_name(text)
    }

    fn is_numeral(text: &str) -> bool {
        js_lexical::is_numeral(text)
    }

    fn is_big_integer(text: &str) -> bool {
        js_lexical::is_big_integer(text)
    }

    fn is_raw_string(text: &str) -> bool {
        js_lexical::is_raw_string(text)
    }

    fn is_template_text(text: &str) -> bool {
        js_lexical::is_template_text(text)
    }

    fn has_sound_escapes(text: &str) -> bool {
        js_lexical::has_sound_escapes(text)
    }

    fn is_regexp_body(text: &str) -> bool {
        js_lexical::is_regexp_body(text)
    }

    fn is_hashbang(text: &str) -> bool {
        js_lexical::is_hashbang(text)
    }
}
