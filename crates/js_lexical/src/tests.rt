use crate::{
    has_sound_escapes, is_big_integer, is_hashbang, is_name, is_numeral, is_raw_string,
    is_regexp_body, is_template_text,
};
use std::process::Abort;

#[test]
fn names(rt: HostRuntime) {
    for text in ["a", "$", "_1", "déjà", "日本", "if", "a\u{200D}b"] {
        assert!(rt; is_name(text), "{text}");
    }
    for text in ["", "1a", "a b", "a-b", "\u{200C}a", "é!"] {
        assert!(rt; !is_name(text), "{text}");
    }
}

#[test]
fn numerals(rt: HostRuntime) {
    for text in [
        "0", "10", "1_000", "5.", ".5", "0.0_1", "1e10", "1E-5", "0xFF", "0B1_0",
    ] {
        assert!(rt; is_numeral(text), "{text}");
    }
    for text in [
        "", ".", "01", "1_", "1__0", "0_1", "1._5", "1e", "0x", "0b2", "1n",
    ] {
        assert!(rt; !is_numeral(text), "{text}");
    }
}

#[test]
fn bigints(rt: HostRuntime) {
    for text in ["0n", "123n", "1_0n", "0xFFn"] {
        assert!(rt; is_big_integer(text), "{text}");
    }
    for text in ["", "n", "0", "01n", "1.5n", "1e3n", "0xn"] {
        assert!(rt; !is_big_integer(text), "{text}");
    }
}

#[test]
fn strings(rt: HostRuntime) {
    for text in [
        "''",
        "\"it's\"",
        "'\\''",
        "'\\x41\\0'",
        "'\\u{1F600}'",
        "'\\uD83D\\uDE00'",
        "'a\\\r\nb'",
        "'\u{2028}'",
        "'\\\u{2028}'",
    ] {
        assert!(rt; is_raw_string(text), "{text}");
    }
    for text in [
        "",
        "'",
        "'a",
        "'a\"",
        "'\\'",
        "'a'b'",
        "'a\nb'",
        "'\\01'",
        "'\\8'",
        "'\\x4'",
        "'\\u{}'",
        "'\\u{110000}'",
        "'\\u{D83D}'",
        "'\\uD83D'",
        "'\\uDE00'",
    ] {
        assert!(rt; !is_raw_string(text), "{text}");
    }
}

#[test]
fn templates(rt: HostRuntime) {
    for text in ["", "a\nb", "$", "{$}", "\\`", "\\${", "$\\{", "\\u"] {
        assert!(rt; is_template_text(text), "{text}");
    }
    for text in ["`", "${", "$${", "a\rb", "\\", "\\\\`"] {
        assert!(rt; !is_template_text(text), "{text}");
    }
}

#[test]
fn escapes(rt: HostRuntime) {
    for text in [
        "",
        "\\0",
        "\\x41",
        "\\u0041",
        "\\uD83D",
        "\\u{10FFFF}",
        "\\u{00000000041}",
        "\\a",
    ] {
        assert!(rt; has_sound_escapes(text), "{text}");
    }
    for text in [
        "\\1",
        "\\00",
        "\\x4",
        "\\u",
        "\\u004",
        "\\u{}",
        "\\u{110000}",
        "\\u{FFFFFFFFFFFF}",
    ] {
        assert!(rt; !has_sound_escapes(text), "{text}");
    }
}

#[test]
fn regular_expressions(rt: HostRuntime) {
    for text in ["a*", "\\/", "[/]", "[\\]/]", "]", "[[]", "\\["] {
        assert!(rt; is_regexp_body(text), "{text}");
    }
    for text in [
        "",
        "*",
        "/",
        "[",
        "[]/",
        "\\",
        "a\nb",
        "[\u{2028}]",
        "\\\u{2029}",
    ] {
        assert!(rt; !is_regexp_body(text), "{text}");
    }
}

#[test]
fn hashbangs(rt: HostRuntime) {
    assert!(rt; is_hashbang("/usr/bin/env node"));
    assert!(rt; !is_hashbang("node\n"));
    assert!(rt; !is_hashbang("node\u{2028}"));
}
