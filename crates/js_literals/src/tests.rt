use crate::{
    plain_template_raw_value, regexp_flags, string_value, take_hashbang, template_raw_value,
};
use bitflags::Flags;
use js_chars::RegExpFlags;
use js_lexical::is_raw_string;
use std::process::Abort;

/// Strings as they are written, and their values by the standard.
const VALUES: &[(&str, &str)] = &[
    ("''", ""),
    ("'plain'", "plain"),
    ("\"it's\"", "it's"),
    // single escapes, and characters that escape themselves
    ("'\\b\\t\\n\\v\\f\\r'", "\u{8}\t\n\u{B}\u{C}\r"),
    ("'\\'\\\"\\\\'", "'\"\\"),
    ("'\\a\\é\\日'", "aé日"),
    ("'\\0'", "\0"),
    ("'\\0a'", "\0a"),
    // hexadecimal and Unicode escapes
    ("'\\x41\\xe9'", "Aé"),
    ("'\\u0041\\u65e5'", "A日"),
    ("'\\u{1F600}\\u{0}\\u{000041}'", "😀\0A"),
    ("'\\uD83D\\uDE00'", "😀"),
    // line ends behind a backslash add nothing; U+2028 and U+2029 may stand in a string
    ("'a\\\nb\\\rc\\\r\nd'", "abcd"),
    ("'a\\\u{2028}b\\\u{2029}c'", "abc"),
    ("'a\u{2028}b'", "a\u{2028}b"),
    ("'a\\\r\\nb'", "a\nb"),
];

#[test]
fn strings(rt: HostRuntime) {
    for (raw, value) in VALUES {
        assert!(rt; is_raw_string(raw), "{raw}");
        match string_value(rt.alloc(), raw) {
            Ok(text) => assert!(rt; text.as_str() == *value, "{raw}"),
            Err(_) => panic!(rt; "{raw}"),
        }
    }
}

#[test]
fn templates(rt: HostRuntime) {
    for (characters, value) in [
        ("", ""),
        ("a\nb", "a\nb"),
        ("a\r\nb\rc\r", "a\nb\nc\n"),
        ("\r\r\n\n", "\n\n\n"),
        ("é\u{2028}\r\u{2029}", "é\u{2028}\n\u{2029}"),
    ] {
        match template_raw_value(rt.alloc(), characters) {
            Ok(text) => assert!(rt; text.as_str() == value, "{characters}"),
            Err(_) => panic!(rt; "{characters}"),
        }
        let plain = plain_template_raw_value(characters);
        assert!(rt;
            plain.is_some() == !characters.contains('\r'),
            "{characters}"
        );
    }
}

#[test]
fn hashbangs(rt: HostRuntime) {
    for (text, line, rest) in [
        ("#!", "", ""),
        ("#!/usr/bin/env node\nx", "/usr/bin/env node", "\nx"),
        ("#! é\r\n#!", " é", "\r\n#!"),
        ("#!a\u{2028}b", "a", "\u{2028}b"),
    ] {
        match take_hashbang(text) {
            Some(hashbang) => assert!(rt; hashbang.text == line && hashbang.rest == rest, "{text}"),
            None => panic!(rt; "{text}"),
        }
    }
    for text in ["", "#", "# !", " #!", "\u{FEFF}#!", "a"] {
        assert!(rt; take_hashbang(text).is_none(), "{text}");
    }
}

#[test]
fn flags(rt: HostRuntime) {
    assert!(rt; regexp_flags("") == RegExpFlags::empty());
    assert!(rt; regexp_flags("gd") == RegExpFlags::D | RegExpFlags::G);
    assert!(rt; regexp_flags("ysvumigd") == RegExpFlags::all());
}
