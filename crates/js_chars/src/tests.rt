use crate::{
    RegExpFlags, is_identifier_name, is_identifier_part, is_identifier_start, is_reserved,
};
use bitflags::Flags;
use std::process::Abort;

#[test]
fn identifier_names(rt: HostRuntime) {
    for name in ["a", "$", "_1", "déjà", "日本", "𝒳1", "a\u{200D}b", "if"] {
        assert!(rt; is_identifier_name(name), "{name}");
    }
    for text in ["", "1a", "\u{200C}a", "a b", "a-b", "a\u{2028}"] {
        assert!(rt; !is_identifier_name(text), "{text}");
    }
}

#[test]
fn joiners_stand_behind_the_first_character(rt: HostRuntime) {
    assert!(rt; !is_identifier_start('\u{200C}'));
    assert!(rt; is_identifier_part('\u{200C}'));
}

#[test]
fn reserved_words(rt: HostRuntime) {
    assert!(rt; is_reserved("await"));
    assert!(rt; !is_reserved("async"));
}

#[test]
fn flags_by_name(rt: HostRuntime) {
    let names = ["D", "G", "I", "M", "S", "U", "V", "Y"];
    for (at, name) in names.iter().enumerate() {
        let found = RegExpFlags::from_name(name).map(|flag| flag.bits());
        assert_eq!(rt; found, Some(1 << at), "{name}");
    }
}
