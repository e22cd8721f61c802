use crate::{Forms, read_pattern};
use bitflags::Flags;
use js_chars::RegExpFlags;
use std::alloc::AllocError;
use std::process::Abort;

const NO_FORMS: Forms = Forms {
    look_behind: false,
    named_groups: false,
    property_escapes: false,
};

const LOOK_BEHIND: Forms = Forms {
    look_behind: true,
    ..NO_FORMS
};

const NAMED_GROUPS: Forms = Forms {
    named_groups: true,
    ..NO_FORMS
};

const PROPERTY_ESCAPES: Forms = Forms {
    property_escapes: true,
    ..NO_FORMS
};

fn forms(pattern: &str, flags: RegExpFlags) -> Option<Forms> {
    read_pattern(pattern, flags).ok()
}

#[test]
fn forms_that_occur(rt: HostRuntime) {
    let plain = RegExpFlags::empty();
    assert_eq!(rt; forms("(?<n>a)", plain), Some(NAMED_GROUPS));
    assert_eq!(rt; forms("(?<𝒳1>a)", plain), Some(NAMED_GROUPS));
    assert_eq!(rt; forms("(?<=a)b", plain), Some(LOOK_BEHIND));
    assert_eq!(rt; forms("[\\P{L}]", RegExpFlags::V), Some(PROPERTY_ESCAPES));
    assert_eq!(rt; forms("\\p{L}", RegExpFlags::U), Some(PROPERTY_ESCAPES));
    assert_eq!(rt; forms("\\p{L}", plain), Some(NO_FORMS));
}

#[test]
fn patterns_without_a_form(rt: HostRuntime) {
    for pattern in [
        "",
        "\\(",
        "[(]",
        "[\\]]",
        "[[]",
        "(?i-s:a)",
        "(?-:a)",
        "(?:a)|(?=b)(?!c)",
        "\\p",
        "]{",
    ] {
        assert_eq!(rt;
            forms(pattern, RegExpFlags::empty()),
            Some(NO_FORMS),
            "{pattern}"
        );
    }
}

#[test]
fn faults(rt: HostRuntime) {
    for pattern in [
        "(?z)",
        "[a",
        "(a",
        "a)",
        "\\",
        "[\\]",
        "(?<1>a)",
        "(?<a",
        "(?i",
        "(?i-i-:a)",
        "(?",
        "(?<>a)",
    ] {
        assert_eq!(rt; forms(pattern, RegExpFlags::empty()), None, "{pattern}");
    }
    for pattern in ["\\p", "\\p{}", "\\p{L", "[\\p{L]"] {
        assert_eq!(rt; forms(pattern, RegExpFlags::U), None, "{pattern}");
    }
}

#[test]
fn classes_nest_with_v(rt: HostRuntime) {
    assert_eq!(rt; forms("[[a]b]", RegExpFlags::V), Some(NO_FORMS));
    assert_eq!(rt; forms("[[a]b)]", RegExpFlags::V), Some(NO_FORMS));
    assert_eq!(rt; forms("[[a]b)]", RegExpFlags::U), None);
    assert_eq!(rt; forms("[[a]", RegExpFlags::V), None);
    assert_eq!(rt; forms("[[a]", RegExpFlags::U), Some(NO_FORMS));
}

#[test]
fn deep_groups(rt: HostRuntime) -> Result<(), AllocError> {
    let alloc = rt.alloc();
    let mut text = String::new(alloc);
    for _ in 0..100000 {
        text.push_str("(?:")?;
    }
    assert_eq!(rt; forms(text.as_str(), RegExpFlags::empty()), None);
    for _ in 0..100000 {
        text.push(')')?;
    }
    assert_eq!(rt; forms(text.as_str(), RegExpFlags::empty()), Some(NO_FORMS));
    Ok(())
}
