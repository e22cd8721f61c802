use crate::Tokens;
use std::process::Abort;

/// Whether the text's tokens begin and end so, and nothing is left behind them.
fn has_spans(text: &str, spans: &[(u32, u32)]) -> bool {
    if text.len() > 1000 {
        return false;
    }
    let mut tokens = Tokens::new(text);
    for (start, end) in spans {
        match tokens.span() {
            Some(span) if span.start == *start && span.end == *end => {}
            _ => return false,
        }
        if tokens.start() != *start {
            return false;
        }
        tokens.advance();
        if tokens.end() != *end {
            return false;
        }
    }
    tokens.at_end() && tokens.span().is_none()
}

#[test]
fn spans(rt: HostRuntime) {
    assert!(rt; has_spans("", &[]));
    assert!(rt; has_spans(" // a", &[]));
    assert!(rt; has_spans("a", &[(0, 1)]));
    assert!(rt; has_spans("a + b", &[(0, 1), (2, 3), (4, 5)]));
    assert!(rt; has_spans("/* é */x", &[(8, 9)]));
    assert!(rt; has_spans("déjà\u{A0}vu", &[(0, 6), (8, 10)]));
    assert!(rt; has_spans("#x in y;", &[(0, 2), (3, 5), (6, 7), (7, 8)]));
    assert!(rt; has_spans("a>>>=1.5e3", &[(0, 1), (1, 5), (5, 10)]));
    assert!(rt;
        has_spans(
            "a?.b?.5:c",
            &[(0, 1), (1, 3), (3, 4), (4, 5), (5, 7), (7, 8), (8, 9)]
        )
    );
    assert!(rt; has_spans("'it\\'s'\n\"\"", &[(0, 7), (8, 10)]));
    assert!(rt; has_spans("`a` `b${", &[(0, 3), (4, 8)]));
    assert!(rt; has_spans("0xFFn\u{2028}.5", &[(0, 5), (8, 10)]));
}

#[test]
fn other_goals(rt: HostRuntime) {
    let mut tokens = Tokens::new("= /[/]/g.x");
    tokens.advance();
    let regexp = tokens.take_regular_expression();
    assert!(rt; matches!(&regexp, Some(regexp) if regexp.pattern == "[/]" && regexp.flags == "g"));
    assert!(rt; tokens.end() == 8);
    let mut tokens = Tokens::new("}, ${x}`");
    let middle = tokens.take_template_tail();
    assert!(rt; matches!(&middle, Some(middle) if middle.characters == ", " && middle.is_middle));
    assert!(rt; tokens.end() == 5);
    tokens.advance();
    let tail = tokens.take_template_tail();
    assert!(rt; matches!(&tail, Some(tail) if tail.characters.is_empty() && !tail.is_middle));
    assert!(rt; tokens.at_end());
}
