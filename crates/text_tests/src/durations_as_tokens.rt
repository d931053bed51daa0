//! Durations of one part and of several, as tokens.

use aerie_text::{TokenKind, tokens};
use std::alloc::Global;

/// The kind of the first token, where it ends, and how many tokens there are; none where a token is bad.
fn first_token(alloc: Global, text: &str) -> Option<(TokenKind, usize, usize)> {
    let tokens = tokens(alloc, text).ok()?;
    let first = tokens.as_slice().first()?;
    Some((first.kind, first.to, tokens.len()))
}

#[test]
fn takes_parts_as_long_as_units_fall(rt: HostRuntime) {
    let cases = [
        ("5min", Some((TokenKind::Duration, 4, 1))),
        ("5minx", Some((TokenKind::Duration, 4, 2))),
        ("7h30min", Some((TokenKind::Duration, 7, 1))),
        ("1min30s500ms", Some((TokenKind::Duration, 12, 1))),
        ("7h 30min", Some((TokenKind::Duration, 2, 2))),
        ("30min7h", Some((TokenKind::Duration, 5, 2))),
        ("1s1s", Some((TokenKind::Duration, 2, 2))),
        ("12h30", Some((TokenKind::Duration, 3, 2))),
        ("12h30x", None),
        ("11574d1h46min40s", Some((TokenKind::Duration, 16, 1))),
        ("11574d1h46min41s", None),
    ];
    for (text, wanted) in cases {
        assert_eq!(&rt; first_token(rt.alloc(), text), wanted, "of {text}");
    }
}
