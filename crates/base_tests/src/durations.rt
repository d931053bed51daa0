//! Durations read and written.

use aerie_base::{Time, read_duration, write_duration};

/// The microseconds that a text says.
fn micros(text: &str) -> Option<i64> {
    read_duration(text).map(|time| time.get())
}

#[test]
fn reads_parts(rt: HostRuntime) {
    let cases = [
        ("2min", Some(120_000_000)),
        ("7h30min", Some(27_000_000_000)),
        ("1d12h", Some(129_600_000_000)),
        ("1min30s500ms", Some(90_500_000)),
        ("1ms1us", Some(1_001)),
        ("0d0h", Some(0)),
        ("11574d1h46min40s", Some(1_000_000_000_000_000)),
        ("11574d1h46min40s1us", None),
        ("30min7h", None),
        ("1s1s", None),
        ("12h30", None),
        ("h", None),
        ("", None),
    ];
    for (text, wanted) in cases {
        assert_eq!(&rt; micros(text), wanted, "of {text}");
    }
}

#[test]
fn writes_microseconds(rt: HostRuntime) {
    let time = Time::new(120_000_000).expect(&rt, "a time");
    let written = write_duration(rt.alloc(), time).expect(&rt, "memory");
    assert_eq!(&rt; written.as_str(), "120000000us");
}
