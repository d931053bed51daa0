//! Clients together: a fork has what was added before it in the journal, in whatever order the clients' actions come.

use crate::tests::{is_done, joined};
use std::alloc::{AllocError, Global};
use std::process::Abort;
use std::sync::Wait;
use std::test::Fail;
use std::thread::Threads;

/// The model and the plan of the sessions.
const HEAD: &str =
    r#"model m { counter n = 0; discrete n = n; activity Bump(by: int) { n += by; delay 10us; n += by; } }
plan main { start "2030-01-01T00:00:00Z"; duration 100us; }
"#;

/// A client adds to a plan and shows it, while another forks it and simulates the fork.
const ADDED_AND_FORKED: &str = "client a { add main at 5us Bump(by = 3); show main; }
client b { fork y from main; simulate y; }
";

const SHOWN: &str =
    r#"{"client":"a","command":1,"ok":{"branch":"main","plan":{"directives":[{"arguments":{"by":3},"id":1,"start":5,"type":"Bump"}]},"revision":1}}"#;

const FORKED: &str = r#"{"client":"b","command":0,"ok":{"branch":"y","revision":0}}"#;

const WITH_A_SPAN: &str =
    r#""segments":[[0,0],[5,3],[15,6]]}],"reach":100,"revision":0,"spans":[{"arguments":{"by":3},"end":15,"path":"1","result":null,"start":5,"type":"Bump","utc":"2030-001T00:00:00.000005"}]"#;

const WITHOUT_SPANS: &str = r#""segments":[[0,0]]}],"reach":100,"revision":0,"spans":[]"#;

/// Compares what is written with what its journal asks for: the fork has the directive where that was added before.
fn check_fork<R: Abort>(rt: &R, text: &str) {
    let journal = text.lines().next().expect(rt, "a journal");
    let (before, _) = journal.split_once("[0,0,0]").expect(rt, "the addition");
    let report = if before.contains("[1,0,0]") {
        WITHOUT_SPANS
    } else {
        WITH_A_SPAN
    };
    for part in [SHOWN, FORKED, report] {
        assert!(rt; text.contains(part), "{part} in {text}");
    }
}

#[test]
fn a_fork_has_what_was_there(rt: HostRuntime) -> Result<(), Fail> {
    let alloc = rt.alloc();
    let session = joined(alloc, HEAD, ADDED_AND_FORKED)?;
    let text = is_done(&rt, alloc, "run --serial", &session)?;
    assert!(&rt; text.starts_with("[[0,0,0],[1,0,0],[0,1,0],[1,1,0],[1,1,1]]\n"));
    assert!(&rt; text.contains(WITH_A_SPAN));
    check_fork(&rt, &text);
    for _ in 0..50 {
        check_fork(&rt, &is_done(&rt, alloc, "run", &session)?);
    }
    Ok(())
}
