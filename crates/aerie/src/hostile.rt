//! Sources and sinks that fail.

use crate::tests::{FIRST, is_done, status_with};
use aerie_edge::{MemorySink, MemorySource};
use std::alloc::{AllocError, Global};
use std::sync::Wait;
use std::test::Fail;
use std::thread::Threads;

/// Two clients who edit, fork, merge and simulate.
const SECOND: &str = r#"model m { counter n = 0; discrete n = n;
  activity Bump(by: int) { n += by; delay 10us; n += by; } }
plan main { start "2030-01-01T00:00:00Z"; duration 100us; at 5us Bump(by = 3); }
constraints { few: n <= 3; }
client a { fork base from main; fork side from main; add side at 30us Bump(by = 1); remove main 7; show main; }
client b { simulate main; add main at 50us Bump(by = 2); expand main; merge main from side of base; simulate main; }
"#;

/// The status and the number of bytes written where the call of the source with a number fails.
fn read_with<R: Threads + Wait + Sync>(
    rt: &R,
    alloc: Global,
    session: &str,
    call: u64,
) -> Result<(u8, usize), AllocError> {
    let bytes = Vec::from_slice(alloc, session.as_bytes())?;
    let mut source = MemorySource::new(bytes, 64, Vec::from_slice(alloc, &[call])?);
    let mut sink = MemorySink::new(alloc, usize::MAX, Vec::new(alloc));
    let status = status_with(rt, alloc, "run --serial", &mut source, &mut sink)?;
    Ok((status, sink.bytes().len()))
}

/// Each read fails once, up to the one that finds the end; of a read behind that one nobody asks.
#[test]
fn each_read_may_fail(rt: HostRuntime) -> Result<(), Fail> {
    let alloc = rt.alloc();
    for session in [FIRST, SECOND] {
        let text = is_done(&rt, alloc, "run --serial", session)?;
        let last = ((session.len().saturating_add(63) / 64) as u64).saturating_add(1);
        for call in 1..=last {
            assert_eq!(&rt; read_with(&rt, alloc, session, call)?, (4, 0), "at {call}");
        }
        assert_eq!(&rt;
            read_with(&rt, alloc, session, last.saturating_add(1))?,
            (0, text.len())
        );
    }
    Ok(())
}

/// Each write fails once, until a run has no failure: a front of the text is written.
#[test]
fn each_write_may_fail(rt: HostRuntime) -> Result<(), Fail> {
    let alloc = rt.alloc();
    for session in [FIRST, SECOND] {
        let text = is_done(&rt, alloc, "run --serial", session)?;
        let writes = text.len().saturating_add(49) / 50;
        for call in 1..=writes.saturating_add(1) {
            let bytes = Vec::from_slice(alloc, session.as_bytes())?;
            let mut source = MemorySource::new(bytes, 4096, Vec::new(alloc));
            let fails = Vec::from_slice(alloc, &[call as u64])?;
            let mut sink = MemorySink::new(alloc, 50, fails);
            let status = status_with(&rt, alloc, "run --serial", &mut source, &mut sink)?;
            let wanted = if call <= writes { 5 } else { 0 };
            assert_eq!(&rt; status, wanted, "at {call}");
            let front = text.len().min((call - 1).saturating_mul(50));
            assert_eq!(&rt;
                Some(sink.bytes()),
                text.as_bytes().get(..front),
                "at {call}"
            );
        }
    }
    Ok(())
}
