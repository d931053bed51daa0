//! The whole program over sources and sinks in memory.
use crate::program::with_own_counter;
use aerie_edge::{Gate, HoldUntil, MemorySink, Open, Point, Sink, Source, SureSource};
use std::alloc::{AllocError, Global};
use std::process::Abort;
use std::sync::Wait;
use std::test::Fail;
use std::thread::Threads;

/// The first example.
pub(crate) const FIRST: &str = r#"model m { counter n = 0; discrete n = n;
  activity Bump(by: int) { n += by; delay 10us; n += by; } }
plan main { start "2030-01-01T00:00:00Z"; duration 100us; }
client a { add main at 5us Bump(by = 3); simulate main; }
"#;

pub(crate) const FIRST_TEXT: &str = r#"[[0,0,0],[0,1,0],[0,1,1]]
{"client":"a","command":0,"ok":{"branch":"main","id":1,"revision":1}}
{"client":"a","command":1,"ok":{"attached":true,"branch":"main","outcome":"completed","profiles":[{"name":"n","segments":[[0,0],[5,3],[15,6]]}],"reach":100,"revision":1,"spans":[{"arguments":{"by":3},"end":15,"path":"1","result":null,"start":5,"type":"Bump","utc":"2030-001T00:00:00.000005"}],"violations":[]}}
"#;

/// The words of a text, which are parted by spaces.
pub(crate) fn words_in(alloc: Global, text: &str) -> Result<Vec<String>, AllocError> {
    let mut words = Vec::new(alloc);
    for word in text.split(' ') {
        words.push(String::from_str(alloc, word)?)?;
    }
    Ok(words)
}

/// The status of the program with these words over this source and this sink.
pub(crate) fn status_with<R: Threads + Wait + Sync, S: Source, K: Sink>(
    rt: &R,
    alloc: Global,
    words: &str,
    source: &mut S,
    sink: &mut K,
) -> Result<u8, AllocError> {
    let words = words_in(alloc, words)?;
    Ok(with_own_counter(rt, alloc, &words, source, sink, &Open))
}

/// Two texts, one behind the other.
pub(crate) fn joined(alloc: Global, one: &str, other: &str) -> Result<String, AllocError> {
    format!(in alloc; "{one}{other}")
}

/// Calls the program with these words and this session, which it does, and gives what is written.
pub(crate) fn is_done<R: Threads + Wait + Sync + Abort>(
    rt: &R,
    alloc: Global,
    words: &str,
    session: &str,
) -> Result<String, AllocError> {
    let mut source = SureSource::new(Vec::from_slice(alloc, session.as_bytes())?);
    let mut sink = MemorySink::new(alloc, usize::MAX, Vec::new(alloc));
    let status = status_with(rt, alloc, words, &mut source, &mut sink)?;
    assert_eq!(rt; status, 0, "of {words}, {session}");
    let text = str::from_utf8(sink.bytes()).expect(rt, "a text");
    String::from_str(alloc, text)
}

/// The first session over a source and a sink in memory.
#[test]
fn the_first_session_is_performed(rt: HostRuntime) -> Result<(), Fail> {
    let text = is_done(&rt, rt.alloc(), "run", FIRST)?;
    assert_eq!(&rt; text.as_str(), FIRST_TEXT);
    Ok(())
}

/// A sink that takes nothing.
#[test]
fn nothing_may_be_taken(rt: HostRuntime) -> Result<(), Fail> {
    let alloc = rt.alloc();
    for session in [FIRST, "no session"] {
        let mut source = SureSource::new(Vec::from_slice(alloc, session.as_bytes())?);
        let mut sink = MemorySink::new(alloc, 0, Vec::new(alloc));
        assert_eq!(rt; status_with(&rt, alloc, "run", &mut source, &mut sink)?, 5);
        assert_eq!(rt; sink.bytes().len(), 0);
    }
    Ok(())
}

/// The gate is told of the simulation's start, where it may hold it, and of its end.
#[test]
fn the_gate_sees_the_simulation(rt: HostRuntime) -> Result<(), Fail> {
    let alloc = rt.alloc();
    let words = words_in(alloc, "run")?;
    let holds = HoldUntil::new(0, 1, 5);
    let waits = HoldUntil::new(1, 0, 5);
    for gate in [&holds, &waits] {
        let mut source = SureSource::new(Vec::from_slice(alloc, FIRST.as_bytes())?);
        let mut sink = MemorySink::new(alloc, usize::MAX, Vec::new(alloc));
        assert_eq!(rt;
            with_own_counter(&rt, alloc, &words, &mut source, &mut sink, gate),
            0
        );
    }
    assert!(rt; !holds.ended());
    waits.at(1, 0, Point::Starts);
    assert!(rt; waits.ended());
    Ok(())
}
