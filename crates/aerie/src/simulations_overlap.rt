//! Simulations of different clients overlap.

use crate::program::with_own_counter;
use crate::tests::words_in;
use aerie_edge::{Gate, HoldUntil, MemorySink, Point, SureSource};
use std::alloc::{AllocError, Global};
use std::process::Abort;
use std::sync::Wait;
use std::sync::atomic::{AtomicBool, Ordering};
use std::test::Fail;
use std::thread::{Threads, yield_now};

/// Two clients who each simulate a branch of their own.
const APART: &[u8] =
    br#"model m { counter n = 0; discrete n = n; activity Bump(by: int) { n += by; } }
plan main { start "2030-01-01T00:00:00Z"; duration 100us; at 5us Bump(by = 3); }
client a { fork x from main; simulate x; }
client b { fork y from main; simulate y; }
"#;

/// At which iteration a simulation that waits for another goes on without it.
const MOST_TURNS: u64 = 1_000_000_000;

/// A client's simulation has started; the other's had started before it went on.
#[derive(Drop)]
struct Visit {
    started: AtomicBool,
    met: AtomicBool,
}

impl Visit {
    fn none() -> Visit {
        Visit {
            started: AtomicBool::new(false),
            met: AtomicBool::new(false),
        }
    }

    fn wait_for(&self, other: &Visit) {
        self.started.store(true, Ordering::SeqCst);
        for _ in 0..MOST_TURNS {
            if other.started.load(Ordering::SeqCst) {
                self.met.store(true, Ordering::SeqCst);
                return;
            }
            yield_now();
        }
    }
}

/// A gate that holds the first simulation of each of two clients at its start until the other's has started.
#[derive(Drop)]
struct Meeting {
    first: Visit,
    second: Visit,
}

impl Meeting {
    fn new() -> Meeting {
        Meeting {
            first: Visit::none(),
            second: Visit::none(),
        }
    }

    /// Each has waited for the other, and not in vain: no order of the two one after another comes to this.
    fn came_about(&self) -> bool {
        self.first.met.load(Ordering::SeqCst) && self.second.met.load(Ordering::SeqCst)
    }
}

impl Gate for Meeting {
    fn at(&self, client: u32, _command: u32, point: Point) {
        match point {
            Point::Starts if client == 0 => self.first.wait_for(&self.second),
            Point::Starts => self.second.wait_for(&self.first),
            Point::Ends => {}
        }
    }
}

/// What is written where the program performs the session with these words and this gate.
fn done_at<R: Threads + Wait + Sync + Abort, G: Gate>(
    rt: &R,
    alloc: Global,
    words: &str,
    gate: &G,
) -> Result<String, AllocError> {
    let words = words_in(alloc, words)?;
    let mut source = SureSource::new(Vec::from_slice(alloc, APART)?);
    let mut sink = MemorySink::new(alloc, usize::MAX, Vec::new(alloc));
    let status = with_own_counter(rt, alloc, &words, &mut source, &mut sink, gate);
    assert_eq!(rt; status, 0);
    let text = str::from_utf8(sink.bytes()).expect(rt, "a text");
    String::from_str(alloc, text)
}

/// The first client's simulation is held at its start until the second's has ended. That comes only where clients work beside each
/// other. The second ran the one statement of its plan, and the first finds it.
#[test]
fn simulations_overlap(rt: HostRuntime) -> Result<(), Fail> {
    let alloc = rt.alloc();
    let gate = HoldUntil::new(0, 1, MOST_TURNS);
    let text = done_at(&rt, alloc, "run --stats", &gate)?;
    assert!(&rt; gate.ended());
    let (_, second) = text
        .as_str()
        .split_once(r#""statements":0,"#)
        .expect(&rt, "no statement");
    assert!(&rt; second.contains(r#""statements":1,"#));
    Ok(())
}

/// Each simulation is held at its start until the other has started. That comes only where clients work beside each other, and none
/// has the turn while it simulates.
#[test]
fn simulations_meet(rt: HostRuntime) -> Result<(), Fail> {
    let gate = Meeting::new();
    let _text = done_at(&rt, rt.alloc(), "run", &gate)?;
    assert!(&rt; gate.came_about());
    Ok(())
}
