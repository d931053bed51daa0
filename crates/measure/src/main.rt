//! Measures calls of the libraries on sessions in files: `measure counts FILE ..` prints how many things each call makes, and
//! `measure times FILE ..` also how long it takes, how long for each thing, and how many times that of the file before. With
//! files that `tests/scale/sessions.py` makes of a number and of twice that number, work that is near linear has ratios near 2.
//! The program is no part of the release.
#![tactic(auto)]

mod calls;
mod counting;
mod lines;
mod watch;

use aerie_base::List;
use calls::measure_session;
use lines::print_calls;
use std::rt::Runtime;
use std::sync::Wait;
use std::thread::Threads;
use std::{env, fs};
use watch::{MeasureError, Measured, Watch};

/// Measures the calls on the session in a file, and prints them beside those on the session before. Answers what was measured.
fn measure_file<R: Runtime + AllocGlobal + Threads + Wait + Sync>(
    rt: &R,
    file: &str,
    before: &[Measured],
    with_times: bool,
) -> Result<List<Measured>, MeasureError> {
    let bytes = fs::read(rt, file)?;
    let mut watch = Watch::new(rt.alloc(), rt)?;
    measure_session(rt, rt.alloc(), &mut watch, bytes.as_slice())?;
    println!(rt; "{file}")?;
    print_calls(rt, watch.calls.as_slice(), before, with_times)?;
    Ok(watch.calls)
}

fn main(rt: HostRuntime) -> Result<(), MeasureError> {
    let mut with_times = false;
    let mut before = List::new(rt.alloc());
    for (place, word) in env::args(&rt)?.enumerate() {
        if place == 1 {
            with_times = word.as_str() == "times";
        } else if place > 1 {
            before = measure_file(&rt, word.as_str(), before.as_slice(), with_times)?;
        }
    }
    Ok(())
}
