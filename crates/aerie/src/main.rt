//! Aerie: the core of a spacecraft mission planner. A planner writes one text, and the program runs it: it reads the
//! standard input, and writes the journal and the replies to the standard output.
#![tactic(auto)]

mod answers;
#[cfg(test)]
mod clients_together;
mod exit_status;
#[cfg(test)]
mod hostile;
mod input;
mod output;
mod program;
#[cfg(test)]
mod simulations_overlap;
#[cfg(test)]
mod tests;

use aerie_base::OutOfMemory;
use aerie_edge::{Open, StdSink, StdSource};
use exit_status::ExitStatus;
use program::with_own_counter;
use std::env;
use std::io::ErrorKind;
use std::process::ExitCode;
use std::rt::Env;

/// The words after the program's name. Where one is no text they are in no grammar, and none are given.
fn words<R: Env + AllocGlobal>(rt: &R) -> Result<Vec<String>, OutOfMemory> {
    let mut words = Vec::new(rt.alloc());
    match env::args(rt) {
        Ok(all) => {
            for word in all.skip(1) {
                words.push(word)?;
            }
            Ok(words)
        }
        Err(error) if error.kind() == ErrorKind::OutOfMemory => Err(OutOfMemory),
        Err(_) => Ok(words),
    }
}

fn main(rt: HostRuntime) -> ExitCode {
    let words = match words(&rt) {
        Ok(words) => words,
        Err(OutOfMemory) => return ExitCode::from(ExitStatus::OutOfMemory.number()),
    };
    let mut source = StdSource::new(rt.stdin());
    let mut sink = StdSink::new(rt.stdout());
    ExitCode::from(with_own_counter(&rt, rt.alloc(), &words, &mut source, &mut sink, &Open))
}
