//! What takes the time of calls, and notes it.

ghost use Rattle.std.specs.Prelude.{◌≡◌, [], ◌∷◌, ◌++◌, IfOk};
ghost use Rattle.measure.specs.Counts.{numbers_in};

use aerie_base::{List, OutOfMemory};
use std::alloc::Global;
use std::io;
use std::rt::Clock;
use std::time::Instant;
use thiserror::Error;

/// What was measured of one call.
#[derive(Drop)]
pub(crate) struct Measured {
    /// The name of the function.
    pub(crate) call: &'static str,
    /// What it makes or goes over, and how many of these.
    pub(crate) things: &'static str,
    pub(crate) number: u64,
    /// How long the call took.
    pub(crate) nanoseconds: u64,
}

/// Why a session is not measured.
#[derive(Debug, Drop, Error)]
pub(crate) enum MeasureError {
    #[error("memory was wanted")]
    OutOfMemory,
    #[error("the session is refused")]
    Refused,
    #[error("there are 2^64 or more of something")]
    TooMany,
    #[error("{0}")]
    Failed(#[from] io::Error),
}

impl From<OutOfMemory> for MeasureError {
    fn from(_error: OutOfMemory) -> MeasureError {
        MeasureError::OutOfMemory
    }
}

/// A watch, with what was measured so far.
#[derive(Drop)]
pub(crate) struct Watch<'a, R: Clock> {
    rt: &'a R,
    begun: Instant,
    nanoseconds: u64,
    pub(crate) calls: List<Measured>,
}

impl<'a, R: Clock> Watch<'a, R> {
    /// A watch that runs.
    pub(crate) fn new(alloc: Global, rt: &'a R) -> Result<Watch<'a, R>, MeasureError> {
        let (begun, calls) = (Instant::now(rt)?, List::new(alloc));
        Ok(Watch {
            rt,
            begun,
            nanoseconds: 0,
            calls,
        })
    }

    /// Runs from 0 on: a call begins.
    pub(crate) fn start(&mut self) -> Result<(), MeasureError> {
        self.begun = Instant::now(self.rt)?;
        Ok(())
    }

    /// Keeps the time since it runs: the call ended.
    pub(crate) fn stop(&mut self) -> Result<(), MeasureError> {
        let passed = self.begun.elapsed(self.rt)?.as_nanos();
        self.nanoseconds = u64::try_from(passed).unwrap_or(u64::MAX);
        Ok(())
    }

    /// Notes the call that ended, which made this number of things, where they were counted.
    pub(crate) fn note(
        &mut self,
        call: &'static str,
        things: &'static str,
        number: Option<u64>,
    ) -> Result<(), MeasureError>
        ensures { IfOk result (λ _. numbers_in self.new.calls ≡ numbers_in self.old.calls ++ number ∷ []) }
    {
        let Some(number) = number else {
            return Err(MeasureError::TooMany)
        };
        self.calls.push(Measured {
            call,
            things,
            number,
            nanoseconds: self.nanoseconds,
        })?;
        Ok(())
    }
}
