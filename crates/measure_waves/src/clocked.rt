//! A stepper that takes the time of another's waves.

ghost use Rattle.std.specs.Prelude.{◌≡◌};

use aerie_base::{Model, OutOfMemory, Steps};
use run_data::{Job, Stepper, Wave};
use std::alloc::Global;
use std::rt::Clock;
use std::sync::ledger::Ledger;
use std::time::Instant;

/// When something begins, where the clock says it.
pub(crate) fn now<R: Clock>(rt: &R) -> Option<Instant> {
    Instant::now(rt).ok()
}

/// How many nanoseconds have passed since, or none where the clock does not say.
pub(crate) fn passed<R: Clock>(rt: &R, begun: Option<Instant>) -> u64 {
    let Some(begun) = begun else {
        return 0;
    };
    match begun.elapsed(rt) {
        Ok(time) => u64::try_from(time.as_nanos()).unwrap_or(u64::MAX),
        Err(_) => 0,
    }
}

/// The stepper that is measured, and what was counted of its waves so far.
#[derive(Drop)]
pub(crate) struct Clocked<'a, R: Clock, S: Stepper + Drop> {
    rt: &'a R,
    stepper: S,
    pub(crate) jobs: u64,
    pub(crate) waves: u64,
    pub(crate) nanoseconds: u64,
}

impl<'a, R: Clock, S: Stepper + Drop> Clocked<'a, R, S> {
    /// A stepper none of whose waves was measured yet.
    pub(crate) fn new(rt: &'a R, stepper: S) -> Clocked<'a, R, S>
        ensures { result.stepper ≡ stepper }
    {
        Clocked {
            rt,
            stepper,
            jobs: 0,
            waves: 0,
            nanoseconds: 0,
        }
    }
}

impl<R: Clock, S: Stepper + Drop> Stepper for Clocked<'_, R, S> {
    ghost is_of = { λ clocked. S.is_of clocked.stepper };

    ghost records = { λ clocked. S.records clocked.stepper };

    ghost opened = { λ clocked. S.opened clocked.stepper };

    ghost address = { λ clocked. S.address clocked.stepper };

    ghost shares = { S.shares };

    ghost valid = { λ clocked. S.valid clocked.stepper };

    ghost counted = { λ clocked. S.counted clocked.stepper };

    fn wave<L: Ledger, K: Ledger>(
        &mut self,
        alloc: Global,
        model: &Model,
        jobs: &[Job],
        fuel: u64,
        steps: &mut Steps<L>,
        looks: &mut Steps<K>,
    ) -> Result<Wave, OutOfMemory> {
        let begun = now(self.rt);
        let wave = self.stepper.wave(alloc, model, jobs, fuel, steps, looks);
        self.nanoseconds = self.nanoseconds.saturating_add(passed(self.rt, begun));
        self.jobs = self.jobs.saturating_add(jobs.len() as u64);
        self.waves = self.waves.saturating_add(1);
        wave
    }
}
