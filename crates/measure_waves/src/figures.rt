//! The figures of several simulations.

ghost use Rattle.aerie_base.specs.plans.OfModel.{IsPlanOf};

use crate::steppers::{Stepping, once};
use crate::worlds::World;
use body_code::compile_all;
use std::alloc::Global;
use std::rt::Clock;
use std::thread::Threads;

/// What is counted of a simulation.
#[derive(Clone, Copy)]
pub(crate) struct Figures {
    /// How many steps were wanted of the stepper.
    pub(crate) jobs: u64,
    /// How many waves it was called for.
    pub(crate) waves: u64,
    /// How many nanoseconds it took for all of them.
    pub(crate) in_waves: u64,
    /// How many nanoseconds the simulation took.
    pub(crate) whole: u64,
}

impl Figures {
    /// The lesser times of two simulations of one plan.
    fn least(self, other: Figures) -> Figures {
        Figures {
            jobs: self.jobs,
            waves: self.waves,
            in_waves: self.in_waves.min(other.in_waves),
            whole: self.whole.min(other.whole),
        }
    }
}

/// How many simulations the times are the least of.
const REPEATS: u32 = 9;

/// The counts, and where that is asked for the least times of several simulations.
pub(crate) fn least_figures<R: Clock + Threads + Sync>(
    rt: &R,
    alloc: Global,
    world: &World,
    stepping: Stepping,
    with_times: bool,
) -> Option<Figures>
    requires plan { IsPlanOf world.now.model world.now.plan }
{
    let codes = compile_all(alloc, world.model.get()).ok()?;
    let mut least = once(rt, alloc, world, codes.as_slice(), stepping)?;
    if with_times {
        for _ in 1..REPEATS {
            let next = once(rt, alloc, world, codes.as_slice(), stepping)?;
            least = least.least(next);
        }
    }
    Some(least)
}
