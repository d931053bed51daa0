//! Why a schedule leaves a goal unmet.

ghost use Rattle.std.specs.Prelude.{◌≡◌, IfOk};

use crate::gap::Gap;
use aerie_base::{Name, OutOfMemory, Time};
use run_data::Outcome;
use std::alloc::Global;

/// Why a goal is unmet on the run of the scheduled plan.
#[derive(Debug, Drop)]
pub enum Unmet {
    /// The schedule passed on to the next goal with a gap left.
    Open(OpenGap),
    /// No gap was left then, and what was placed for a later goal broke it.
    Broken,
}

/// The last gap that was found for a goal, which stayed open.
#[derive(Debug, Drop)]
pub struct OpenGap {
    /// The gap.
    pub gap: Gap,
    /// How many starts were tried for it.
    pub tried: u32,
    /// Why the last of these was rejected, if any was tried.
    pub last: Option<Rejection>,
}

/// Why a trial was rejected.
#[derive(Debug, Drop)]
pub enum Rejection {
    /// Its run, which ended so, does not fill the gap.
    Unfilled(Outcome),
    /// Its run fills the gap and violates a constraint that the goal keeps.
    Violates {
        /// The first such constraint, by its name.
        constraint: Name,
        /// When it is violated first, in microseconds from the start of the plan.
        time: Time,
    },
}

impl Rejection {
    /// An equal value.
    pub fn copy(&self, alloc: Global) -> Result<Rejection, OutOfMemory>
        ensures { IfOk result (λ copy. copy ≡ self.now) }
    {
        match self {
            Rejection::Unfilled(outcome) => Ok(Rejection::Unfilled(outcome.copy(alloc)?)),
            Rejection::Violates { constraint, time } => {
                let constraint = constraint.copy(alloc)?;
                Ok(Rejection::Violates {
                    constraint,
                    time: *time,
                })
            }
        }
    }
}

impl OpenGap {
    /// An equal value.
    pub fn copy(&self, alloc: Global) -> Result<OpenGap, OutOfMemory>
        ensures { IfOk result (λ copy. copy ≡ self.now) }
    {
        let last = match &self.last {
            Some(rejection) => Some(rejection.copy(alloc)?),
            None => None,
        };
        Ok(OpenGap {
            gap: self.gap,
            tried: self.tried,
            last,
        })
    }
}

impl Unmet {
    /// An equal value.
    pub fn copy(&self, alloc: Global) -> Result<Unmet, OutOfMemory>
        ensures { IfOk result (λ copy. copy ≡ self.now) }
    {
        match self {
            Unmet::Open(open) => Ok(Unmet::Open(open.copy(alloc)?)),
            Unmet::Broken => Ok(Unmet::Broken),
        }
    }
}
