ghost use Rattle.std.specs.Prelude.{◌≡◌, IfOk};

use crate::frames::Frame;
use aerie_base::{Fault, List, OutOfMemory, Path, Plan, Shared, Time};
use effect_cells::CellState;
use std::alloc::Global;

/// A settled time of a run.
#[derive(Drop)]
pub struct Instant {
    /// The time, in microseconds from the start of the plan.
    pub time: Time,
    /// Its batches in order, each with its frames in order of path.
    pub batches: List<List<Frame>>,
    /// The cells on which a batch had an effect, in order of number, each with its settled state.
    pub changed: List<(u16, CellState)>,
}

/// What a run failed of.
#[derive(Debug, Drop)]
pub enum Who {
    /// A task that faulted.
    Task(Path),
    /// A cell that left its range, counted from 0 in the order of the model.
    Cell(u16),
}

/// How a run ended.
#[derive(Debug, Drop)]
pub enum Outcome {
    /// It came to the end of the plan.
    Completed,
    /// A task faulted or a cell left its range; nothing of that time is part of the run.
    Failed {
        /// When.
        time: Time,
        /// The task or the cell.
        who: Who,
        /// The fault.
        fault: Fault,
    },
    /// The costs of the steps together passed the bound; nothing of that time is part of the run.
    StepLimit {
        /// When.
        time: Time,
    },
}

/// A simulation of a plan.
#[derive(Drop)]
pub struct Run {
    /// The plan, which its run and who asked for it share.
    pub plan: Shared<Plan>,
    /// What the costs of all steps together may come to.
    pub bound: u64,
    /// The settled instants, in order of time.
    pub instants: List<Shared<Instant>>,
    /// The time that it reached: everything before it is known.
    pub reach: Time,
    /// How it ended.
    pub outcome: Outcome,
}

impl Who {
    /// An equal value.
    pub fn copy(&self, alloc: Global) -> Result<Who, OutOfMemory>
        ensures { IfOk result (λ copy. copy ≡ self.now) }
    {
        match self {
            Who::Task(path) => Ok(Who::Task(path.copy(alloc)?)),
            Who::Cell(cell) => Ok(Who::Cell(*cell)),
        }
    }
}

impl Outcome {
    /// An equal outcome.
    pub fn copy(&self, alloc: Global) -> Result<Outcome, OutOfMemory>
        ensures { IfOk result (λ copy. copy ≡ self.now) }
    {
        match self {
            Outcome::Completed => Ok(Outcome::Completed),
            Outcome::Failed { time, who, fault } => Ok(Outcome::Failed {
                time: *time,
                who: who.copy(alloc)?,
                fault: *fault,
            }),
            Outcome::StepLimit { time } => Ok(Outcome::StepLimit { time: *time }),
        }
    }
}
