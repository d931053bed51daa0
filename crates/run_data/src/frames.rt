ghost use Rattle.std.specs.Prelude.{◌≡◌, ◌↔◌, IsTrue, IfOk};
ghost use Rattle.run_data.specs.Records.{record_of};
ghost use Rattle.run_data.specs.TaskFrames.{frame_with};

use crate::tasks::TaskState;
use aerie_base::{
    Cond, Fault, List, Number, OutOfMemory, Path, PlainData, Shared, Value, copy_list, same_list,
};
use effect_cells::{CellState, Effect};
use std::alloc::Global;
use std::marker::Model;

/// What a step does, in the order in which it does it.
#[derive(Debug, Drop)]
pub enum Item {
    /// An effect on a cell.
    Emit {
        /// The cell, counted from 0 in the order of the model.
        cell: u16,
        /// The effect.
        effect: Effect,
    },
    /// A child, spawned or called, which begins in the same batch.
    Child {
        /// Its activity type.
        kind: u16,
        /// Its arguments, in the order of the parameters.
        arguments: List<Value>,
    },
}

/// How a step ends.
#[derive(Drop)]
pub enum Status {
    /// The task goes on later.
    Delayed {
        /// By so many microseconds, 0 or more.
        by: Number,
        /// From this state.
        next: Shared<TaskState>,
    },
    /// The task goes on when a condition holds.
    Waiting {
        /// The condition, with the locals filled in.
        condition: Shared<Cond>,
        /// From this state.
        next: Shared<TaskState>,
    },
    /// The task goes on when the last child of the step has ended.
    Calling {
        /// The slot of the local that takes the child's result.
        into: Option<u16>,
        /// From this state.
        next: Shared<TaskState>,
    },
    /// The body has ended, with the value that it returned.
    Done(Option<Value>),
    /// The task has faulted.
    Faulted(Fault),
}

/// A step of any task: what it gives in every view that agrees with its reads.
#[derive(Drop)]
pub struct Record {
    /// The state before the step.
    pub before: Shared<TaskState>,
    /// The cells that it read, each once and in order of number, as they were when the step began.
    pub reads: List<(u16, CellState)>,
    /// What it did.
    pub items: List<Item>,
    /// How it ended.
    pub status: Status,
    /// How many statements and tests it ran.
    pub cost: u64,
}

/// A step that was run: what it began from, what it read and what it did. The frames of a task may share its path, and frames that
/// do the same may share their step. Contracts see a frame as the path beside the parts of the step.
#[derive(Drop)]
pub struct Frame {
    path: Shared<Path>,
    step: Shared<Record>,
}

impl Model for Frame {
    ghost use Rattle.std.specs.Coded.{codes};
    ghost use Rattle.aerie_base.specs.contracts.conditions.Cond as cond;
    ghost use Rattle.run_data.specs.TaskFrames.{Frame as TaskFrame, frame_with};

    ghost Value = { TaskFrame };

    ghost coded = { Prim.hlevel (codes, cond.the_row.coded) };

    ghost view = { λ frame. frame_with frame.path frame.step };
}

impl Item {
    /// An equal item.
    pub fn copy(&self, alloc: Global) -> Result<Item, OutOfMemory>
        ensures { IfOk result (λ copy. copy ≡ self.now) }
    {
        match self {
            Item::Emit { cell, effect } => Ok(Item::Emit {
                cell: *cell,
                effect: *effect,
            }),
            Item::Child { kind, arguments } => Ok(Item::Child {
                kind: *kind,
                arguments: copy_list(alloc, arguments)?,
            }),
        }
    }

    /// Whether the two are the same item.
    pub fn is_same(&self, other: &Item) -> bool
        ensures { IsTrue result ↔ (self.now ≡ other.now) }
    {
        match self {
            Item::Emit { cell, effect } => match other {
                Item::Emit {
                    cell: on,
                    effect: another,
                } => *cell == *on && *effect == *another,
                Item::Child { .. } => false,
            },
            Item::Child { kind, arguments } => match other {
                Item::Emit { .. } => false,
                Item::Child {
                    kind: other_kind,
                    arguments: others,
                } => *kind == *other_kind && same_list(arguments.as_slice(), others.as_slice()),
            },
        }
    }
}

impl PlainData for Item {
    fn copied(&self, alloc: Global) -> Result<Item, OutOfMemory> {
        self.copy(alloc)
    }

    fn equals(&self, other: &Item) -> bool {
        self.is_same(other)
    }
}

impl Status {
    /// An equal status, whose state and condition are shared.
    pub fn share(&self) -> Result<Status, OutOfMemory>
        ensures { IfOk result (λ shared. shared ≡ self.now) }
    {
        match self {
            Status::Delayed { by, next } => Ok(Status::Delayed {
                by: *by,
                next: next.share()?,
            }),
            Status::Waiting { condition, next } => {
                let condition = condition.share()?;
                Ok(Status::Waiting {
                    condition,
                    next: next.share()?,
                })
            }
            Status::Calling { into, next } => Ok(Status::Calling {
                into: *into,
                next: next.share()?,
            }),
            Status::Done(result) => Ok(Status::Done(*result)),
            Status::Faulted(fault) => Ok(Status::Faulted(*fault)),
        }
    }

    /// Whether the two are the same status.
    pub fn is_same(&self, other: &Status) -> bool
        ensures { IsTrue result ↔ (self.now ≡ other.now) }
    {
        match self {
            Status::Delayed { by, next } => match other {
                Status::Delayed {
                    by: other_by,
                    next: other_next,
                } => *by == *other_by && next.get().is_same(other_next.get()),
                _ => false,
            },
            Status::Waiting { condition, next } => match other {
                Status::Waiting {
                    condition: other_condition,
                    next: other_next,
                } => condition.get().is_same(other_condition.get())
                    && next.get().is_same(other_next.get()),
                _ => false,
            },
            Status::Calling { into, next } => match other {
                Status::Calling {
                    into: other_into,
                    next: other_next,
                } => *into == *other_into && next.get().is_same(other_next.get()),
                _ => false,
            },
            Status::Done(result) => match other {
                Status::Done(other_result) => *result == *other_result,
                _ => false,
            },
            Status::Faulted(fault) => match other {
                Status::Faulted(other_fault) => *fault == *other_fault,
                _ => false,
            },
        }
    }
}

impl Frame {
    /// The frame of a step of the task of this path.
    pub fn new(path: Shared<Path>, step: Shared<Record>) -> Frame
        ensures { result ≡ frame_with path step }
    {
        Frame { path, step }
    }

    /// The task.
    pub fn path(&self) -> &Path
        ensures { result.now ≡ self.now.path }
    {
        self.path.get()
    }

    /// The task, as one that may be shared.
    pub fn shared_path(&self) -> &Shared<Path>
        ensures { result.now ≡ self.now.path }
    {
        &self.path
    }

    /// The step, as one that may be shared.
    pub fn step(&self) -> &Shared<Record>
        ensures { result.now ≡ record_of self.now }
    {
        &self.step
    }

    /// The state of the task before the step.
    pub fn before(&self) -> &TaskState
        ensures { result.now ≡ self.now.before }
    {
        self.step.get().before.get()
    }

    /// The cells that the step read, each once and in order of number, as they were when it began.
    pub fn reads(&self) -> &List<(u16, CellState)>
        ensures { result.now ≡ self.now.reads }
    {
        &self.step.get().reads
    }

    /// What the step did.
    pub fn items(&self) -> &List<Item>
        ensures { result.now ≡ self.now.items }
    {
        &self.step.get().items
    }

    /// How the step ended.
    pub fn status(&self) -> &Status
        ensures { result.now ≡ self.now.status }
    {
        &self.step.get().status
    }

    /// How many statements and tests the step ran.
    pub fn cost(&self) -> u64
        ensures { result ≡ self.now.cost }
    {
        self.step.get().cost
    }

    /// One more owner of the path and of the step, which are not copied.
    pub fn share(&self) -> Result<Frame, OutOfMemory>
        ensures { IfOk result (λ shared. shared ≡ self.now) }
    {
        let path = self.path.share()?;
        let step = self.step.share()?;
        Ok(Frame { path, step })
    }

    /// Whether the two are the same frame.
    pub fn is_same(&self, other: &Frame) -> bool
        ensures { IsTrue result ↔ (self.now ≡ other.now) }
    {
        self.path.get().is_same(other.path.get()) && self.step.get().is_same(other.step.get())
    }
}

impl Record {
    /// Whether the two are the same record.
    pub fn is_same(&self, other: &Record) -> bool
        ensures { IsTrue result ↔ (self.now ≡ other.now) }
    {
        self.before.get().is_same(other.before.get())
            && same_list(self.reads.as_slice(), other.reads.as_slice())
            && same_list(self.items.as_slice(), other.items.as_slice())
            && self.status.is_same(&other.status)
            && self.cost == other.cost
    }
}
