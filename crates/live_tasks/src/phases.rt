ghost use Rattle.std.specs.Prelude.{◌≡◌, ◌<◌, ◌^◌, ◌++◌, [], Some, IfOk, OnOk, nat_abs};
ghost use Rattle.std.specs.Option.{option_copied};
ghost use Rattle.run_data.specs.Endings.{is_open, result_of_phase, with_result};
ghost use Rattle.run_data.specs.Tasks.{children_in, after_delay, job_if_ready, task_after, rested, rested_phase};
ghost use Rattle.run_data.specs.laws.NextTimes.{delay_in};
ghost use Rattle.run_data.specs.laws.ReadyTasks.{is_ready_phase};
ghost use Rattle.live_tasks.specs.Phases.{task_phase_of, waits_for_condition, condition_of_wait, called_child, anchor_of_start, is_child_item, is_same_edge, phase_with_return, phase_when_due, phase_after_wait, after_wait, task_with_return, fall_due};

use crate::ready_jobs::ReadyJobs;
use aerie_base::{Anchor, Cond, Edge, List, Number, OutOfMemory, Path, Shared, Time, Value};
use effect_cells::Cells;
use run_data::{Item, Job, Status, TaskState};
use std::alloc::Global;
use std::marker::Model;
use std::mem;

/// What a task is doing. A directive that has not begun is delayed until its due time; while it has none it is anchored.
#[derive(Drop)]
pub enum LivePhase {
    /// It begins so long after an edge of the directive with an id.
    Anchored {
        /// The id.
        to: u32,
        /// The edge.
        edge: Edge,
        /// So long after it.
        start: Time,
        /// How it begins.
        state: Shared<TaskState>,
    },
    /// It takes a step in the next batch.
    Ready(Shared<TaskState>),
    /// It goes on at a time.
    Delayed {
        /// The time, in microseconds.
        until: u64,
        /// From this state.
        state: Shared<TaskState>,
    },
    /// It goes on when a condition holds.
    Waiting {
        /// The condition, without locals.
        condition: Shared<Cond>,
        /// From this state.
        state: Shared<TaskState>,
    },
    /// It goes on when a child has ended.
    Calling {
        /// The child's number.
        child: u32,
        /// The slot of the local that takes what the child returns.
        into: Option<u16>,
        /// From this state.
        state: Shared<TaskState>,
    },
    /// Its body has ended, with this result.
    Over(Option<Value>),
}

/// A task as the engine has it. Contracts see it as the definitions have it.
#[derive(Drop)]
pub struct LiveTask {
    phase: LivePhase,
    made: u32,
    begun: bool,
}

impl Model for LiveTask {
    ghost use Rattle.std.specs.Coded.{codes};
    ghost use Rattle.aerie_base.specs.contracts.conditions.Cond as cond;
    ghost use Rattle.run_data.specs.Tasks.{Task};
    ghost use Rattle.live_tasks.specs.Phases.{task_phase_of};

    ghost Value = { Task };

    ghost coded = { Prim.hlevel (codes, cond.the_row.coded) };

    ghost view = { λ task. record { phase = task_phase_of task.phase; made = task.made; begun = task.begun } };
}

/// How many children are among some items.
pub fn count_children(items: &List<Item>) -> u32
    requires { children_in items.now < 2 ^ 32 }
    ensures { result ≡ children_in items.now }
{
    let mut count: u32 = 0;
    for item in items.as_slice() {
        if is_child_item(item) {
            count += 1;
        }
    }
    count
}

fn is_child_item(item: &Item) -> bool
    ensures { result ≡ is_child_item item.now }
{
    match item {
        Item::Emit { .. } => false,
        Item::Child { .. } => true,
    }
}

/// What a task does that waits so many microseconds: it is ready where it has not to wait.
fn after_delay(now: Time, by: u64, state: Shared<TaskState>) -> LivePhase
    requires { by < 2 ^ 62 }
    ensures { task_phase_of result ≡ after_delay now by state }
{
    if by == 0 {
        return LivePhase::Ready(state);
    }
    LivePhase::Delayed {
        until: micros(now) + by,
        state,
    }
}

/// The microseconds of a time.
pub fn micros(time: Time) -> u64
    ensures value { result ≡ time }
    ensures small { result < 2 ^ 62 }
{
    time.get().unsigned_abs()
}

/// The state with what a callee returned in the local that takes it.
fn with_result(
    alloc: Global,
    state: Shared<TaskState>,
    into: Option<u16>,
    returned: Option<Value>,
) -> Result<Shared<TaskState>, OutOfMemory>
    ensures { IfOk result (λ next. next ≡ with_result into returned state) }
{
    let Some(slot) = into else {
        return Ok(state);
    };
    let Some(value) = returned else {
        return Ok(state);
    };
    let mut next = state.get().copy(alloc)?;
    put_local(&mut next, usize::from(slot), value);
    let shared = Shared::new(alloc, next)?;
    Ok(shared)
}

/// Puts a value into a local, if there is such a one.
fn put_local(state: &mut TaskState, slot: usize, value: Value)
    ensures { state.new ≡ with_result (Some slot) (Some value) state.old }
{
    if slot < state.locals.items.len() {
        state.locals.items[slot] = value;
    }
}

/// How far a number is from 0.
fn magnitude(by: Number) -> u64
    ensures value { result ≡ nat_abs by }
    ensures small { result < 2 ^ 62 }
{
    by.get().unsigned_abs()
}

impl LivePhase {
    /// The same once more; its state and its condition have one more owner.
    fn copy(&self) -> Result<LivePhase, OutOfMemory>
        ensures { IfOk result (λ copy. copy ≡ self.now) }
    {
        match self {
            LivePhase::Anchored {
                to,
                edge,
                start,
                state,
            } => Ok(LivePhase::Anchored {
                to: *to,
                edge: *edge,
                start: *start,
                state: state.share()?,
            }),
            LivePhase::Ready(state) => Ok(LivePhase::Ready(state.share()?)),
            LivePhase::Delayed { until, state } => Ok(LivePhase::Delayed {
                until: *until,
                state: state.share()?,
            }),
            LivePhase::Waiting { condition, state } => {
                let condition = condition.share()?;
                Ok(LivePhase::Waiting {
                    condition,
                    state: state.share()?,
                })
            }
            LivePhase::Calling { child, into, state } => Ok(LivePhase::Calling {
                child: *child,
                into: *into,
                state: state.share()?,
            }),
            LivePhase::Over(result) => Ok(LivePhase::Over(*result)),
        }
    }
}

impl LiveTask {
    /// The same task once more.
    pub fn copy(&self) -> Result<LiveTask, OutOfMemory>
        ensures { IfOk result (λ copy. copy ≡ self.now) }
    {
        let phase = self.phase.copy()?;
        Ok(LiveTask {
            phase,
            made: self.made,
            begun: self.begun,
        })
    }

    /// A task that does this, has made so many children and has begun or not.
    pub fn new(phase: LivePhase, made: u32, begun: bool) -> LiveTask
        ensures { result ≡ record { phase = task_phase_of phase; made = made; begun = begun } }
    {
        LiveTask { phase, made, begun }
    }

    /// The task after a step that ended so, having made so many children.
    pub fn after(
        alloc: Global,
        now: Time,
        status: &Status,
        made: u32,
    ) -> Result<LiveTask, OutOfMemory>
        ensures { IfOk result (λ task. task ≡ task_after now status.now made) }
    {
        match status {
            Status::Delayed { by, next } => {
                let state = next.share()?;
                let phase = after_delay(now, magnitude(*by), state);
                Ok(LiveTask {
                    phase,
                    made,
                    begun: true,
                })
            }
            Status::Waiting { condition, next } => {
                let condition = condition.share()?;
                let state = next.share()?;
                Ok(LiveTask {
                    phase: LivePhase::Waiting { condition, state },
                    made,
                    begun: true,
                })
            }
            Status::Calling { into, next } => {
                let state = next.share()?;
                let phase = LivePhase::Calling {
                    child: made.saturating_sub(1),
                    into: *into,
                    state,
                };
                Ok(LiveTask {
                    phase,
                    made,
                    begun: true,
                })
            }
            Status::Done(result) => Ok(LiveTask {
                phase: LivePhase::Over(*result),
                made,
                begun: true,
            }),
            Status::Faulted(_) => Ok(LiveTask {
                phase: LivePhase::Over(None),
                made,
                begun: true,
            }),
        }
    }

    /// When its delay ends.
    pub fn delay(&self) -> Option<u64>
        ensures { result ≡ delay_in self.now.phase }
    {
        match &self.phase {
            LivePhase::Delayed { until, .. } => Some(*until),
            _ => None,
        }
    }

    /// Whether its body has not ended.
    pub fn is_open(&self) -> bool
        ensures { result ≡ is_open self.now.phase }
    {
        match &self.phase {
            LivePhase::Over(_) => false,
            _ => true,
        }
    }

    /// Whether it takes a step in the next batch.
    pub fn is_ready(&self) -> bool
        ensures { result ≡ is_ready_phase self.now.phase }
    {
        match &self.phase {
            LivePhase::Ready(_) => true,
            _ => false,
        }
    }

    /// Puts its job behind others, if it is ready.
    pub fn push_job(
        &self,
        path: &Shared<Path>,
        view: &Shared<Cells>,
        jobs: &mut ReadyJobs,
    ) -> Result<(), OutOfMemory>
        ensures { OnOk result (
            jobs.new ≡ jobs.old ++ job_if_ready view.now path.now self.now self.now.phase []) }
    {
        let LivePhase::Ready(state) = &self.phase else {
            return Ok(());
        };
        let job = Job {
            path: path.share()?,
            state: state.share()?,
            view: view.share()?,
        };
        jobs.push(self.made, job)
    }

    /// Whether it waits for a condition.
    pub fn waits_for_condition(&self) -> bool
        ensures { result ≡ waits_for_condition self.now.phase }
    {
        match &self.phase {
            LivePhase::Waiting { .. } => true,
            _ => false,
        }
    }

    /// What it waits for.
    pub fn condition(&self) -> Option<&Cond>
        ensures { option_copied result ≡ condition_of_wait self.now.phase }
    {
        match &self.phase {
            LivePhase::Waiting { condition, .. } => Some(condition.get()),
            _ => None,
        }
    }

    /// The number of the child that it calls.
    pub fn callee(&self) -> Option<u32>
        ensures { result ≡ called_child self.now.phase }
    {
        match &self.phase {
            LivePhase::Calling { child, .. } => Some(*child),
            _ => None,
        }
    }

    /// What its body returned, where it has ended.
    pub fn result(&self) -> Option<Value>
        ensures { result ≡ result_of_phase self.now.phase }
    {
        match &self.phase {
            LivePhase::Over(result) => *result,
            _ => None,
        }
    }

    /// What its start is counted from, where it is anchored.
    pub fn anchor(&self) -> Option<Anchor>
        ensures { result ≡ anchor_of_start self.now.phase }
    {
        match &self.phase {
            LivePhase::Anchored { to, edge, .. } => Some(Anchor {
                to: *to,
                edge: *edge,
            }),
            _ => None,
        }
    }

    /// How many children it has made.
    pub fn made(&self) -> u32
        ensures { result ≡ self.now.made }
    {
        self.made
    }

    /// Whether its body has begun.
    pub fn begun(&self) -> bool
        ensures { result ≡ self.now.begun }
    {
        self.begun
    }

    /// Its child with a number has ended, with this result: where it calls that one, it goes on.
    pub fn child_ended(
        &mut self,
        alloc: Global,
        own: u32,
        value: Option<Value>,
    ) -> Result<(), OutOfMemory>
        ensures { OnOk result (self.new ≡ task_with_return own value self.old) }
    {
        let phase = mem::replace(&mut self.phase, LivePhase::Over(None));
        self.phase = phase.with_return(alloc, own, value)?;
        Ok(())
    }

    /// Where its delay ends at a time, it goes on.
    pub fn rest(&mut self, now: Time)
        ensures { self.new ≡ rested now [] self.old }
    {
        let phase = mem::replace(&mut self.phase, LivePhase::Over(None));
        self.phase = phase.rested(now);
    }

    /// Where it waits for a condition, it goes on.
    pub fn wake(&mut self)
        ensures { self.new ≡ after_wait [] self.old }
    {
        let phase = mem::replace(&mut self.phase, LivePhase::Over(None));
        self.phase = phase.woken();
    }

    /// An edge of the directive with an id has come: where it is anchored to that, it has its due time.
    pub fn fall_due(&mut self, now: Time, to: u32, edge: Edge)
        ensures { self.new ≡ fall_due now to edge self.old }
    {
        let phase = mem::replace(&mut self.phase, LivePhase::Over(None));
        self.phase = phase.fallen_due(now, to, edge);
    }
}

fn is_same_edge(edge: Edge, other: Edge) -> bool
    ensures { result ≡ is_same_edge edge other }
{
    match (edge, other) {
        (Edge::Start, Edge::Start) => true,
        (Edge::End, Edge::End) => true,
        (Edge::Start, Edge::End) => false,
        (Edge::End, Edge::Start) => false,
    }
}

impl LivePhase {
    /// What a task does whose child with a number has ended, with this result.
    fn with_return(
        self,
        alloc: Global,
        own: u32,
        value: Option<Value>,
    ) -> Result<LivePhase, OutOfMemory>
        ensures { IfOk result (λ phase.
            task_phase_of phase ≡ phase_with_return own value (task_phase_of self)) }
    {
        match self {
            LivePhase::Calling { child, into, state } => {
                if child == own {
                    let next = with_result(alloc, state, into, value)?;
                    Ok(LivePhase::Ready(next))
                } else {
                    Ok(LivePhase::Calling { child, into, state })
                }
            }
            other => Ok(other),
        }
    }

    /// What a task does at a time.
    fn rested(self, now: Time) -> LivePhase
        ensures { task_phase_of result ≡ rested_phase now (task_phase_of self) }
    {
        match self {
            LivePhase::Delayed { until, state } => {
                if until == micros(now) {
                    LivePhase::Ready(state)
                } else {
                    LivePhase::Delayed { until, state }
                }
            }
            other => other,
        }
    }

    /// What a task does whose condition holds, if it waits for one.
    fn woken(self) -> LivePhase
        ensures { task_phase_of result ≡ phase_after_wait (task_phase_of self) }
    {
        match self {
            LivePhase::Waiting {
                condition: _,
                state,
            } => LivePhase::Ready(state),
            other => other,
        }
    }

    /// What a task does where an edge of the directive with an id has come.
    fn fallen_due(self, now: Time, to: u32, edge: Edge) -> LivePhase
        ensures { task_phase_of result ≡ phase_when_due now to edge (task_phase_of self) }
    {
        match self {
            LivePhase::Anchored {
                to: id,
                edge: at,
                start,
                state,
            } => {
                if id == to && is_same_edge(at, edge) {
                    after_delay(now, micros(start), state)
                } else {
                    LivePhase::Anchored {
                        to: id,
                        edge: at,
                        start,
                        state,
                    }
                }
            }
            other => other,
        }
    }
}
