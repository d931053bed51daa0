//! A command, with all its parts.

ghost use Rattle.std.specs.Prelude.{◌≡◌, [], ◌∷◌, IfOk, false};
ghost use Rattle.client_work.specs.Counts.{simulates};
ghost use Rattle.client_work.specs.Working.{AreBenchesAt, begun, IsAssignedTo, IsCarriedOn, IsLater, IsReplyAt, work_state};

use crate::acting::act;
use crate::merging::{MergeAssignment, merged};
use crate::scheduling::scheduled;
use crate::simulating::{expanded, reported};
use crate::workplace::{Assignment, Worker};
use aerie_base::OutOfMemory;
use aerie_edge::Gate;
use commands::Command;
use hangar_core::{Action, Reply};
use report_text::Answer;
use std::alloc::Global;
use std::sync::Wait;
use std::sync::ledger::Ledger;
use std::thread::Threads;

/// Carries a command on, by the reply to its first action.
fn carry_on<R: Threads + Wait + Sync, G: Gate, L: Ledger, K: Ledger>(
    alloc: Global,
    assignment: &Assignment<R, G>,
    command: &Command,
    first: Reply,
    worker: &mut Worker<L, K>,
) -> Result<Answer, OutOfMemory>
    requires workplace { IsAssignedTo assignment.now worker.old.pass.now }
    requires benches { AreBenchesAt assignment.now worker.old.benches.now }
    requires first { IsReplyAt assignment.now.workplace.now.lock.now first }
    ensures done { IfOk result (IsCarriedOn (begun assignment.now command.now (first ∷ []))
        (work_state worker.old) (work_state worker.new)) }
    ensures still { simulates command.now ≡ false → worker.new.steps.now ≡ worker.old.steps.now }
    ensures later { IsLater worker.old worker.new }
{
    match command {
        Command::Simulate { branch } => reported(alloc, assignment, branch, first, worker),
        Command::Schedule { branch } => scheduled(alloc, assignment, branch, first, worker),
        Command::Expand { branch } => expanded(alloc, assignment, branch, first, worker),
        Command::Merge {
            target,
            source,
            base,
        } => {
            let merge = MergeAssignment {
                assignment,
                target,
                source,
                base,
            };
            merged(alloc, &merge, first, worker.pass)
        }
        _ => Ok(Answer::Reply(first)),
    }
}

/// Carries out a command of a client, and answers what is told of it. Only its entries wait for turns of the lock; simulations,
/// schedules and merges are made outside of these.
pub fn carry_out<R: Threads + Wait + Sync, G: Gate, L: Ledger, K: Ledger>(
    alloc: Global,
    assignment: &Assignment<R, G>,
    command: &Command,
    worker: &mut Worker<L, K>,
) -> Result<Answer, OutOfMemory>
    requires workplace { IsAssignedTo assignment.now worker.old.pass.now }
    requires benches { AreBenchesAt assignment.now worker.old.benches.now }
    ensures done { IfOk result (IsCarriedOn (begun assignment.now command.now [])
        (work_state worker.old) (work_state worker.new)) }
    ensures still { simulates command.now ≡ false → worker.new.steps.now ≡ worker.old.steps.now }
    ensures later { IsLater worker.old worker.new }
{
    let action = Action::first(alloc, command)?;
    let first = act(alloc, assignment, 0, action, worker.pass)?;
    let answer = carry_on(alloc, assignment, command, first, worker)?;
    Ok(answer)
}
