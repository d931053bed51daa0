//! Simulations of branches: reports and sequences.

ghost use Rattle.std.specs.Prelude.{◌≡◌, ◌≤◌, [], ◌∷◌, IfOk};
ghost use Rattle.run_data.specs.Waves.{RoseAlike};
ghost use Rattle.hangar_core.specs.ValidWorkspaces.{IsKeptIn};
ghost use Rattle.hangar_core.specs.declared.actions.Action.TheVariants as action;
ghost use Rattle.commands.specs.declared.commands.Command.TheVariants as command;
ghost use Rattle.client_work.specs.Counts.{PaysAsFetched};
ghost use Rattle.client_work.specs.Fetching.{IsPlanOfMission, reply_with};
ghost use Rattle.client_work.specs.Meanings.{simulated};
ghost use Rattle.client_work.specs.Told.{is_attached as is_run_kept, sequence_told};
ghost use Rattle.client_work.specs.Working.{AreBenchesAt, begun, entry_of, HasOneMore, IsAssignedTo, IsCarriedOn, IsLater, IsPlanAt, IsReplyAt, work_state};

use crate::acting::act;
use crate::benches::{Benches, SimulatedRun};
use crate::fetching::{FetchedBranch, fetched};
use crate::missions::Mission;
use crate::workplace::{Assignment, Worker, Workplace};
use aerie_base::{Name, OutOfMemory, Shared, Steps};
use aerie_edge::{Gate, Point};
use hangar_core::{Action, Reply};
use hangar_lock::Pass;
use report_text::{Answer, Report, SequenceReport};
use run_data::Kept;
use scheduler::laws::fresh_runs_are_given;
use seq_expand::{expand, expand_beside};
use std::alloc::Global;
use std::sync::Wait;
use std::sync::ledger::Ledger;
use std::thread::Threads;

/// The fresh run of a fetched plan for its model, at the bench of that model.
fn simulate<R: Threads + Wait + Sync, G: Gate, L: Ledger, K: Ledger>(
    alloc: Global,
    workplace: &Workplace<R, G>,
    found: &FetchedBranch,
    benches: &mut Benches,
    steps: &mut Steps<L>,
    looks: &mut Steps<K>,
) -> Result<SimulatedRun, OutOfMemory>
    requires plan { IsPlanOfMission workplace.now.mission.now found.now.plan }
    requires benches { benches.old ≡ workplace.now.mission.now.bound }
    ensures run { IfOk result (λ made.
        made.run ≡ simulated workplace.now.mission.now.models workplace.now.mission.now.bound found.now.plan) }
    ensures counted { IfOk result (λ made. RoseAlike 0 steps.old made.statements steps.new) }
    ensures paid { IfOk result (λ made.
        PaysAsFetched workplace.now.mission.now (reply_with found.now) made.statements) }
    ensures benches { benches.new ≡ benches.old }
    ensures steps { steps.old ≤ steps.new }
{
    fresh_runs_are_given();
    let ruled = workplace.mission.ruled(&found.plan);
    let made = benches.simulate(
        workplace.rt,
        alloc,
        workplace.store,
        &ruled.model,
        &found.plan,
        &found.kept,
        steps,
        looks,
    )?;
    Ok(made)
}

/// Whether the reply to an Attach tells that the run is kept.
fn is_attached(reply: &Reply) -> bool
    ensures { result ≡ is_run_kept reply.now }
{
    matches!(reply, Reply::Attached)
}

/// Keeps the run on the branch, and answers the reply.
fn attach<R: Wait, G: Gate>(
    alloc: Global,
    assignment: &Assignment<R, G>,
    branch: &Name,
    run: &Shared<Kept>,
    pass: &mut Pass,
) -> Result<Reply, OutOfMemory>
    requires own { pass.old.lock ≡ assignment.now.workplace.now.lock.now }
    requires run { IsKeptIn assignment.now.workplace.now.lock.now.opened.workspace.models run.now }
    ensures { IfOk result (HasOneMore pass.old pass.new
        (entry_of assignment.now.whose 1 (action.Attach branch.now run.now))) }
{
    let branch = branch.copy(alloc)?;
    let kept = run.share()?;
    let attaching = Action::Attach { branch, kept };
    let reply = act(alloc, assignment, 1, attaching, pass)?;
    Ok(reply)
}

/// The report of a fetched branch, whose run is kept on the branch. The gate is told when its simulation starts and ends, outside
/// any turn of the lock.
fn report_of<R: Threads + Wait + Sync, G: Gate, L: Ledger, K: Ledger>(
    alloc: Global,
    assignment: &Assignment<R, G>,
    branch: &Name,
    found: &FetchedBranch,
    worker: &mut Worker<L, K>,
) -> Result<Answer, OutOfMemory>
    requires workplace { IsAssignedTo assignment.now worker.old.pass.now }
    requires benches { AreBenchesAt assignment.now worker.old.benches.now }
    requires found { IsPlanAt assignment.now.workplace.now.lock.now found.now.plan }
    ensures done { IfOk result (IsCarriedOn
        (begun assignment.now (command.Simulate branch.now) (reply_with found.now ∷ []))
        (work_state worker.old) (work_state worker.new)) }
    ensures later { IsLater worker.old worker.new }
{
    let whose = assignment.whose;
    let workplace = assignment.workplace;
    let mission = workplace.mission;
    workplace
        .gate
        .at(whose.client, whose.command, Point::Starts);
    let made = simulate(
        alloc,
        workplace,
        found,
        worker.benches,
        worker.steps,
        worker.looks,
    )?;
    workplace.gate.at(whose.client, whose.command, Point::Ends);
    let reply = attach(alloc, assignment, branch, &made.run, worker.pass)?;
    let report = Report {
        start: mission.start,
        run: made.run,
        constraints: mission.ruled(&found.plan).constraints.share()?,
        revision: found.revision,
        attached: is_attached(&reply),
        statements: mission.count(made.statements),
        detail: mission.form.detail,
    };
    Ok(Answer::Report(report))
}

/// The report of a branch by the reply to its Fetch.
pub(crate) fn reported<R: Threads + Wait + Sync, G: Gate, L: Ledger, K: Ledger>(
    alloc: Global,
    assignment: &Assignment<R, G>,
    branch: &Name,
    first: Reply,
    worker: &mut Worker<L, K>,
) -> Result<Answer, OutOfMemory>
    requires workplace { IsAssignedTo assignment.now worker.old.pass.now }
    requires benches { AreBenchesAt assignment.now worker.old.benches.now }
    requires first { IsReplyAt assignment.now.workplace.now.lock.now first }
    ensures done { IfOk result (IsCarriedOn (begun assignment.now (command.Simulate branch.now) (first ∷ []))
        (work_state worker.old) (work_state worker.new)) }
    ensures later { IsLater worker.old worker.new }
{
    match fetched(first) {
        Ok(found) => report_of(alloc, assignment, branch, &found, worker),
        Err(refusal) => Ok(Answer::Reply(refusal)),
    }
}

/// The commands that a run gives by the rules of its model. Its spans are not found again where it was reported before.
fn sequence_of<'a>(
    alloc: Global,
    mission: &Mission,
    found: &FetchedBranch,
    run: Shared<Kept>,
    benches: &Benches,
) -> Result<Answer, OutOfMemory>
    requires plan { IsPlanOfMission mission.now found.now.plan }
    requires run { run ≡ simulated mission.now.models mission.now.bound found.now.plan }
    ensures { IfOk result (λ answer. answer ≡ sequence_told mission.now found.now.revision found.now.plan) }
{
    let ruled = mission.ruled(&found.plan);
    let (model, rules) = (ruled.model.get(), ruled.sequence.get());
    let sequence = match benches.spans_of(run.get()) {
        Some(spans) => expand_beside(alloc, model, rules, run.get().run(), spans)?,
        None => expand(alloc, model, rules, run.get().run())?,
    };
    Ok(Answer::Expanded(SequenceReport {
        start: mission.start,
        run,
        sequence,
        revision: found.revision,
    }))
}

/// The commands that the run of a fetched branch gives; the run is kept on the branch.
fn expansion_of<R: Threads + Wait + Sync, G: Gate, L: Ledger, K: Ledger>(
    alloc: Global,
    assignment: &Assignment<R, G>,
    branch: &Name,
    found: &FetchedBranch,
    worker: &mut Worker<L, K>,
) -> Result<Answer, OutOfMemory>
    requires workplace { IsAssignedTo assignment.now worker.old.pass.now }
    requires benches { AreBenchesAt assignment.now worker.old.benches.now }
    requires found { IsPlanAt assignment.now.workplace.now.lock.now found.now.plan }
    ensures done { IfOk result (IsCarriedOn
        (begun assignment.now (command.Expand branch.now) (reply_with found.now ∷ []))
        (work_state worker.old) (work_state worker.new)) }
    ensures later { IsLater worker.old worker.new }
{
    let workplace = assignment.workplace;
    let mission = workplace.mission;
    let made = simulate(
        alloc,
        workplace,
        found,
        worker.benches,
        worker.steps,
        worker.looks,
    )?;
    attach(alloc, assignment, branch, &made.run, worker.pass)?;
    let answer = sequence_of(alloc, mission, found, made.run, worker.benches)?;
    Ok(answer)
}

/// The commands that the run of a branch gives, by the reply to its Fetch.
pub(crate) fn expanded<R: Threads + Wait + Sync, G: Gate, L: Ledger, K: Ledger>(
    alloc: Global,
    assignment: &Assignment<R, G>,
    branch: &Name,
    first: Reply,
    worker: &mut Worker<L, K>,
) -> Result<Answer, OutOfMemory>
    requires workplace { IsAssignedTo assignment.now worker.old.pass.now }
    requires benches { AreBenchesAt assignment.now worker.old.benches.now }
    requires first { IsReplyAt assignment.now.workplace.now.lock.now first }
    ensures done { IfOk result (IsCarriedOn (begun assignment.now (command.Expand branch.now) (first ∷ []))
        (work_state worker.old) (work_state worker.new)) }
    ensures later { IsLater worker.old worker.new }
{
    match fetched(first) {
        Ok(found) => expansion_of(alloc, assignment, branch, &found, worker),
        Err(refusal) => Ok(Answer::Reply(refusal)),
    }
}
