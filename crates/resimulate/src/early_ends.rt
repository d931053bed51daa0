//! Where a simulation beside an old run may end with the rest of that run.

ghost use Rattle.std.specs.Prelude.{◌≡◌, ◌≤◌, ◌++◌, [], length, IsTrue, IfOk, IfSome};
ghost use Rattle.aerie_base.specs.plans.OfModel.{IsPlanOf};
ghost use Rattle.run_data.specs.declared.runs.Outcome.TheVariants.{Completed};
ghost use Rattle.run_data.specs.Fresh.{IsFresh};
ghost use Rattle.engine_core.specs.EngineStates.{batches_in, instants_in, jobs_in, spent_in};
ghost use Rattle.resimulate.specs.EarlyEnds.{AreAlikeBehind, EndAtOnce, IsRest, MayBeEnded};
ghost use Rattle.resimulate.specs.Partings.{AreSameOutside, MayEndFrom};
ghost use Rattle.resimulate.specs.SharedEnds.{ShareFirst, SharesEnds};

use crate::alike::tell_alike;
use crate::costs::can_end;
use crate::laws::{frames_tell_alike, instants_follow_settled_states, last_changes_tell_cells};
use crate::old_batches::is_earlier;
use crate::partings::Parting;
use aerie_base::{Model, OutOfMemory, Plan, Shared};
use engine_core::Engine;
use run_data::laws::{
    reached_states_are_of_the_model, rest_of_old_run_is_taken_over,
    tasks_are_traced_by_their_frames,
};
use run_data::{Instant, Outcome, Run};
use std::alloc::Global;

/// The end of an old run that is that of a new one too.
#[derive(Drop)]
pub(crate) struct SharedEnd<'r> {
    /// How many of the first instants of both are known to be the same.
    pub(crate) first: usize,
    /// The instants of the old run behind which the two are alike.
    pub(crate) before: &'r [Shared<Instant>],
    /// The last instants of both.
    pub(crate) rest: &'r [Shared<Instant>],
}

/// Whether a run came to the end of its plan.
fn is_completed(run: &Run) -> bool
    ensures { IsTrue result → run.now.outcome ≡ Completed }
{
    matches!(run.outcome, Outcome::Completed)
}

/// Whether two plans last as long.
fn last_as_long(plan: &Plan, old_plan: &Plan) -> bool
    ensures { IsTrue result → plan.now.duration ≡ old_plan.now.duration }
{
    plan.duration == old_plan.duration
}

/// Whether an old run is one that may end a simulation of a plan: it was completed, and its plan lasts as long.
pub(crate) fn may_be_ended(plan: &Plan, old: &Run) -> bool
    ensures { IsTrue result → MayBeEnded plan.now old.now }
{
    is_completed(old) && last_as_long(plan, old.plan.get())
}

/// Whether some instants end at the time at which others do.
fn end_at_once(instants: &[Shared<Instant>], others: &[Shared<Instant>]) -> bool
    ensures { IsTrue result → EndAtOnce instants.now others.now }
{
    match instants.last() {
        Some(last) => match others.last() {
            Some(other) => last.get().time == other.get().time,
            None => false,
        },
        None => false,
    }
}

/// The least of three.
fn least(one: usize, other: usize, third: usize) -> usize
    ensures one { result ≤ one }
    ensures other { result ≤ other }
    ensures third { result ≤ third }
{
    let both = if one <= other { one } else { other };
    if both <= third { both } else { third }
}

/// Whether an engine is known to be alike with the simulation of an old run behind some instants of that run, of which so many of the
/// first are shared.
#[allow(clippy::too_many_arguments)]
fn is_alike_behind<'a>(
    alloc: Global,
    model: &Model,
    plan: &Plan,
    bound: u64,
    engine: &Engine<'a>,
    old: &Run,
    parting: &Option<Parting>,
    before: &[Shared<Instant>],
    rest: &[Shared<Instant>],
    first: usize,
) -> Result<bool, OutOfMemory>
    requires model { engine.now.model ≡ model.now }
    requires plan { engine.now.plan ≡ plan.now }
    requires bound { engine.now.bound ≡ bound }
    requires job { jobs_in engine.now.point ≡ [] → ⊥ }
    requires begins { batches_in engine.now.point ≡ [] }
    requires fresh { IsFresh model.now old.now.plan old.now.bound old.now }
    requires old_plan { IsPlanOf model.now old.now.plan }
    requires outside { AreSameOutside plan.now old.now.plan parting.now }
    requires may { MayBeEnded plan.now old.now }
    requires parts { old.now.instants ≡ before.now ++ rest.now }
    requires first { ShareFirst (instants_in engine.now.point) before.now first }
    ensures { IfOk result (λ yes. IsTrue yes →
        AreAlikeBehind model.now plan.now old.now.plan bound old.now.bound
        (instants_in engine.now.point) (spent_in engine.now.point) before.now) }
{
    instants_follow_settled_states();
    frames_tell_alike();
    last_changes_tell_cells();
    tasks_are_traced_by_their_frames();
    let _ = model.cells();
    let _ = engine.ready();
    let _ = rest;
    let instants = engine.instants();
    if !end_at_once(instants, before) {
        return Ok(false);
    }
    let old_plan = old.plan.get();
    let alike = tell_alike(
        alloc, model, plan, old_plan, parting, instants, before, first,
    )?;
    Ok(alike)
}

/// The rest of the old run, from the time of the next batch on, if it is known to be that of the new one. So many of the first
/// instants of both are the same.
#[allow(clippy::too_many_arguments)]
pub(crate) fn rest_if_alike<'a, 'r>(
    alloc: Global,
    model: &Model,
    plan: &Plan,
    bound: u64,
    engine: &Engine<'a>,
    old: &'r Run,
    parting: &Option<Parting>,
    shared: usize,
) -> Result<Option<SharedEnd<'r>>, OutOfMemory>
    requires model { engine.now.model ≡ model.now }
    requires plan { engine.now.plan ≡ plan.now }
    requires bound { engine.now.bound ≡ bound }
    requires job { jobs_in engine.now.point ≡ [] → ⊥ }
    requires begins { batches_in engine.now.point ≡ [] }
    requires fresh { IsFresh model.now old.now.plan old.now.bound old.now }
    requires old_plan { IsPlanOf model.now old.now.plan }
    requires outside { AreSameOutside plan.now old.now.plan parting.now }
    requires may { MayEndFrom model.now plan.now bound old.now shared }
    ensures rest { IfOk result (λ found. IfSome found (λ it.
        IsRest model.now plan.now bound engine.now it.rest.now)) }
    ensures shares { IfOk result (λ found. IfSome found (λ it. SharesEnds
        old.now.instants (instants_in engine.now.point ++ it.rest.now) it.first (length it.rest.now))) }
    ensures alike { IfOk result (λ found. IfSome found (λ it.
        AreAlikeBehind model.now plan.now old.now.plan bound old.now.bound
        (instants_in engine.now.point) (spent_in engine.now.point) it.before.now)) }
    ensures first { IfOk result (λ found. IfSome found (λ it.
        ShareFirst (instants_in engine.now.point) it.before.now it.first)) }
{
    reached_states_are_of_the_model();
    tasks_are_traced_by_their_frames();
    rest_of_old_run_is_taken_over();
    let _ = model.cells();
    let _ = engine.ready();
    let time = engine.time();
    let instants = engine.instants();
    let olds = old.instants.as_slice();
    let at = olds.partition_point(|instant| is_earlier(instant, time));
    let parts = olds.split_at(at);
    let before = parts.0;
    let rest = parts.1;
    let first = least(shared, instants.len(), before.len());
    let alike = is_alike_behind(
        alloc, model, plan, bound, engine, old, parting, before, rest, first,
    )?;
    if !alike {
        return Ok(None);
    }
    if !can_end(
        bound,
        old.bound,
        engine.spent(),
        instants,
        before,
        rest,
        first,
    ) {
        return Ok(None);
    }
    Ok(Some(SharedEnd {
        first,
        before,
        rest,
    }))
}
