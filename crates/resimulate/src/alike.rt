//! Whether the instants of two runs tell that their simulations are alike behind them.

ghost use Rattle.std.specs.Prelude.{◌≡◌, ◌++◌, false, IsTrue, IfOk, OnOk, []};
ghost use Rattle.aerie_base.specs.plans.OfModel.{Rise};
ghost use Rattle.aerie_base.specs.Paths.{root};
ghost use Rattle.resimulate.specs.AlikeByFrames.{FramesAgree};
ghost use Rattle.resimulate.specs.Likeness.{AllGoOn, AllLikeUnbegun, AnchorNotCome, AreAlikeAboveOpen, GoesOnAt, HasSame, HasTrace, IsFreeIfParted};
ghost use Rattle.resimulate.specs.Likeness.{IsLikeUnbegun, KeepsRoots, NoneOpenAmong, NoneOpenNoted, NotComeBy, NotesAt, NotesDiffering, NotOpenAt};
ghost use Rattle.resimulate.specs.Likeness.{StandsUnnoted, TellAlike, TracesAgree};
ghost use Rattle.resimulate.specs.Origins.{origin_number};
ghost use Rattle.resimulate.specs.Partings.{AreSameOutside};
ghost use Rattle.resimulate.specs.SharedEnds.{ShareFirst};
ghost use Rattle.resimulate.specs.Traces.{trace_of};
ghost use Rattle.resimulate.specs.UnbegunTasks.{IsInPlan};

use crate::cells::have_same_changes;
use crate::partings::{Parting, is_id_between};
use crate::traces::{Roots, Trace, Traces, has_root, origin_number, traces_of};
use aerie_base::{Anchor, Directive, Edge, Model, OutOfMemory, Path, Plan, Shared, position_of_id};
use indexmap::IndexSet;
use run_data::Instant;
use std::alloc::Global;

/// Whether it is known that the task of a path is the same in the other run.
fn has_same(trace: &Trace, others: &Traces, path: &Shared<Path>) -> bool
    ensures { IsTrue result → HasSame trace.now (trace_of others.now.entries path.now) }
{
    match others.get(path) {
        Some(other) => trace.tells_same(other),
        None => false,
    }
}

/// Notes the root of the task at an index, if that differs.
fn note_at(
    traces: &Traces,
    others: &Traces,
    at: usize,
    roots: &mut Roots,
) -> Result<(), OutOfMemory>
    ensures noted { OnOk result (NotesAt traces.now.entries others.now.entries at roots.new.keys) }
    ensures kept { OnOk result (KeepsRoots roots.old.keys roots.new.keys) }
{
    if let Some((path, trace)) = traces.get_index(at) {
        if !has_same(trace, others, path) {
            roots.insert(origin_number(path.get()))?;
        }
    }
    Ok(())
}

/// Notes the root of each task that differs.
fn note_differing(traces: &Traces, others: &Traces, roots: &mut Roots) -> Result<(), OutOfMemory>
    ensures noted { OnOk result (NotesDiffering traces.now.entries others.now.entries roots.new.keys) }
    ensures kept { OnOk result (KeepsRoots roots.old.keys roots.new.keys) }
{
    for at in 0..traces.len() {
        note_at(traces, others, at, roots)?;
    }
    Ok(())
}

/// Whether the body of the task at an index is open, and its root noted.
fn is_open_at(traces: &Traces, at: usize, roots: &Roots) -> bool
    ensures { result ≡ false → NotOpenAt traces.now.entries at roots.now.keys }
{
    match traces.get_index(at) {
        Some((path, trace)) => trace.is_open() && has_root(roots, origin_number(path.get())),
        None => false,
    }
}

/// Whether some body is open whose root is noted.
fn is_open_among(traces: &Traces, roots: &Roots) -> bool
    ensures { result ≡ false → NoneOpenAmong traces.now.entries roots.now.keys }
{
    for at in 0..traces.len() {
        if is_open_at(traces, at, roots) {
            return true;
        }
    }
    false
}

/// Whether there is a trace of a path.
fn has_trace(traces: &Traces, path: &Shared<Path>) -> bool
    ensures { IsTrue result → HasTrace traces.now.entries path.now }
{
    traces.contains_key(path)
}

/// Whether the task at an index has ended its body, or goes on in both runs.
fn goes_on_at(before: &Traces, traces: &Traces, others: &Traces, at: usize) -> bool
    ensures { IsTrue result → GoesOnAt before.now.entries traces.now.entries others.now.entries at }
{
    match before.get_index(at) {
        Some((path, trace)) => {
            !trace.is_open() || (has_trace(traces, path) && has_trace(others, path))
        }
        None => true,
    }
}

/// Whether that holds for all of them.
fn all_go_on(before: &Traces, traces: &Traces, others: &Traces) -> bool
    ensures { IsTrue result → AllGoOn before.now.entries traces.now.entries others.now.entries }
{
    for at in 0..before.len() {
        if !goes_on_at(before, traces, others, at) {
            return false;
        }
    }
    true
}

/// Whether no body is open whose root is noted, neither by later frames nor by those of the first instants.
fn none_open_noted(
    alloc: Global,
    first: &[Shared<Instant>],
    traces: &Traces,
    others: &Traces,
    roots: &Roots,
) -> Result<bool, OutOfMemory>
    ensures { IfOk result (λ yes.
        IsTrue yes → NoneOpenNoted first.now traces.now.entries others.now.entries roots.now.keys) }
{
    if is_open_among(traces, roots) {
        return Ok(false);
    }
    if is_open_among(others, roots) {
        return Ok(false);
    }
    let before = traces_of(alloc, false, roots, first)?;
    Ok(all_go_on(&before, traces, others))
}

/// The path of a directive's own task.
fn path_of(alloc: Global, id: u32) -> Result<Shared<Path>, OutOfMemory>
    ensures { IfOk result (λ path. path ≡ root id) }
{
    let path = Path::of_directive(alloc, id)?;
    let path = Shared::new(alloc, path)?;
    Ok(path)
}

/// Whether it is known that an anchor, if there is one, has not come.
fn has_not_come(
    alloc: Global,
    traces: &Traces,
    anchor: &Option<Anchor>,
) -> Result<bool, OutOfMemory>
    ensures { IfOk result (λ yes. IsTrue yes → AnchorNotCome traces.now.entries anchor.now) }
{
    let Some(anchor) = anchor else {
        return Ok(true);
    };
    let path = path_of(alloc, anchor.to)?;
    Ok(is_not_come(traces, &path, anchor.edge))
}

/// The same of an edge of the directive of this path.
fn is_not_come(traces: &Traces, path: &Shared<Path>, edge: Edge) -> bool
    ensures { IsTrue result → NotComeBy (trace_of traces.now.entries path.now) edge }
{
    match traces.get(path) {
        None => true,
        Some(trace) => match edge {
            Edge::Start => false,
            Edge::End => trace.is_open(),
        },
    }
}

/// Whether a plan has this directive at an index.
fn stands_at(plan: &Plan, at: usize, directive: &Directive) -> bool
    ensures { IsTrue result → IsInPlan plan.now directive.now }
{
    match plan.directives.as_slice().get(at) {
        Some(other) => other.is_same(directive),
        None => false,
    }
}

/// Whether a plan has this directive, which may be at the index where the other plan has it.
fn stands_in(plan: &Plan, at: usize, directive: &Directive) -> bool
    requires { Rise plan.now.directives }
    ensures { IsTrue result → IsInPlan plan.now directive.now }
{
    if stands_at(plan, at, directive) {
        return true;
    }
    let directives = plan.directives.as_slice();
    match position_of_id(directives, u64::from(directive.id)) {
        Some(at) => directives[at].is_same(directive),
        None => false,
    }
}

/// The number of a directive.
fn number_of(id: u32) -> u64
    ensures { result ≡ origin_number (root id) }
{
    u64::from(id) * 2
}

/// Whether a directive of a plan is known to stand in the other plan too, since it is not of the range where the plans part.
fn is_outside(
    plan: &Plan,
    old_plan: &Plan,
    parting: &Option<Parting>,
    directive: &Directive,
) -> bool
    requires in_plan { IsInPlan plan.now directive.now }
    requires outside { AreSameOutside plan.now old_plan.now parting.now }
    ensures { IsTrue result → IsInPlan old_plan.now directive.now }
{
    let Some(place) = parting else {
        return false;
    };
    if is_id_between(place.first, place.past, directive.id) {
        return false;
    }
    true
}

/// Whether a directive stands in the other plan too, which is compared where that is not known.
fn stands_too(
    plan: &Plan,
    old_plan: &Plan,
    parting: &Option<Parting>,
    at: usize,
    directive: &Directive,
) -> bool
    requires old_plan { Rise old_plan.now.directives }
    requires in_plan { IsInPlan plan.now directive.now }
    requires outside { AreSameOutside plan.now old_plan.now parting.now }
    ensures { IsTrue result → IsInPlan old_plan.now directive.now }
{
    if is_outside(plan, old_plan, parting, directive) {
        return true;
    }
    stands_in(old_plan, at, directive)
}

/// Whether a directive stands in the other plan too, without an anchor, and is not noted.
fn stands_unnoted(
    plan: &Plan,
    old_plan: &Plan,
    parting: &Option<Parting>,
    at: usize,
    roots: &Roots,
    directive: &Directive,
) -> bool
    requires old_plan { Rise old_plan.now.directives }
    requires in_plan { IsInPlan plan.now directive.now }
    requires outside { AreSameOutside plan.now old_plan.now parting.now }
    ensures { IsTrue result → StandsUnnoted old_plan.now roots.now.keys directive.now }
{
    directive.anchor.is_none()
        && !has_root(roots, number_of(directive.id))
        && stands_too(plan, old_plan, parting, at, directive)
}

/// Whether a directive is not anchored, or the beginning of the runs was not left out.
fn is_free_if_parted(parted: bool, anchor: &Option<Anchor>) -> bool
    ensures { IsTrue result → IsFreeIfParted parted anchor.now }
{
    match anchor {
        None => true,
        Some(_) => !parted,
    }
}

/// Whether a directive that has not begun is known to wait alike in both runs. Mostly that needs no trace of it.
#[allow(clippy::too_many_arguments)]
fn is_like_unbegun(
    alloc: Global,
    parted: bool,
    plan: &Plan,
    old_plan: &Plan,
    parting: &Option<Parting>,
    at: usize,
    traces: &Traces,
    others: &Traces,
    roots: &Roots,
    directive: &Directive,
) -> Result<bool, OutOfMemory>
    requires old_plan { Rise old_plan.now.directives }
    requires in_plan { IsInPlan plan.now directive.now }
    requires outside { AreSameOutside plan.now old_plan.now parting.now }
    requires noted { NotesDiffering others.now.entries traces.now.entries roots.now.keys }
    ensures { IfOk result (λ yes.
        IsTrue yes → IsLikeUnbegun old_plan.now parted traces.now.entries others.now.entries directive.now) }
{
    if stands_unnoted(plan, old_plan, parting, at, roots, directive) {
        return Ok(true);
    }
    let yes = is_like_by_traces(alloc, parted, old_plan, at, traces, others, directive)?;
    Ok(yes)
}

/// The same, by the traces of the directive and of its anchor.
fn is_like_by_traces(
    alloc: Global,
    parted: bool,
    old_plan: &Plan,
    at: usize,
    traces: &Traces,
    others: &Traces,
    directive: &Directive,
) -> Result<bool, OutOfMemory>
    requires { Rise old_plan.now.directives }
    ensures { IfOk result (λ yes.
        IsTrue yes → IsLikeUnbegun old_plan.now parted traces.now.entries others.now.entries directive.now) }
{
    let path = path_of(alloc, directive.id)?;
    if traces.contains_key(&path) {
        return Ok(true);
    }
    if others.contains_key(&path) || !stands_in(old_plan, at, directive) {
        return Ok(false);
    }
    if !is_free_if_parted(parted, &directive.anchor) {
        return Ok(false);
    }
    let here = has_not_come(alloc, traces, &directive.anchor)?;
    let there = has_not_come(alloc, others, &directive.anchor)?;
    Ok(here && there)
}

/// The same of all directives of a plan.
#[allow(clippy::too_many_arguments)]
fn are_like_unbegun(
    alloc: Global,
    parted: bool,
    plan: &Plan,
    old_plan: &Plan,
    parting: &Option<Parting>,
    traces: &Traces,
    others: &Traces,
    roots: &Roots,
) -> Result<bool, OutOfMemory>
    requires old_plan { Rise old_plan.now.directives }
    requires outside { AreSameOutside plan.now old_plan.now parting.now }
    requires noted { NotesDiffering others.now.entries traces.now.entries roots.now.keys }
    ensures { IfOk result (λ yes.
        IsTrue yes → AllLikeUnbegun plan.now old_plan.now parted traces.now.entries others.now.entries) }
{
    let directives = plan.directives.as_slice();
    for at in 0..directives.len() {
        let directive = &directives[at];
        let yes = is_like_unbegun(
            alloc, parted, plan, old_plan, parting, at, traces, others, roots, directive,
        )?;
        if !yes {
            return Ok(false);
        }
    }
    Ok(true)
}

/// The directives and daemons of which some task differs.
fn differing_roots(alloc: Global, traces: &Traces, others: &Traces) -> Result<Roots, OutOfMemory>
    ensures here { IfOk result (λ roots. NotesDiffering traces.now.entries others.now.entries roots.keys) }
    ensures there { IfOk result (λ roots. NotesDiffering others.now.entries traces.now.entries roots.keys) }
{
    let mut roots = IndexSet::new(alloc);
    note_differing(traces, others, &mut roots)?;
    note_differing(others, traces, &mut roots)?;
    Ok(roots)
}

/// Whether some instants are left out.
fn is_parted(first: &[Shared<Instant>]) -> bool
    ensures { result ≡ false → first.now ≡ [] }
{
    !first.is_empty()
}

/// Whether the traces of two runs behind the first instants, and what their plans say of what has not begun, are known to tell the
/// same.
#[allow(clippy::too_many_arguments)]
fn traces_agree(
    alloc: Global,
    plan: &Plan,
    old_plan: &Plan,
    parting: &Option<Parting>,
    first: &[Shared<Instant>],
    traces: &Traces,
    others: &Traces,
) -> Result<bool, OutOfMemory>
    requires plan { Rise plan.now.directives }
    requires old_plan { Rise old_plan.now.directives }
    requires outside { AreSameOutside plan.now old_plan.now parting.now }
    ensures { IfOk result (λ yes.
        IsTrue yes → TracesAgree plan.now old_plan.now first.now traces.now.entries others.now.entries) }
{
    let roots = differing_roots(alloc, traces, others)?;
    let none = none_open_noted(alloc, first, traces, others, &roots)?;
    if !none {
        return Ok(false);
    }
    let parted = is_parted(first);
    let begun = are_like_unbegun(
        alloc, parted, plan, old_plan, parting, traces, others, &roots,
    )?;
    if !begun {
        return Ok(false);
    }
    let old_begun = are_like_unbegun(
        alloc, parted, old_plan, plan, parting, others, traces, &roots,
    )?;
    Ok(old_begun)
}

/// Whether the frames of two runs are known to agree whose first instants are the same, by those of their later ones.
fn frames_agree(
    alloc: Global,
    plan: &Plan,
    old_plan: &Plan,
    parting: &Option<Parting>,
    first: &[Shared<Instant>],
    later: &[Shared<Instant>],
    old_later: &[Shared<Instant>],
) -> Result<bool, OutOfMemory>
    requires plan { Rise plan.now.directives }
    requires old_plan { Rise old_plan.now.directives }
    requires outside { AreSameOutside plan.now old_plan.now parting.now }
    ensures { IfOk result (λ yes.
        IsTrue yes → FramesAgree plan.now old_plan.now (first.now ++ later.now) (first.now ++ old_later.now)) }
{
    let none = IndexSet::new(alloc);
    let traces = traces_of(alloc, true, &none, later)?;
    let old_traces = traces_of(alloc, true, &none, old_later)?;
    let agree = traces_agree(alloc, plan, old_plan, parting, first, &traces, &old_traces)?;
    Ok(agree)
}

/// Whether the instants of two runs, which end at one time and of which so many of the first are the same, are known to tell that
/// the cells and the tasks behind them are the same, but for what has ended. It goes over the frames of the others, and looks
/// among those of the first ones for the tasks of what differs.
#[allow(clippy::too_many_arguments)]
pub(crate) fn tell_alike(
    alloc: Global,
    model: &Model,
    plan: &Plan,
    old_plan: &Plan,
    parting: &Option<Parting>,
    instants: &[Shared<Instant>],
    others: &[Shared<Instant>],
    shared: usize,
) -> Result<bool, OutOfMemory>
    requires plan { Rise plan.now.directives }
    requires old_plan { Rise old_plan.now.directives }
    requires outside { AreSameOutside plan.now old_plan.now parting.now }
    requires first { ShareFirst instants.now others.now shared }
    ensures { IfOk result (λ yes. IsTrue yes → TellAlike model.now plan.now old_plan.now instants.now others.now) }
{
    let parts = instants.split_at(shared);
    let first = parts.0;
    let later = parts.1;
    let old_parts = others.split_at(shared);
    let old_later = old_parts.1;
    let same = have_same_changes(alloc, model.cells().len(), later, old_later)?;
    if !same {
        return Ok(false);
    }
    let agree = frames_agree(alloc, plan, old_plan, parting, first, later, old_later)?;
    Ok(agree)
}
