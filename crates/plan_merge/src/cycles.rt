//! Cycles of anchors. A directive is on a cycle exactly where it is reached from one by more anchors than there are
//! directives. What they reach is found by doubling how many are followed.

ghost use Rattle.std.specs.Prelude.{◌≡◌, ◌<◌, ◌^◌, Bool, false, ◌||◌, IfOk, length, map};
ghost use Rattle.std.specs.List.{list_any};
ghost use Rattle.aerie_base.specs.declared.plans.Directive.{Directive as Shown};
ghost use Rattle.aerie_base.specs.plans.OfModel.{anchored_to, Rise};
ghost use Rattle.plan_merge.specs.declared.answers.ConflictKind.TheVariants.{Cycle as OnCycle};
ghost use Rattle.plan_merge.specs.Merging.{is_at, is_on_cycle, conflicts_of};
ghost use Rattle.plan_merge.specs.Reached.{reached_from, AreReachedAfterEnough};

use crate::answers::{Conflict, ConflictKind};
use crate::lists::{conflict_where, push_some};
use crate::wide_directives::WideDirective;
use aerie_base::{HasIds, List, OutOfMemory, position_of_id};
use std::alloc::Global;

/// The id to which each of some directives is anchored.
fn anchor_ids<D: HasIds>(alloc: Global, directives: &[D]) -> Result<Vec<Option<u64>>, OutOfMemory>
    ensures { IfOk result (λ ids. ids.items ≡ map anchored_to (D.as_directives directives.now)) }
{
    let mut ids = Vec::with_capacity(alloc, directives.len())?;
    for at in 0..directives.len() {
        ids.push(D::anchor_at(directives, at))?;
    }
    Ok(ids)
}

/// What is reached from the directive with an id, where there is one, by what is reached from each.
fn reached_from<D: HasIds>(
    directives: &[D],
    reached: &[Option<u64>],
    id: Option<u64>,
) -> Option<u64>
    requires rising { Rise (D.as_directives directives.now) }
    requires count { length reached.now ≡ length directives.now }
    ensures { result ≡ reached_from (D.as_directives directives.now) reached.now id }
{
    match id {
        None => None,
        Some(id) => match position_of_id(directives, id) {
            None => None,
            Some(at) => reached[at],
        },
    }
}

/// What is reached from each directive by twice as many anchors.
fn doubled<D: HasIds>(
    alloc: Global,
    directives: &[D],
    reached: &[Option<u64>],
) -> Result<Vec<Option<u64>>, OutOfMemory>
    requires rising { Rise (D.as_directives directives.now) }
    requires count { length reached.now ≡ length directives.now }
    ensures { IfOk result (λ doubled.
        doubled.items ≡ map (reached_from (D.as_directives directives.now) reached.now) reached.now) }
{
    let mut doubled = Vec::with_capacity(alloc, reached.len())?;
    for one in reached {
        doubled.push(reached_from(directives, reached, *one))?;
    }
    Ok(doubled)
}

/// What is reached from each of some directives by more anchors than there are directives, in about as many steps as there
/// are directives times the square of its logarithm.
pub fn reached_after_enough<D: HasIds>(
    alloc: Global,
    directives: &[D],
) -> Result<Vec<Option<u64>>, OutOfMemory>
    requires rising { Rise (D.as_directives directives.now) }
    requires few { length directives.now < 2 ^ 32 }
    ensures { IfOk result (λ reached. AreReachedAfterEnough (D.as_directives directives.now) reached.items) }
{
    let mut reached = anchor_ids(alloc, directives)?;
    let mut steps = 1;
    while steps <= directives.len() {
        reached = doubled(alloc, directives, reached.as_slice())?;
        steps += steps;
    }
    Ok(reached)
}

/// No mark for each directive.
fn no_marks(alloc: Global, directives: &[WideDirective]) -> Result<Vec<bool>, OutOfMemory>
    ensures { IfOk result (λ marks.
        marks.items ≡ map (λ (directive : Shown). false) directives.now) }
{
    let mut marks = Vec::with_capacity(alloc, directives.len())?;
    for _directive in directives {
        marks.push(false)?;
    }
    Ok(marks)
}

/// Which directives are reached.
fn marks(
    alloc: Global,
    directives: &[WideDirective],
    reached: &[Option<u64>],
) -> Result<Vec<bool>, OutOfMemory>
    requires rising { Rise directives.now }
    ensures { IfOk result (λ marks.
        marks.items ≡ map (λ (directive : Shown). list_any (is_at directive.id) reached.now) directives.now) }
{
    let mut marks = no_marks(alloc, directives)?;
    for at in 0..reached.len() {
        mark(directives, &mut marks, reached[at]);
    }
    Ok(marks)
}

/// Marks the directive with an id, where there is one.
fn mark(directives: &[WideDirective], marks: &mut Vec<bool>, reached: Option<u64>)
    requires rising { Rise directives.now }
    requires count { length marks.old.items ≡ length directives.now }
    ensures marked { (led : Shown → Bool) → marks.old.items ≡ map led directives.now →
        marks.new.items ≡ map (λ (directive : Shown). led directive || is_at directive.id reached) directives.now }
    ensures count { length marks.new.items ≡ length directives.now }
{
    if let Some(id) = reached {
        match position_of_id(directives, id) {
            None => {}
            Some(at) => marks[at] = true,
        }
    }
}

/// The directives that are marked, as conflicts.
fn marked(
    alloc: Global,
    directives: &[WideDirective],
    marks: &[bool],
) -> Result<List<Conflict>, OutOfMemory>
    requires count { length marks.now ≡ length directives.now }
    ensures { IfOk result (λ conflicts. (test : Shown → Bool) → marks.now ≡ map test directives.now →
        conflicts ≡ conflicts_of OnCycle test directives.now) }
{
    let mut conflicts = List::new(alloc);
    for at in 0..directives.len() {
        push_some(
            &mut conflicts,
            conflict_where(ConflictKind::Cycle, directives[at].id(), marks[at]),
        )?;
    }
    Ok(conflicts)
}

/// The directives to which following anchors returns.
pub fn on_cycles(alloc: Global, directives: &[WideDirective]) -> Result<List<Conflict>, OutOfMemory>
    requires rising { Rise directives.now }
    requires few { length directives.now < 2 ^ 32 }
    ensures { IfOk result (λ conflicts. conflicts ≡ conflicts_of OnCycle (is_on_cycle directives.now) directives.now) }
{
    let reached = reached_after_enough(alloc, directives)?;
    let marks = marks(alloc, directives, reached.as_slice())?;
    marked(alloc, directives, marks.as_slice())
}
