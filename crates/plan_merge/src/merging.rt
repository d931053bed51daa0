//! The merge.

ghost use Rattle.std.specs.Prelude.{◌≡◌, ◌≤◌, ◌<◌, ◌^◌, [], IsTrue, IfOk, IfSome, length, drop};
ghost use Rattle.plan_merge.specs.Anchors.{shown_anchor};
ghost use Rattle.aerie_base.specs.plans.OfModel.{ids_of, rise_to};
ghost use Rattle.plan_merge.specs.declared.answers.ConflictKind.TheVariants.{Anchor as Dangling};
ghost use Rattle.plan_merge.specs.Merging.{merge_of, made_or_conflicts, made, next_after, conflicts_of, has_dangling_anchor};
ghost use Rattle.plan_merge.specs.Plans.{AreMergeable, IsInOrder};
ghost use Rattle.plan_merge.specs.Answers.{UnlessOutOfMemory, HasSmallIds, HaveSmallIds};

use crate::anchors::dangling;
use crate::answers::{MergeError, Merged};
use crate::cycles::on_cycles;
use crate::left::{clashes, left, push_added};
use crate::renaming::{first_new, rename_all};
use crate::wide_directives::{WideAnchor, WideDirective};
use aerie_base::{Anchor, Directive, List, OutOfMemory, Plan, copy_list};
use std::alloc::Global;

/// The most directives of a plan.
const DIRECTIVE_LIMIT: usize = 65_536;

/// Does to the target what the source did since the base: a directive that only one of the two changed or removed is as
/// that one has it, those new in the source get new ids, and those new in the target stay. It takes time near linear in
/// the directives of the three plans.
pub fn merge(alloc: Global, base: &Plan, source: &Plan, target: &Plan) -> Result<Merged, MergeError>
    requires order { AreMergeable base.now source.now target.now }
    ensures exact { UnlessOutOfMemory (merge_of base.now source.now target.now) result }
    ensures order { IfOk result (λ merged. IsInOrder merged.plan) }
{
    let all = rename_all(alloc, base, source, target)?;
    let conflicts = clashes(alloc, base, source, target, all.as_slice())?;
    if !conflicts.is_empty() {
        return Err(MergeError::Conflicts(conflicts));
    }
    let mut directives = left(alloc, base, source, target, all.as_slice())?;
    let kept = directives.len();
    push_added(alloc, base, source, target, all.as_slice(), &mut directives)?;
    let next = next_after(base, target, directives.len() - kept);
    judged(alloc, target, next, directives.as_slice(), kept)
}

/// One more than the last id given, or the target's next id where none was given.
fn next_after(base: &Plan, target: &Plan, added: usize) -> u64
    requires few { added < 2 ^ 32 }
    ensures { result ≡ next_after base.now target.now added }
{
    if added == 0 {
        u64::from(target.next_id)
    } else {
        first_new(base, target) + added as u64
    }
}

/// The target with these directives in place of its own, or why that cannot be. Those from a place on are new.
fn judged(
    alloc: Global,
    target: &Plan,
    next: u64,
    directives: &[WideDirective],
    kept: usize,
) -> Result<Merged, MergeError>
    requires rising { IsTrue (rise_to next 0 (ids_of directives.now)) }
    requires few { length directives.now < 2 ^ 32 }
    requires kept { kept ≤ length directives.now }
    ensures { UnlessOutOfMemory (made_or_conflicts target.now next directives.now (drop kept directives.now)) result }
{
    let dangling = dangling(alloc, directives)?;
    if !dangling.is_empty() {
        return Err(MergeError::Conflicts(dangling));
    }
    let cycles = on_cycles(alloc, directives)?;
    if !cycles.is_empty() {
        return Err(MergeError::Conflicts(cycles));
    }
    made(alloc, target, next, directives, kept)
}

/// The target with these directives in place of its own, unless they are too many.
fn made(
    alloc: Global,
    target: &Plan,
    next: u64,
    directives: &[WideDirective],
    kept: usize,
) -> Result<Merged, MergeError>
    requires rising { IsTrue (rise_to next 0 (ids_of directives.now)) }
    requires anchors { conflicts_of Dangling (has_dangling_anchor directives.now) directives.now ≡ [] }
    requires kept { kept ≤ length directives.now }
    ensures { UnlessOutOfMemory (made target.now next directives.now (drop kept directives.now)) result }
{
    if directives.len() > DIRECTIVE_LIMIT || next > u64::from(u32::MAX) {
        return Err(MergeError::TooMany);
    }
    let plan = Plan {
        model: target.model,
        duration: target.duration,
        next_id: next as u32,
        directives: narrowed(alloc, directives)?,
    };
    let added = ids(alloc, &directives[kept..])?;
    Ok(Merged { plan, added })
}

/// The directives as those of a plan.
fn narrowed(alloc: Global, directives: &[WideDirective]) -> Result<List<Directive>, OutOfMemory>
    requires small { HaveSmallIds directives.now }
    ensures { IfOk result (λ narrow. narrow ≡ directives.now) }
{
    let mut narrow = List::with_capacity(alloc, directives.len())?;
    for at in 0..directives.len() {
        narrow.push(narrowed_one(alloc, &directives[at])?)?;
    }
    Ok(narrow)
}

/// The directive as one of a plan.
fn narrowed_one(alloc: Global, directive: &WideDirective) -> Result<Directive, OutOfMemory>
    requires small { HasSmallIds directive.now }
    ensures { IfOk result (λ narrow. narrow ≡ directive.now) }
{
    Ok(Directive {
        id: directive.id as u32,
        start: directive.start,
        anchor: narrowed_anchor(directive.anchor),
        kind: directive.kind,
        arguments: copy_list(alloc, &directive.arguments)?,
    })
}

/// The anchor as one of a plan's directive.
fn narrowed_anchor(anchor: Option<WideAnchor>) -> Option<Anchor>
    requires small { IfSome (shown_anchor anchor) (λ anchor. anchor.to < 2 ^ 32) }
    ensures { result ≡ shown_anchor anchor }
{
    match anchor {
        None => None,
        Some(anchor) => Some(Anchor {
            to: anchor.to as u32,
            edge: anchor.edge,
        }),
    }
}

/// The ids of the directives.
fn ids(alloc: Global, directives: &[WideDirective]) -> Result<List<u32>, OutOfMemory>
    requires small { HaveSmallIds directives.now }
    ensures { IfOk result (λ ids. ids ≡ ids_of directives.now) }
{
    let mut ids = List::with_capacity(alloc, directives.len())?;
    for at in 0..directives.len() {
        ids.push(directives[at].id() as u32)?;
    }
    Ok(ids)
}
