//! The ids that the directives of the source get.

ghost use Rattle.std.specs.Prelude.{◌≡◌, ◌<◌, ◌+◌, ◌^◌, ℕ, List as Items, IfOk, length, map, option_map, option_copied};
ghost use Rattle.aerie_base.specs.declared.plans.Directive.{Directive as Shown};
ghost use Rattle.aerie_base.specs.plans.OfModel.{with_id, Rise};
ghost use Rattle.plan_merge.specs.Renaming.{has, first_new, new_id, AreNewIds, with_new_id, with_new_ids, renamed};
ghost use Rattle.plan_merge.specs.Anchors.{shown_anchor};

use crate::wide_directives::{WideAnchor, WideDirective};
use aerie_base::{Anchor, Directive, List, OutOfMemory, Plan, copy_list, position_in_plan};
use std::alloc::Global;

/// Whether one of some directives has the id.
pub fn has(directives: &[Directive], id: u32) -> bool
    requires rising { Rise directives.now }
    ensures { result ≡ has directives.now id }
{
    position_in_plan(directives, id).is_some()
}

/// The first new id: the greater of the base's and the target's next id.
pub fn first_new(base: &Plan, target: &Plan) -> u64
    ensures value { result ≡ first_new base.now target.now }
    ensures range { result < 2 ^ 32 }
{
    if base.next_id < target.next_id {
        u64::from(target.next_id)
    } else {
        u64::from(base.next_id)
    }
}

/// The ids that the directives of the source get, in their order.
fn new_ids(
    alloc: Global,
    base: &[Directive],
    first: u64,
    source: &[Directive],
) -> Result<Vec<u64>, OutOfMemory>
    requires base { Rise base.now }
    requires source { Rise source.now }
    requires room { first < 2 ^ 32 }
    requires few { length source.now < 2 ^ 32 }
    ensures { IfOk result (λ ids. AreNewIds base.now first source.now ids.items) }
{
    let mut ids = Vec::with_capacity(alloc, source.len())?;
    let mut next = first;
    for directive in source {
        if has(base, directive.id) {
            ids.push(u64::from(directive.id))?;
        } else {
            ids.push(next)?;
            next += 1;
        }
    }
    Ok(ids)
}

/// The id that the directive of the source with an id gets, by the ids that all of them get.
fn new_id(source: &[Directive], ids: &[u64], id: u32) -> u64
    requires source { Rise source.now }
    requires count { length ids.now ≡ length source.now }
    ensures { (base : Items Shown) (first : ℕ) → AreNewIds base first source.now ids.now →
        result ≡ new_id base first source.now id }
{
    match position_in_plan(source, id) {
        Some(at) => ids[at],
        None => u64::from(id),
    }
}

/// An anchor with the id that its directive gets.
fn renamed_anchor(source: &[Directive], ids: &[u64], anchor: Option<Anchor>) -> Option<WideAnchor>
    requires source { Rise source.now }
    requires count { length ids.now ≡ length source.now }
    ensures { (base : Items Shown) (first : ℕ) → AreNewIds base first source.now ids.now →
        shown_anchor result ≡ option_map (with_new_id (new_id base first source.now)) anchor }
{
    match anchor {
        None => None,
        Some(anchor) => Some(WideAnchor {
            to: new_id(source, ids, anchor.to),
            edge: anchor.edge,
        }),
    }
}

/// A directive of the source with the ids that it and its anchor get.
fn rename(
    alloc: Global,
    source: &[Directive],
    ids: &[u64],
    directive: &Directive,
) -> Result<WideDirective, OutOfMemory>
    requires source { Rise source.now }
    requires count { length ids.now ≡ length source.now }
    ensures { IfOk result (λ one. (base : Items Shown) (first : ℕ) → AreNewIds base first source.now ids.now →
        one ≡ with_new_ids (new_id base first source.now) directive.now) }
{
    Ok(WideDirective {
        id: new_id(source, ids, directive.id),
        start: directive.start,
        anchor: renamed_anchor(source, ids, directive.anchor),
        kind: directive.kind,
        arguments: copy_list(alloc, &directive.arguments)?,
    })
}

/// The directives of the source with the ids that they and their anchors get.
fn rename_by(
    alloc: Global,
    source: &[Directive],
    ids: &[u64],
) -> Result<List<WideDirective>, OutOfMemory>
    requires source { Rise source.now }
    requires count { length ids.now ≡ length source.now }
    ensures { IfOk result (λ all. (base : Items Shown) (first : ℕ) → AreNewIds base first source.now ids.now →
        all ≡ map (with_new_ids (new_id base first source.now)) source.now) }
{
    let mut all = List::with_capacity(alloc, source.len())?;
    for directive in source {
        all.push(rename(alloc, source, ids, directive)?)?;
    }
    Ok(all)
}

/// The source's directives, renamed, in their order.
pub fn rename_all(
    alloc: Global,
    base: &Plan,
    source: &Plan,
    target: &Plan,
) -> Result<List<WideDirective>, OutOfMemory>
    requires base { Rise base.now.directives }
    requires source { Rise source.now.directives }
    requires few { length source.now.directives < 2 ^ 32 }
    ensures { IfOk result (λ all. all ≡ map (renamed base.now source.now target.now) source.now.directives) }
{
    let directives = source.directives.as_slice();
    let first = first_new(base, target);
    let ids = new_ids(alloc, base.directives.as_slice(), first, directives)?;
    rename_by(alloc, directives, ids.as_slice())
}

/// The source's directive with an id, renamed.
pub fn renamed_with<'a>(
    source: &[Directive],
    all: &'a [WideDirective],
    id: u32,
) -> Option<&'a WideDirective>
    requires source { Rise source.now }
    ensures { (new : Shown → Shown) → all.now ≡ map new source.now →
        option_copied result ≡ option_map new (with_id source.now id) }
{
    match position_in_plan(source, id) {
        Some(at) => all.get(at),
        None => None,
    }
}
