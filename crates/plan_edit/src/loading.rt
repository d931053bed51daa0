//! Plans are read from JSON.

ghost use Rattle.std.specs.Prelude.{◌≡◌, ◌<◌, ◌≤◌, ◌+◌, IsTrue, Some, Ok, IfOk, IfErr, OnOk, OnErr, length, map, option_map};
ghost use Rattle.std.specs.Ordering.{nat_cmp};
ghost use Rattle.std.specs.BTreeMap.{get as noted_at};
ghost use Rattle.aerie_base.specs.models.ValidModel.{valid_model};
ghost use Rattle.aerie_base.specs.plans.OfModel.{is_dangling, IsPlanOf};
ghost use Rattle.plan_edit.specs.Answers.{IsMade, IsRefusal};
ghost use Rattle.plan_edit.specs.Editing.{ChangesAt};
ghost use Rattle.plan_edit.specs.Loading.{anchor_to_new_id as anchor_to_new_id_by, anchored_to_new_id, directives_of_text as directives_by_text, is_id_of_one, is_past_room as is_past_by, load_all as load_all_by, load_of, load_one as load_one_by, load_placed as load_placed_by, load_written as load_written_by, position_noted, with_loaded, IsIndexOf, NotesOneMore};
ghost use Rattle.plan_edit.specs.PlanForm.{if_formed, plan_text};

use crate::adding::given_of;
use crate::arguments::Given;
use crate::cycles::has_cycle;
use crate::errors::EditError;
use crate::forms::{WrittenDirective, plan_form};
use crate::placing::is_outside;
use aerie_base::{Anchor, Directive, List, Model, OutOfMemory, Plan};
use serde_json::Value;
use std::alloc::Global;
use std::collections::BTreeMap;

/// The most directives of a plan.
const MOST_DIRECTIVES: usize = 65_536;

/// The greatest next id of a plan.
const LAST_ID: u32 = 4_294_967_295;

/// Replaces all directives by those of a text, under new ids in order, and answers the first of these, which is the next id
/// that the plan had, and their number. The text is a JSON object with the member `directives` alone, a list of objects with
/// `start`, `type`, `arguments` and maybe `id` and `anchor`, as `show` prints them. It refuses with `NotAPlan` where it is not;
/// or else for the first directive to which one applies with `UnknownType`, `BadArgument`, `Invalid`, `OutsidePlan`, `TooMany` or
/// `NoAnchor`, whichever comes first in this order; or else with `Cycle`. The time that it takes is near linear in the text.
pub fn read_plan_json(
    alloc: Global,
    model: &Model,
    plan: &mut Plan,
    text: &str,
) -> Result<(u32, u32), EditError>
    requires plan { IsPlanOf model.now plan.old }
    ensures edited { OnOk result (load_of model.now plan.old text.now ≡ Ok plan.new) }
    ensures first { IfOk result (λ loaded. loaded.0 ≡ plan.old.next_id) }
    ensures count { IfOk result (λ loaded. loaded.1 ≡ length plan.new.directives) }
    ensures refused { IfErr result (IsRefusal (load_of model.now plan.old text.now)) }
    ensures unchanged { OnErr result (plan.new ≡ plan.old) }
    ensures plan { IsPlanOf model.now plan.new }
{
    let directives = directives_of_text(alloc, model, plan, text)?;
    let first = plan.next_id;
    let count = directives.len() as u32;
    plan.directives = directives;
    plan.next_id = first + count;
    Ok((first, count))
}

/// The directives of a text, under their new ids.
fn directives_of_text(
    alloc: Global,
    model: &Model,
    plan: &Plan,
    text: &str,
) -> Result<List<Directive>, EditError>
    requires plan { IsPlanOf model.now plan.now }
    ensures made { IsMade (directives_by_text model.now plan.now text.now) result }
    ensures plan { IfOk result (λ directives. IsPlanOf model.now (with_loaded plan.now directives)) }
    ensures ids { IfOk result (λ directives. 0 < length directives → plan.now.next_id + length directives ≤ 4_294_967_295) }
{
    let all = written_in(alloc, text)?;
    load_written(alloc, model, plan, all.as_slice())
}

/// The directives that a text writes.
fn written_in(alloc: Global, text: &str) -> Result<List<WrittenDirective>, EditError>
    ensures { IsMade (if_formed (plan_text text.now)) result }
{
    match Value::from_str(alloc, text) {
        Ok(value) => plan_form(alloc, &value),
        Err(error) if error.is_memory() => Err(EditError::OutOfMemory),
        Err(_) => Err(EditError::NotAPlan),
    }
}

/// The directives that are written, under their new ids.
fn load_written(
    alloc: Global,
    model: &Model,
    plan: &Plan,
    all: &[WrittenDirective],
) -> Result<List<Directive>, EditError>
    requires plan { IsPlanOf model.now plan.now }
    ensures made { IsMade (load_written_by model.now plan.now all.now) result }
    ensures valid { OnOk result (IsTrue (valid_model model.now)) }
{
    let _types = model.activities();
    let index = index_of(alloc, all)?;
    let mut directives = load_all(alloc, model, plan, &index, all)?;
    anchor_to_new_ids(&mut directives, plan.next_id, &index, all);
    if has_cycle(alloc, directives.as_slice())? {
        return Err(EditError::Cycle);
    }
    Ok(directives)
}

/// The positions of directives by the ids that stand in the text.
fn index_of(
    alloc: Global,
    all: &[WrittenDirective],
) -> Result<BTreeMap<u32, Option<usize>>, OutOfMemory>
    ensures { IfOk result (λ index. IsIndexOf (noted_at nat_cmp index) all.now) }
{
    let mut index = BTreeMap::new(alloc);
    for position in 0..all.len() {
        let written = &all[position];
        note(&mut index, written.id, position)?;
    }
    Ok(index)
}

/// Notes the position of a directive for its id, where it has one.
fn note(
    index: &mut BTreeMap<u32, Option<usize>>,
    id: Option<u32>,
    position: usize,
) -> Result<(), OutOfMemory>
    ensures { OnOk result (NotesOneMore position id (noted_at nat_cmp index.old) (noted_at nat_cmp index.new)) }
{
    match id {
        Some(id) => note_id(index, id, position),
        None => Ok(()),
    }
}

/// Notes one place more for an id.
fn note_id(
    index: &mut BTreeMap<u32, Option<usize>>,
    id: u32,
    position: usize,
) -> Result<(), OutOfMemory>
    ensures { OnOk result (NotesOneMore position (Some id) (noted_at nat_cmp index.old) (noted_at nat_cmp index.new)) }
{
    let noted = match index.get(&id) {
        Some(_) => None,
        None => Some(position),
    };
    index.insert(id, noted)?;
    Ok(())
}

/// The position of the one directive with an id.
fn position_of(index: &BTreeMap<u32, Option<usize>>, id: u32) -> Option<usize>
    ensures { result ≡ position_noted (noted_at nat_cmp index.now id) }
{
    match index.get(&id) {
        Some(noted) => *noted,
        None => None,
    }
}

/// Whether an anchor is to no directive of the text, or to several.
fn is_dangling(
    index: &BTreeMap<u32, Option<usize>>,
    all: &[WrittenDirective],
    anchor: Option<Anchor>,
) -> bool
    requires index { IsIndexOf (noted_at nat_cmp index.now) all.now }
    ensures { result ≡ is_dangling (is_id_of_one all.now) anchor }
{
    match anchor {
        Some(anchor) => position_of(index, anchor.to).is_none(),
        None => false,
    }
}

/// Whether so many directives are before it that it has no room, or no id.
fn is_past_room(plan: &Plan, number: usize) -> bool
    ensures { result ≡ is_past_by plan.now number }
{
    !(number < MOST_DIRECTIVES) || !(number < (LAST_ID - plan.next_id) as usize)
}

/// The directives, each under its new id.
fn load_all(
    alloc: Global,
    model: &Model,
    plan: &Plan,
    index: &BTreeMap<u32, Option<usize>>,
    all: &[WrittenDirective],
) -> Result<List<Directive>, EditError>
    requires index { IsIndexOf (noted_at nat_cmp index.now) all.now }
    ensures { IsMade (load_all_by model.now plan.now all.now 0 all.now) result }
{
    let mut directives = List::with_capacity(alloc, all.len())?;
    for written in all {
        let number = directives.len();
        let directive = load_one(alloc, model, plan, index, all, written, number)?;
        directives.push(directive)?;
    }
    Ok(directives)
}

/// The directive with a number, under its new id.
fn load_one(
    alloc: Global,
    model: &Model,
    plan: &Plan,
    index: &BTreeMap<u32, Option<usize>>,
    all: &[WrittenDirective],
    written: &WrittenDirective,
    number: usize,
) -> Result<Directive, EditError>
    requires index { IsIndexOf (noted_at nat_cmp index.now) all.now }
    ensures { IsMade (load_one_by model.now plan.now all.now number written.now) result }
{
    let given = given_of(alloc, model, &written.kind, written.arguments.as_slice())?;
    load_placed(plan, index, all, written, number, given)
}

/// A directive under its new id, where it may stand there.
fn load_placed(
    plan: &Plan,
    index: &BTreeMap<u32, Option<usize>>,
    all: &[WrittenDirective],
    written: &WrittenDirective,
    number: usize,
    given: Given,
) -> Result<Directive, EditError>
    requires index { IsIndexOf (noted_at nat_cmp index.now) all.now }
    ensures { IsMade (load_placed_by plan.now all.now written.now number given) result }
{
    if is_outside(plan, written.start) {
        return Err(EditError::OutsidePlan);
    }
    if is_past_room(plan, number) {
        return Err(EditError::TooMany);
    }
    if is_dangling(index, all, written.anchor) {
        return Err(EditError::NoAnchor);
    }
    Ok(Directive {
        id: plan.next_id + number as u32,
        start: written.start,
        anchor: written.anchor,
        kind: given.kind,
        arguments: given.arguments,
    })
}

/// Anchors the directives to the new ids of those that they name.
fn anchor_to_new_ids(
    directives: &mut List<Directive>,
    first: u32,
    index: &BTreeMap<u32, Option<usize>>,
    all: &[WrittenDirective],
)
    requires index { IsIndexOf (noted_at nat_cmp index.now) all.now }
    requires few { 0 < length directives.old → first + length all.now < 4_294_967_296 }
    ensures { directives.new ≡ map (anchored_to_new_id first all.now) directives.old }
{
    for at in 0..directives.len() {
        put_new_anchor(directives, at, first, index, all);
    }
}

/// Anchors a directive to the new id of the one that it names.
fn put_new_anchor(
    directives: &mut List<Directive>,
    at: usize,
    first: u32,
    index: &BTreeMap<u32, Option<usize>>,
    all: &[WrittenDirective],
)
    requires within { at < length directives.old }
    requires index { IsIndexOf (noted_at nat_cmp index.now) all.now }
    requires few { first + length all.now < 4_294_967_296 }
    ensures { ChangesAt at (anchored_to_new_id first all.now) directives.old directives.new }
{
    let directive = &mut directives.items[at];
    directive.anchor = anchor_to_new_id(directive.anchor, first, index, all);
}

/// An anchor to the new id of the directive that it names.
fn anchor_to_new_id(
    anchor: Option<Anchor>,
    first: u32,
    index: &BTreeMap<u32, Option<usize>>,
    all: &[WrittenDirective],
) -> Option<Anchor>
    requires index { IsIndexOf (noted_at nat_cmp index.now) all.now }
    requires few { first + length all.now < 4_294_967_296 }
    ensures { result ≡ option_map (anchor_to_new_id_by first all.now) anchor }
{
    match anchor {
        Some(anchor) => Some(Anchor {
            to: first + position_of(index, anchor.to).unwrap_or(0) as u32,
            edge: anchor.edge,
        }),
        None => None,
    }
}
