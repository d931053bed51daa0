//! The form of a plan in JSON.

ghost use Rattle.std.specs.Prelude.{◌≡◌, ◌≤◌, ◌&&◌, IfOk, map, codes, option_map, option_and_then};
ghost use Rattle.serde_json.specs.Find.{get};
ghost use Rattle.aerie_base.specs.Ranges.{checked_number};
ghost use Rattle.aerie_base.specs.declared.arguments.RawValue.TheVariants.{Int};
ghost use Rattle.serde_json.specs.View.{view, members_view};
ghost use Rattle.aerie_text.specs.Sorts.{same_sort, word_sort};
ghost use Rattle.aerie_text.specs.declared.sorts.Sort.TheVariants.{Name as FreeName};
ghost use Rattle.plan_edit.specs.Answers.{IsMade};
ghost use Rattle.plan_edit.specs.PlanForm.{anchor_of_json as anchor_by, checked_timing as checked_timing_by, directive_of_json as directive_by, directives_of_json as directives_by, edge_of_json as edge_by, edge_of_word as edge_by_word, free_name as free_name_by, given_of_json as given_by, has_members as has_members_by, id_of_json as id_by, if_formed, if_there, is_free_name as is_free_by, is_variant_text as is_variant_by, arguments_of_members as members_by, members_wanted as wanted_by, one_argument as argument_by, members_if as one_if_by, plan_of_json as plan_by, start_of_json as start_by, timing_of_json as timing_by, type_of_json as type_by, value_of_json as value_by, given_members, listed_values, type_text, whole_number, variant_of_word as variant_by};

use crate::errors::EditError;
use aerie_base::{
    Anchor, Edge, List, Name, Number, OutOfMemory, RawArgument, RawValue, Text, Time,
};
use aerie_text::{Sort, TokenKind, sort_of_kind};
use serde_json::{Map, Value};
use std::alloc::Global;

/// The greatest id.
const LAST_ID: i64 = 4_294_967_295;

/// A directive as it stands in the JSON of a plan.
#[derive(Debug, Drop)]
pub struct WrittenDirective {
    /// Its id there, which anchors name.
    pub id: Option<u32>,
    /// The time after the anchor, or after the plan's start where there is none.
    pub start: Time,
    /// What the start is counted from, by an id that stands there.
    pub anchor: Option<Anchor>,
    /// The name of its type.
    pub kind: Name,
    /// The arguments that are given.
    pub arguments: List<RawArgument>,
}

/// Whether a word is not reserved.
fn is_unreserved(text: &str) -> bool
    ensures { result ≡ same_sort (word_sort text.now) FreeName }
{
    sort_of_kind(TokenKind::Word, text).is(Sort::Name)
}

/// Whether a text is a name that is not reserved.
fn is_free_name(alloc: Global, text: &str) -> Result<bool, OutOfMemory>
    ensures { IfOk result (λ is. is ≡ is_free_by text.now) }
{
    match Name::new(alloc, text)? {
        Some(_) => Ok(is_unreserved(text)),
        None => Ok(false),
    }
}

/// The name that a text is, where it is not reserved.
fn free_name(alloc: Global, text: &str) -> Result<Name, EditError>
    ensures { IsMade (if_formed (free_name_by text.now)) result }
{
    let name = match Name::new(alloc, text)? {
        Some(name) => name,
        None => return Err(EditError::NotAPlan),
    };
    if is_unreserved(text) {
        Ok(name)
    } else {
        Err(EditError::NotAPlan)
    }
}

/// Whether a text is two names with a dot between them.
fn is_variant_text(alloc: Global, text: &str) -> Result<bool, OutOfMemory>
    ensures { IfOk result (λ is. is ≡ is_variant_by text.now) }
{
    match text.split_once('.') {
        Some((front, behind)) => both_free(alloc, front, behind),
        None => Ok(false),
    }
}

/// Whether two texts are names that are not reserved.
fn both_free(alloc: Global, front: &str, behind: &str) -> Result<bool, OutOfMemory>
    ensures { IfOk result (λ are. are ≡ (is_free_by front.now && is_free_by behind.now)) }
{
    let is_free = is_free_name(alloc, front)?;
    Ok(is_free && is_free_name(alloc, behind)?)
}

/// A variant as it is written.
fn variant_form(alloc: Global, text: &str) -> Result<RawValue, EditError>
    ensures { IsMade (if_formed (variant_by text.now)) result }
{
    if !is_variant_text(alloc, text)? {
        return Err(EditError::NotAPlan);
    }
    Ok(RawValue::Word(Text::new(alloc, text)?))
}

/// A whole number within the range.
fn number_form(value: &Value) -> Option<RawValue>
    ensures { result ≡ option_map Int (option_and_then checked_number (whole_number (view value.now))) }
{
    match Number::new(value.as_i64()?) {
        Some(number) => Some(RawValue::Int(number)),
        None => None,
    }
}

/// The value of an argument.
fn value_form(alloc: Global, value: &Value) -> Result<RawValue, EditError>
    ensures { IsMade (if_formed (value_by (view value.now))) result }
{
    if let Some(truth) = value.as_bool() {
        return Ok(RawValue::Truth(truth));
    }
    if let Some(text) = value.as_str() {
        return variant_form(alloc, text);
    }
    match number_form(value) {
        Some(number) => Ok(number),
        None => Err(EditError::NotAPlan),
    }
}

/// The argument of a member.
fn argument_form(alloc: Global, name: &str, given: &Value) -> Result<RawArgument, EditError>
    ensures { IsMade (if_formed (argument_by (value_by (view given.now)) name.now)) result }
{
    let value = value_form(alloc, given)?;
    let name = free_name(alloc, name)?;
    Ok(RawArgument { name, value })
}

/// An argument for each member.
fn arguments_form(
    alloc: Global,
    members: &Map<String, Value>,
) -> Result<List<RawArgument>, EditError>
    ensures { IsMade (if_formed (members_by (members_view members.now.entries))) result }
{
    let mut arguments = List::new(alloc);
    for (name, given) in members {
        let argument = argument_form(alloc, name.as_str(), given)?;
        arguments.push(argument)?;
    }
    Ok(arguments)
}

/// A whole number that can be an id.
fn id_form(value: &Value) -> Option<u32>
    ensures { result ≡ id_by (view value.now) }
{
    let id = value.as_i64()?;
    if id < 0 || LAST_ID < id {
        return None;
    }
    Some(id as u32)
}

/// A whole number that is a time.
fn start_form(value: &Value) -> Option<Time>
    ensures { result ≡ start_by (view value.now) }
{
    Time::new(value.as_i64()?)
}

/// Whether it is an object with so many members.
#[tactic(auto, using(crate::proofs::WrittenForms::as_many_members))]
fn has_members(value: &Value, count: usize) -> bool
    ensures { result ≡ has_members_by count (view value.now) }
{
    match value.as_object() {
        Some(members) => members.len() == count,
        None => false,
    }
}

/// The edge that a word names.
fn edge_of_word(word: &str) -> Option<Edge>
    ensures { result ≡ edge_by_word word.now }
{
    match word {
        "start" => Some(Edge::Start),
        "end" => Some(Edge::End),
        _ => None,
    }
}

/// The edge in an anchor.
fn edge_form(value: &Value) -> Option<Edge>
    ensures { result ≡ edge_by (view value.now) }
{
    edge_of_word(value.get("edge")?.as_str()?)
}

/// An anchor.
fn anchor_form(value: &Value) -> Option<Anchor>
    ensures { result ≡ anchor_by (view value.now) }
{
    if !has_members(value, 2) {
        return None;
    }
    let to = id_form(value.get("to")?)?;
    let edge = edge_form(value)?;
    Some(Anchor { to, edge })
}

/// The id of a directive, where there is one.
fn id_if_there(value: &Value) -> Option<Option<u32>>
    ensures { result ≡ if_there id_by (get (codes "id") (view value.now)) }
{
    match value.get("id") {
        Some(given) => Some(Some(id_form(given)?)),
        None => Some(None),
    }
}

/// The anchor of a directive, where there is one.
fn anchor_if_there(value: &Value) -> Option<Option<Anchor>>
    ensures { result ≡ if_there anchor_by (get (codes "anchor") (view value.now)) }
{
    match value.get("anchor") {
        Some(given) => Some(Some(anchor_form(given)?)),
        None => Some(None),
    }
}

/// How many members a directive has.
fn members_wanted(value: &Value) -> usize
    ensures { result ≡ wanted_by (view value.now) }
{
    3 + one_if(value.get("id").is_some()) + one_if(value.get("anchor").is_some())
}

/// How many members there are.
fn one_if(there: bool) -> usize
    ensures value { result ≡ one_if_by there }
    ensures small { result ≤ 1 }
{
    if there { 1 } else { 0 }
}

/// The id, the anchor and the start of a directive.
fn timing_form(value: &Value) -> Option<(Option<u32>, (Option<Anchor>, Time))>
    ensures { result ≡ timing_by (view value.now) }
{
    let id = id_if_there(value)?;
    let anchor = anchor_if_there(value)?;
    let start = start_form(value.get("start")?)?;
    Some((id, (anchor, start)))
}

/// The id, the anchor and the start of a directive that has no members but its own.
fn checked_timing(value: &Value) -> Option<(Option<u32>, (Option<Anchor>, Time))>
    ensures { result ≡ checked_timing_by (view value.now) }
{
    if has_members(value, members_wanted(value)) {
        timing_form(value)
    } else {
        None
    }
}

/// The type of a directive.
fn type_name(alloc: Global, value: &Value) -> Result<Name, EditError>
    ensures { IsMade (if_formed (type_by (view value.now))) result }
{
    match text_of(value) {
        Some(text) => free_name(alloc, text),
        None => Err(EditError::NotAPlan),
    }
}

/// The text in the member `type`.
fn text_of(value: &Value) -> Option<&str>
    ensures { option_map (λ text. text.now) result ≡ type_text (view value.now) }
{
    value.get("type")?.as_str()
}

/// The arguments of a directive.
fn given_form(alloc: Global, value: &Value) -> Result<List<RawArgument>, EditError>
    ensures { IsMade (if_formed (given_by (view value.now))) result }
{
    match members_of(value) {
        Some(members) => arguments_form(alloc, members),
        None => Err(EditError::NotAPlan),
    }
}

/// The members of the member `arguments`.
fn members_of(value: &Value) -> Option<&Map<String, Value>>
    ensures { option_map (λ members. members_view members.now.entries) result ≡ given_members (view value.now) }
{
    value.get("arguments")?.as_object()
}

/// A directive.
fn directive_form(alloc: Global, value: &Value) -> Result<WrittenDirective, EditError>
    ensures { IsMade (if_formed (directive_by (view value.now))) result }
{
    let (id, (anchor, start)) = match checked_timing(value) {
        Some(timing) => timing,
        None => return Err(EditError::NotAPlan),
    };
    let kind = type_name(alloc, value)?;
    let arguments = given_form(alloc, value)?;
    Ok(WrittenDirective {
        id,
        start,
        anchor,
        kind,
        arguments,
    })
}

/// Directives.
fn directives_form(alloc: Global, values: &[Value]) -> Result<List<WrittenDirective>, EditError>
    ensures { IsMade (if_formed (directives_by (map view values.now))) result }
{
    let mut all = List::with_capacity(alloc, values.len())?;
    for value in values {
        let directive = directive_form(alloc, value)?;
        all.push(directive)?;
    }
    Ok(all)
}

/// The list in the member `directives`.
#[tactic(auto, using(crate::proofs::WrittenForms::values_are_items))]
fn values_of(value: &Value) -> Option<&[Value]>
    ensures { option_map (λ values. map view values.now) result ≡ listed_values (view value.now) }
{
    Some(value.get("directives")?.as_array()?.as_slice())
}

/// The directives of a plan.
pub fn plan_form(alloc: Global, value: &Value) -> Result<List<WrittenDirective>, EditError>
    ensures { IsMade (if_formed (plan_by (view value.now))) result }
{
    if !has_members(value, 1) {
        return Err(EditError::NotAPlan);
    }
    match values_of(value) {
        Some(values) => directives_form(alloc, values),
        None => Err(EditError::NotAPlan),
    }
}
