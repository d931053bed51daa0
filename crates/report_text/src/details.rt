//! What a report tells besides where details are asked for.

ghost use Rattle.std.specs.Prelude.{◌≡◌, ◌++◌, OnOk, codes};
ghost use Rattle.serde_json.specs.Data.{string};
ghost use Rattle.aerie_base.specs.plans.OfModel.{IsPlanOf};
ghost use Rattle.epoch_text.specs.DayTexts.{day_text_of};
ghost use Rattle.json_line.specs.Numbers.{natural_data};
ghost use Rattle.json_line.specs.Parts.{member_if_tokens, member_tokens};
ghost use Rattle.report_text.specs.Details.{cells_data, details_behind, if_told, naming_data, namings_data, name_of_resource};
ghost use Rattle.report_text.specs.SpanLines.{type_name};
ghost use Rattle.run_data.specs.Fresh.{IsFresh};

use crate::alone::Alone;
use crate::cell_lines::write_states;
use crate::dataset_lines::write_datasets_told;
use crate::named::{named_resources, named_types};
use crate::named_datasets::named_datasets;
use crate::span_lines::Utc;
use crate::wordings::Wording;
use aerie_base::{OutOfMemory, Time};
use constraints::Constraint;
use epoch_text::Start;
use findings::cells_at;
use json_line::{JsonIn, JsonLine};
use run_data::Run;

/// A model of whose activity types numbers are.
#[derive(Drop)]
struct TypesOf<'b, 'a> {
    wording: &'b Wording<'a>,
}

/// An activity type by its name.
impl<'b, 'a> JsonIn<TypesOf<'b, 'a>> for u16 {
    ghost data_in = { λ of kind. string (type_name of.wording.now kind) };

    fn write_in(&self, of: &TypesOf<'b, 'a>, line: &mut JsonLine) -> Result<(), OutOfMemory> {
        line.text(of.wording.type_name(*self))
    }
}

/// A model of whose resources numbers are.
#[derive(Drop)]
struct ResourcesOf<'b, 'a> {
    wording: &'b Wording<'a>,
}

/// A resource by its name.
impl<'b, 'a> JsonIn<ResourcesOf<'b, 'a>> for u16 {
    ghost data_in = { λ of number. string (name_of_resource of.wording.now number) };

    fn write_in(&self, of: &ResourcesOf<'b, 'a>, line: &mut JsonLine) -> Result<(), OutOfMemory> {
        line.text(of.wording.name_of_resource(*self))
    }
}

/// A constraint with what it names.
impl<'a> JsonIn<Wording<'a>> for Constraint {
    ghost data_in = { naming_data };

    fn write_in(&self, wording: &Wording<'a>, line: &mut JsonLine) -> Result<(), OutOfMemory> {
        let datasets = named_datasets(wording.alloc(), &self.rule)?;
        let resources = named_resources(wording.alloc(), &self.rule)?;
        let types = named_types(wording.alloc(), &self.rule)?;
        line.begin_object()?;
        line.member_in("datasets", &Alone, &datasets)?;
        line.member("name", &self.name)?;
        line.member_in("resources", &ResourcesOf { wording }, &resources)?;
        line.member_in("types", &TypesOf { wording }, &types)?;
        line.end_object()
    }
}

/// The cells at the reach of a run, by their name.
#[tactic(auto, unfolding(json_line::specs::Parts::member_tokens))]
fn write_cells_member<'a>(
    line: &mut JsonLine,
    wording: &Wording<'a>,
    run: &Run,
) -> Result<(), OutOfMemory>
    requires fresh { IsFresh wording.now run.now.plan run.now.bound run.now }
    requires plan { IsPlanOf wording.now run.now.plan }
    ensures { OnOk result (line.new ≡ line.old ++ member_tokens (codes "cells") (cells_data wording.now run.now)) }
{
    let states = cells_at(wording.alloc(), wording.model(), run, run.reach)?;
    line.key("cells")?;
    write_states(line, wording, states.as_slice())
}

/// The same where it is told.
#[tactic(auto, unfolding(json_line::specs::Parts::member_if_tokens))]
fn write_cells_told<'a>(
    line: &mut JsonLine,
    told: bool,
    wording: &Wording<'a>,
    run: &Run,
) -> Result<(), OutOfMemory>
    requires fresh { IsFresh wording.now run.now.plan run.now.bound run.now }
    requires plan { IsPlanOf wording.now run.now.plan }
    ensures { OnOk result (line.new ≡ line.old ++ member_if_tokens (codes "cells") (if_told told (cells_data wording.now run.now))) }
{
    if told {
        return write_cells_member(line, wording, run);
    }
    Ok(())
}

/// The constraints with what they name, by their name.
#[tactic(auto, unfolding(json_line::specs::Parts::member_tokens))]
fn write_constraints_member<'a>(
    line: &mut JsonLine,
    wording: &Wording<'a>,
    constraints: &[Constraint],
) -> Result<(), OutOfMemory>
    ensures { OnOk result (line.new ≡ line.old ++ member_tokens (codes "constraints") (namings_data wording.now constraints.now)) }
{
    line.key("constraints")?;
    line.list_in(wording, constraints)
}

/// The same where it is told.
#[tactic(auto, unfolding(json_line::specs::Parts::member_if_tokens))]
fn write_constraints_told<'a>(
    line: &mut JsonLine,
    told: bool,
    wording: &Wording<'a>,
    constraints: &[Constraint],
) -> Result<(), OutOfMemory>
    ensures { OnOk result (line.new ≡ line.old ++ member_if_tokens (codes "constraints") (if_told told (namings_data wording.now constraints.now))) }
{
    if told {
        return write_constraints_member(line, wording, constraints);
    }
    Ok(())
}

/// The duration of the plan, where it is told.
#[tactic(auto, unfolding(json_line::specs::Parts::member_if_tokens))]
fn write_duration_told(line: &mut JsonLine, told: bool, duration: Time) -> Result<(), OutOfMemory>
    ensures { OnOk result (line.new ≡ line.old ++ member_if_tokens (codes "duration") (if_told told (natural_data duration))) }
{
    if told {
        return line.member("duration", &duration);
    }
    Ok(())
}

/// What is told of the run, the constraints and the plan's length, where details are.
pub(crate) fn write_details_told<'a>(
    line: &mut JsonLine,
    told: bool,
    wording: &Wording<'a>,
    run: &Run,
    constraints: &[Constraint],
) -> Result<(), OutOfMemory>
    requires fresh { IsFresh wording.now run.now.plan run.now.bound run.now }
    requires plan { IsPlanOf wording.now run.now.plan }
    ensures { OnOk result (line.new ≡ details_behind line.old told wording.now run.now constraints.now) }
{
    write_cells_told(line, told, wording, run)?;
    write_constraints_told(line, told, wording, constraints)?;
    write_datasets_told(line, told, wording, constraints)?;
    write_duration_told(line, told, run.plan.get().duration)
}

/// The instant of the plan's time 0, where it is told.
#[tactic(auto, unfolding(json_line::specs::Parts::member_if_tokens))]
pub(crate) fn write_start_told(
    line: &mut JsonLine,
    told: bool,
    start: &Start,
) -> Result<(), OutOfMemory>
    ensures { OnOk result (line.new ≡ line.old ++ member_if_tokens (codes "start") (if_told told (string (day_text_of start.now 0)))) }
{
    if told {
        let time = Time::zero();
        return line.text_member_of("start", &Utc { start, time });
    }
    Ok(())
}
