//! The plan section and the datasets behind it.

ghost use Rattle.readers.specs.Implements.{Consumes, MayConsume};
ghost use Rattle.session_grammar.specs.reading.Plans.{start_at, some_time_at, plan_duration_at, some_rate_at, optional_rate_at, beginning_at, directive_at, plan_name_at, plan_at, dataset_at, datasets_at};

use crate::raw::{RawBeginning, RawDataset, RawDirective, RawPlan, RawRate, RawStart};
use crate::reading::directives::{duration, given, when};
use crate::reading::mappings::raw_named;
use aerie_base::{List, Text, Time};
use aerie_text::Sort;
use model_reader::{
    RawLiteral, RawLiteralKind, RawName, literal, optional_minus, raw_name, with_minus,
};
use readers::{Element, Limit, Most, Reader, Refusal, ended_by, row};
use std::alloc::Global;

/// How many datasets a session may have.
const MOST_DATASETS: Most = Most {
    count: 64,
    limit: Limit::Datasets,
};

/// Reads when the plan starts.
#[tactic(auto, unfolding(crate::specs::reading::Plans::start_at))]
fn start(alloc: Global, reader: &mut Reader) -> Result<RawStart, Refusal>
    ensures { Consumes start_at reader.old reader.new result }
{
    reader.take(Sort::Start)?;
    let (at, quoted) = reader.word(Sort::Quoted)?;
    let text = Text::new(alloc, quoted)?;
    ended_by(reader, Sort::Semicolon, RawStart { at, text })
}

/// Reads a length of time that is not 0.
#[tactic(auto, unfolding(crate::specs::reading::Plans::some_time_at))]
fn some_time(reader: &mut Reader) -> Result<Time, Refusal>
    ensures { Consumes some_time_at reader.old reader.new result }
{
    if reader.next_counts_within(Sort::Time, 0, 0) {
        Err(Refusal::Syntax)
    } else {
        duration(reader)
    }
}

/// Reads how long the plan lasts.
#[tactic(auto, unfolding(crate::specs::reading::Plans::plan_duration_at))]
fn plan_duration(reader: &mut Reader) -> Result<Time, Refusal>
    ensures { Consumes plan_duration_at reader.old reader.new result }
{
    reader.take(Sort::Duration)?;
    let time = some_time(reader)?;
    ended_by(reader, Sort::Semicolon, time)
}

/// Reads the rate with which an accumulator begins.
#[tactic(auto, unfolding(crate::specs::reading::Plans::some_rate_at))]
fn some_rate(reader: &mut Reader) -> Result<Option<RawRate>, Refusal>
    ensures { Consumes some_rate_at reader.old reader.new result }
{
    let word = reader.take(Sort::Rate)?;
    let minus = optional_minus(reader)?;
    let number = reader.number(Sort::Number)?;
    let (at, number) = with_minus(minus, number);
    let what = RawLiteralKind::Number(number);
    let rate = RawLiteral { at, what };
    Ok(Some(RawRate { at: word, rate }))
}

/// Reads a rate, where there is one.
#[tactic(auto, unfolding(crate::specs::reading::Plans::optional_rate_at))]
fn rate(reader: &mut Reader) -> Result<Option<RawRate>, Refusal>
    ensures { MayConsume optional_rate_at reader.old reader.new result }
{
    if reader.next_is(Sort::Rate) {
        some_rate(reader)
    } else {
        Ok(None)
    }
}

/// What a cell begins with.
struct OneBeginning;

impl Element for OneBeginning {
    type Part = RawBeginning;

    ghost part_at = { beginning_at };

    #[tactic(auto, unfolding(crate::specs::reading::Plans::beginning_at))]
    fn part(alloc: Global, reader: &mut Reader) -> Result<RawBeginning, Refusal> {
        let cell = raw_name(alloc, reader)?;
        reader.take(Sort::Assign)?;
        let value = literal(alloc, reader)?;
        let rate = rate(reader)?;
        ended_by(reader, Sort::Semicolon, RawBeginning { cell, value, rate })
    }
}

/// A directive.
struct OneDirective;

impl Element for OneDirective {
    type Part = RawDirective;

    ghost part_at = { directive_at };

    #[tactic(auto, unfolding(crate::specs::reading::Plans::directive_at))]
    fn part(alloc: Global, reader: &mut Reader) -> Result<RawDirective, Refusal> {
        reader.take(Sort::At)?;
        let at = when(alloc, reader)?;
        let given = given(alloc, reader)?;
        ended_by(reader, Sort::Semicolon, RawDirective { at, given })
    }
}

/// Reads the name of the branch that begins with the plan.
#[tactic(auto, unfolding(crate::specs::reading::Plans::plan_name_at))]
fn plan_name(alloc: Global, reader: &mut Reader) -> Result<RawName, Refusal>
    ensures { Consumes plan_name_at reader.old reader.new result }
{
    let name = raw_named(alloc, reader, Sort::Plan)?;
    ended_by(reader, Sort::OpenBrace, name)
}

/// Reads the plan section.
#[tactic(auto, unfolding(crate::specs::reading::Plans::plan_at))]
pub fn plan(alloc: Global, reader: &mut Reader) -> Result<RawPlan, Refusal>
    ensures { Consumes plan_at reader.old reader.new result }
{
    let branch = plan_name(alloc, reader)?;
    let start = start(alloc, reader)?;
    let duration = plan_duration(reader)?;
    let beginnings = row::<OneBeginning>(alloc, reader, &[Sort::Name], None)?;
    let directives = row::<OneDirective>(alloc, reader, &[Sort::At], None)?;
    let plan = RawPlan {
        branch,
        start,
        duration,
        beginnings,
        directives,
    };
    ended_by(reader, Sort::CloseBrace, plan)
}

/// A dataset.
struct OneDataset;

impl Element for OneDataset {
    type Part = RawDataset;

    ghost part_at = { dataset_at };

    #[tactic(auto, unfolding(crate::specs::reading::Plans::dataset_at))]
    fn part(alloc: Global, reader: &mut Reader) -> Result<RawDataset, Refusal> {
        reader.take(Sort::Load)?;
        let name = raw_name(alloc, reader)?;
        let (_at, raw) = reader.word(Sort::Raw)?;
        let text = Text::new(alloc, raw)?;
        ended_by(reader, Sort::Semicolon, RawDataset { name, text })
    }
}

/// Reads the datasets of a session.
#[tactic(auto, unfolding(crate::specs::reading::Plans::datasets_at))]
pub fn datasets(alloc: Global, reader: &mut Reader) -> Result<List<RawDataset>, Refusal>
    ensures { MayConsume datasets_at reader.old reader.new result }
{
    row::<OneDataset>(alloc, reader, &[Sort::Load], Some(MOST_DATASETS))
}
