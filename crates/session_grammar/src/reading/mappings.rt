//! Mappings: how plans of one model become plans of another.

ghost use Rattle.readers.specs.Implements.{Consumes, MayConsume};
ghost use Rattle.session_grammar.specs.reading.Mappings.{raw_named_at, fed_amount_at, fed_truth_at, fed_variant_at, fed_behind_name_at, fed_name_at, fed_value_at, feed_at, feeds_at, type_rule_at, mapping_at, mappings_at};

use crate::raw::{RawFeed, RawFeedValue, RawMapping, RawTypeRule};
use crate::reading::directives::begins_amount;
use aerie_base::List;
use aerie_text::Sort;
use model_reader::{
    RawLiteral, RawLiteralKind, RawName, amount, optional_minus, raw_name, with_minus,
};
use readers::{Element, Limit, Most, Reader, Refusal, ended_by, optional_list, row};
use std::alloc::Global;

/// How many mappings a session may have.
const MOST_MAPPINGS: Most = Most {
    count: 16,
    limit: Limit::Mappings,
};

/// Reads this word and a name.
#[tactic(auto, unfolding(crate::specs::reading::Mappings::raw_named_at))]
pub fn raw_named(alloc: Global, reader: &mut Reader, sort: Sort) -> Result<RawName, Refusal>
    ensures { Consumes (raw_named_at sort) reader.old reader.new result }
{
    reader.take(sort)?;
    raw_name(alloc, reader)
}

#[tactic(auto, unfolding(crate::specs::reading::Mappings::fed_amount_at))]
fn fed_amount(reader: &mut Reader) -> Result<RawFeedValue, Refusal>
    ensures { Consumes fed_amount_at reader.old reader.new result }
{
    let minus = optional_minus(reader)?;
    let amount = amount(reader)?;
    let (at, number) = with_minus(minus, amount);
    let what = RawLiteralKind::Number(number);
    Ok(RawFeedValue::Literal(RawLiteral { at, what }))
}

#[tactic(auto, unfolding(crate::specs::reading::Mappings::fed_truth_at))]
fn fed_truth(reader: &mut Reader, sort: Sort, truth: bool) -> Result<RawFeedValue, Refusal>
    ensures { Consumes (fed_truth_at sort truth) reader.old reader.new result }
{
    let at = reader.take(sort)?;
    let what = RawLiteralKind::Truth(truth);
    Ok(RawFeedValue::Literal(RawLiteral { at, what }))
}

/// Reads the name of a variant behind that of its enumeration.
#[tactic(auto, unfolding(crate::specs::reading::Mappings::fed_variant_at))]
fn fed_variant(alloc: Global, reader: &mut Reader, kind: RawName) -> Result<RawFeedValue, Refusal>
    ensures { Consumes (fed_variant_at kind) reader.old reader.new result }
{
    let variant = raw_named(alloc, reader, Sort::Dot)?;
    let at = kind.at;
    let what = RawLiteralKind::Variant { kind, variant };
    Ok(RawFeedValue::Literal(RawLiteral { at, what }))
}

/// What a name stands for: a parameter, or an enumeration where a variant stands behind it.
#[tactic(auto, unfolding(crate::specs::reading::Mappings::fed_behind_name_at))]
fn fed_behind_name(
    alloc: Global,
    reader: &mut Reader,
    name: RawName,
) -> Result<RawFeedValue, Refusal>
    ensures { MayConsume (fed_behind_name_at name) reader.old reader.new result }
{
    if reader.next_is(Sort::Dot) {
        fed_variant(alloc, reader, name)
    } else {
        Ok(RawFeedValue::Parameter(name))
    }
}

#[tactic(auto, unfolding(crate::specs::reading::Mappings::fed_name_at))]
fn fed_name(alloc: Global, reader: &mut Reader) -> Result<RawFeedValue, Refusal>
    ensures { Consumes fed_name_at reader.old reader.new result }
{
    let name = raw_name(alloc, reader)?;
    fed_behind_name(alloc, reader, name)
}

/// Reads what a parameter gets.
#[tactic(auto, unfolding(crate::specs::reading::Mappings::fed_value_at))]
fn fed_value(alloc: Global, reader: &mut Reader) -> Result<RawFeedValue, Refusal>
    ensures { Consumes fed_value_at reader.old reader.new result }
{
    if begins_amount(reader) {
        fed_amount(reader)
    } else if reader.next_is(Sort::True) {
        fed_truth(reader, Sort::True, true)
    } else if reader.next_is(Sort::False) {
        fed_truth(reader, Sort::False, false)
    } else {
        fed_name(alloc, reader)
    }
}

/// A parameter and what it gets.
struct OneFeed;

impl Element for OneFeed {
    type Part = RawFeed;

    ghost part_at = { feed_at };

    #[tactic(auto, unfolding(crate::specs::reading::Mappings::feed_at))]
    fn part(alloc: Global, reader: &mut Reader) -> Result<RawFeed, Refusal> {
        let parameter = raw_name(alloc, reader)?;
        reader.take(Sort::Assign)?;
        let value = fed_value(alloc, reader)?;
        Ok(RawFeed { parameter, value })
    }
}

/// Reads feeds in parentheses, and the semicolon behind them.
#[tactic(auto, unfolding(crate::specs::reading::Mappings::feeds_at))]
fn feeds(alloc: Global, reader: &mut Reader) -> Result<List<RawFeed>, Refusal>
    ensures { Consumes feeds_at reader.old reader.new result }
{
    reader.take(Sort::OpenParenthesis)?;
    let feeds = optional_list::<OneFeed>(alloc, reader, Sort::Name, None)?;
    reader.take(Sort::CloseParenthesis)?;
    ended_by(reader, Sort::Semicolon, feeds)
}

/// What becomes of the directives of a type.
struct OneTypeRule;

impl Element for OneTypeRule {
    type Part = RawTypeRule;

    ghost part_at = { type_rule_at };

    #[tactic(auto, unfolding(crate::specs::reading::Mappings::type_rule_at))]
    fn part(alloc: Global, reader: &mut Reader) -> Result<RawTypeRule, Refusal> {
        let old = raw_name(alloc, reader)?;
        reader.take(Sort::To)?;
        let new = raw_name(alloc, reader)?;
        let feeds = feeds(alloc, reader)?;
        Ok(RawTypeRule { old, new, feeds })
    }
}

/// A mapping.
struct OneMapping;

impl Element for OneMapping {
    type Part = RawMapping;

    ghost part_at = { mapping_at };

    #[tactic(auto, unfolding(crate::specs::reading::Mappings::mapping_at))]
    fn part(alloc: Global, reader: &mut Reader) -> Result<RawMapping, Refusal> {
        let from = raw_named(alloc, reader, Sort::From)?;
        let to = raw_named(alloc, reader, Sort::To)?;
        reader.take(Sort::OpenBrace)?;
        let rules = row::<OneTypeRule>(alloc, reader, &[Sort::Name], None)?;
        ended_by(reader, Sort::CloseBrace, RawMapping { from, to, rules })
    }
}

/// Reads the mappings of a session.
#[tactic(auto, unfolding(crate::specs::reading::Mappings::mappings_at))]
pub fn mappings(alloc: Global, reader: &mut Reader) -> Result<List<RawMapping>, Refusal>
    ensures { MayConsume mappings_at reader.old reader.new result }
{
    row::<OneMapping>(alloc, reader, &[Sort::From], Some(MOST_MAPPINGS))
}
