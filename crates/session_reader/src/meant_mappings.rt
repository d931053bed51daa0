//! Mappings are made.

ghost use Rattle.std.specs.Prelude.{◌≡◌, IfOk, find, map, option_copied};
ghost use Rattle.aerie_base.specs.models.Names.{same_name};
ghost use Rattle.session_reader.specs.MeantMappings.{number_at as number_at_by, default_of as default_of_by, feed_written as feed_written_by, feed_or_default as feed_or_default_by, feed_for as feed_for_by, feeds_between as feeds_between_by, rule_meant, rules_among as rules_among_by, mapping_meant, mappings_meant};

use crate::known_parts::{
    model_named, model_position, parameter_position, type_named, type_position,
};
use crate::literals::literal_value;
use aerie_base::{Activity, List, Model, Name, OutOfMemory, Parameter, Shared, Value};
use diagnostics::short;
use plan_edit::{Feed, Mapping, TypeRule};
use session_grammar::{RawFeed, RawFeedValue, RawMapping, RawTypeRule};
use std::alloc::Global;

/// The number of a part at a position.
fn number_at(place: Option<usize>) -> u16
    ensures { result ≡ number_at_by place }
{
    match place {
        None => 0,
        Some(place) => short(place),
    }
}

/// The default of a parameter; where it has none, any value.
fn default_of(default: Option<Value>) -> Value
    ensures { result ≡ default_of_by default }
{
    match default {
        None => Value::Truth(false),
        Some(value) => value,
    }
}

/// What a feed says.
fn feed_written(new: &Model, from: &Activity, value: &RawFeedValue) -> Feed
    ensures { result ≡ feed_written_by new.now from.now value.now }
{
    match value {
        RawFeedValue::Parameter(name) => {
            let place = parameter_position(from.parameters.as_slice(), &name.name);
            Feed::Old(number_at(place))
        }
        RawFeedValue::Literal(literal) => Feed::Fixed(literal_value(new.enums(), &literal.what)),
    }
}

/// The feed of a parameter.
fn feed_named<'a>(feeds: &'a [RawFeed], name: &Name) -> Option<&'a RawFeed>
    ensures { option_copied result ≡ find (λ raw. same_name raw.parameter.name name.now) feeds.now }
{
    feeds.iter().find(|feed| feed.parameter.name == *name)
}

/// What a parameter gets by its feed, or else its default.
fn feed_or_default(
    new: &Model,
    from: &Activity,
    parameter: &Parameter,
    feed: Option<&RawFeed>,
) -> Feed
    ensures { result ≡ feed_or_default_by new.now from.now parameter.now (option_copied feed.entry) }
{
    match feed {
        None => Feed::Fixed(default_of(parameter.default)),
        Some(feed) => feed_written(new, from, &feed.value),
    }
}

/// What a parameter gets.
fn feed_for(new: &Model, from: &Activity, feeds: &[RawFeed], parameter: &Parameter) -> Feed
    ensures { result ≡ feed_for_by new.now from.now feeds.now parameter.now }
{
    feed_or_default(new, from, parameter, feed_named(feeds, &parameter.name))
}

/// A feed for each parameter of the new type.
fn all_feeds(
    alloc: Global,
    new: &Model,
    from: &Activity,
    feeds: &[RawFeed],
    parameters: &[Parameter],
) -> Result<List<Feed>, OutOfMemory>
    ensures { IfOk result (λ all. all ≡ map (feed_for_by new.now from.now feeds.now) parameters.now) }
{
    let mut all = List::with_capacity(alloc, parameters.len())?;
    for parameter in parameters {
        all.push(feed_for(new, from, feeds, parameter))?;
    }
    Ok(all)
}

/// A feed for each parameter, where both types are known.
fn feeds_between(
    alloc: Global,
    new: &Model,
    feeds: &[RawFeed],
    from: Option<&Activity>,
    to: Option<&Activity>,
) -> Result<List<Feed>, OutOfMemory>
    ensures { IfOk result (λ all. all ≡ feeds_between_by new.now feeds.now (option_copied from.entry) (option_copied to.entry)) }
{
    match from {
        None => Ok(List::new(alloc)),
        Some(from) => match to {
            None => Ok(List::new(alloc)),
            Some(to) => all_feeds(alloc, new, from, feeds, to.parameters.as_slice()),
        },
    }
}

/// The rule that is meant.
fn rule(alloc: Global, old: &Model, new: &Model, raw: &RawTypeRule) -> Result<TypeRule, OutOfMemory>
    ensures { IfOk result (λ made. made ≡ rule_meant old.now new.now raw.now) }
{
    let from = type_named(old, &raw.old.name);
    let to = type_named(new, &raw.new.name);
    let feeds = feeds_between(alloc, new, raw.feeds.as_slice(), from, to)?;
    Ok(TypeRule {
        old: number_at(type_position(old, &raw.old.name)),
        new: number_at(type_position(new, &raw.new.name)),
        feeds,
    })
}

/// The rules that are meant.
fn rules(
    alloc: Global,
    old: &Model,
    new: &Model,
    raw: &[RawTypeRule],
) -> Result<List<TypeRule>, OutOfMemory>
    ensures { IfOk result (λ made. made ≡ map (rule_meant old.now new.now) raw.now) }
{
    let mut made = List::with_capacity(alloc, raw.len())?;
    for one in raw {
        made.push(rule(alloc, old, new, one)?)?;
    }
    Ok(made)
}

/// The rules that are meant, where both models are known.
fn rules_among(
    alloc: Global,
    raw: &[RawTypeRule],
    old: Option<&Model>,
    new: Option<&Model>,
) -> Result<List<TypeRule>, OutOfMemory>
    ensures { IfOk result (λ made. made ≡ rules_among_by raw.now (option_copied old.entry) (option_copied new.entry)) }
{
    match old {
        None => Ok(List::new(alloc)),
        Some(old) => match new {
            None => Ok(List::new(alloc)),
            Some(new) => rules(alloc, old, new, raw),
        },
    }
}

/// The mapping that is meant.
fn mapping(
    alloc: Global,
    models: &[Shared<Model>],
    raw: &RawMapping,
) -> Result<Mapping, OutOfMemory>
    ensures { IfOk result (λ made. made ≡ mapping_meant models.now raw.now) }
{
    let old = model_named(models, &raw.from.name);
    let new = model_named(models, &raw.to.name);
    let rules = rules_among(alloc, raw.rules.as_slice(), old, new)?;
    Ok(Mapping {
        from: number_at(model_position(models, &raw.from.name)),
        to: number_at(model_position(models, &raw.to.name)),
        rules,
    })
}

/// The mappings that are meant.
pub(crate) fn mappings(
    alloc: Global,
    models: &[Shared<Model>],
    raw: &[RawMapping],
) -> Result<List<Mapping>, OutOfMemory>
    ensures { IfOk result (λ made. made ≡ mappings_meant models.now raw.now) }
{
    let mut made = List::with_capacity(alloc, raw.len())?;
    for one in raw {
        made.push(mapping(alloc, models, one)?)?;
    }
    Ok(made)
}
