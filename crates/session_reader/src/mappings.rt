//! Mappings are judged.

ghost use Rattle.std.specs.Prelude.{◌≡◌, [], IfOk, option_copied};
ghost use Rattle.std.specs.List.{list_all, list_any};
ghost use Rattle.diagnostics.specs.Diagnostics.{all_of};
ghost use Rattle.session_reader.specs.Diagnostics.{noted};
ghost use Rattle.session_reader.specs.MappingDiagnostics.{feeds_diagnostics, between_diagnostics, rule_diagnostics, rules_diagnostics, among_diagnostics, mapping_diagnostics, same_models as same_models_by, repeated_mappings, mappings_diagnostics, gets_a_value as gets_a_value_by};

use crate::causes::Cause;
use crate::feeds::{gets_a_value, note_feeds};
use crate::known_parts::{model_named, model_position, type_named, type_position};
use crate::names::note_all_repeated;
use aerie_base::{Activity, Model, OutOfMemory, Parameter, Shared};
use diagnostics::{Diagnostic, note_unless};
use session_grammar::{RawFeed, RawMapping, RawTypeRule};
use std::alloc::Global;

/// Whether each parameter gets a value.
fn all_get_values(feeds: &[RawFeed], parameters: &[Parameter]) -> bool
    ensures { result ≡ list_all (gets_a_value_by feeds.now) parameters.now }
{
    parameters
        .iter()
        .all(|parameter| gets_a_value(feeds, parameter))
}

/// Notes what is wrong with a rule between two types.
#[tactic(auto, using(diagnostics::specs::NotedInTurn::noted_appended))]
fn note_between(
    alloc: Global,
    old: &Model,
    new: &Model,
    rule: &RawTypeRule,
    from: &Activity,
    to: &Activity,
    found: &mut Option<Diagnostic<Cause>>,
) -> Result<(), OutOfMemory>
    ensures { IfOk result (λ _. found.new ≡ noted found.old (feeds_diagnostics old.now new.now rule.now from.now to.now)) }
{
    let feeds = rule.feeds.as_slice();
    let complete = all_get_values(feeds, to.parameters.as_slice());
    note_unless(complete, found, rule.new.at, Cause::WrongType);
    note_all_repeated(alloc, feeds, found)?;
    note_feeds(old, new, from, to, feeds, found);
    Ok(())
}

/// Notes what is wrong with a rule between two types, where both are known.
fn note_between_known(
    alloc: Global,
    old: &Model,
    new: &Model,
    rule: &RawTypeRule,
    from: Option<&Activity>,
    to: Option<&Activity>,
    found: &mut Option<Diagnostic<Cause>>,
) -> Result<(), OutOfMemory>
    ensures { IfOk result (λ _. found.new ≡ noted found.old (between_diagnostics old.now new.now rule.now (option_copied from.entry) (option_copied to.entry))) }
{
    match from {
        None => Ok(()),
        Some(from) => match to {
            None => Ok(()),
            Some(to) => note_between(alloc, old, new, rule, from, to, found),
        },
    }
}

/// Notes what is wrong with a rule.
#[tactic(auto, using(diagnostics::specs::NotedInTurn::noted_appended))]
fn note_rule(
    alloc: Global,
    old: &Model,
    new: &Model,
    rule: &RawTypeRule,
    found: &mut Option<Diagnostic<Cause>>,
) -> Result<(), OutOfMemory>
    ensures { IfOk result (λ _. found.new ≡ noted found.old (rule_diagnostics old.now new.now rule.now)) }
{
    let is_old = type_position(old, &rule.old.name).is_some();
    note_unless(is_old, found, rule.old.at, Cause::Unknown);
    let is_new = type_position(new, &rule.new.name).is_some();
    note_unless(is_new, found, rule.new.at, Cause::Unknown);
    let from = type_named(old, &rule.old.name);
    let to = type_named(new, &rule.new.name);
    note_between_known(alloc, old, new, rule, from, to, found)
}

/// Notes what is wrong with each of these rules.
fn note_each_rule(
    alloc: Global,
    old: &Model,
    new: &Model,
    rules: &[RawTypeRule],
    found: &mut Option<Diagnostic<Cause>>,
) -> Result<(), OutOfMemory>
    ensures { IfOk result (λ _. found.new ≡ noted found.old (all_of (rule_diagnostics old.now new.now) rules.now)) }
{
    for rule in rules {
        note_rule(alloc, old, new, rule, found)?;
    }
    Ok(())
}

/// Notes what is wrong with the rules between two models.
#[tactic(auto, using(diagnostics::specs::NotedInTurn::noted_appended))]
fn note_rules(
    alloc: Global,
    old: &Model,
    new: &Model,
    rules: &[RawTypeRule],
    found: &mut Option<Diagnostic<Cause>>,
) -> Result<(), OutOfMemory>
    ensures { IfOk result (λ _. found.new ≡ noted found.old (rules_diagnostics old.now new.now rules.now)) }
{
    note_all_repeated(alloc, rules, found)?;
    note_each_rule(alloc, old, new, rules, found)
}

/// Notes what is wrong with the rules between two models, where both are known.
fn note_rules_known(
    alloc: Global,
    rules: &[RawTypeRule],
    old: Option<&Model>,
    new: Option<&Model>,
    found: &mut Option<Diagnostic<Cause>>,
) -> Result<(), OutOfMemory>
    ensures { IfOk result (λ _. found.new ≡ noted found.old (among_diagnostics rules.now (option_copied old.entry) (option_copied new.entry))) }
{
    match old {
        None => Ok(()),
        Some(old) => match new {
            None => Ok(()),
            Some(new) => note_rules(alloc, old, new, rules, found),
        },
    }
}

/// Notes what is wrong with a mapping.
#[tactic(auto, using(diagnostics::specs::NotedInTurn::noted_appended))]
fn note_mapping(
    alloc: Global,
    models: &[Shared<Model>],
    mapping: &RawMapping,
    found: &mut Option<Diagnostic<Cause>>,
) -> Result<(), OutOfMemory>
    ensures { IfOk result (λ _. found.new ≡ noted found.old (mapping_diagnostics models.now mapping.now)) }
{
    let is_old = model_position(models, &mapping.from.name).is_some();
    note_unless(is_old, found, mapping.from.at, Cause::Unknown);
    let is_new = model_position(models, &mapping.to.name).is_some();
    note_unless(is_new, found, mapping.to.at, Cause::Unknown);
    let old = model_named(models, &mapping.from.name);
    let new = model_named(models, &mapping.to.name);
    note_rules_known(alloc, mapping.rules.as_slice(), old, new, found)
}

/// Notes what is wrong with each of these mappings.
fn note_each_mapping(
    alloc: Global,
    models: &[Shared<Model>],
    mappings: &[RawMapping],
    found: &mut Option<Diagnostic<Cause>>,
) -> Result<(), OutOfMemory>
    ensures { IfOk result (λ _. found.new ≡ noted found.old (all_of (mapping_diagnostics models.now) mappings.now)) }
{
    for mapping in mappings {
        note_mapping(alloc, models, mapping, found)?;
    }
    Ok(())
}

/// Whether two mappings are between the same models.
fn same_models(mapping: &RawMapping, other: &RawMapping) -> bool
    ensures { result ≡ same_models_by mapping.now other.now }
{
    mapping.from.name == other.from.name && mapping.to.name == other.to.name
}

/// Whether one of some mappings is between the models of another.
fn has_models_of(mapping: &RawMapping, earlier: &[RawMapping]) -> bool
    ensures { result ≡ list_any (same_models_by mapping.now) earlier.now }
{
    earlier.iter().any(|other| same_models(mapping, other))
}

/// Notes mappings between the models of earlier ones: there are at most 16.
fn note_repeated_mappings(mappings: &[RawMapping], found: &mut Option<Diagnostic<Cause>>)
    ensures { found.new ≡ noted found.old (repeated_mappings [] mappings.now) }
{
    for number in 0..mappings.len() {
        let mapping = &mappings[number];
        let is_new = !has_models_of(mapping, &mappings[..number]);
        note_unless(is_new, found, mapping.from.at, Cause::Duplicate);
    }
}

/// Notes what is wrong with the mappings of a session. It takes time linear in them, names being looked up by hash or in
/// short lists.
#[tactic(auto, using(diagnostics::specs::NotedInTurn::noted_appended))]
pub(crate) fn note_mappings(
    alloc: Global,
    models: &[Shared<Model>],
    mappings: &[RawMapping],
    found: &mut Option<Diagnostic<Cause>>,
) -> Result<(), OutOfMemory>
    ensures { IfOk result (λ _. found.new ≡ noted found.old (mappings_diagnostics models.now mappings.now)) }
{
    note_repeated_mappings(mappings, found);
    note_each_mapping(alloc, models, mappings, found)
}
