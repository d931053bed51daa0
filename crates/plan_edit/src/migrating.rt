//! Plans are taken to another model.

ghost use Rattle.std.specs.Prelude.{◌≡◌, ◌<◌, IsTrue, Some, Ok, IfOk, IfErr, OnOk, OnErr, length, option_copied, option_and_then, slice_get};
ghost use Rattle.std.specs.List.{list_all};
ghost use Rattle.aerie_base.specs.plans.OfModel.{IsPlanOf};
ghost use Rattle.plan_edit.specs.Mappings.{IsMappingOf, is_type_rule};
ghost use Rattle.plan_edit.specs.Migrating.{takes_arguments, kinds_of_parameters, mapped_arguments as mapped_arguments_by, all_migrated as all_migrated_by, by_rule as made_by_rule, mapped_argument as mapped_argument_by, is_feed_within, migrate_of, migrated as migrated_by, retyped as retyped_by, rule_of, AreDirectivesOf, IsMigrated, IsMigrateRefusal, IsRuleTable};

use crate::errors::MigrateError;
use crate::items::item_at;
use crate::mappings::{Feed, Mapping, TypeRule};
use crate::unmet::first_unmet;
use aerie_base::{Directive, Kind, List, Model, OutOfMemory, Parameter, Plan, Value};
use std::alloc::Global;

/// Takes a plan to another model: each directive gets the type and the arguments that its type's rule says, while ids, starts,
/// anchors, duration and next id stay, and the plan's model is `mapping.to`. It refuses with `Unmapped` or `Misfit` for the
/// directive with the least id for which there is a cause. It takes one pass over the directives, with a table of the rules.
pub fn migrate(
    alloc: Global,
    old: &Model,
    new: &Model,
    mapping: &Mapping,
    plan: &mut Plan,
) -> Result<(), MigrateError>
    requires mapping { IsMappingOf old.now new.now mapping.now }
    requires plan { IsPlanOf old.now plan.old }
    ensures migrated { OnOk result (migrate_of new.now mapping.now plan.old ≡ Ok plan.new) }
    ensures refused { IfErr result (IsMigrateRefusal (migrate_of new.now mapping.now plan.old)) }
    ensures unchanged { OnErr result (plan.new ≡ plan.old) }
    ensures plan { OnOk result (IsPlanOf new.now plan.new) }
{
    let table = rule_table(alloc, mapping.rules.as_slice(), old.activities().len())?;
    let directives = all_migrated(alloc, old, new, mapping, &table, plan.directives.as_slice())?;
    plan.directives = directives;
    plan.model = mapping.to;
    Ok(())
}

/// The position of the first rule for each of so many types.
fn rule_table(
    alloc: Global,
    rules: &[TypeRule],
    types: usize,
) -> Result<Vec<Option<usize>>, OutOfMemory>
    ensures table { IfOk result (λ table. IsRuleTable rules.now table.items) }
    ensures count { IfOk result (λ table. length table.items ≡ types) }
{
    let mut table = Vec::with_capacity(alloc, types)?;
    for kind in 0..types {
        table.push(rule_position(rules, kind))?;
    }
    Ok(table)
}

/// The position of the first rule for a type.
fn rule_position(rules: &[TypeRule], kind: usize) -> Option<usize>
    ensures { option_and_then (slice_get rules.now) result ≡ rule_of rules.now kind }
{
    for position in 0..rules.len() {
        if usize::from(rules[position].old) == kind {
            return Some(position);
        }
    }
    None
}

/// The first rule for a type, by the table.
fn rule_for<'a>(rules: &'a [TypeRule], table: &[Option<usize>], kind: u16) -> Option<&'a TypeRule>
    requires table { IsRuleTable rules.now table.now }
    requires within { kind < length table.now }
    ensures { option_copied result ≡ rule_of rules.now kind }
{
    match table[usize::from(kind)] {
        Some(position) => item_at(rules, position),
        None => None,
    }
}

/// What becomes of directives.
fn all_migrated(
    alloc: Global,
    old: &Model,
    new: &Model,
    mapping: &Mapping,
    table: &[Option<usize>],
    directives: &[Directive],
) -> Result<List<Directive>, MigrateError>
    requires mapping { IsMappingOf old.now new.now mapping.now }
    requires table { IsRuleTable mapping.now.rules table.now }
    requires count { length table.now ≡ length old.now.activities }
    requires directives { AreDirectivesOf old.now directives.now }
    ensures { IsMigrated (all_migrated_by new.now mapping.now directives.now) result }
{
    let mut all = List::with_capacity(alloc, directives.len())?;
    for directive in directives {
        all.push(migrated(alloc, old, new, mapping, table, directive)?)?;
    }
    Ok(all)
}

/// What becomes of a directive.
fn migrated(
    alloc: Global,
    old: &Model,
    new: &Model,
    mapping: &Mapping,
    table: &[Option<usize>],
    directive: &Directive,
) -> Result<Directive, MigrateError>
    requires mapping { IsMappingOf old.now new.now mapping.now }
    requires table { IsRuleTable mapping.now.rules table.now }
    requires count { length table.now ≡ length old.now.activities }
    requires takes { IsTrue (takes_arguments old.now directive.now) }
    ensures { IsMigrated (migrated_by new.now mapping.now directive.now) result }
{
    match rule_for(mapping.rules.as_slice(), table, directive.kind) {
        Some(rule) => by_rule(alloc, old, new, rule, directive),
        None => Err(MigrateError::Unmapped { id: directive.id }),
    }
}

/// What a rule makes of a directive.
fn by_rule(
    alloc: Global,
    old: &Model,
    new: &Model,
    rule: &TypeRule,
    directive: &Directive,
) -> Result<Directive, MigrateError>
    requires rule { IsTrue (is_type_rule old.now new.now rule.now) }
    requires kind { rule.now.old ≡ directive.now.kind }
    requires takes { IsTrue (takes_arguments old.now directive.now) }
    ensures { IsMigrated (made_by_rule new.now directive.now (Some rule.now)) result }
{
    let activity = &new.activities()[usize::from(rule.new)];
    let values = mapped_arguments(
        alloc,
        activity.parameters.as_slice(),
        rule.feeds.as_slice(),
        directive.arguments.as_slice(),
    )?;
    match first_unmet(activity.requires_.as_slice(), values.as_slice()) {
        Some(number) => Err(MigrateError::Misfit {
            id: directive.id,
            number,
        }),
        None => Ok(Directive {
            id: directive.id,
            start: directive.start,
            anchor: directive.anchor,
            kind: rule.new,
            arguments: values,
        }),
    }
}

/// What the parameters get of the old arguments.
fn mapped_arguments(
    alloc: Global,
    parameters: &[Parameter],
    feeds: &[Feed],
    arguments: &[Value],
) -> Result<List<Value>, OutOfMemory>
    requires count { length feeds.now ≡ length parameters.now }
    requires within { IsTrue (list_all (is_feed_within (length arguments.now)) feeds.now) }
    ensures { IfOk result (λ values.
        values ≡ mapped_arguments_by arguments.now (kinds_of_parameters parameters.now) feeds.now) }
{
    let mut values = List::with_capacity(alloc, parameters.len())?;
    for position in 0..parameters.len() {
        values.push(mapped_argument(arguments, parameters[position].kind, &feeds[position]))?;
    }
    Ok(values)
}

/// What a parameter of a type gets of the old arguments.
fn mapped_argument(arguments: &[Value], kind: Kind, feed: &Feed) -> Value
    requires { IsTrue (is_feed_within (length arguments.now) feed.now) }
    ensures { result ≡ mapped_argument_by arguments.now kind feed.now }
{
    match feed {
        Feed::Old(position) => retyped(kind, arguments[usize::from(*position)]),
        Feed::Fixed(value) => *value,
    }
}

/// The variant with the same number of an enumeration; another value stays.
fn retyped(kind: Kind, value: Value) -> Value
    ensures { result ≡ retyped_by kind value }
{
    match (kind, value) {
        (Kind::Enum(to), Value::Variant { number, .. }) => Value::Variant { kind: to, number },
        _ => value,
    }
}
