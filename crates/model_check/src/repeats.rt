//! Names that may stand but once.

ghost use Rattle.std.specs.Prelude.{◌≡◌, [], option_map, option_to_list, IfOk};
ghost use Rattle.model_check.specs.Diagnostics.{noted};
ghost use Rattle.model_check.specs.ModelDiagnostics.{repeated_diagnostics, shared_name, resource_name, names_in};
ghost use Rattle.model_check.specs.NameGroups.{cell_name, group_name};
ghost use Rattle.model_check.specs.Making.{AddsNames};

use crate::causes::Cause;
use aerie_base::OutOfMemory;
use diagnostics::{Diagnostic, NameSet, note_repeated};
use model_reader::{RawItem, RawName};
use std::alloc::Global;

/// Declarations whose names have to differ.
#[derive(Clone, Copy)]
pub(crate) enum NameGroup {
    /// Enumerations, cells and activity types.
    Declared,
    /// Resources.
    Shown,
}

/// Notes names that are those of earlier ones.
pub(crate) fn note_all_repeated(
    alloc: Global,
    names: &[RawName],
    found: &mut Option<Diagnostic<Cause>>,
) -> Result<(), OutOfMemory>
    ensures { IfOk result (λ _. found.new ≡ noted found.old (repeated_diagnostics [] names.now)) }
{
    let mut earlier = NameSet::new(alloc);
    for name in names {
        note_repeated(
            alloc,
            &mut earlier,
            &name.name,
            name.at,
            Cause::Duplicate,
            found,
        )?;
    }
    Ok(())
}

/// The name that a declaration gives to the group.
fn group_name(group: NameGroup, item: &RawItem) -> Option<&RawName>
    ensures { option_to_list (option_map (λ name. name.now) result) ≡ group_name group item.now }
{
    match group {
        NameGroup::Declared => declared_name(item),
        NameGroup::Shown => shown_name(item),
    }
}

/// The name of an enumeration, a cell or an activity type.
fn declared_name(item: &RawItem) -> Option<&RawName>
    ensures { option_to_list (option_map (λ name. name.now) result) ≡ shared_name item.now }
{
    match item {
        RawItem::Enum { name, .. } => Some(name),
        RawItem::Activity { name, .. } => Some(name),
        _ => cell_name(item),
    }
}

/// The name of a cell.
fn cell_name(item: &RawItem) -> Option<&RawName>
    ensures { option_to_list (option_map (λ name. name.now) result) ≡ cell_name item.now }
{
    match item {
        RawItem::Counter { name, .. } => Some(name),
        RawItem::Register { name, .. } => Some(name),
        RawItem::Accumulator { name, .. } => Some(name),
        _ => None,
    }
}

/// The name of a resource.
fn shown_name(item: &RawItem) -> Option<&RawName>
    ensures { option_to_list (option_map (λ name. name.now) result) ≡ resource_name item.now }
{
    match item {
        RawItem::Discrete { name, .. } => Some(name),
        RawItem::Linear { name, .. } => Some(name),
        _ => None,
    }
}

/// Notes the name of a declaration that is that of an earlier one of the group, and adds it to them.
fn note_repeated_item(
    alloc: Global,
    group: NameGroup,
    earlier: &mut NameSet,
    item: &RawItem,
    found: &mut Option<Diagnostic<Cause>>,
) -> Result<(), OutOfMemory>
    ensures { IfOk result (λ _. AddsNames (group_name group item.now) earlier.old earlier.new found.old found.new) }
{
    match group_name(group, item) {
        None => Ok(()),
        Some(name) => note_repeated(alloc, earlier, &name.name, name.at, Cause::Duplicate, found),
    }
}

/// Notes declarations of a group whose names are those of earlier ones. A name is looked up by hash.
pub(crate) fn note_repeated_items(
    alloc: Global,
    group: NameGroup,
    items: &[RawItem],
    found: &mut Option<Diagnostic<Cause>>,
) -> Result<(), OutOfMemory>
    ensures { IfOk result (λ _. found.new ≡ noted found.old (repeated_diagnostics [] (names_in (group_name group) items.now))) }
{
    let mut earlier = NameSet::new(alloc);
    for item in items {
        note_repeated_item(alloc, group, &mut earlier, item, found)?;
    }
    Ok(())
}
