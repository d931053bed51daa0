//! The parts of a model are judged and made, declaration by declaration.

ghost use Rattle.std.specs.Prelude.{◌≡◌, IfOk};
ghost use Rattle.model_check.specs.CheckedParts.{no_parts, with_checked_cell, with_checked_resource, with_checked_items, checked_parts};
ghost use Rattle.model_check.specs.Diagnostics.{Makes};
ghost use Rattle.model_check.specs.ModelDiagnostics.{items_diagnostics, model_diagnostics};
ghost use Rattle.model_check.specs.ModelSymbols.{bare_symbols, symbols_of};
ghost use Rattle.model_check.specs.Making.{AddsItem};

use crate::activities::activity;
use crate::bodies::daemon_body;
use crate::causes::Cause;
use crate::declarations::{bare_symbols, symbols};
use crate::items::{accumulator_start, discrete, enum_type, linear_resource, register_start};
use crate::repeats::{NameGroup, note_repeated_items};
use crate::symbols::Symbols;
use aerie_base::{Activity, CellStart, Daemon, EnumType, List, Name, OutOfMemory, Resource};
use diagnostics::Diagnostic;
use model_reader::{RawItem, RawModel, RawName};
use std::alloc::Global;

/// The parts of a model as far as its declarations were read.
#[derive(Drop)]
pub(crate) struct CheckedParts {
    /// Its enumerations.
    pub enums: List<EnumType>,
    /// Its cells with their names.
    pub cells: List<(Name, CellStart)>,
    /// Its resources with their names.
    pub resources: List<(Name, Resource)>,
    /// Its activity types.
    pub activities: List<Activity>,
    /// Its daemons.
    pub daemons: List<Daemon>,
}

impl CheckedParts {
    /// No parts.
    fn new(alloc: Global) -> CheckedParts
        ensures { result ≡ no_parts }
    {
        CheckedParts {
            enums: List::new(alloc),
            cells: List::new(alloc),
            resources: List::new(alloc),
            activities: List::new(alloc),
            daemons: List::new(alloc),
        }
    }

    /// Adds a cell.
    fn add_cell(
        &mut self,
        alloc: Global,
        name: &RawName,
        start: CellStart,
    ) -> Result<(), OutOfMemory>
        ensures { IfOk result (λ _. self.new ≡ with_checked_cell self.old name.now start) }
    {
        let name = name.name.copy(alloc)?;
        self.cells.push((name, start))?;
        Ok(())
    }

    /// Adds a resource.
    fn add_resource(
        &mut self,
        alloc: Global,
        name: &RawName,
        resource: Resource,
    ) -> Result<(), OutOfMemory>
        ensures { IfOk result (λ _. self.new ≡ with_checked_resource self.old name.now resource) }
    {
        let name = name.name.copy(alloc)?;
        self.resources.push((name, resource))?;
        Ok(())
    }
}

/// Adds what a declaration makes, and notes what is wrong with it.
fn add_item(
    alloc: Global,
    symbols: &Symbols,
    bare: &Symbols,
    item: &RawItem,
    parts: &mut CheckedParts,
    found: &mut Option<Diagnostic<Cause>>,
) -> Result<(), OutOfMemory>
    requires { bare.now ≡ bare_symbols symbols.now.enums }
    ensures { IfOk result (λ _. AddsItem symbols.now item.now parts.old parts.new found.old found.new) }
{
    match item {
        RawItem::Enum { name, variants } => {
            let made = enum_type(alloc, name, variants.as_slice(), found)?;
            parts.enums.push(made)?;
            Ok(())
        }
        RawItem::Counter { name, start } => {
            parts.add_cell(alloc, name, CellStart::Counter(*start))?;
            Ok(())
        }
        RawItem::Register { name, kind, start } => {
            let made = register_start(symbols, kind, start, found);
            parts.add_cell(alloc, name, made)?;
            Ok(())
        }
        RawItem::Accumulator { name, volume, rate } => {
            let made = accumulator_start(*volume, rate, found);
            parts.add_cell(alloc, name, made)?;
            Ok(())
        }
        RawItem::Discrete { name, read } => {
            let made = discrete(alloc, symbols, read, found);
            parts.add_resource(alloc, name, Resource::Discrete(made))?;
            Ok(())
        }
        RawItem::Linear { name, sum } => {
            let made = linear_resource(alloc, symbols, sum, found)?;
            parts.add_resource(alloc, name, Resource::Linear(made))?;
            Ok(())
        }
        RawItem::Activity {
            name,
            parameters,
            result,
            requires_,
            body,
        } => {
            let parameters = parameters.as_slice();
            let truths = requires_.as_slice();
            let made = activity(
                alloc, symbols, bare, name, parameters, result, truths, body, found,
            )?;
            parts.activities.push(made)?;
            Ok(())
        }
        RawItem::Daemon { body } => {
            let made = daemon_body(alloc, symbols, body, found)?;
            let daemon = Daemon {
                slots: made.slots,
                body: made.statements,
            };
            parts.daemons.push(daemon)?;
            Ok(())
        }
    }
}

/// Makes what declarations make, and notes what is wrong with them.
fn items(
    alloc: Global,
    symbols: &Symbols,
    bare: &Symbols,
    items: &[RawItem],
    found: &mut Option<Diagnostic<Cause>>,
) -> Result<CheckedParts, OutOfMemory>
    requires { bare.now ≡ bare_symbols symbols.now.enums }
    ensures { IfOk result (Makes (with_checked_items symbols.now no_parts items.now) (items_diagnostics symbols.now items.now) found.old found.new) }
{
    let mut parts = CheckedParts::new(alloc);
    for item in items {
        add_item(alloc, symbols, bare, item, &mut parts, found)?;
    }
    Ok(parts)
}

/// Makes what declarations make whose names stand for these, and notes what is wrong with them.
fn items_of(
    alloc: Global,
    symbols: &Symbols,
    declared: &[RawItem],
    found: &mut Option<Diagnostic<Cause>>,
) -> Result<CheckedParts, OutOfMemory>
    requires { symbols.now ≡ symbols_of declared.now }
    ensures { IfOk result (Makes (with_checked_items symbols.now no_parts declared.now) (items_diagnostics symbols.now declared.now) found.old found.new) }
{
    let bare = bare_symbols(alloc, declared)?;
    items(alloc, symbols, &bare, declared, found)
}

/// Makes the parts of a model, and notes what is wrong with it. It goes over the model a few times, and over each body once; a name
/// is looked up by hash.
pub(crate) fn parts(
    alloc: Global,
    raw: &RawModel,
    found: &mut Option<Diagnostic<Cause>>,
) -> Result<CheckedParts, OutOfMemory>
    ensures { IfOk result (Makes (checked_parts raw.now) (model_diagnostics raw.now) found.old found.new) }
{
    let declared = raw.items.as_slice();
    note_repeated_items(alloc, NameGroup::Declared, declared, found)?;
    note_repeated_items(alloc, NameGroup::Shown, declared, found)?;
    let symbols = symbols(alloc, declared)?;
    items_of(alloc, &symbols, declared, found)
}
