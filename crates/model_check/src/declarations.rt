//! What the names of a model stand for.

ghost use Rattle.std.specs.Prelude.{◌≡◌, [], IfOk};
ghost use Rattle.model_check.specs.Diagnostics.{noted};
ghost use Rattle.model_check.specs.ModelSymbols.{type_kind, type_diagnostics, with_names, with_enum_symbol, enum_symbols_from, with_cell_symbol, cell_symbols_from, default_value, parameters_from, result_symbol, with_type_symbol, type_symbols_from, bare_symbols, symbols_of};
ghost use Rattle.model_check.specs.NameTables.{no_entries, with_entry};

use crate::causes::Cause;
use crate::literals::literal_value;
use crate::symbols::{
    CellSort, CellSymbol, EnumSymbol, ParameterSymbol, ResultSymbol, Symbols, TypeSymbol,
};
use crate::tables::NameTable;
use aerie_base::{Kind, OutOfMemory, Value};
use diagnostics::{Diagnostic, NameSet, note, short};
use model_reader::{RawItem, RawLiteral, RawName, RawParameter, RawType};
use std::alloc::Global;

/// The enumerations of a model.
type Enums = NameTable<EnumSymbol>;

// ---- types

/// The type that is written, where its enumeration is known.
pub(crate) fn type_kind(enums: &Enums, written: &RawType) -> Option<Kind>
    ensures { result ≡ type_kind enums.now written.now }
{
    match written {
        RawType::Int => Some(Kind::Int),
        RawType::Truth => Some(Kind::Truth),
        RawType::Named(name) => {
            let (number, _) = enums.find(&name.name)?;
            Some(Kind::Enum(short(number)))
        }
    }
}

/// Notes a type that names no enumeration.
pub(crate) fn note_type(enums: &Enums, written: &RawType, found: &mut Option<Diagnostic<Cause>>)
    ensures { found.new ≡ noted found.old (type_diagnostics enums.now written.now) }
{
    match written {
        RawType::Int | RawType::Truth => {}
        RawType::Named(name) => {
            if enums.find(&name.name).is_none() {
                note(found, name.at, Cause::Unknown);
            }
        }
    }
}

// ---- enumerations

/// The different ones of these names.
fn different(alloc: Global, names: &[RawName]) -> Result<NameSet, OutOfMemory>
    ensures { IfOk result (λ set. set ≡ with_names [] names.now) }
{
    let mut set = NameSet::new(alloc);
    for name in names {
        set.add(alloc, &name.name)?;
    }
    Ok(set)
}

/// Adds the enumeration that a declaration makes.
fn add_enum(alloc: Global, table: &mut Enums, item: &RawItem) -> Result<(), OutOfMemory>
    ensures { IfOk result (λ _. table.new ≡ with_enum_symbol table.old item.now) }
{
    match item {
        RawItem::Enum { name, variants } => {
            let variants = different(alloc, variants.as_slice())?;
            let symbol = EnumSymbol {
                at: name.at,
                variants,
            };
            table.add(alloc, &name.name, symbol)?;
            Ok(())
        }
        RawItem::Counter { .. }
        | RawItem::Register { .. }
        | RawItem::Accumulator { .. }
        | RawItem::Discrete { .. }
        | RawItem::Linear { .. }
        | RawItem::Activity { .. }
        | RawItem::Daemon { .. } => Ok(()),
    }
}

/// The enumerations of these declarations.
fn enums(alloc: Global, items: &[RawItem]) -> Result<Enums, OutOfMemory>
    ensures { IfOk result (λ table. table ≡ enum_symbols_from no_entries items.now) }
{
    let mut table = NameTable::new(alloc);
    for item in items {
        add_enum(alloc, &mut table, item)?;
    }
    Ok(table)
}

// ---- cells

/// Adds a cell of this sort.
fn add_one(
    alloc: Global,
    table: &mut NameTable<CellSymbol>,
    name: &RawName,
    sort: CellSort,
) -> Result<(), OutOfMemory>
    ensures { IfOk result (λ _. table.new ≡ with_entry table.old name.now.name (record { at = name.now.at; sort = sort })) }
{
    table.add(alloc, &name.name, CellSymbol { at: name.at, sort })?;
    Ok(())
}

/// Adds the cell that a declaration makes.
fn add_cell(
    alloc: Global,
    enums: &Enums,
    table: &mut NameTable<CellSymbol>,
    item: &RawItem,
) -> Result<(), OutOfMemory>
    ensures { IfOk result (λ _. table.new ≡ with_cell_symbol enums.now table.old item.now) }
{
    match item {
        RawItem::Counter { name, .. } => add_one(alloc, table, name, CellSort::Counter),
        RawItem::Register { name, kind, .. } => {
            add_one(
                alloc,
                table,
                name,
                CellSort::Register(type_kind(enums, kind)),
            )
        }
        RawItem::Accumulator { name, .. } => add_one(alloc, table, name, CellSort::Accumulator),
        RawItem::Enum { .. }
        | RawItem::Discrete { .. }
        | RawItem::Linear { .. }
        | RawItem::Activity { .. }
        | RawItem::Daemon { .. } => Ok(()),
    }
}

/// The cells of these declarations.
fn cells(
    alloc: Global,
    enums: &Enums,
    items: &[RawItem],
) -> Result<NameTable<CellSymbol>, OutOfMemory>
    ensures { IfOk result (λ table. table ≡ cell_symbols_from enums.now no_entries items.now) }
{
    let mut table = NameTable::new(alloc);
    for item in items {
        add_cell(alloc, enums, &mut table, item)?;
    }
    Ok(table)
}

// ---- activity types

/// The value of a default, where there is one.
pub(crate) fn default_value(enums: &Enums, default: &Option<RawLiteral>) -> Option<Value>
    ensures { result ≡ default_value enums.now default.now }
{
    match default {
        Some(literal) => Some(literal_value(enums, &literal.what)),
        None => None,
    }
}

/// The parameters of an activity type.
fn parameters(
    alloc: Global,
    enums: &Enums,
    written: &[RawParameter],
) -> Result<NameTable<ParameterSymbol>, OutOfMemory>
    ensures { IfOk result (λ table. table ≡ parameters_from enums.now no_entries written.now) }
{
    let mut table = NameTable::new(alloc);
    for parameter in written {
        let symbol = ParameterSymbol {
            kind: type_kind(enums, &parameter.kind),
            default: default_value(enums, &parameter.default),
        };
        table.add(alloc, &parameter.name.name, symbol)?;
    }
    Ok(table)
}

/// The result of an activity type, where it has one.
pub(crate) fn result_symbol(enums: &Enums, written: &Option<RawType>) -> Option<ResultSymbol>
    ensures { result ≡ result_symbol enums.now written.now }
{
    match written {
        Some(written) => Some(ResultSymbol {
            kind: type_kind(enums, written),
        }),
        None => None,
    }
}

/// Adds the activity type that a declaration makes.
fn add_type(
    alloc: Global,
    enums: &Enums,
    table: &mut NameTable<TypeSymbol>,
    item: &RawItem,
) -> Result<(), OutOfMemory>
    ensures { IfOk result (λ _. table.new ≡ with_type_symbol enums.now table.old item.now) }
{
    match item {
        RawItem::Activity {
            name,
            parameters: written,
            result: returns,
            ..
        } => {
            let parameters = parameters(alloc, enums, written.as_slice())?;
            let result = result_symbol(enums, returns);
            table.add(alloc, &name.name, TypeSymbol { parameters, result })?;
            Ok(())
        }
        RawItem::Enum { .. }
        | RawItem::Counter { .. }
        | RawItem::Register { .. }
        | RawItem::Accumulator { .. }
        | RawItem::Discrete { .. }
        | RawItem::Linear { .. }
        | RawItem::Daemon { .. } => Ok(()),
    }
}

/// The activity types of these declarations.
fn types(
    alloc: Global,
    enums: &Enums,
    items: &[RawItem],
) -> Result<NameTable<TypeSymbol>, OutOfMemory>
    ensures { IfOk result (λ table. table ≡ type_symbols_from enums.now no_entries items.now) }
{
    let mut table = NameTable::new(alloc);
    for item in items {
        add_type(alloc, enums, &mut table, item)?;
    }
    Ok(table)
}

// ---- all of them

/// What the names of a model with these declarations stand for.
pub(crate) fn symbols(alloc: Global, items: &[RawItem]) -> Result<Symbols, OutOfMemory>
    ensures { IfOk result (λ symbols. symbols ≡ symbols_of items.now) }
{
    let enums = enums(alloc, items)?;
    let cells = cells(alloc, &enums, items)?;
    let types = types(alloc, &enums, items)?;
    Ok(Symbols {
        enums,
        cells,
        types,
    })
}

/// What the names of these declarations stand for where only enumerations are known.
pub(crate) fn bare_symbols(alloc: Global, items: &[RawItem]) -> Result<Symbols, OutOfMemory>
    ensures { IfOk result (λ bare. bare ≡ bare_symbols (enum_symbols_from no_entries items.now)) }
{
    let enums = enums(alloc, items)?;
    Ok(Symbols {
        enums,
        cells: NameTable::new(alloc),
        types: NameTable::new(alloc),
    })
}
