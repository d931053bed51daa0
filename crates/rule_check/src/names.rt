//! What the names in rules stand for. A name is looked for among the names of a model of one sort, of which there are at most
//! 256, and among the datasets, of which there are at most 64.

ghost use Rattle.std.specs.Prelude.{◌≡◌, IfOk, option_copied, position, slice_get, Some, None};
ghost use Rattle.aerie_base.specs.expressions.Typing.{same_kind};
ghost use Rattle.aerie_base.specs.models.Cells.{cell_start_at, counter_kind, register_kind, flag_kind, flow_kind, read_kind};
ghost use Rattle.aerie_base.specs.models.Names.{same_name};
ghost use Rattle.constraints.specs.OfModel.{resource_kind, series_kind, is_of_kind};
ghost use Rattle.rule_check.specs.RuleNames.{position_of_type, position_of_enum, variant_of, variant_position, named_entry, name_kind, known_reading, reading_named};

use aerie_base::{CellRead, CellStart, EnumType, Kind, Model, Name, OutOfMemory, Resource, Shared};
use constraints::Reading;
use dataset_in::Series;
use diagnostics::short;
use std::alloc::Global;

/// The item at an index, counted from 0, or `None` past the last.
fn item_at<T>(items: &[T], at: usize) -> Option<&T>
    ensures { option_copied result ≡ slice_get items.now at }
{
    items.get(at)
}

// ---- activity types and enumerations

/// The position of the activity type of a name.
pub fn position_of_type(model: &Model, name: &Name) -> Option<usize>
    ensures { result ≡ position_of_type model.now.activities name.now }
{
    model
        .activities()
        .iter()
        .position(|activity| activity.name == *name)
}

/// The position of the enumeration of a name.
pub fn position_of_enum(model: &Model, name: &Name) -> Option<usize>
    ensures { result ≡ position_of_enum model.now.enums name.now }
{
    model
        .enums()
        .iter()
        .position(|enumeration| enumeration.name == *name)
}

/// The position of the variant of a name in the enumeration of this position.
pub fn variant_position(model: &Model, kind: usize, name: &Name) -> Option<usize>
    ensures { result ≡ variant_position model.now.enums kind name.now }
{
    variant_in(item_at(model.enums(), kind), name)
}

/// The position of the variant of a name in an enumeration, where there is one.
fn variant_in(enumeration: Option<&EnumType>, name: &Name) -> Option<usize>
    ensures { result ≡ variant_of (option_copied enumeration.entry) name.now }
{
    match enumeration {
        Some(enumeration) => place_in(enumeration.variants.as_slice(), name),
        None => None,
    }
}

/// The position of a name among names.
fn place_in(names: &[Name], name: &Name) -> Option<usize>
    ensures { result ≡ position (λ variant. same_name variant name.now) names.now }
{
    names.iter().position(|variant| variant == name)
}

// ---- resources and datasets

/// How the cell of this position begins, where there is one.
fn cell_start_at(model: &Model, cell: u16) -> Option<&CellStart>
    ensures { option_copied result ≡ cell_start_at model.now.cells cell }
{
    match item_at(model.cells(), usize::from(cell)) {
        Some(named) => Some(&named.1),
        None => None,
    }
}

/// The type of what a read has, where the model has such a read.
fn read_kind(model: &Model, read: CellRead) -> Option<Kind>
    ensures { result ≡ read_kind model.now.cells read }
{
    match read {
        CellRead::Counter(cell) => counter_kind(cell_start_at(model, cell)),
        CellRead::Register(cell) => register_kind(cell_start_at(model, cell)),
        CellRead::Conflicted(cell) => flag_kind(cell_start_at(model, cell)),
        CellRead::Volume(cell) | CellRead::Rate(cell) => flow_kind(cell_start_at(model, cell)),
    }
}

fn counter_kind(start: Option<&CellStart>) -> Option<Kind>
    ensures { result ≡ counter_kind (option_copied start.entry) }
{
    match start {
        Some(CellStart::Counter(_)) => Some(Kind::Int),
        _ => None,
    }
}

fn register_kind(start: Option<&CellStart>) -> Option<Kind>
    ensures { result ≡ register_kind (option_copied start.entry) }
{
    match start {
        Some(CellStart::Register { kind, .. }) => Some(*kind),
        _ => None,
    }
}

fn flag_kind(start: Option<&CellStart>) -> Option<Kind>
    ensures { result ≡ flag_kind (option_copied start.entry) }
{
    match start {
        Some(CellStart::Register { .. }) => Some(Kind::Truth),
        _ => None,
    }
}

fn flow_kind(start: Option<&CellStart>) -> Option<Kind>
    ensures { result ≡ flow_kind (option_copied start.entry) }
{
    match start {
        Some(CellStart::Accumulator { .. }) => Some(Kind::Int),
        _ => None,
    }
}

/// The type of a resource's values.
fn resource_kind(model: &Model, resource: &(Name, Resource)) -> Option<Kind>
    ensures { result ≡ resource_kind model.now.cells (Some resource.now) }
{
    match &resource.1 {
        Resource::Discrete(read) => read_kind(model, *read),
        Resource::Linear(_) => Some(Kind::Int),
    }
}

/// The type of a dataset's values.
fn series_kind(series: &Series) -> Kind
    ensures { result ≡ series_kind series.now }
{
    match series {
        Series::Truth(_) => Kind::Truth,
        Series::Whole(_) => Kind::Int,
        Series::Linear(_) => Kind::Int,
    }
}

/// The first entry of a name.
fn named_entry<'a, T>(entries: &'a [(Name, T)], name: &Name) -> Option<&'a (Name, T)>
    ensures { option_copied result ≡ named_entry entries.now name.now }
{
    entries.iter().find(|entry| entry.0 == *name)
}

/// The type of what a name reads: nothing, or something with the type of its values.
pub fn name_kind(
    model: &Model,
    datasets: &[(Name, Shared<Series>)],
    name: &Name,
) -> Option<Option<Kind>>
    ensures { result ≡ name_kind model.now datasets.now name.now }
{
    match named_entry(model.resources(), name) {
        Some(resource) => Some(resource_kind(model, resource)),
        None => match named_entry(datasets, name) {
            Some(dataset) => Some(Some(series_kind(dataset.1.get()))),
            None => None,
        },
    }
}

/// Whether a type is the wanted one.
pub fn is_of_kind(wanted: Kind, kind: Option<Kind>) -> bool
    ensures { result ≡ is_of_kind wanted kind }
{
    match kind {
        Some(kind) => same_kind(kind, wanted),
        None => false,
    }
}

fn same_kind(one: Kind, other: Kind) -> bool
    ensures { result ≡ same_kind one other }
{
    match (one, other) {
        (Kind::Int, Kind::Int) => true,
        (Kind::Truth, Kind::Truth) => true,
        (Kind::Enum(number), Kind::Enum(other)) => number == other,
        _ => false,
    }
}

/// The number of the resource of a name.
fn resource_position(model: &Model, name: &Name) -> Option<usize>
    ensures { result ≡ position (λ resource. same_name resource.0 name.now) model.now.resources }
{
    model
        .resources()
        .iter()
        .position(|resource| resource.0 == *name)
}

/// What a name reads. It takes memory for the name of a dataset and for one more owner of it.
pub fn reading_named(
    alloc: Global,
    model: &Model,
    datasets: &[(Name, Shared<Series>)],
    name: &Name,
) -> Result<Reading, OutOfMemory>
    ensures { IfOk result (λ reading. reading ≡ reading_named model.now datasets.now name.now) }
{
    match resource_position(model, name) {
        Some(number) => Ok(Reading::Resource(short(number))),
        None => dataset_named(alloc, datasets, name),
    }
}

/// The dataset of a name.
fn dataset_named(
    alloc: Global,
    datasets: &[(Name, Shared<Series>)],
    name: &Name,
) -> Result<Reading, OutOfMemory>
    ensures { IfOk result (λ reading. reading ≡ known_reading None (named_entry datasets.now name.now)) }
{
    match named_entry(datasets, name) {
        Some(dataset) => {
            let series = dataset.1.share()?;
            let name = dataset.0.copy(alloc)?;
            Ok(Reading::Series { name, series })
        }
        None => Ok(Reading::Resource(0)),
    }
}
