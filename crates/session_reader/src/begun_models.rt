//! The first model is made with the beginnings of its cells in place.

ghost use Rattle.std.specs.Prelude.{◌≡◌, ◌++◌, [], IfOk, IsTrue, OnOk, map, option_copied};
ghost use Rattle.std.specs.List.{AllByRecursion};
ghost use Rattle.aerie_base.specs.models.ValidModel.{valid_model};
ghost use Rattle.session_grammar.specs.SessionLimits.{IsBeginningInRange};
ghost use Rattle.session_reader.specs.Beginnings.{beginning_named as beginning_named_by, beginnings_diagnostics, cell_begun as cell_begun_by, model_begun as model_begun_by, models_begun as models_begun_by, plan_diagnostics, rate_or as rate_or_by, start_begun as start_begun_by, start_or_begun as start_or_begun_by};
ghost use Rattle.session_reader.specs.CheckedModels.{AreValid};

use crate::beginnings::number_of_literal;
use crate::literals::literal_value;
use crate::models::shared;
use aerie_base::{CellStart, EnumType, List, Model, Name, OutOfMemory, PlainData, Shared};
use session_grammar::{RawBeginning, RawRate};
use std::alloc::Global;

/// The rate that is given, or else the model's.
fn rate_or(old: i64, rate: &Option<RawRate>) -> i64
    ensures { result ≡ rate_or_by old rate.now }
{
    match rate {
        None => old,
        Some(rate) => number_of_literal(&rate.rate.what).get(),
    }
}

/// What a cell begins with, as a beginning says.
fn start_begun(enums: &[EnumType], start: CellStart, beginning: &RawBeginning) -> CellStart
    ensures { result ≡ start_begun_by enums.now start beginning.now }
{
    let literal = &beginning.value.what;
    match start {
        CellStart::Counter(_) => CellStart::Counter(number_of_literal(literal)),
        CellStart::Register { kind, .. } => CellStart::Register {
            kind,
            value: literal_value(enums, literal),
        },
        CellStart::Accumulator { rate, .. } => CellStart::Accumulator {
            volume: number_of_literal(literal),
            rate: rate_or(rate, &beginning.rate),
        },
    }
}

/// What a cell begins with, as its beginning says, or else as the model does.
fn start_or_begun(
    enums: &[EnumType],
    start: CellStart,
    beginning: Option<&RawBeginning>,
) -> CellStart
    ensures { result ≡ start_or_begun_by enums.now start (option_copied beginning.entry) }
{
    match beginning {
        None => start,
        Some(beginning) => start_begun(enums, start, beginning),
    }
}

/// The beginning of the cell with a name, where it has one. Where none is refused there are at most 256.
fn beginning_named<'a>(beginnings: &'a [RawBeginning], name: &Name) -> Option<&'a RawBeginning>
    ensures { option_copied result ≡ beginning_named_by beginnings.now name.now }
{
    beginnings
        .iter()
        .find(|beginning| beginning.cell.name == *name)
}

/// A cell with its beginning in place.
fn cell_begun(
    alloc: Global,
    enums: &[EnumType],
    beginnings: &[RawBeginning],
    cell: &(Name, CellStart),
) -> Result<(Name, CellStart), OutOfMemory>
    ensures { IfOk result (λ made. made ≡ cell_begun_by enums.now beginnings.now cell.now) }
{
    let start = start_or_begun(enums, cell.1, beginning_named(beginnings, &cell.0));
    Ok((cell.0.copy(alloc)?, start))
}

/// The cells with their beginnings in place.
fn cells_begun(
    alloc: Global,
    enums: &[EnumType],
    beginnings: &[RawBeginning],
    cells: &[(Name, CellStart)],
) -> Result<List<(Name, CellStart)>, OutOfMemory>
    ensures { IfOk result (λ made. made ≡ map (cell_begun_by enums.now beginnings.now) cells.now) }
{
    let mut made = List::with_capacity(alloc, cells.len())?;
    for cell in cells {
        made.push(cell_begun(alloc, enums, beginnings, cell)?)?;
    }
    Ok(made)
}

/// Equal parts, in memory of their own.
fn copies<T: PlainData + Drop>(alloc: Global, items: &[T]) -> Result<List<T>, OutOfMemory>
    ensures { IfOk result (λ copies. copies ≡ items.now) }
{
    let mut copies = List::with_capacity(alloc, items.len())?;
    for item in items {
        copies.push(item.copied(alloc)?)?;
    }
    Ok(copies)
}

/// A model with the beginnings in place.
fn model_begun(
    alloc: Global,
    model: &Model,
    beginnings: &[RawBeginning],
) -> Result<Model, OutOfMemory>
    requires good { IsTrue (valid_model (model_begun_by beginnings.now model.now)) }
    ensures made { IfOk result (λ made. made ≡ model_begun_by beginnings.now model.now) }
{
    let name = model.name().copy(alloc)?;
    let cells = cells_begun(alloc, model.enums(), beginnings, model.cells())?;
    let enums = copies(alloc, model.enums())?;
    let resources = copies(alloc, model.resources())?;
    let activities = copies(alloc, model.activities())?;
    let daemons = copies(alloc, model.daemons())?;
    Ok(Model::new(
        name,
        enums.into_vec(),
        cells.into_vec(),
        resources.into_vec(),
        activities.into_vec(),
        daemons.into_vec(),
    ))
}

/// The same of a model that can have several owners.
fn first_begun(
    alloc: Global,
    model: &Model,
    beginnings: &[RawBeginning],
) -> Result<Shared<Model>, OutOfMemory>
    requires nothing { beginnings_diagnostics model.now beginnings.now ≡ [] }
    requires range { AllByRecursion IsBeginningInRange beginnings.now }
    ensures made { IfOk result (λ made. made ≡ model_begun_by beginnings.now model.now) }
    ensures valid { IfOk result (λ made. IsTrue (valid_model made)) }
{
    let _valid = model.name();
    let begun = model_begun(alloc, model, beginnings)?;
    let begun = shared(alloc, begun)?;
    Ok(begun)
}

/// Puts these models behind others.
fn push_shared(
    models: &mut List<Shared<Model>>,
    others: &[Shared<Model>],
) -> Result<(), OutOfMemory>
    ensures { OnOk result (models.new ≡ models.old ++ others.now) }
{
    for model in others {
        models.push(model.share()?)?;
    }
    Ok(())
}

/// The models, the first of them with the beginnings in place.
pub(crate) fn models_begun(
    alloc: Global,
    models: &[Shared<Model>],
    beginnings: &[RawBeginning],
) -> Result<List<Shared<Model>>, OutOfMemory>
    requires valid { AreValid models.now }
    requires nothing { plan_diagnostics beginnings.now models.now ≡ [] }
    requires range { AllByRecursion IsBeginningInRange beginnings.now }
    ensures made { IfOk result (λ made. made ≡ models_begun_by beginnings.now models.now) }
    ensures valid { IfOk result AreValid }
{
    match models.split_first() {
        None => Ok(List::new(alloc)),
        Some((first, others)) => {
            let mut begun = List::new(alloc);
            begun.push(first_begun(alloc, first.get(), beginnings)?)?;
            push_shared(&mut begun, others)?;
            Ok(begun)
        }
    }
}
