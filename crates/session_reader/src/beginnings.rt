//! What the cells of the first model begin with, where the plan section says it: each beginning is judged.

ghost use Rattle.std.specs.Prelude.{◌≡◌, IfOk, None as Nothing, option_copied};
ghost use Rattle.std.specs.List.{AllByRecursion};
ghost use Rattle.aerie_base.specs.Ranges.{is_rate as is_rate_by};
ghost use Rattle.diagnostics.specs.Diagnostics.{all_of};
ghost use Rattle.session_grammar.specs.SessionLimits.{IsBeginningInRange};
ghost use Rattle.session_reader.specs.Beginnings.{start_named as start_named_by, start_kind as start_kind_by, number_of_literal as number_of_literal_by, first_value_diagnostics, given_rate_diagnostics, start_diagnostics, beginning_diagnostics, beginnings_diagnostics, plan_diagnostics, models_of_plan as models_of_plan_by};
ghost use Rattle.session_reader.specs.CheckedModels.{AreValid};
ghost use Rattle.session_reader.specs.Diagnostics.{first_diagnostic, noted};

use crate::begun_models::models_begun;
use crate::causes::Cause;
use crate::feeds::same_if_known;
use crate::literals::{literal_kind, note_literal};
use crate::names::note_all_repeated;
use aerie_base::{
    CellStart, EnumType, Kind, List, Model, Name, Number, OutOfMemory, RATE_LIMIT, Shared,
};
use diagnostics::{Diagnostic, note, note_unless};
use model_reader::RawLiteralKind;
use session_grammar::{RawBeginning, RawRate};
use std::alloc::Global;

/// What the cell with a name begins with, where there is such a cell: a model has at most 256.
fn start_named<'a>(cells: &'a [(Name, CellStart)], name: &Name) -> Option<&'a CellStart>
    ensures { option_copied result ≡ start_named_by cells.now name.now }
{
    match cells.iter().find(|cell| cell.0 == *name) {
        Some(cell) => Some(&cell.1),
        None => None,
    }
}

/// The type of what a cell begins with.
fn start_kind(start: &CellStart) -> Kind
    ensures { result ≡ start_kind_by start.now }
{
    match start {
        CellStart::Counter(_) => Kind::Int,
        CellStart::Register { kind, .. } => *kind,
        CellStart::Accumulator { .. } => Kind::Int,
    }
}

/// The number of a literal; of any other, 0.
pub(crate) fn number_of_literal(literal: &RawLiteralKind) -> Number
    ensures { result ≡ number_of_literal_by literal.now }
{
    match literal {
        RawLiteralKind::Number(number) => *number,
        RawLiteralKind::Truth(_) => Number::new(0).unwrap(),
        RawLiteralKind::Variant { .. } => Number::new(0).unwrap(),
    }
}

/// Whether an accumulator may have the rate.
fn is_rate(number: Number) -> bool
    ensures { result ≡ is_rate_by number }
{
    let rate = number.get();
    -RATE_LIMIT <= rate && rate <= RATE_LIMIT
}

/// Notes a value that is not of the type, and an unknown name in it.
#[tactic(auto, using(diagnostics::specs::NotedInTurn::noted_appended))]
fn note_first_value(
    enums: &[EnumType],
    start: &CellStart,
    beginning: &RawBeginning,
    found: &mut Option<Diagnostic<Cause>>,
)
    ensures { found.new ≡ noted found.old (first_value_diagnostics enums.now start.now beginning.now) }
{
    let literal = &beginning.value.what;
    note_literal(enums, literal, found);
    let fits = same_if_known(literal_kind(enums, literal), start_kind(start));
    note_unless(fits, found, beginning.value.at, Cause::WrongType);
}

/// Notes a rate of what has none, and one out of its range.
fn note_rate(start: &CellStart, rate: &Option<RawRate>, found: &mut Option<Diagnostic<Cause>>)
    ensures { found.new ≡ noted found.old (given_rate_diagnostics start.now rate.now) }
{
    match rate {
        None => {}
        Some(rate) => match start {
            CellStart::Counter(_) => note(found, rate.at, Cause::WrongType),
            CellStart::Register { .. } => note(found, rate.at, Cause::WrongType),
            CellStart::Accumulator { .. } => {
                let fits = is_rate(number_of_literal(&rate.rate.what));
                note_unless(fits, found, rate.rate.at, Cause::OutOfRange);
            }
        },
    }
}

/// Notes a cell that is unknown, or what is wrong with its beginning.
#[tactic(auto, using(diagnostics::specs::NotedInTurn::noted_appended))]
fn note_start(
    enums: &[EnumType],
    beginning: &RawBeginning,
    start: Option<&CellStart>,
    found: &mut Option<Diagnostic<Cause>>,
)
    ensures { found.new
        ≡ noted found.old (start_diagnostics enums.now beginning.now (option_copied start.entry)) }
{
    match start {
        None => note(found, beginning.cell.at, Cause::Unknown),
        Some(start) => {
            note_first_value(enums, start, beginning, found);
            note_rate(start, &beginning.rate, found);
        }
    }
}

/// Notes what is wrong with a beginning.
fn note_beginning(model: &Model, beginning: &RawBeginning, found: &mut Option<Diagnostic<Cause>>)
    ensures { found.new ≡ noted found.old (beginning_diagnostics model.now beginning.now) }
{
    let start = start_named(model.cells(), &beginning.cell.name);
    note_start(model.enums(), beginning, start, found);
}

/// Notes what is wrong with each of these beginnings.
fn note_each(model: &Model, beginnings: &[RawBeginning], found: &mut Option<Diagnostic<Cause>>)
    ensures { found.new ≡ noted found.old (all_of (beginning_diagnostics model.now) beginnings.now) }
{
    for beginning in beginnings {
        note_beginning(model, beginning, found);
    }
}

/// Notes what is wrong with the beginnings of cells of a model.
#[tactic(auto, using(diagnostics::specs::NotedInTurn::noted_appended))]
fn note_beginnings(
    alloc: Global,
    model: &Model,
    beginnings: &[RawBeginning],
    found: &mut Option<Diagnostic<Cause>>,
) -> Result<(), OutOfMemory>
    ensures { IfOk result (λ _. found.new
        ≡ noted found.old (beginnings_diagnostics model.now beginnings.now)) }
{
    note_all_repeated(alloc, beginnings, found)?;
    note_each(model, beginnings, found);
    Ok(())
}

/// Notes what is wrong with the beginnings of a plan section, whose plan is of the first model.
fn note_plan(
    alloc: Global,
    models: &[Shared<Model>],
    beginnings: &[RawBeginning],
    found: &mut Option<Diagnostic<Cause>>,
) -> Result<(), OutOfMemory>
    ensures { IfOk result (λ _. found.new ≡ noted found.old (plan_diagnostics beginnings.now models.now)) }
{
    match models.get(0) {
        None => Ok(()),
        Some(model) => note_beginnings(alloc, model.get(), beginnings, found),
    }
}

/// The models with the beginnings in place, where nothing was found to be wrong with these.
fn begun_if_good(
    alloc: Global,
    models: List<Shared<Model>>,
    beginnings: &[RawBeginning],
    found: &Option<Diagnostic<Cause>>,
) -> Result<List<Shared<Model>>, OutOfMemory>
    requires noted { found.now ≡ first_diagnostic (plan_diagnostics beginnings.now models) }
    requires valid { AreValid models }
    requires range { AllByRecursion IsBeginningInRange beginnings.now }
    ensures made { IfOk result (λ made. made ≡ models_of_plan_by beginnings.now models) }
    ensures valid { IfOk result AreValid }
{
    match found {
        Some(_) => Ok(models),
        None => {
            let begun = models_begun(alloc, models.as_slice(), beginnings)?;
            Ok(begun)
        }
    }
}

/// The models with the beginnings of a plan section in place, where nothing is wrong with these, and what is wrong. It takes time
/// linear in the beginnings, and a copy of the first model where there are any.
pub(crate) fn models_of_plan(
    alloc: Global,
    models: List<Shared<Model>>,
    beginnings: &[RawBeginning],
    found: &mut Option<Diagnostic<Cause>>,
) -> Result<List<Shared<Model>>, OutOfMemory>
    requires nothing { found.old ≡ Nothing }
    requires valid { AreValid models }
    requires range { AllByRecursion IsBeginningInRange beginnings.now }
    ensures made { IfOk result (λ made. made ≡ models_of_plan_by beginnings.now models) }
    ensures noted { IfOk result (λ _. found.new
        ≡ first_diagnostic (plan_diagnostics beginnings.now models)) }
    ensures valid { IfOk result AreValid }
{
    if beginnings.is_empty() {
        return Ok(models);
    }
    note_plan(alloc, models.as_slice(), beginnings, found)?;
    let begun = begun_if_good(alloc, models, beginnings, found)?;
    Ok(begun)
}
