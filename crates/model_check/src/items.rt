//! Declarations of enumerations, cells and resources are judged and made.

ghost use Rattle.std.specs.Prelude.{◌≡◌, [], IfOk};
ghost use Rattle.model_check.specs.BodyScopes.{empty_scope};
ghost use Rattle.model_check.specs.CellReads.{read_operand};
ghost use Rattle.model_check.specs.Diagnostics.{noted, Makes};
ghost use Rattle.model_check.specs.DeclaredParts.{enum_type, register_start, accumulator_start};
ghost use Rattle.model_check.specs.LinearForms.{linear_of};
ghost use Rattle.model_check.specs.ModelDiagnostics.{repeated_diagnostics, typed_literal_diagnostics, rate_diagnostics, shown_diagnostics, discrete_diagnostics, linear_diagnostics};
ghost use Rattle.model_check.specs.ModelMeaning.{names_of, kind_written, rate_of, read_of};
ghost use Rattle.model_check.specs.NameTables.{entry_in};
ghost use Rattle.model_check.specs.declared.leaves.FormUse.TheVariants.{Resource as InResource};
ghost use Rattle.model_check.specs.Making.{MakesRegister};

use crate::causes::Cause;
use crate::cell_reads::{note_read, read_operand};
use crate::declarations::{note_type, type_kind};
use crate::expressions::expression;
use crate::forms::linear;
use crate::leaves::FormUse;
use crate::literals::{literal_kind, literal_value, note_literal, note_mismatch};
use crate::repeats::note_all_repeated;
use crate::scopes::BodyScope;
use crate::symbols::Symbols;
use aerie_base::{
    CellRead, CellStart, EnumType, Kind, Linear, List, Name, Number, Operand, OutOfMemory,
    RATE_LIMIT,
};
use diagnostics::{Diagnostic, note};
use model_reader::{RawExpr, RawLiteral, RawLiteralKind, RawName, RawPart, RawRead, RawType};
use std::alloc::Global;

// ---- enumerations

/// The names alone.
fn names(alloc: Global, written: &[RawName]) -> Result<List<Name>, OutOfMemory>
    ensures { IfOk result (λ names. names ≡ names_of written.now) }
{
    let mut names = List::with_capacity(alloc, written.len())?;
    for name in written {
        names.push(name.name.copy(alloc)?)?;
    }
    Ok(names)
}

/// Makes an enumeration, and notes variants that repeat a name.
pub(crate) fn enum_type(
    alloc: Global,
    name: &RawName,
    variants: &[RawName],
    found: &mut Option<Diagnostic<Cause>>,
) -> Result<EnumType, OutOfMemory>
    ensures { IfOk result (Makes (enum_type name.now variants.now) (repeated_diagnostics [] variants.now) found.old found.new) }
{
    note_all_repeated(alloc, variants, found)?;
    let name = name.name.copy(alloc)?;
    let variants = names(alloc, variants)?;
    Ok(EnumType { name, variants })
}

// ---- cells

/// Notes a literal of another type than is written.
#[tactic(auto, using(diagnostics::specs::NotedInTurn::noted_appended))]
pub(crate) fn note_typed_literal(
    symbols: &Symbols,
    written: &RawType,
    literal: &RawLiteral,
    found: &mut Option<Diagnostic<Cause>>,
)
    ensures { found.new ≡ noted found.old (typed_literal_diagnostics symbols.now written.now literal.now) }
{
    note_literal(&symbols.enums, &literal.what, found);
    let wanted = type_kind(&symbols.enums, written);
    let kind = literal_kind(&symbols.enums, &literal.what);
    note_mismatch(found, literal.at, wanted, kind);
}

/// The type that is written, or that of whole numbers where it is unknown.
pub(crate) fn kind_written(symbols: &Symbols, written: &RawType) -> Kind
    ensures { result ≡ kind_written symbols.now written.now }
{
    match type_kind(&symbols.enums, written) {
        Some(kind) => kind,
        None => Kind::Int,
    }
}

/// Makes the beginning of a register, and notes a type that is unknown and a literal of another type.
#[tactic(auto, using(diagnostics::specs::NotedInTurn::noted_appended))]
pub(crate) fn register_start(
    symbols: &Symbols,
    kind: &RawType,
    start: &RawLiteral,
    found: &mut Option<Diagnostic<Cause>>,
) -> CellStart
    ensures { MakesRegister symbols.now kind.now start.now found.old found.new result }
{
    note_type(&symbols.enums, kind, found);
    note_typed_literal(symbols, kind, start, found);
    CellStart::Register {
        kind: kind_written(symbols, kind),
        value: literal_value(&symbols.enums, &start.what),
    }
}

/// The rate that a literal is; of any other, 0.
fn rate_of(rate: &RawLiteralKind) -> i64
    ensures { result ≡ rate_of rate.now }
{
    match rate {
        RawLiteralKind::Number(number) => number.get(),
        RawLiteralKind::Truth(_) => 0,
        RawLiteralKind::Variant { .. } => 0,
    }
}

/// Notes a rate out of its range, and one that is no number.
fn note_rate(rate: &RawLiteral, found: &mut Option<Diagnostic<Cause>>)
    ensures { found.new ≡ noted found.old (rate_diagnostics rate.now.at rate.now.what) }
{
    match &rate.what {
        RawLiteralKind::Number(number) => {
            let number = number.get();
            if number < -RATE_LIMIT || RATE_LIMIT < number {
                note(found, rate.at, Cause::OutOfRange);
            }
        }
        RawLiteralKind::Truth(_) => note(found, rate.at, Cause::WrongType),
        RawLiteralKind::Variant { .. } => note(found, rate.at, Cause::WrongType),
    }
}

/// Makes the beginning of an accumulator, and notes a rate out of its range.
pub(crate) fn accumulator_start(
    volume: Number,
    rate: &RawLiteral,
    found: &mut Option<Diagnostic<Cause>>,
) -> CellStart
    ensures { Makes (accumulator_start volume rate.now) (rate_diagnostics rate.now.at rate.now.what) found.old found.new result }
{
    note_rate(rate, found);
    CellStart::Accumulator {
        volume,
        rate: rate_of(&rate.what),
    }
}

// ---- resources

/// Notes a volume that is shown as it is.
fn note_shown(symbols: &Symbols, read: &RawRead, found: &mut Option<Diagnostic<Cause>>)
    ensures { found.new ≡ noted found.old (shown_diagnostics read.now.part read.now.name.at (entry_in read.now.name.name symbols.now.cells)) }
{
    let cell = symbols.cells.entry(&read.name.name);
    match read.part {
        RawPart::Volume => {
            if cell.is_some() {
                note(found, read.name.at, Cause::WrongType);
            }
        }
        RawPart::Whole | RawPart::Rate | RawPart::Conflicted => {}
    }
}

/// The read that an operand is; of a local, any.
fn read_of(operand: Operand) -> CellRead
    ensures { result ≡ read_of operand }
{
    match operand {
        Operand::Read(read) => read,
        Operand::Local(_) => CellRead::Counter(0),
    }
}

/// Makes what a discrete resource shows, and notes what is wrong with it.
#[tactic(auto, using(diagnostics::specs::NotedInTurn::noted_appended))]
pub(crate) fn discrete(
    alloc: Global,
    symbols: &Symbols,
    read: &RawRead,
    found: &mut Option<Diagnostic<Cause>>,
) -> CellRead
    ensures { Makes (read_of (read_operand symbols.now empty_scope read.now)) (discrete_diagnostics symbols.now read.now) found.old found.new result }
{
    let scope = BodyScope::new(alloc);
    note_read(symbols, &scope, read, found);
    note_shown(symbols, read, found);
    read_of(read_operand(symbols, &scope, read))
}

/// Makes the sum of a linear resource, and notes what is wrong with it.
#[tactic(auto, using(diagnostics::specs::NotedInTurn::noted_appended))]
pub(crate) fn linear_resource(
    alloc: Global,
    symbols: &Symbols,
    sum: &RawExpr,
    found: &mut Option<Diagnostic<Cause>>,
) -> Result<Linear, OutOfMemory>
    ensures { IfOk result (Makes (linear_of InResource symbols.now empty_scope sum.now) (linear_diagnostics symbols.now sum.now) found.old found.new) }
{
    let scope = BodyScope::new(alloc);
    let _as_expression = expression(alloc, symbols, &scope, sum, found)?;
    linear(alloc, FormUse::Resource, symbols, &scope, sum, found)
}
