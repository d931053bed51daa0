//! Reads of locals and cells.

ghost use Rattle.std.specs.Prelude.{◌≡◌, None};
ghost use Rattle.model_reader.specs.declared.raw.reads.RawPart.TheVariants.{Whole};
ghost use Rattle.model_check.specs.Diagnostics.{noted};
ghost use Rattle.model_check.specs.CellReads.{sort_kind, flow_sort_kind, flag_sort_kind, part_kind, raw_read_kind, whole_sort, flow_sort, flag_sort, part_diagnostics, read_diagnostics, cell_number, sort_operand, part_operand, read_operand};

use crate::causes::Cause;
use crate::scopes::{BodyScope, LocalSymbol};
use crate::symbols::{CellSort, CellSymbol, Symbols};
use aerie_base::{CellRead, Kind, Operand, Place};
use diagnostics::{Diagnostic, note, short};
use model_reader::{RawPart, RawRead};

/// A local with its number among those that are known.
type FoundLocal = Option<(usize, LocalSymbol)>;

/// A cell with its number.
type FoundCell = Option<(usize, CellSymbol)>;

// ---- types

impl CellSort {
    /// The type of what is read of the cell by its name alone.
    fn kind(self) -> Option<Kind>
        ensures { result ≡ sort_kind self }
    {
        match self {
            CellSort::Counter => Some(Kind::Int),
            CellSort::Register(kind) => kind,
            CellSort::Accumulator => None,
        }
    }

    /// The type of its volume or its rate.
    fn flow_kind(self) -> Option<Kind>
        ensures { result ≡ flow_sort_kind self }
    {
        match self {
            CellSort::Accumulator => Some(Kind::Int),
            _ => None,
        }
    }

    /// The type of its conflict flag.
    fn flag_kind(self) -> Option<Kind>
        ensures { result ≡ flag_sort_kind self }
    {
        match self {
            CellSort::Register(_) => Some(Kind::Truth),
            _ => None,
        }
    }
}

/// The type of a part of what goes by a name.
fn part_kind(part: RawPart, local: FoundLocal, cell: FoundCell) -> Option<Kind>
    ensures { result ≡ part_kind part local cell }
{
    match part {
        RawPart::Whole => match local {
            Some((_, local)) => local.kind,
            None => cell?.1.sort.kind(),
        },
        RawPart::Volume | RawPart::Rate => cell?.1.sort.flow_kind(),
        RawPart::Conflicted => cell?.1.sort.flag_kind(),
    }
}

/// The type of what is read, where the name stands for something that may be read so.
pub(crate) fn raw_read_kind(symbols: &Symbols, scope: &BodyScope, read: &RawRead) -> Option<Kind>
    ensures { result ≡ raw_read_kind symbols.now scope.now read.now }
{
    let name = &read.name.name;
    part_kind(
        read.part,
        scope.known.entry(name),
        symbols.cells.entry(name),
    )
}

// ---- what is wrong

/// Notes an accumulator that is read by its name alone.
fn note_whole_sort(found: &mut Option<Diagnostic<Cause>>, at: Place, sort: CellSort)
    ensures { found.new ≡ noted found.old (whole_sort at sort) }
{
    match sort {
        CellSort::Accumulator => note(found, at, Cause::WrongType),
        _ => {}
    }
}

/// Notes a volume or a rate of a cell that has none.
fn note_flow_sort(found: &mut Option<Diagnostic<Cause>>, at: Place, sort: CellSort)
    ensures { found.new ≡ noted found.old (flow_sort at sort) }
{
    match sort {
        CellSort::Accumulator => {}
        _ => note(found, at, Cause::WrongType),
    }
}

/// Notes a conflict flag of a cell that has none.
fn note_flag_sort(found: &mut Option<Diagnostic<Cause>>, at: Place, sort: CellSort)
    ensures { found.new ≡ noted found.old (flag_sort at sort) }
{
    match sort {
        CellSort::Register(_) => {}
        _ => note(found, at, Cause::WrongType),
    }
}

/// Notes what is wrong with a read of a cell.
fn note_cell_part(found: &mut Option<Diagnostic<Cause>>, at: Place, part: RawPart, cell: FoundCell)
    ensures { found.new ≡ noted found.old (part_diagnostics part at None cell) }
{
    match cell {
        None => note(found, at, Cause::Unknown),
        Some((_, cell)) => match part {
            RawPart::Whole => note_whole_sort(found, at, cell.sort),
            RawPart::Volume | RawPart::Rate => note_flow_sort(found, at, cell.sort),
            RawPart::Conflicted => note_flag_sort(found, at, cell.sort),
        },
    }
}

/// Notes what is wrong with a part of what goes by a name.
fn note_part(
    found: &mut Option<Diagnostic<Cause>>,
    at: Place,
    part: RawPart,
    local: FoundLocal,
    cell: FoundCell,
)
    ensures { found.new ≡ noted found.old (part_diagnostics part at local cell) }
{
    match part {
        RawPart::Whole if local.is_some() => {}
        _ => note_cell_part(found, at, part, cell),
    }
}

/// Notes what is wrong with a read: its name is of no local and no cell, or of a cell of another sort.
pub(crate) fn note_read(
    symbols: &Symbols,
    scope: &BodyScope,
    read: &RawRead,
    found: &mut Option<Diagnostic<Cause>>,
)
    ensures { found.new ≡ noted found.old (read_diagnostics symbols.now scope.now read.now) }
{
    let name = &read.name.name;
    let local = scope.known.entry(name);
    let cell = symbols.cells.entry(name);
    note_part(found, read.name.at, read.part, local, cell);
}

// ---- what is read

/// The number of a cell.
pub(crate) fn cell_number(cell: FoundCell) -> u16
    ensures { result ≡ cell_number cell }
{
    match cell {
        None => 0,
        Some((number, _)) => short(number),
    }
}

/// What is read of the cell of this number by its name alone.
fn sort_operand(cell: u16, sort: CellSort) -> Operand
    ensures { result ≡ sort_operand cell sort }
{
    match sort {
        CellSort::Counter => Operand::Read(CellRead::Counter(cell)),
        CellSort::Register(_) => Operand::Read(CellRead::Register(cell)),
        CellSort::Accumulator => Operand::Read(CellRead::Volume(cell)),
    }
}

/// What is read by a name alone.
fn whole_operand(local: FoundLocal, cell: FoundCell) -> Operand
    ensures { result ≡ part_operand Whole local cell }
{
    match local {
        Some((_, local)) => Operand::Local(local.slot),
        None => match cell {
            None => Operand::Read(CellRead::Counter(0)),
            Some((number, cell)) => sort_operand(short(number), cell.sort),
        },
    }
}

/// What a part of what goes by a name reads.
fn part_operand(part: RawPart, local: FoundLocal, cell: FoundCell) -> Operand
    ensures { result ≡ part_operand part local cell }
{
    match part {
        RawPart::Whole => whole_operand(local, cell),
        RawPart::Volume => Operand::Read(CellRead::Volume(cell_number(cell))),
        RawPart::Rate => Operand::Read(CellRead::Rate(cell_number(cell))),
        RawPart::Conflicted => Operand::Read(CellRead::Conflicted(cell_number(cell))),
    }
}

/// What a read reads; of one with something wrong, anything.
pub(crate) fn read_operand(symbols: &Symbols, scope: &BodyScope, read: &RawRead) -> Operand
    ensures { result ≡ read_operand symbols.now scope.now read.now }
{
    let name = &read.name.name;
    part_operand(
        read.part,
        scope.known.entry(name),
        symbols.cells.entry(name),
    )
}
