//! What the names of a model stand for.

use crate::tables::NameTable;
use aerie_base::{Kind, Place, Value};
use diagnostics::NameSet;

/// An enumeration.
#[derive(Drop)]
pub(crate) struct EnumSymbol {
    /// Where its name stands.
    pub at: Place,
    /// Its variants.
    pub variants: NameSet,
}

/// What a cell is, as far as the types of what is read of it go.
#[derive(Clone, Copy)]
pub(crate) enum CellSort {
    /// A counter.
    Counter,
    /// A register with the type of its values, where that type is known.
    Register(Option<Kind>),
    /// An accumulator.
    Accumulator,
}

/// A cell.
#[derive(Clone, Copy)]
pub(crate) struct CellSymbol {
    /// Where its name stands.
    pub at: Place,
    /// What it is.
    pub sort: CellSort,
}

/// A parameter of an activity type.
#[derive(Clone, Copy)]
pub(crate) struct ParameterSymbol {
    /// Its type, where that is known.
    pub kind: Option<Kind>,
    /// The value that it has where no argument is given.
    pub default: Option<Value>,
}

/// The result of an activity type.
#[derive(Clone, Copy)]
pub(crate) struct ResultSymbol {
    /// Its type, where that is known.
    pub kind: Option<Kind>,
}

/// An activity type.
#[derive(Drop)]
pub(crate) struct TypeSymbol {
    /// Its parameters in their order.
    pub parameters: NameTable<ParameterSymbol>,
    /// Its result, where it has one.
    pub result: Option<ResultSymbol>,
}

/// The enumerations, cells and activity types of a model.
#[derive(Drop)]
pub(crate) struct Symbols {
    /// The enumerations.
    pub enums: NameTable<EnumSymbol>,
    /// The cells.
    pub cells: NameTable<CellSymbol>,
    /// The activity types.
    pub types: NameTable<TypeSymbol>,
}
