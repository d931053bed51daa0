use crate::raw::RawItem;
use aerie_base::List;

/// The items of a model as far as they are read, and how many there are of each sort that is limited.
#[derive(Drop)]
pub struct Declarations {
    /// The items in the text's order.
    pub items: List<RawItem>,
    /// Enumerations.
    pub enums: usize,
    /// Counters, registers and accumulators.
    pub cells: usize,
    /// Discrete and linear resources.
    pub resources: usize,
    /// Activity types.
    pub types: usize,
    /// Daemons.
    pub daemons: usize,
}

/// A kind of item whose number is limited.
#[derive(Clone, Copy, Debug)]
pub enum ItemKind {
    Enum,
    /// A counter, a register or an accumulator.
    Cell,
    /// A discrete or a linear resource.
    Resource,
    Activity,
    Daemon,
}
