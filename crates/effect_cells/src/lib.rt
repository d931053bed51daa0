//! Effects on the cells of a model: the three kinds of cell with the laws of their effects, the trees of effects that
//! concurrent tasks leave, and the cells themselves, which only their own methods change.
#![tactic(auto)]

mod accumulators;
mod cells;
mod committing;
mod counters;
mod effect_trait;
mod effects;
mod gathering;
mod kinds;
mod laws;
mod passing;
mod pending;
mod read_cells;
mod reading;
mod registers;
mod starts;
mod states;
mod sums;
mod touching;
mod trees;
mod worths;

pub use accumulators::Accumulator;
pub use cells::{Cells, OutOfRange};
pub use counters::Counter;
pub use effect_trait::EffectTrait;
pub use effects::{CellState, Effect};
pub use gathering::Gathering;
pub use kinds::CellKind;
pub use laws::{
    effects_are_gathered, kept_wake_times_stay, time_passes_in_parts, waiting_depends_on_cells_read,
};
pub use read_cells::flag_read;
pub use registers::{Change, Register};
pub use touching::flag_touched;
pub use trees::{Part, Tree};
pub use worths::worth;
