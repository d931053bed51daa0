use aerie_base::{Fault, List};
use run_data::{Frame, Who};

/// How a batch ends.
#[derive(Drop)]
pub(crate) enum BatchEnd {
    /// The costs pass the bound.
    Limit,
    /// A task faulted, or a cell would leave its range.
    Failed {
        /// The task or the cell.
        who: Who,
        /// The fault.
        fault: Fault,
    },
    /// Its effects are on the cells.
    Committed {
        /// The frames, in order of path.
        frames: List<Frame>,
        /// The cells on which it had an effect, in order of number.
        touched: List<u16>,
        /// What the costs of the run come to with it.
        spent: u64,
    },
}
