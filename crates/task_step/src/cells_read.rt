//! The cells that a step read.

ghost use Rattle.std.specs.Prelude.{◌≡◌, length, IfOk};
ghost use Rattle.run_data.specs.Frames.{read_from};

use crate::sight::Sight;
use aerie_base::{List, OutOfMemory};
use effect_cells::CellState;
use std::alloc::Global;

/// The cells that were read, each once and in order of number, as they are in the view. It looks at those cells alone, and
/// their list takes no more room than they need, none where no cell was read.
pub(crate) fn cells_read(
    alloc: Global,
    sight: &Sight,
) -> Result<List<(u16, CellState)>, OutOfMemory>
    requires { length sight.now.read_flags ≡ length sight.now.view.now }
    ensures { IfOk result (λ reads. reads ≡ read_from 0 sight.now.read_flags sight.now.view.now) }
{
    let cells = sight.read_flags.len();
    let mut reads = List::with_capacity(alloc, sight.read_flags.count())?;
    let mut cell = sight.read_flags.next(0);
    while cell < cells {
        let state = sight.view.state(cell as u16);
        reads.push((cell as u16, state))?;
        cell = sight.read_flags.next(cell + 1);
    }
    Ok(reads)
}
