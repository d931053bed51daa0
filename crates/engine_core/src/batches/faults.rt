//! The first fault of a batch.

ghost use Rattle.std.specs.Prelude.{◌≡◌, IfOk};
ghost use Rattle.run_data.specs.Batches.{fault_in};
ghost use Rattle.engine_core.specs.BatchOrders.{first_fault};

use aerie_base::{Fault, OutOfMemory, Path};
use run_data::{Frame, Status};
use std::alloc::Global;

/// The fault of a step that has faulted.
fn fault_in(status: &Status) -> Option<Fault>
    ensures { result ≡ fault_in status.now }
{
    match status {
        Status::Faulted(fault) => Some(*fault),
        Status::Delayed { .. } => None,
        Status::Waiting { .. } => None,
        Status::Calling { .. } => None,
        Status::Done(_) => None,
    }
}

/// The path and the fault of the first frame that has faulted.
pub(super) fn first_fault(
    alloc: Global,
    frames: &[Frame],
) -> Result<Option<(Path, Fault)>, OutOfMemory>
    ensures { IfOk result (λ blame. blame ≡ first_fault frames.now) }
{
    for frame in frames {
        let Some(fault) = fault_in(frame.status()) else {
            continue;
        };
        let path = frame.path().copy(alloc)?;
        return Ok(Some((path, fault)));
    }
    Ok(None)
}
