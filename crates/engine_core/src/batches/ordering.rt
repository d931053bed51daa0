//! Frames in order of path.

ghost use Rattle.std.specs.Prelude.{◌≡◌, ◌<◌, IfOk, true, false};
ghost use Rattle.run_data.specs.Batches.{by_path};
ghost use Rattle.live_tasks.specs.FrameOrders.{is_before, AreByPath};

use aerie_base::OutOfMemory;
use run_data::Frame;

/// Whether the path of a frame is before that of another.
fn is_before(frame: &Frame, other: &Frame) -> bool
    ensures { result ≡ is_before frame.now other.now }
{
    *frame.path() < *other.path()
}

/// Whether the frames stand in order of path.
fn are_by_path(frames: &[Frame]) -> bool
    ensures { result ≡ true → AreByPath frames.now }
{
    for at in 1..frames.len() {
        if is_before(&frames[at], &frames[at - 1]) {
            return false;
        }
    }
    true
}

/// The frames in order of path; those under one path stay in their order. Where they are in order already, they are compared
/// once each.
pub(super) fn in_order(frames: Vec<Frame>) -> Result<Vec<Frame>, OutOfMemory>
    ensures { IfOk result (λ sorted. sorted.items ≡ by_path frames.items) }
{
    if are_by_path(frames.as_slice()) {
        return Ok(frames);
    }
    let mut sorted = frames;
    sorted.sort_by(|frame, other| frame.path().cmp(other.path()))?;
    Ok(sorted)
}
