//! Where the frames of two runs differ in what they tell of spans.

ghost use Rattle.std.specs.Prelude.{◌≡◌, ◌≤◌, ◌+◌, ℕ, IsTrue, IfOk, IfSome, None, OnOk, false, length, map, option_map};
ghost use Rattle.run_data.specs.Spans.{timed};
ghost use Rattle.span_reuse.specs.Left.{DifferIn, ExcludesMet, NotesPair, met};
ghost use Rattle.span_reuse.specs.Telling.{ending_told, told_of_spans};

use crate::frame_cursor::FrameCursor;
use crate::roots::TaskRoot;
use aerie_base::{OutOfMemory, Time, Value, same_list};
use run_data::{Frame, Run, Status};
use std::alloc::Global;

/// The most roots in which two runs may differ for the spans of one to be worth a look.
const MOST_ROOTS: usize = 8;

/// Whether two bodies returned the same.
fn same_result(returned: &Option<Value>, other: &Option<Value>) -> bool
    ensures { IsTrue result → returned.now ≡ other.now }
{
    match returned {
        Some(value) => match other {
            Some(another) => value.is_same(another),
            None => false,
        },
        None => other.is_none(),
    }
}

/// Whether two steps are known to tell the same of their bodies' ends.
fn end_alike(status: &Status, other: &Status) -> bool
    ensures { IsTrue result → ending_told status.now ≡ ending_told other.now }
{
    match status {
        Status::Done(value) => match other {
            Status::Done(another) => same_result(value, another),
            _ => false,
        },
        _ => !matches!(other, Status::Done(_)),
    }
}

/// Whether two frames at these times are known to tell the same.
fn tell_alike(time: Time, frame: &Frame, other_time: Time, other: &Frame) -> bool
    ensures { IsTrue result → told_of_spans (time, frame.now) ≡ told_of_spans (other_time, other.now) }
{
    if time != other_time || !frame.path().is_same(other.path()) {
        return false;
    }
    let before = frame.before();
    let another = other.before();
    if before.kind != another.kind
        || !same_list(before.locals.as_slice(), another.locals.as_slice())
    {
        return false;
    }
    end_alike(frame.status(), other.status())
}

/// Whether two frames, if they were met, are known to tell the same.
fn are_alike(time: Time, frame: Option<&Frame>, other_time: Time, other: Option<&Frame>) -> bool
    ensures { IsTrue result →
        map told_of_spans (met time (option_map (λ frame. frame.now) frame.entry))
        ≡ map told_of_spans (met other_time (option_map (λ frame. frame.now) other.entry)) }
{
    let Some(frame) = frame else {
        return false;
    };
    let Some(other) = other else {
        return false;
    };
    tell_alike(time, frame, other_time, other)
}

/// Notes the root of a frame, if one was met.
fn put_root(roots: &mut Vec<TaskRoot>, frame: Option<&Frame>) -> Result<(), OutOfMemory>
    ensures { OnOk result (ExcludesMet roots.old.items roots.new.items (option_map (λ frame. frame.now) frame.entry)) }
{
    match frame {
        Some(frame) => {
            roots.push(TaskRoot::of(frame.path()))?;
            Ok(())
        }
        None => Ok(()),
    }
}

/// Notes the roots of two frames that were met, unless they tell the same.
fn note_pair(
    roots: &mut Vec<TaskRoot>,
    time: Time,
    frame: Option<&Frame>,
    other_time: Time,
    other: Option<&Frame>,
) -> Result<(), OutOfMemory>
    ensures { OnOk result (NotesPair roots.old.items roots.new.items
        (met time (option_map (λ frame. frame.now) frame.entry)) (met other_time (option_map (λ frame. frame.now) other.entry))) }
{
    if are_alike(time, frame, other_time, other) {
        return Ok(());
    }
    put_root(roots, frame)?;
    put_root(roots, other)?;
    Ok(())
}

/// Whether no frame was met in either run.
fn are_none(frame: Option<&Frame>, other: Option<&Frame>) -> bool
    ensures none { IsTrue result → (option_map (λ frame. frame.now) frame.entry ≡ None)
        × (option_map (λ frame. frame.now) other.entry ≡ None) }
    ensures some { result ≡ false → (time other_time : ℕ) →
        1 ≤ length (met time (option_map (λ frame. frame.now) frame.entry))
        + length (met other_time (option_map (λ frame. frame.now) other.entry)) }
{
    match frame {
        Some(_) => false,
        None => match other {
            Some(_) => false,
            None => true,
        },
    }
}

/// Directives and daemons but for which the frames of the two runs tell the same of spans, unless those are many. It goes over the
/// frames of both once.
pub(crate) fn differing(
    alloc: Global,
    run: &Run,
    base: &Run,
) -> Result<Option<Vec<TaskRoot>>, OutOfMemory>
    ensures { IfOk result (λ found. IfSome found (λ roots.
        DifferIn roots.items (timed run.now.instants) (timed base.now.instants))) }
{
    let mut roots = Vec::with_capacity(alloc, MOST_ROOTS)?;
    let mut here = FrameCursor::new(run.instants.as_slice());
    let mut there = FrameCursor::new(base.instants.as_slice());
    while roots.len() < MOST_ROOTS {
        let known = roots.as_slice();
        let frame = here.next_outside(known);
        let other = there.next_outside(known);
        if are_none(frame, other) {
            return Ok(Some(roots));
        }
        note_pair(&mut roots, here.time(), frame, there.time(), other)?;
    }
    Ok(None)
}
