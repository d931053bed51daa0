//! The frames of some tasks of a run, as a run of their own.

ghost use Rattle.std.specs.Prelude.{◌≡◌, ◌++◌, ◌∷◌, [], IfOk, OnOk};
ghost use Rattle.run_data.specs.Spans.{timed};
ghost use Rattle.span_reuse.specs.Roots.{frames_passing, comes_from_one};

use crate::frame_cursor::FrameCursor;
use crate::roots::{TaskRoot, is_among};
use aerie_base::{List, OutOfMemory, Plan, Shared, Time};
use run_data::{Frame, Instant, Outcome, Run};
use std::alloc::Global;

/// An instant with this frame alone.
fn instant_of(alloc: Global, time: Time, frame: &Frame) -> Result<Shared<Instant>, OutOfMemory>
    ensures { IfOk result (λ made. timed (made ∷ []) ≡ (time, frame.now) ∷ []) }
{
    let mut batch = List::new(alloc);
    batch.push(frame.share()?)?;
    let mut batches = List::new(alloc);
    batches.push(batch)?;
    let changed = List::new(alloc);
    let made = Shared::new(
        alloc,
        Instant {
            time,
            batches,
            changed,
        },
    )?;
    Ok(made)
}

/// Puts a frame in an instant of its own behind the others, where its task comes from one of these.
fn put_among(
    alloc: Global,
    roots: &[TaskRoot],
    made: &mut List<Shared<Instant>>,
    time: Time,
    frame: &Frame,
) -> Result<(), OutOfMemory>
    ensures { OnOk result (timed made.new
        ≡ timed made.old ++ frames_passing (comes_from_one roots.now) ((time, frame.now) ∷ [])) }
{
    if !is_among(roots, frame.path()) {
        return Ok(());
    }
    made.push(instant_of(alloc, time, frame)?)?;
    Ok(())
}

/// The frames of the tasks that come from these, each in an instant of its own.
fn instants_of(
    alloc: Global,
    roots: &[TaskRoot],
    instants: &[Shared<Instant>],
) -> Result<List<Shared<Instant>>, OutOfMemory>
    ensures { IfOk result (λ made. timed made ≡ frames_passing (comes_from_one roots.now) (timed instants.now)) }
{
    let mut made = List::new(alloc);
    let mut cursor = FrameCursor::new(instants);
    while let Some(frame) = cursor.next() {
        put_among(alloc, roots, &mut made, cursor.time(), frame)?;
    }
    Ok(made)
}

/// A plan without directives, of the same model and duration.
fn empty_plan(alloc: Global, plan: &Plan) -> Result<Shared<Plan>, OutOfMemory> {
    Shared::new(
        alloc,
        Plan {
            model: plan.model,
            duration: plan.duration,
            next_id: plan.next_id,
            directives: List::new(alloc),
        },
    )
}

/// The frames of the tasks that come from these, as a run of their own, of which only the frames mean something.
pub(crate) fn run_of(alloc: Global, roots: &[TaskRoot], run: &Run) -> Result<Run, OutOfMemory>
    ensures { IfOk result (λ made. timed made.instants ≡ frames_passing (comes_from_one roots.now) (timed run.now.instants)) }
{
    let instants = instants_of(alloc, roots, run.instants.as_slice())?;
    let plan = empty_plan(alloc, run.plan.get())?;
    Ok(Run {
        plan,
        bound: run.bound,
        instants,
        reach: run.reach,
        outcome: Outcome::Completed,
    })
}
