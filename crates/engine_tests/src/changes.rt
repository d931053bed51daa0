//! What touches an instant of a run.

use aerie_base::{List, OutOfMemory, Path, Shared, Time};
use change_set::ChangeSet;
use effect_cells::CellState;
use run_data::{BodyId, Frame, Instant, Record, Status, TaskState};
use std::alloc::Global;

/// An instant in which the task of directive 1 read the cell 1.
fn reading_instant(alloc: Global) -> Result<Instant, OutOfMemory> {
    let state = TaskState {
        kind: BodyId::Activity(0),
        at: 0,
        locals: List::new(alloc),
    };
    let mut reads = List::new(alloc);
    reads.push((1, CellState::Counter(7)))?;
    let step = Record {
        before: Shared::new(alloc, state)?,
        reads,
        items: List::new(alloc),
        status: Status::Done(None),
        cost: 1,
    };
    let path = Shared::new(alloc, Path::of_directive(alloc, 1)?)?;
    let mut frames = List::new(alloc);
    frames.push(Frame::new(path, Shared::new(alloc, step)?))?;
    let mut batches = List::new(alloc);
    batches.push(frames)?;
    Ok(Instant {
        time: Time::zero(),
        batches,
        changed: List::new(alloc),
    })
}

#[test]
fn what_is_noted_touches_until_it_is_taken_back(rt: HostRuntime) {
    let alloc = rt.alloc();
    let instant = reading_instant(alloc).expect(&rt, "memory");
    let path = Path::of_directive(alloc, 1).expect(&rt, "memory");
    let mut set = ChangeSet::new(alloc).expect(&rt, "memory");
    assert!(&rt; set.is_empty() && !set.touches(&instant));
    set.note_cell(0, true).expect(&rt, "memory");
    assert!(&rt; !set.is_empty() && !set.touches(&instant));
    set.note_cell(1, true).expect(&rt, "memory");
    assert!(&rt; set.touches(&instant));
    set.note_cell(0, false).expect(&rt, "memory");
    set.note_cell(1, false).expect(&rt, "memory");
    assert!(&rt; set.is_empty() && !set.touches(&instant));
    set.note_task(alloc, &path, true).expect(&rt, "memory");
    assert!(&rt; !set.is_empty() && set.touches(&instant));
    set.note_task(alloc, &path, false).expect(&rt, "memory");
    assert!(&rt; set.is_empty() && !set.touches(&instant));
}
