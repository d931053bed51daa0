//! What the frames of some instants leave each task doing.

ghost use Rattle.std.specs.Prelude.{◌≡◌, ◌||◌, false, Some, List as Items, [], ◌∷◌, ℕ, IsTrue, IfOk, OnOk};
ghost use Rattle.run_data.specs.Tasks.{children_in};
ghost use Rattle.run_data.specs.laws.EndedTasks.{is_open_status};
ghost use Rattle.run_data.specs.laws.TracedTasks.{timed, timed_batches, timed_instants};
ghost use Rattle.resimulate.specs.Origins.{has_root, is_asked, origin_number};
ghost use Rattle.resimulate.specs.Traces.{CountsToo, IsChildCountAt, TakesIn, TakesInForAny, TellSame, is_delay};

use aerie_base::{List, OutOfMemory, Path, Shared, Time};
use indexmap::{IndexMap, IndexSet};
use run_data::{Frame, Instant, Item, Record, Status};
use std::alloc::Global;

/// What the frames of a task leave it doing.
#[derive(Drop)]
pub(crate) struct Trace {
    /// The time of the last.
    pub(crate) time: Time,
    /// The step of the last.
    pub(crate) step: Shared<Record>,
    /// How many children they made, if that was counted.
    pub(crate) made: Option<u64>,
}

/// The traces by path.
pub(crate) type Traces = IndexMap<Shared<Path>, Trace>;

/// Directives and daemons, by number.
pub(crate) type Roots = IndexSet<u64>;

/// The number of the directive or daemon that a task comes from.
pub(crate) fn origin_number(path: &Path) -> u64
    ensures { result ≡ origin_number path.now }
{
    let daemon = if path.daemon() { 1 } else { 0 };
    u64::from(path.id()) * 2 + daemon
}

/// Whether these are among them.
pub(crate) fn has_root(roots: &Roots, number: u64) -> bool
    ensures { result ≡ has_root roots.now.keys number }
{
    roots.contains(&number)
}

/// Whether a task is asked for: all are, or those of these directives and daemons.
fn is_asked(all: bool, roots: &Roots, path: &Path) -> bool
    ensures { result ≡ is_asked all roots.now.keys path.now }
{
    all || has_root(roots, origin_number(path))
}

/// One more, where that can be counted.
fn counted(made: Option<u64>) -> Option<u64>
    ensures { CountsToo 1 made result }
{
    match made {
        Some(number) => number.checked_add(1),
        None => None,
    }
}

/// An item is counted too, if it makes a child.
fn with_item(before: Option<u64>, item: &Item) -> Option<u64>
    ensures { CountsToo (children_in (item.now ∷ [])) before result }
{
    match item {
        Item::Emit { .. } => before,
        Item::Child { .. } => counted(before),
    }
}

/// The children among some items are counted too.
fn with_children(before: Option<u64>, items: &List<Item>) -> Option<u64>
    ensures { CountsToo (children_in items.now) before result }
{
    let mut made = before;
    for item in items.as_slice() {
        made = with_item(made, item);
    }
    made
}

/// How many children a task made since the first frame that was taken in.
fn made_by(traces: &Traces, path: &Shared<Path>) -> Option<u64>
    ensures { IsChildCountAt traces.now.entries path.now result }
{
    match traces.get(path) {
        Some(trace) => trace.made,
        None => Some(0),
    }
}

/// Notes a frame, whoever is asked for.
fn put(traces: &mut Traces, time: Time, frame: &Frame) -> Result<(), OutOfMemory>
    ensures { OnOk result (TakesInForAny ((time, frame.now) ∷ []) traces.old.entries traces.new.entries) }
{
    let path = frame.shared_path().share()?;
    let made = with_children(made_by(traces, &path), frame.items());
    let step = frame.step().share()?;
    traces.insert(path, Trace { time, step, made })?;
    Ok(())
}

/// Takes in a frame, if its task is asked for.
fn note(
    traces: &mut Traces,
    all: bool,
    roots: &Roots,
    time: Time,
    frame: &Frame,
) -> Result<(), OutOfMemory>
    ensures { OnOk result (
        TakesIn (is_asked all roots.now.keys) ((time, frame.now) ∷ []) traces.old.entries traces.new.entries) }
{
    if is_asked(all, roots, frame.path()) {
        put(traces, time, frame)?;
    }
    Ok(())
}

/// Takes in the frames of a batch.
fn note_batch(
    traces: &mut Traces,
    all: bool,
    roots: &Roots,
    time: Time,
    batch: &[Frame],
) -> Result<(), OutOfMemory>
    ensures { OnOk result (
        TakesIn (is_asked all roots.now.keys) (timed time batch.now) traces.old.entries traces.new.entries) }
{
    for frame in batch {
        note(traces, all, roots, time, frame)?;
    }
    Ok(())
}

/// Takes in the batches of an instant.
fn note_batches(
    traces: &mut Traces,
    all: bool,
    roots: &Roots,
    time: Time,
    batches: &[List<Frame>],
) -> Result<(), OutOfMemory>
    ensures { OnOk result (
        TakesIn (is_asked all roots.now.keys) (timed_batches time batches.now) traces.old.entries traces.new.entries) }
{
    for batch in batches {
        note_batch(traces, all, roots, time, batch.as_slice())?;
    }
    Ok(())
}

/// Takes in some instants.
fn note_instants(
    traces: &mut Traces,
    all: bool,
    roots: &Roots,
    instants: &[Shared<Instant>],
) -> Result<(), OutOfMemory>
    ensures { OnOk result (
        TakesIn (is_asked all roots.now.keys) (timed_instants instants.now) traces.old.entries traces.new.entries) }
{
    for instant in instants {
        let instant = instant.get();
        note_batches(traces, all, roots, instant.time, instant.batches.as_slice())?;
    }
    Ok(())
}

/// Whether nobody is asked for.
fn asks_for_none(all: bool, roots: &Roots) -> bool
    ensures { IsTrue result → (path : Items ℕ) → is_asked all roots.now.keys path ≡ false }
{
    if all {
        return false;
    }
    roots.is_empty()
}

/// The traces of the tasks of some instants: of all, or of those that come from these directives and daemons.
pub(crate) fn traces_of(
    alloc: Global,
    all: bool,
    roots: &Roots,
    instants: &[Shared<Instant>],
) -> Result<Traces, OutOfMemory>
    ensures { IfOk result (λ traces.
        TakesIn (is_asked all roots.now.keys) (timed_instants instants.now) [] traces.entries) }
{
    let mut traces = IndexMap::new(alloc);
    if asks_for_none(all, roots) {
        return Ok(traces);
    }
    note_instants(&mut traces, all, roots, instants)?;
    Ok(traces)
}

/// Whether a step ended with a delay, so that its time tells when the task goes on.
fn is_delay(status: &Status) -> bool
    ensures { result ≡ is_delay status.now }
{
    matches!(status, Status::Delayed { .. })
}

/// Whether both are counted, and alike.
fn is_same_count(made: Option<u64>, other: Option<u64>) -> bool
    ensures { IsTrue result → (number : ℕ) × (made ≡ Some number) × (other ≡ Some number) }
{
    match made {
        Some(number) => other == Some(number),
        None => false,
    }
}

impl Trace {
    /// Whether the body has not ended.
    pub(crate) fn is_open(&self) -> bool
        ensures { result ≡ is_open_status self.now.step.status }
    {
        match &self.step.get().status {
            Status::Done(_) => false,
            Status::Faulted(_) => false,
            _ => true,
        }
    }

    /// Whether it is known that the two tell the same.
    pub(crate) fn tells_same(&self, other: &Trace) -> bool
        ensures { IsTrue result → TellSame self.now other.now }
    {
        let status = &self.step.get().status;
        is_same_count(self.made, other.made)
            && (self.time == other.time || !is_delay(status))
            && status.is_same(&other.step.get().status)
    }
}
