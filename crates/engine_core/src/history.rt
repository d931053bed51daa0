//! What has happened in a simulation.

ghost use Rattle.std.specs.Prelude.{◌≡◌, ◌++◌, ◌∷◌, ℕ, [], length, slice_get, nat_eq, IfOk, OnOk};
ghost use Rattle.std.specs.List.{list_any};
ghost use Rattle.std.specs.List.Sorted.{IsStrictlyIncreasing};
ghost use Rattle.run_data.specs.Fresh.{states_from};
ghost use Rattle.engine_core.specs.Simulations.{with_batch, instant_on};
ghost use Rattle.engine_core.specs.TouchedStates.{states_at, with_state};

use aerie_base::{List, OutOfMemory, Shared, Time};
use effect_cells::{CellState, Cells};
use run_data::{Frame, Instant};
use std::alloc::Global;
use std::mem;

/// The settled instants, the batches of the time at hand, and the cells on which they had an effect.
#[derive(Drop)]
pub(crate) struct History {
    pub(crate) instants: List<Shared<Instant>>,
    pub(crate) batches: List<List<Frame>>,
    pub(crate) touched: List<u16>,
}

/// Puts a batch behind the others of its time. Most often it stays alone, so the first takes room for one.
fn put_next(
    alloc: Global,
    batches: &mut List<List<Frame>>,
    frames: List<Frame>,
) -> Result<(), OutOfMemory>
    ensures { OnOk result (batches.new ≡ batches.old ++ frames ∷ []) }
{
    if batches.is_empty() {
        *batches = List::with_capacity(alloc, 1)?;
    }
    batches.push(frames)?;
    Ok(())
}

/// Puts numbers behind others. Where there are none, as at the first batch of a time, they take their place.
fn put_behind(numbers: &mut List<u16>, others: List<u16>) -> Result<(), OutOfMemory>
    ensures { OnOk result (numbers.new ≡ numbers.old ++ others) }
{
    if numbers.is_empty() {
        *numbers = others;
        return Ok(());
    }
    numbers.items.extend_from_slice(others.as_slice())?;
    Ok(())
}

/// Puts instants behind others. They are shared.
pub(crate) fn put_shared(
    instants: &mut List<Shared<Instant>>,
    rest: &[Shared<Instant>],
) -> Result<(), OutOfMemory>
    ensures { OnOk result (instants.new ≡ instants.old ++ rest.now) }
{
    for instant in rest {
        instants.push(instant.share()?)?;
    }
    Ok(())
}

/// Puts the state of a cell with its number behind others, if there is such a cell.
fn put_state(
    states: &mut List<(u16, CellState)>,
    cells: &Cells,
    count: usize,
    number: u16,
) -> Result<(), OutOfMemory>
    requires { count ≡ length cells.now }
    ensures { OnOk result (states.new ≡ states.old ++ with_state number (slice_get cells.now number) []) }
{
    if usize::from(number) < count {
        states.push((number, cells.state(number)))?;
    }
    Ok(())
}

/// The numbers in order, each once.
fn in_order(numbers: List<u16>) -> Vec<u16>
    ensures rise { IsStrictlyIncreasing result.items }
    ensures same { (number : ℕ) → list_any (nat_eq number) result.items ≡ list_any (nat_eq number) numbers }
{
    let mut ordered = numbers.into_vec();
    ordered.sort_unstable();
    ordered.dedup();
    ordered
}

/// The states of the cells of these numbers, one after another.
fn states_at(
    alloc: Global,
    cells: &Cells,
    count: usize,
    numbers: &[u16],
) -> Result<List<(u16, CellState)>, OutOfMemory>
    requires { count ≡ length cells.now }
    ensures { IfOk result (λ states. states ≡ states_at cells.now numbers.now) }
{
    let mut states = List::with_capacity(alloc, numbers.len())?;
    for number in numbers {
        put_state(&mut states, cells, count, *number)?;
    }
    Ok(states)
}

/// The cells of these numbers, in order, each with its state. Most often the numbers are in order already.
fn changed_states(
    alloc: Global,
    cells: &Cells,
    count: usize,
    touched: List<u16>,
) -> Result<List<(u16, CellState)>, OutOfMemory>
    requires { count ≡ length cells.now }
    ensures { IfOk result (λ states. states ≡ states_from 0 touched cells.now) }
{
    let numbers = in_order(touched);
    let states = states_at(alloc, cells, count, numbers.as_slice())?;
    Ok(states)
}

impl History {
    /// Nothing has happened.
    pub(crate) fn new(alloc: Global) -> History
        ensures { result ≡ record { instants = []; batches = []; touched = [] } }
    {
        History {
            instants: List::new(alloc),
            batches: List::new(alloc),
            touched: List::new(alloc),
        }
    }

    /// One more batch, and the cells on which it had an effect.
    pub(crate) fn put_batch(
        &mut self,
        alloc: Global,
        frames: List<Frame>,
        touched: List<u16>,
    ) -> Result<(), OutOfMemory>
        ensures { OnOk result (self.new ≡ with_batch frames touched self.old) }
    {
        put_next(alloc, &mut self.batches, frames)?;
        put_behind(&mut self.touched, touched)?;
        Ok(())
    }

    /// The instant at hand is settled on these cells, of which there are so many.
    pub(crate) fn settle(
        &mut self,
        alloc: Global,
        time: Time,
        cells: &Cells,
        count: usize,
    ) -> Result<(), OutOfMemory>
        requires { count ≡ length cells.now }
        ensures instants { OnOk result (self.new.instants
            ≡ self.old.instants ++ instant_on time self.old cells.now ∷ []) }
        ensures batches { OnOk result (self.new.batches ≡ []) }
        ensures touched { OnOk result (self.new.touched ≡ []) }
    {
        let touched = mem::replace(&mut self.touched, List::new(alloc));
        let changed = changed_states(alloc, cells, count, touched)?;
        let batches = mem::replace(&mut self.batches, List::new(alloc));
        let instant = Instant {
            time,
            batches,
            changed,
        };
        self.instants.push(Shared::new(alloc, instant)?)?;
        Ok(())
    }
}
