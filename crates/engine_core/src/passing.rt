//! Where an instant is settled and time passes.

ghost use Rattle.std.specs.Prelude.{◌≡◌, ◌<◌, ◌-◌, Some, None, length, IfOk, OnOk};
ghost use Rattle.aerie_base.specs.declared.faults.Fault.TheVariants as fault;
ghost use Rattle.effect_cells.specs.Cells.{AreInRange};
ghost use Rattle.run_data.specs.Jobs.{AreCellsOf};
ghost use Rattle.run_data.specs.declared.runs.Outcome.TheVariants as outcome;
ghost use Rattle.run_data.specs.declared.runs.Who.TheVariants as who;
ghost use Rattle.live_tasks.specs.InStep.{IsInStep};
ghost use Rattle.live_tasks.specs.Waking.{AreFound};
ghost use Rattle.engine_core.specs.Passing.{is_accumulator, has_accumulator, HasPassed, next_due_of, GoesOnFrom, point_of_next, point_then, point_last, IsOpen};
ghost use Rattle.engine_core.specs.Simulations.{ending_with, StandsAt};

use crate::simulation::{RunEnd, Simulation};
use aerie_base::{CellStart, Fault, Model, OutOfMemory, Shared, Time};
use effect_cells::{Cells, OutOfRange};
use live_tasks::readies::live_tasks_are_live;
use live_tasks::waking::wakes_pass;
use run_data::laws::due_splits;
use run_data::{Outcome, Who};
use std::alloc::Global;

/// Whether a cell is an accumulator. No other cell changes with time by itself.
fn is_accumulator(cell: &CellStart) -> bool
    ensures { result ≡ is_accumulator cell.now }
{
    match cell {
        CellStart::Counter(_) => false,
        CellStart::Register { .. } => false,
        CellStart::Accumulator { .. } => true,
    }
}

/// Whether some cell of the model is one.
fn has_accumulator(model: &Model) -> bool
    ensures { result ≡ has_accumulator model.now }
{
    model.cells().iter().any(|cell| is_accumulator(&cell.1))
}

/// Lets a time pass on the cells of the model, where there is no effect. Without accumulators they stay, and are not gone over.
/// They are copied only where somebody else has a view of them.
fn pass(
    alloc: Global,
    model: &Model,
    cells: &mut Shared<Cells>,
    dt: Time,
) -> Result<Result<(), OutOfRange>, OutOfMemory>
    requires cells { AreCellsOf model.now cells.old }
    requires range { AreInRange cells.old }
    ensures { IfOk result (HasPassed dt cells.old cells.new) }
{
    if !has_accumulator(model) {
        return Ok(Ok(()));
    }
    if let Some(own) = cells.get_mut() {
        return Ok(own.passed(dt));
    }
    let mut own = cells.get().copy(alloc)?;
    let end = own.passed(dt);
    *cells = Shared::new(alloc, own)?;
    Ok(end)
}

impl Simulation {
    /// Ends, as a cell would leave its range by a time.
    fn end_by_cell(&mut self, time: Time, cell: u16)
        ensures { self.new ≡ ending_with self.old (outcome.Failed time (who.Cell cell) fault.Range) }
    {
        let outcome = Outcome::Failed {
            time,
            who: Who::Cell(cell),
            fault: Fault::Range,
        };
        self.end_now(outcome);
    }

    /// The instant is settled, and time passes to the next time, at which some task goes on by itself.
    fn move_to(&mut self, alloc: Global, model: &Model, time: Time) -> Result<(), OutOfMemory>
        requires open { IsOpen model.now self.old }
        requires next { Some time ≡ next_due_of self.old }
        requires onward { GoesOnFrom self.old.present.time (point_then model.now self.old time) }
        ensures { OnOk result (StandsAt self.old.request (point_then model.now self.old time) self.new) }
    {
        due_splits();
        live_tasks_are_live();
        wakes_pass();
        let count = model.cells().len();
        let reach = self.present.time;
        self.history
            .settle(alloc, reach, self.present.cells.get(), count)?;
        let passed = pass(alloc, model, &mut self.present.cells, reach.until(time))?;
        match passed {
            Ok(()) => {
                self.present.tasks.rest(time)?;
                self.present.time = time;
                Ok(())
            }
            Err(out) => {
                self.end_by_cell(time, out.cell);
                Ok(())
            }
        }
    }

    /// The instant is settled, and time passes to the end of the plan.
    fn move_to_end(&mut self, alloc: Global, model: &Model) -> Result<(), OutOfMemory>
        requires open { IsOpen model.now self.old }
        ensures { OnOk result (StandsAt self.old.request (point_last model.now self.old) self.new) }
    {
        let count = model.cells().len();
        let reach = self.present.time;
        self.history
            .settle(alloc, reach, self.present.cells.get(), count)?;
        let end = self.request.end();
        let passed = pass(alloc, model, &mut self.present.cells, reach.until(end))?;
        match passed {
            Ok(()) => {
                self.ending = Some(RunEnd {
                    reach: end,
                    outcome: Outcome::Completed,
                });
                Ok(())
            }
            Err(out) => {
                self.end_by_cell(end, out.cell);
                Ok(())
            }
        }
    }

    /// Where no task goes on: the instant is settled, and time passes to the next time, or to the end of the plan.
    pub(crate) fn move_on(&mut self, alloc: Global, model: &Model) -> Result<(), OutOfMemory>
        requires open { IsOpen model.now self.old }
        requires onward { GoesOnFrom self.old.present.time (point_of_next model.now self.old) }
        ensures { OnOk result (StandsAt self.old.request (point_of_next model.now self.old) self.new) }
    {
        let end = self.request.end();
        match self.present.next_time(end) {
            Some(time) => self.move_to(alloc, model, time),
            None => self.move_to_end(alloc, model),
        }
    }
}
