//! What a step has done so far.

ghost use Rattle.std.specs.Prelude.{◌≡◌, ◌+◌, ◌^◌, ◌<◌, ◌≤◌, length, All, Err, IfOk, OnOk};
ghost use Rattle.aerie_base.specs.Ranges.{number_limit};
ghost use Rattle.run_data.specs.declared.frames.Item.TheVariants.{Emit, Child};
ghost use Rattle.run_data.specs.StepStates.{starting, valued, with_flags, assigned, giving, paid};
ghost use Rattle.run_data.specs.Jobs.{IsModest};
ghost use Rattle.task_step.specs.Doable.{HasType, cells_of};
ghost use Rattle.run_data.specs.Magnitudes.{effect_magnitude};
ghost use Rattle.task_step.specs.Ends.{ended_frame};
ghost use Rattle.task_step.specs.OwnCells.{most_items};
ghost use Rattle.task_step.specs.declared.step_end.StepEnd.TheVariants.{Fuel};

use crate::cells_read::cells_read;
use crate::ends::{End, status_of};
use crate::fresh::Fresh;
use crate::room::{Room, exact};
use crate::sight::Sight;
use crate::step_end::StepEnd;
use aerie_base::{Expr, Fault, List, OutOfMemory, Shared, Value, eval};
use effect_cells::{Cells, Effect};
use run_data::{Frame, Item, Job, Record};
use std::alloc::Global;
use std::marker::Model;

/// What a step has done so far. Contracts see it as its definition has it.
#[derive(Drop)]
pub(crate) struct StepState<'a> {
    sight: Sight<'a>,
    locals: List<Value>,
    items: List<Item>,
    cost: u64,
}

impl<'a> Model for StepState<'a> {
    ghost use Rattle.std.specs.Coded.{codes};
    ghost use Rattle.run_data.specs.StepStates.{StepState as Done};
    ghost use Rattle.task_step.specs.OwnCells.{IsSound};
    ghost use Rattle.task_step.specs.Overlays.{overlaid};

    ghost Value = { Done };

    ghost coded = { Prim.hlevel (codes) };

    ghost view = { λ so_far. record { view = so_far.sight.view.now; locals = so_far.locals; items = so_far.items; read_flags = so_far.sight.read_flags; cost = so_far.cost } };

    ghost invariant = { λ so_far. IsSound so_far.sight.view.now (overlaid so_far.sight.view.now so_far.sight.written) so_far.items so_far.sight.read_flags };
}

impl<'a> StepState<'a> {
    /// A step begins, from these locals, in a view of so many cells, with lists that are to be given back.
    pub(crate) fn start(
        alloc: Global,
        view: &'a Cells,
        cells: usize,
        locals: List<Value>,
        room: &mut Room,
    ) -> StepState<'a>
        requires cells { cells ≡ length view.now }
        requires few { cells ≤ 256 }
        requires modest { All IsModest view.now }
        ensures { result ≡ starting view.now locals }
    {
        StepState {
            sight: Sight::new(view, cells, room.take_written(alloc)),
            locals,
            items: room.take_items(alloc),
            cost: 0,
        }
    }

    /// The value of an expression, or its fault. The cells that are read for it are flagged.
    pub(crate) fn value(&mut self, expr: &Expr) -> Result<Value, Fault>
        requires { HasType self.old expr.now }
        ensures value { result ≡ (valued self.old expr.now).0 }
        ensures so_far { self.new ≡ with_flags self.old (valued self.old expr.now).1 }
    {
        eval(expr, self.locals.as_slice(), &mut self.sight)
    }

    /// A local gets a value.
    pub(crate) fn assign(&mut self, slot: u16, value: Value)
        requires { slot < length self.old.locals }
        ensures { self.new ≡ assigned self.old slot value }
    {
        self.locals.items[usize::from(slot)] = value;
    }

    /// Pays for a statement or a test.
    pub(crate) fn pay(&mut self)
        requires { self.old.cost < most_items }
        ensures { self.new ≡ paid self.old }
    {
        self.cost += 1;
    }

    /// A child is made.
    pub(crate) fn make_child(
        &mut self,
        kind: u16,
        arguments: List<Value>,
    ) -> Result<(), OutOfMemory>
        requires few { length self.old.items < most_items }
        ensures { OnOk result (self.new ≡ giving self.old (Child kind arguments)) }
    {
        self.items.push(Item::Child { kind, arguments })?;
        Ok(())
    }

    /// A cell gets an effect, which later reads see.
    pub(crate) fn emit(
        &mut self,
        alloc: Global,
        cell: u16,
        effect: Effect,
    ) -> Result<(), OutOfMemory>
        requires cell { cell < length (cells_of self.old) }
        requires few { length self.old.items < most_items }
        requires small { effect_magnitude effect ≤ number_limit }
        ensures { OnOk result (self.new ≡ giving self.old (Emit cell effect)) }
    {
        let place = self.sight.own(alloc, cell)?;
        self.items.push(Item::Emit { cell, effect })?;
        self.sight.change(place, cell, &effect);
        Ok(())
    }

    /// The values of the locals.
    pub(crate) fn locals(&self) -> &[Value]
        ensures { result.now ≡ self.now.locals }
    {
        self.locals.as_slice()
    }

    /// The cost so far.
    pub(crate) fn cost(&self) -> u64
        ensures { result ≡ self.now.cost }
    {
        self.cost
    }

    /// The frame of the job whose step ends so at a place. The locals become those from which the task goes on, and the frame has
    /// the path and the state of the job in common with it.
    pub(crate) fn finish(
        self,
        alloc: Global,
        job: &Job,
        at: u32,
        end: End,
        room: &mut Room,
    ) -> Result<Fresh, StepEnd>
        requires { at + 1 < 2 ^ 32 }
        ensures frame { IfOk result (λ fresh. fresh ≡ ended_frame job.now end at self.entry) }
        ensures paid { result ≡ Err Fuel → ⊥ }
    {
        let reads = cells_read(alloc, &self.sight)?;
        let StepState {
            sight,
            locals,
            mut items,
            cost,
        } = self;
        let own = exact(alloc, &mut items)?;
        room.put_back(sight.written, items);
        let status = status_of(alloc, end, job.state.get().kind, at, locals)?;
        let step = Record {
            before: job.state.share()?,
            reads,
            items: own,
            status,
            cost,
        };
        let step = Shared::new(alloc, step)?;
        Ok(Fresh::new(Frame::new(job.path.share()?, step)))
    }
}
