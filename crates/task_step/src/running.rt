//! A step: from place to place of the flat code, until a statement ends it.

ghost use Rattle.std.specs.Prelude.{◌≡◌, ◌+◌, ◌<◌, ◌≤◌, ◌^◌, true, false, length, slice_get, IsTrue, IfOk, Err, Some, None};
ghost use Rattle.aerie_base.specs.Ranges.{step_limit};
ghost use Rattle.aerie_base.specs.models.ValidModel.{valid_model};
ghost use Rattle.aerie_base.specs.statements.Places.{left};
ghost use Rattle.body_code.specs.Denoting.{IsCodeOf};
ghost use Rattle.run_data.specs.Frames.{frame_of, job_frame};
ghost use Rattle.run_data.specs.Jobs.{AreCellsOf, IsJobOf};
ghost use Rattle.run_data.specs.Records.{IsValid, record_of};
ghost use Rattle.run_data.specs.TaskStates.{body_of};
ghost use Rattle.run_data.specs.Typed.{AreLeft};
ghost use Rattle.task_step.specs.Doable.{cells_of};
ghost use Rattle.task_step.specs.Ends.{status_of};
ghost use Rattle.task_step.specs.Moves.{is_end, is_jump, is_work};
ghost use Rattle.task_step.specs.OwnCells.{most_items};
ghost use Rattle.task_step.specs.Ways.{TakesWay};
ghost use Rattle.task_step.specs.declared.step_end.StepEnd.TheVariants.{Fuel};

use crate::acting::act;
use crate::ends::End;
use crate::fresh::Fresh;
use crate::room::Room;
use crate::step_end::StepEnd;
use crate::step_state::StepState;
use aerie_base::{Model, OutOfMemory, copy_list, truth_in};
use body_code::{Code, Instruction};
use run_data::laws::{statements_are_typed, states_stand_in_bodies, steps_are_valid_records};
use run_data::{BodyId, Job};
use std::alloc::Global;

/// Where a statement or a test leads.
pub(crate) enum Way {
    /// The step goes on at this place.
    Onward(u32),
    /// The step ends so.
    Ended(End),
}

/// The place to which jumps lead from a place. Jumps cost nothing.
fn land(model: &Model, code: &Code, kind: BodyId, mut at: u32) -> u32
    requires code { IsCodeOf (body_of model.now kind) code.now }
    requires place { at < length code.now }
    ensures place { result < length code.now }
    ensures left { left (body_of model.now kind) result ≡ left (body_of model.now kind) at }
    ensures solid { is_jump (slice_get code.now result) ≡ false }
{
    while let Instruction::Jump(to) = code.next(at) {
        at = *to;
    }
    at
}

/// Whether this is the end of the body.
fn is_end(code: &Code, at: u32) -> bool
    requires { at < length code.now }
    ensures { result ≡ is_end (slice_get code.now at) }
{
    match code.next(at) {
        Instruction::End => true,
        Instruction::Do(_) | Instruction::Test { .. } | Instruction::Jump(_) => false,
    }
}

/// Does one statement or test, at its place, and pays for it.
fn take(
    alloc: Global,
    model: &Model,
    code: &Code,
    kind: BodyId,
    at: u32,
    so_far: &mut StepState,
) -> Result<Way, OutOfMemory>
    requires valid { IsTrue (valid_model model.now) }
    requires code { IsCodeOf (body_of model.now kind) code.now }
    requires place { at < length code.now }
    requires room { length code.now < 2 ^ 32 }
    requires works { is_work (slice_get code.now at) ≡ true }
    requires left { AreLeft model.now kind (left (body_of model.now kind) at) so_far.old.locals }
    requires cells { AreCellsOf model.now (cells_of so_far.old) }
    requires few { length so_far.old.items < most_items }
    requires cheap { so_far.old.cost < most_items }
    ensures { IfOk result (λ way. TakesWay model.now code.now kind at so_far.old way so_far.new) }
{
    statements_are_typed();
    so_far.pay();
    match code.next(at) {
        Instruction::Do(stmt) => match act(alloc, stmt, so_far)? {
            None => Ok(Way::Onward(at + 1)),
            Some(end) => Ok(Way::Ended(end)),
        },
        Instruction::Test { test, otherwise } => match so_far.value(test) {
            Err(fault) => Ok(Way::Ended(End::Faulted(fault))),
            Ok(value) => {
                if truth_in(&value) {
                    Ok(Way::Onward(at + 1))
                } else {
                    Ok(Way::Onward(*otherwise))
                }
            }
        },
        Instruction::Jump(_) | Instruction::End => unreachable!(),
    }
}

/// The frame of a job's step, or that it costs more than the fuel.
pub(crate) fn step(
    alloc: Global,
    model: &Model,
    code: &Code,
    job: &Job,
    fuel: u64,
    room: &mut Room,
) -> Result<Fresh, StepEnd>
    requires job { IsJobOf model.now job.now }
    requires code { IsCodeOf (body_of model.now job.now.state.kind) code.now }
    requires fuel { fuel ≤ step_limit }
    ensures frame { IfOk result (λ fresh. job_frame model.now fuel job.now ≡ Some fresh) }
    ensures fuel { result ≡ Err Fuel → job_frame model.now fuel job.now ≡ None }
{
    statements_are_typed();
    states_stand_in_bodies();
    let state = job.state.get();
    let kind = state.kind;
    let cells = model.cells().len();
    let locals = copy_list(alloc, &state.locals)?;
    let mut so_far = StepState::start(alloc, job.view.get(), cells, locals, room);
    let mut at = state.at;
    'places: loop {
        let here = land(model, code, kind, at);
        if is_end(code, here) {
            return so_far.finish(alloc, job, here, End::Done(None), room);
        }
        if so_far.cost() == fuel {
            return Err(StepEnd::Fuel);
        }
        match take(alloc, model, code, kind, here, &mut so_far)? {
            Way::Onward(to) => at = to,
            Way::Ended(end) => return so_far.finish(alloc, job, here, end, room),
        }
    }
}

/// The step of a job: its frame, or `StepEnd::Fuel` exactly where it costs more than the fuel, which is at most
/// 100,000,000. The code is that of the job's body. It takes time about linear in the statements that are run, and none for
/// cells that they do not touch. The frame is a valid record: it is the step of every job that it fits.
#[tactic(auto, using(crate::proofs::Validity::frames_are_valid))]
pub fn run_step(
    alloc: Global,
    model: &Model,
    code: &Code,
    job: &Job,
    fuel: u64,
) -> Result<Fresh, StepEnd>
    requires job { IsJobOf model.now job.now }
    requires code { IsCodeOf (body_of model.now job.now.state.kind) code.now }
    requires fuel { fuel ≤ step_limit }
    ensures frame { IfOk result (λ fresh. job_frame model.now fuel job.now ≡ Some fresh) }
    ensures fuel { result ≡ Err Fuel → job_frame model.now fuel job.now ≡ None }
    ensures valid { IfOk result (λ fresh. IsValid model.now (record_of fresh)) }
{
    steps_are_valid_records();
    let mut room = Room::new();
    step(alloc, model, code, job, fuel, &mut room)
}
