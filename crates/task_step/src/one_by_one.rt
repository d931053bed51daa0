//! A wave of jobs, one after another.

ghost use Rattle.std.specs.Prelude.{◌≡◌, ◌<◌, ◌≤◌, ◌^◌, Some, None, IsTrue, IfOk, length, slice_get};
ghost use Rattle.std.specs.List.{All};
ghost use Rattle.aerie_base.specs.Ranges.{step_limit};
ghost use Rattle.body_code.specs.ModelCodes.{AreCodesOf};
ghost use Rattle.body_code.specs.Denoting.{IsCodeOf};
ghost use Rattle.run_data.specs.Frames.{job_frame};
ghost use Rattle.run_data.specs.Jobs.{IsJobOf, is_state_of};
ghost use Rattle.run_data.specs.TaskStates.{body_of};
ghost use Rattle.run_data.specs.Waves.{wave_of};
ghost use Rattle.task_step.specs.Directs.{code_place, PutsFrame};

use crate::fresh_wave::FreshWave;
use crate::room::Room;
use crate::running::step;
use crate::step_end::StepEnd;
use aerie_base::{List, Model, OutOfMemory};
use body_code::Code;
use run_data::laws::budget_decides_the_end_alone;
use run_data::{BodyId, Frame, Job, TaskState, Wave};
use std::alloc::Global;

/// The place of a body's code among a model's codes.
fn place(model: &Model, body: BodyId) -> usize
    requires { code_place model.now body < 2 ^ 63 }
    ensures { result ≡ code_place model.now body }
{
    match body {
        BodyId::Activity(kind) => usize::from(kind),
        BodyId::Daemon(number) => model.activities().len() + usize::from(number),
    }
}

/// The code at a place.
fn code_at(codes: &[Code], at: usize) -> &Code
    requires { at < length codes.now }
    ensures { slice_get codes.now at ≡ Some result.now }
{
    &codes[at]
}

/// The code of the body that a state names.
fn code_of<'a>(model: &Model, codes: &'a [Code], state: &TaskState) -> &'a Code
    requires codes { AreCodesOf model.now codes.now }
    requires state { IsTrue (is_state_of model.now state.now) }
    ensures { IsCodeOf (body_of model.now state.now.kind) result.now }
{
    code_at(codes, place(model, state.kind))
}

/// Runs a job and puts its frame behind others, where no frame is moved again. Gives its cost, or `None` where that passes the
/// fuel.
#[allow(clippy::too_many_arguments)]
fn run_job(
    alloc: Global,
    model: &Model,
    codes: &[Code],
    job: &Job,
    fuel: u64,
    frames: &mut List<Frame>,
    room: &mut Room,
) -> Result<Option<u64>, OutOfMemory>
    requires codes { AreCodesOf model.now codes.now }
    requires job { IsJobOf model.now job.now }
    requires fuel { fuel ≤ step_limit }
    ensures { IfOk result (λ cost. PutsFrame (job_frame model.now fuel job.now) cost frames.old frames.new) }
{
    let code = code_of(model, codes, job.state.get());
    match step(alloc, model, code, job, fuel, room) {
        Ok(fresh) => {
            let frame = fresh.into_frame();
            let cost = frame.cost();
            frames.push(frame)?;
            Ok(Some(cost))
        }
        Err(StepEnd::Fuel) => Ok(None),
        Err(StepEnd::OutOfMemory) => Err(OutOfMemory),
    }
}

/// Runs jobs one after another, each of which may cost what those before it left. Gives their frames, in their order, or that
/// their costs together pass the fuel, which is at most 100,000,000. What was run is counted where the wave is opened. The codes
/// are those of the model's bodies: of the activity types and then of the daemons, in the model's order.
pub fn run_jobs(
    alloc: Global,
    model: &Model,
    codes: &[Code],
    jobs: &[Job],
    fuel: u64,
    room: &mut Room,
) -> Result<FreshWave, OutOfMemory>
    requires codes { AreCodesOf model.now codes.now }
    requires jobs { All (IsJobOf model.now) jobs.now }
    requires fuel { fuel ≤ step_limit }
    ensures { IfOk result (λ fresh. fresh.wave ≡ wave_of model.now fuel jobs.now) }
{
    budget_decides_the_end_alone();
    let mut frames = List::with_capacity(alloc, jobs.len())?;
    let mut left = fuel;
    for job in jobs {
        match run_job(alloc, model, codes, job, left, &mut frames, room)? {
            Some(cost) => left -= cost,
            None => return Ok(FreshWave::new(Wave::Spent, fuel - left)),
        }
    }
    Ok(FreshWave::new(Wave::Frames(frames), fuel - left))
}
