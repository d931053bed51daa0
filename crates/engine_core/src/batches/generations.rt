//! The frames of a batch a generation at a time.

ghost use Rattle.std.specs.Prelude.{◌≡◌, ◌++◌, ◌+◌, ◌-◌, ◌*◌, ◌≤◌, ◌<◌, Some, true, false, min, option_map, length, IfOk, OnOk};
ghost use Rattle.aerie_base.specs.Ranges.{step_limit};
ghost use Rattle.run_data.specs.Batches.{cost_of};
ghost use Rattle.run_data.specs.Waves.{last_count};
ghost use Rattle.engine_core.specs.BatchDues.{AreSeenSteps, IsSeenStep};
ghost use Rattle.engine_core.specs.BatchGenerations.{AddsGeneration, MayRun, IsGenerationRun, PaysForGeneration, LooksForGeneration, PaysForAll, LooksForAll, Ran, AreDueJobs, AreAllFrames, AddsFrame, HaveRoomForChildren, jobs_of};

use super::children::{deep_frames, with_children};
use aerie_base::{List, Model, OutOfMemory, Steps};
use live_tasks::ready_jobs::ReadyJobs;
use run_data::laws::{
    budget_decides_the_end_alone, same_by_generations, steps_are_small, waves_go_by_what_is_left,
};
use run_data::{Frame, Job, Stepper, Wave};
use std::alloc::Global;
use std::sync::ledger::Ledger;

/// How many children a path names at most.
pub(super) const CHILD_LIMIT: usize = 64;

/// The costs of frames together, up to 2^64 - 1.
pub(super) fn cost(frames: &[Frame]) -> u64
    ensures { result ≡ min (cost_of frames.now) last_count }
{
    let mut sum: u64 = 0;
    for frame in frames {
        sum = sum.saturating_add(frame.cost());
    }
    sum
}

/// Puts the frame of a job behind others, and then those of its children that are too deep. Its other children are due, behind
/// those that are due already.
fn add_frame(
    alloc: Global,
    model: &Model,
    job: &Job,
    number: u32,
    frame: Frame,
    made: &mut Vec<Frame>,
    dues: ReadyJobs,
) -> Result<ReadyJobs, OutOfMemory>
    requires { IsSeenStep (number, job.now) frame }
    ensures { IfOk result (AddsFrame model.now (number, job.now) frame made.old.items made.new.items dues) }
{
    if job.path.get().children().len() < CHILD_LIMIT {
        let all = with_children(alloc, model, job, number, frame.items().as_slice(), dues)?;
        made.push(frame)?;
        return Ok(all);
    }
    let mut deep = deep_frames(alloc, model, &job.path, frame.items().as_slice())?;
    made.push(frame)?;
    made.append(&mut deep)?;
    Ok(dues)
}

/// The same for the frames of jobs, one after another.
fn add_each(
    alloc: Global,
    model: &Model,
    jobs: &ReadyJobs,
    frames: List<Frame>,
    made: &mut Vec<Frame>,
) -> Result<ReadyJobs, OutOfMemory>
    requires as_many { length frames ≡ length jobs.now }
    requires seen { AreSeenSteps jobs.now frames }
    ensures { IfOk result (λ dues.
        AddsGeneration model.now jobs.now frames made.old.items made.new.items dues) }
{
    let mut dues = ReadyJobs::new(alloc);
    let mut at = 0;
    for frame in frames.into_vec() {
        let job = &jobs.jobs()[at];
        dues = add_frame(alloc, model, job, jobs.made(at), frame, made, dues)?;
        at += 1;
    }
    Ok(dues)
}

/// Whether the paths of jobs have room for children.
fn have_room(jobs: &[Job]) -> bool
    ensures room { result ≡ true → HaveRoomForChildren jobs.now }
    ensures full { result ≡ false → HaveRoomForChildren jobs.now → ⊥ }
{
    for job in jobs {
        if job.path.get().children().len() >= CHILD_LIMIT {
            return false;
        }
    }
    true
}

/// Puts frames behind others. Where there are no others, no frame is moved.
fn put_behind(made: &mut Vec<Frame>, frames: List<Frame>) -> Result<(), OutOfMemory>
    ensures { OnOk result (made.new.items ≡ made.old.items ++ frames) }
{
    let mut frames = frames.into_vec();
    if made.is_empty() {
        *made = frames;
        return Ok(());
    }
    made.append(&mut frames)?;
    Ok(())
}

/// The same as one by one, where the paths of the jobs have room, so that the list of the frames stays as it is.
fn add_all(
    alloc: Global,
    model: &Model,
    jobs: &ReadyJobs,
    frames: List<Frame>,
    made: &mut Vec<Frame>,
) -> Result<ReadyJobs, OutOfMemory>
    requires as_many { length frames ≡ length jobs.now }
    requires seen { AreSeenSteps jobs.now frames }
    requires room { HaveRoomForChildren (jobs_of jobs.now) }
    ensures { IfOk result (λ dues.
        AddsGeneration model.now jobs.now frames made.old.items made.new.items dues) }
{
    let mut dues = ReadyJobs::new(alloc);
    for at in 0..jobs.len() {
        let job = &jobs.jobs()[at];
        let items = frames.as_slice()[at].items().as_slice();
        dues = with_children(alloc, model, job, jobs.made(at), items, dues)?;
    }
    put_behind(made, frames)?;
    Ok(dues)
}

/// Puts the frames of jobs behind others, and gives the jobs that are due next.
fn add_frames(
    alloc: Global,
    model: &Model,
    jobs: &ReadyJobs,
    frames: List<Frame>,
    made: &mut Vec<Frame>,
) -> Result<ReadyJobs, OutOfMemory>
    requires as_many { length frames ≡ length jobs.now }
    requires seen { AreSeenSteps jobs.now frames }
    ensures { IfOk result (λ dues.
        AddsGeneration model.now jobs.now frames made.old.items made.new.items dues) }
{
    if have_room(jobs.jobs()) {
        add_all(alloc, model, jobs, frames, made)
    } else {
        add_each(alloc, model, jobs, frames, made)
    }
}

/// Runs the jobs of a generation and adds their frames to those so far. With the jobs that are due next comes what is left of the
/// fuel; `None` where their costs pass it.
#[allow(clippy::too_many_arguments)]
fn run_generation<S: Stepper, L: Ledger, K: Ledger>(
    alloc: Global,
    model: &Model,
    bound: u64,
    jobs: &ReadyJobs,
    fuel: u64,
    made: &mut Vec<Frame>,
    stepper: &mut S,
    steps: &mut Steps<L>,
    looks: &mut Steps<K>,
) -> Result<Option<(ReadyJobs, u64)>, OutOfMemory>
    requires shares { S.shares }
    requires model { S.is_of stepper.old model.now }
    requires bound { bound ≤ step_limit }
    requires fuel { fuel ≤ bound }
    requires jobs { MayRun model.now bound jobs.now }
    ensures iteration { IfOk result (λ next.
        IsGenerationRun model.now jobs.now fuel made.old.items made.new.items next) }
    ensures pays { IfOk result (λ next.
        PaysForGeneration next (S.records stepper.old) made.old.items made.new.items steps.old steps.new) }
    ensures few_looks { IfOk result (λ next.
        LooksForGeneration next made.old.items made.new.items looks.old looks.new) }
    ensures ran { Ran (S.is_of stepper.old) (S.is_of stepper.new) (S.records stepper.old)
        (S.records stepper.new)
        (S.address stepper.old) (S.address stepper.new) (S.opened stepper.old) steps.old looks.old
        (S.opened stepper.new) steps.new looks.new }
{
    waves_go_by_what_is_left();
    match stepper.wave(alloc, model, jobs.jobs(), fuel, steps, looks)? {
        Wave::Frames(frames) => {
            let left = fuel - cost(frames.as_slice());
            let dues = add_frames(alloc, model, jobs, frames, made)?;
            Ok(Some((dues, left)))
        }
        Wave::Spent => Ok(None),
    }
}

/// The frames of a batch a generation at a time, or `None` where the costs of the batch pass the bound.
#[allow(clippy::too_many_arguments)]
pub(super) fn all_frames<S: Stepper, L: Ledger, K: Ledger>(
    alloc: Global,
    model: &Model,
    bound: u64,
    spent: u64,
    jobs: &ReadyJobs,
    stepper: &mut S,
    steps: &mut Steps<L>,
    looks: &mut Steps<K>,
) -> Result<Option<Vec<Frame>>, OutOfMemory>
    requires shares { S.shares }
    requires model { S.is_of stepper.old model.now }
    requires bound { bound ≤ step_limit }
    requires spent { spent ≤ bound }
    requires jobs { AreDueJobs model.now jobs.now }
    ensures frames { IfOk result (λ frames.
        AreAllFrames model.now bound spent jobs.now (option_map (λ all. all.items) frames)) }
    ensures pays { IfOk result (λ frames.
        PaysForAll (option_map (λ all. all.items) frames) (S.records stepper.old) steps.old steps.new) }
    ensures few_looks { IfOk result (λ frames.
        LooksForAll (option_map (λ all. all.items) frames) looks.old looks.new) }
    ensures ran { Ran (S.is_of stepper.old) (S.is_of stepper.new) (S.records stepper.old)
        (S.records stepper.new)
        (S.address stepper.old) (S.address stepper.new) (S.opened stepper.old) steps.old looks.old
        (S.opened stepper.new) steps.new looks.new }
{
    same_by_generations();
    waves_go_by_what_is_left();
    steps_are_small();
    budget_decides_the_end_alone();
    let _ = model.cells();
    let mut made = Vec::new(alloc);
    let fuel = bound - spent;
    let first = run_generation(
        alloc, model, bound, jobs, fuel, &mut made, stepper, steps, looks,
    )?;
    let Some((mut dues, mut left)) = first else {
        return Ok(None);
    };
    for iteration in 0..CHILD_LIMIT {
        if dues.len() == 0 {
            return Ok(Some(made));
        }
        let next = run_generation(
            alloc, model, bound, &dues, left, &mut made, stepper, steps, looks,
        )?;
        let Some((later, rest)) = next else {
            return Ok(None);
        };
        dues = later;
        left = rest;
    }
    Ok(Some(made))
}
