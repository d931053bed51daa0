//! The pieces of a wave: neighbouring jobs, each piece on a thread of its own where one can be made.

ghost use Rattle.std.specs.Prelude.{◌≡◌, ◌/◌, ◌<◌, ◌≤◌, ◌++◌, [], false, IsTrue, IfOk, IfSome, IfNone, OnOk, length, min};
ghost use Rattle.std.specs.List.{All};
ghost use Rattle.aerie_base.specs.Ranges.{step_limit};
ghost use Rattle.body_code.specs.ModelCodes.{AreCodesOf};
ghost use Rattle.run_data.specs.Jobs.{IsJobOf};
ghost use Rattle.run_data.specs.Waves.{IsFrugal, RoseAlike, last_count};
ghost use Rattle.batch_run.specs.Pieces.{ArePieces, HaveNoError, IsWaveOf, joined_wave, least_jobs, piece_count};

use crate::probes::Probe;
use aerie_base::{List, Model, OutOfMemory, Steps};
use body_code::Code;
use run_data::{Frame, Job, Wave};
use std::alloc::Global;
use std::sync::ledger::Ledger;
use std::thread;
use std::thread::Threads;
use task_step::{FreshWave, Room, run_jobs};

/// How many jobs a piece has at least, but for the last. To start a thread and to wait for it costs as long as some 200 to 500 steps of
/// one statement take (`docs/MEASURED.md`). So two pieces end sooner than one wherever two threads together do a sixth more than one
/// alone, and two processors that share a core may do little more than that. Longer steps gain more.
const LEAST_JOBS: usize = 2048;

/// How many neighbouring jobs each piece has, or `None` where there are too few jobs for two pieces. The jobs are cut into at most
/// so many pieces of this size.
pub(crate) fn piece_size(jobs: usize, pieces: usize) -> Option<usize>
    ensures large { IfSome result (λ size. least_jobs ≤ size) }
    ensures few { IfSome result (λ size. piece_count jobs size ≤ pieces) }
    ensures none { IfNone result (min pieces (jobs / least_jobs) < 2) }
{
    let count = pieces.min(jobs / LEAST_JOBS);
    if count < 2 {
        return None;
    }
    Some(jobs.div_ceil(count))
}

/// The wave of one piece.
fn run_piece(
    alloc: Global,
    model: &Model,
    codes: &[Code],
    jobs: &[Job],
    fuel: u64,
) -> Result<FreshWave, OutOfMemory>
    requires codes { AreCodesOf model.now codes.now }
    requires jobs { All (IsJobOf model.now) jobs.now }
    requires fuel { fuel ≤ step_limit }
    ensures { IfOk result (IsWaveOf model.now fuel jobs.now) }
{
    let mut room = Room::new();
    run_jobs(alloc, model, codes, jobs, fuel, &mut room)
}

/// The waves of all pieces, of so many jobs each, in their order. Each may cost the whole fuel: where the jobs of one piece pass it,
/// all jobs together do.
#[allow(clippy::too_many_arguments)]
pub(crate) fn run_pieces<R: Threads + Sync, P: Probe>(
    rt: &R,
    alloc: Global,
    model: &Model,
    codes: &[Code],
    jobs: &[Job],
    fuel: u64,
    size: usize,
    probe: &P,
) -> Result<Vec<Result<FreshWave, OutOfMemory>>, OutOfMemory>
    requires size { 0 < size }
    requires codes { AreCodesOf model.now codes.now }
    requires jobs { All (IsJobOf model.now) jobs.now }
    requires fuel { fuel ≤ step_limit }
    ensures waves { IfOk result (λ pieces. ArePieces model.now fuel size jobs.now pieces.items) }
    ensures count { IfOk result (λ pieces. length pieces.items ≡ piece_count (length jobs.now) size) }
{
    let pieces = thread::map_chunks(
        rt,
        alloc,
        jobs,
        size,
        &|start, piece: &[Job]| -> Result<FreshWave, OutOfMemory>
            requires size { 0 < size }
            requires codes { AreCodesOf model.now codes.now }
            requires jobs { All (IsJobOf model.now) piece.now }
            requires fuel { fuel ≤ step_limit }
            ensures { IfOk result (IsWaveOf model.entry.now fuel piece.entry.now) }
        {
            probe.piece(start / size);
            run_piece(alloc, model, codes, piece, fuel)
        },
    )?;
    Ok(pieces)
}

/// Puts frames behind others.
fn append(frames: &mut List<Frame>, mut more: List<Frame>) -> Result<(), OutOfMemory>
    ensures { OnOk result (frames.new ≡ frames.old ++ more) }
{
    frames.items.append(&mut more.items)?;
    Ok(())
}

/// Whether so much of the fuel is left, where the wave is not spent yet.
fn may_pay(is_spent: bool, cost: u64, left: u64) -> bool
    ensures paid { IsTrue result → (is_spent ≡ false) × (cost ≤ left) }
    ensures past { result ≡ false → is_spent ≡ false → left < cost }
{
    !is_spent && cost <= left
}

/// The wave of all pieces, which are opened in their order. It is spent where one piece is, or where they together pass the fuel;
/// all that was run is counted.
pub(crate) fn open_pieces<L: Ledger>(
    alloc: Global,
    pieces: Vec<Result<FreshWave, OutOfMemory>>,
    fuel: u64,
    steps: &mut Steps<L>,
    opened: &mut u64,
) -> Result<Wave, OutOfMemory>
    requires { opened.old ≤ last_count }
    ensures done { IfOk result (λ _. HaveNoError pieces.items) }
    ensures wave { IfOk result (λ wave. wave ≡ joined_wave fuel pieces.items) }
    ensures frugal { IfOk result (λ wave. IsFrugal wave [] steps.old steps.new) }
    ensures opened { RoseAlike opened.old steps.old opened.new steps.new }
{
    let mut frames = List::new(alloc);
    let mut left = fuel;
    let mut is_spent = false;
    for piece in pieces {
        let fresh = piece?;
        let cost = fresh.cost();
        match fresh.open(steps, opened) {
            Wave::Frames(more) => {
                if may_pay(is_spent, cost, left) {
                    left -= cost;
                    append(&mut frames, more)?;
                } else {
                    is_spent = true;
                }
            }
            Wave::Spent => is_spent = true,
        }
    }
    if is_spent {
        return Ok(Wave::Spent);
    }
    Ok(Wave::Frames(frames))
}
