//! Simulations of a world over each stepper.

ghost use Rattle.std.specs.Prelude.{◌≡◌, ◌<◌, ◌≤◌};
ghost use Rattle.aerie_base.specs.plans.OfModel.{IsPlanOf};
ghost use Rattle.body_code.specs.ModelCodes.{AreCodesOf};

use crate::clocked::{Clocked, now, passed};
use crate::figures::Figures;
use crate::worlds::World;
use aerie_base::{OutOfMemory, STEP_LIMIT, Steps};
use batch_run::{NoProbe, Spread};
use body_code::Code;
use engine_core::simulate;
use record_book::Book;
use run_data::Stepper;
use std::alloc::Global;
use std::marker::Brand;
use std::rt::Clock;
use std::sync::ledger::{Blank, Ledger};
use std::thread::Threads;
use task_step::Direct;

/// Which stepper a simulation goes over.
#[derive(Clone, Copy)]
pub(crate) enum Stepping {
    Direct,
    /// With two empty books, in so many pieces at most, 1 to 64.
    Spread(usize),
}

/// The figures of one simulation over a stepper.
fn counted<R: Clock, S: Stepper + Drop, L: Ledger, K: Ledger>(
    rt: &R,
    alloc: Global,
    world: &World,
    stepper: S,
    steps: Blank,
    looks: Blank,
) -> Option<Figures>
    requires plan { IsPlanOf world.now.model world.now.plan }
    requires shares { S.shares }
    requires stepper { S.is_of stepper world.now.model }
    requires steps { (steps.name ≡ L.name) × (steps.parts ≡ L.parts) × (0 < L.parts) }
    requires looks { (looks.name ≡ K.name) × (looks.parts ≡ K.parts) × (0 < K.parts) }
{
    let mut clocked = Clocked::new(rt, stepper);
    let mut steps = Steps::<L>::open(steps);
    let mut looks = Steps::<K>::open(looks);
    let begun = now(rt);
    let run = simulate(
        alloc,
        world.model.get(),
        &world.plan,
        STEP_LIMIT,
        &mut clocked,
        &mut steps,
        &mut looks,
    );
    let whole = passed(rt, begun);
    if run.is_err() {
        return None;
    }
    Some(Figures {
        jobs: clocked.jobs,
        waves: clocked.waves,
        in_waves: clocked.nanoseconds,
        whole,
    })
}

/// The same, with counters of its own.
fn simulated<R: Clock, S: Stepper + Drop>(
    rt: &R,
    alloc: Global,
    world: &World,
    stepper: S,
) -> Option<Figures>
    requires plan { IsPlanOf world.now.model world.now.plan }
    requires shares { S.shares }
    requires stepper { S.is_of stepper world.now.model }
{
    let (steps, looks) = (Blank::new(1), Blank::new(1));
    counted::<R, S, Brand, Brand>(rt, alloc, world, stepper, steps, looks)
}

/// The figures of one simulation over two empty books.
fn spread<R: Clock + Threads + Sync>(
    rt: &R,
    alloc: Global,
    world: &World,
    codes: &[Code],
    pieces: usize,
) -> Result<Option<Figures>, OutOfMemory>
    requires plan { IsPlanOf world.now.model world.now.plan }
    requires codes { AreCodesOf world.now.model codes.now }
    requires pieces { (1 ≤ pieces) × (pieces ≤ 64) }
{
    let book = Book::new(alloc, world.model.share()?)?;
    let kept = Book::new(alloc, world.model.share()?)?;
    let spread = Spread::new(rt, &book, &kept, codes, pieces, &NoProbe);
    Ok(simulated(rt, alloc, world, spread))
}

/// The figures of one simulation.
pub(crate) fn once<R: Clock + Threads + Sync>(
    rt: &R,
    alloc: Global,
    world: &World,
    codes: &[Code],
    stepping: Stepping,
) -> Option<Figures>
    requires plan { IsPlanOf world.now.model world.now.plan }
    requires codes { AreCodesOf world.now.model codes.now }
{
    match stepping {
        Stepping::Direct => simulated(rt, alloc, world, Direct::new(codes)),
        Stepping::Spread(pieces) => {
            if pieces < 1 || pieces > 64 {
                return None;
            }
            spread(rt, alloc, world, codes, pieces).ok()?
        }
    }
}
