//! What tests publish: chapters of the steps of a run.

ghost use Rattle.std.specs.Prelude.{◌≡◌, ◌<◌, ◌≤◌, IfSome};
ghost use Rattle.std.specs.List.{All};
ghost use Rattle.aerie_base.specs.plans.OfModel.{IsPlanOf};
ghost use Rattle.run_data.specs.Records.{IsValid, record_of};

use aerie_base::{List, Model, OutOfMemory, Plan, Shared, Steps};
use body_code::compile_all;
use engine_core::simulate;
use record_book::{CHAPTER_LIMIT, Chapter};
use run_data::laws::fresh_runs;
use run_data::{Frame, Kept};
use std::alloc::Global;
use std::marker::Brand;
use std::sync::ledger::{Blank, Ledger};
use task_step::Direct;
use test_worlds::{Outline, Planned, model_in, plan_of};

/// Each number is a step of its own, which reads a cell that nothing changes.
pub const MARKS: &str = "\
model marks {
  register r: int = 0;
  counter seen = 0;
  activity Mark(by: int) { let x = r; seen += x; seen += by; }
}
";

/// The same steps of another model.
pub const OTHER: &str = "\
model other {
  register r: int = 0;
  counter seen = 0;
  activity Mark(by: int) { let x = r; seen += x; seen += by; }
}
";

/// Numbers from 1 on are marked, each so many microseconds after the one before it.
#[derive(Clone, Copy)]
pub struct Marks {
    pub model: &'static str,
    pub count: u32,
    pub apart: u32,
}

/// The kept run of a plan over the plain stepper.
fn kept_run<L: Ledger, K: Ledger>(
    steps: Blank,
    looks: Blank,
    alloc: Global,
    model: &Shared<Model>,
    plan: &Shared<Plan>,
) -> Result<Shared<Kept>, OutOfMemory>
    requires steps { (steps.name ≡ L.name) × (steps.parts ≡ L.parts) × (0 < L.parts) }
    requires looks { (looks.name ≡ K.name) × (looks.parts ≡ K.parts) × (0 < K.parts) }
    requires plan { IsPlanOf model.now plan.now }
{
    fresh_runs();
    let codes = compile_all(alloc, model.get())?;
    let mut direct = Direct::new(codes.as_slice());
    let mut steps = Steps::<L>::open(steps);
    let mut looks = Steps::<K>::open(looks);
    let run = simulate(
        alloc,
        model.get(),
        plan,
        1000,
        &mut direct,
        &mut steps,
        &mut looks,
    )?;
    Kept::new(alloc, model.share()?, run)
}

/// The directives of marks.
fn planned(alloc: Global, marks: Marks) -> Option<Vec<Planned>> {
    let mut planned = Vec::new(alloc);
    for number in 0..marks.count {
        let start = (number as i64).checked_mul(marks.apart as i64)?;
        planned
            .push(Planned {
                start,
                kind: "Mark",
                argument: Some(("by", number as i64)),
                anchor: None,
            })
            .ok()?;
    }
    Some(planned)
}

/// The kept run of marks.
pub fn marked(alloc: Global, marks: Marks) -> Option<Shared<Kept>> {
    let model = Shared::new(alloc, model_in(alloc, marks.model)?).ok()?;
    let planned = planned(alloc, marks)?;
    let outline = Outline {
        duration: 1000,
        first_id: 1,
        planned: &planned,
    };
    let plan = Shared::new(alloc, plan_of(alloc, model.get(), &outline)?).ok()?;
    let (steps, looks) = (Blank::new(1), Blank::new(1));
    kept_run::<Brand, Brand>(steps, looks, alloc, &model, &plan).ok()
}

/// Puts a chapter of each batch behind the others.
fn add_chapters(
    alloc: Global,
    model: &Shared<Model>,
    batches: &[List<Frame>],
    chapters: &mut Vec<Chapter>,
) -> Option<()>
    requires { All (All (λ frame. IsValid model.now (record_of frame))) batches.now }
{
    for frames in batches {
        if frames.len() > CHAPTER_LIMIT {
            return None;
        }
        let model = model.share().ok()?;
        let chapter = Chapter::of_frames(alloc, model, frames.as_slice()).ok()?;
        chapters.push(chapter).ok()?;
    }
    Some(())
}

/// A chapter of each batch of a kept run, in order.
pub fn chapters_of(alloc: Global, kept: &Kept) -> Option<Vec<Chapter>> {
    fresh_runs();
    let mut chapters = Vec::new(alloc);
    for instant in kept.run().instants.as_slice() {
        let batches = instant.get().batches.as_slice();
        add_chapters(alloc, kept.model(), batches, &mut chapters)?;
    }
    Some(chapters)
}
