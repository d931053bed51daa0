ghost use Rattle.std.specs.Prelude.{◌≡◌, ◌+◌, ◌*◌, ◌≤◌, IfOk, length};
ghost use Rattle.std.specs.List.{All};
ghost use Rattle.aerie_base.specs.Ranges.{step_limit};
ghost use Rattle.aerie_base.specs.declared.models.model.Parts.{Parts};
ghost use Rattle.run_data.specs.Jobs.{IsJobOf};
ghost use Rattle.run_data.specs.Records.{IsValid};
ghost use Rattle.run_data.specs.Waves.{wave_of, IsFrugal, RoseAlike};

use crate::frames::Frame;
use crate::jobs::Job;
use aerie_base::{List, Model, OutOfMemory, Steps};
use std::alloc::Global;
use std::sync::ledger::Ledger;

/// What a wave gives.
#[derive(Drop)]
pub enum Wave {
    /// The frames of the jobs, in their order, without their children.
    Frames(List<Frame>),
    /// The costs of the jobs together pass the fuel.
    Spent,
}

/// What runs steps. It is of certain models, and may have stored steps, each valid for all of these. A wave changes neither.
pub trait Stepper {
    ghost use Rattle.std.specs.Prelude.{ℕ, List, ◌≤◌};
    ghost use Rattle.std.specs.List.{All};
    ghost use Rattle.aerie_base.specs.declared.models.model.Parts.{Parts};
    ghost use Rattle.run_data.specs.declared.frames.Record.{Record};
    ghost use Rattle.run_data.specs.Records.{IsValid};
    ghost use Rattle.run_data.specs.Waves.{last_count};

    /// Whether it is of a model.
    ghost is_of: { Self → Parts → Type 0 };
    /// The steps that it has stored.
    ghost records: { Self → List Record };
    /// How many statements and tests it ran, up to 2^64 - 1.
    ghost opened: { Self → ℕ };
    /// The address of the data that it borrows, which no call changes: by it a caller finds its own data again in a stepper
    /// that it made over them.
    ghost address: { Self → ℕ };
    /// Evidence that what its threads share may be shared between threads; nothing where it starts none.
    ghost shares: { Type 0 };

    /// Each stored step is valid for each model that it is of.
    ghost valid: { (stepper : Self) (model : Parts) → is_of stepper model → All (IsValid model) (records stepper) };
    /// The count of what it ran is one of 64 bits.
    ghost counted: { (stepper : Self) → opened stepper ≤ last_count };

    /// The frames of the jobs, in their order and without their children, or `Spent` exactly where the sum of their costs
    /// passes the fuel, which is at most 100,000,000. `steps` counts the statements and tests that are run, and `looks`
    /// the searches among stored steps.
    fn wave<L: Ledger, K: Ledger>(
        &mut self,
        alloc: Global,
        model: &Model,
        jobs: &[Job],
        fuel: u64,
        steps: &mut Steps<L>,
        looks: &mut Steps<K>,
    ) -> Result<Wave, OutOfMemory>
        requires shares { shares }
        requires model { is_of self.old model.now }
        requires jobs { All (IsJobOf model.now) jobs.now }
        requires fuel { fuel ≤ step_limit }
        ensures wave { IfOk result (λ wave. wave ≡ wave_of model.now fuel jobs.now) }
        ensures frugal { IfOk result (λ wave. IsFrugal wave (records self.old) steps.old steps.new) }
        ensures looks { looks.old ≤ looks.new }
        ensures few_looks { looks.new ≤ looks.old + 2 * length jobs.now }
        ensures opened { RoseAlike (opened self.old) steps.old (opened self.new) steps.new }
        ensures same_models { (of : Parts) → (is_of self.old of → is_of self.new of) × (is_of self.new of → is_of self.old of) }
        ensures same_records { records self.new ≡ records self.old }
        ensures address { address self.new ≡ address self.old };
}
