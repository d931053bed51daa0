ghost use Rattle.std.specs.Prelude.{◌≡◌, ◌≤◌, IfOk};
ghost use Rattle.aerie_base.specs.plans.OfModel.{IsPlanOf};
ghost use Rattle.run_data.specs.Fresh.{IsFresh};

use crate::kept::Kept;
use aerie_base::{OutOfMemory, Plan, Shared, Steps};
use std::alloc::Global;
use std::sync::ledger::Ledger;

/// What simulates plans of one model under one bound.
pub trait Simulator {
    ghost use Rattle.std.specs.Prelude.{ℕ};
    ghost use Rattle.aerie_base.specs.declared.models.model.Parts.{Parts};

    /// The model.
    ghost model: { Self → Parts };
    /// What the costs of a run may come to.
    ghost bound: { Self → ℕ };
    /// The address of the data that it borrows, which no call changes: by it a caller finds its own data again in a simulator
    /// that it made over them.
    ghost address: { Self → ℕ };
    /// Evidence that what its threads share may be shared between threads; nothing where it starts none.
    ghost shares: { Type 0 };

    /// The kept fresh run of the plan. `steps` counts the statements and tests that are run, and `looks` the searches among
    /// stored steps.
    fn run<L: Ledger, K: Ledger>(
        &mut self,
        alloc: Global,
        plan: &Shared<Plan>,
        steps: &mut Steps<L>,
        looks: &mut Steps<K>,
    ) -> Result<Shared<Kept>, OutOfMemory>
        requires shares { shares }
        requires plan { IsPlanOf (model self.old) plan.now }
        ensures model_of { IfOk result (λ kept. kept.model ≡ model self.old) }
        ensures plan_of { IfOk result (λ kept. kept.run.plan ≡ plan.now) }
        ensures fresh { IfOk result (λ kept. IsFresh (model self.old) plan.now (bound self.old) kept.run) }
        ensures steps { steps.old ≤ steps.new }
        ensures looks { looks.old ≤ looks.new }
        ensures same_model { model self.new ≡ model self.old }
        ensures same_bound { bound self.new ≡ bound self.old }
        ensures address { address self.new ≡ address self.old };
}
