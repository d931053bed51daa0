ghost use Rattle.std.specs.Prelude.{◌≡◌, IfOk};
ghost use Rattle.aerie_base.specs.plans.OfModel.{IsPlanOf};
ghost use Rattle.run_data.specs.Fresh.{IsFresh};
ghost use Rattle.run_data.specs.KeptRuns.{KeptRun};

use crate::runs::Run;
use aerie_base::{Model, OutOfMemory, Shared};
use std::alloc::Global;

/// A run that is kept: the fresh run of a plan of its model. Contracts see the model and the run.
#[derive(Drop)]
pub struct Kept {
    model: Shared<Model>,
    run: Run,
}

impl std::marker::Model for Kept {
    ghost use Rattle.std.specs.Coded.{codes};
    ghost use Rattle.aerie_base.specs.plans.OfModel.{IsPlanOf};
    ghost use Rattle.aerie_base.specs.contracts.expressions.Expr as expr;
    ghost use Rattle.aerie_base.specs.contracts.conditions.Cond as cond;
    ghost use Rattle.aerie_base.specs.contracts.statements.Stmt as stmt;
    ghost use Rattle.run_data.specs.Fresh.{IsFresh};
    ghost use Rattle.run_data.specs.KeptRuns.{KeptRun};

    ghost Value = { KeptRun };

    ghost coded = { Prim.hlevel (codes, expr.the_row.coded, cond.the_row.coded, stmt.the_row.coded) };

    ghost view = { λ kept. record { model = kept.model; run = kept.run } };

    ghost invariant = { λ kept. IsFresh kept.model kept.run.plan kept.run.bound kept.run × IsPlanOf kept.model kept.run.plan };
}

impl Kept {
    /// Keeps a fresh run of a plan of the model. After want of memory the run is dropped.
    pub fn new(alloc: Global, model: Shared<Model>, run: Run) -> Result<Shared<Kept>, OutOfMemory>
        requires fresh { IsFresh model run.plan run.bound run }
        requires plan { IsPlanOf model run.plan }
        ensures { IfOk result (λ kept. kept ≡ record { model = model; run = run }) }
    {
        Shared::new(alloc, Kept { model, run })
    }

    /// The run. It takes no memory.
    pub fn run(&self) -> &Run
        ensures value { result.now ≡ self.now.run }
        ensures fresh { IsFresh self.now.model self.now.run.plan self.now.run.bound self.now.run }
        ensures plan { IsPlanOf self.now.model self.now.run.plan }
    {
        &self.run
    }

    /// The model. It takes no memory.
    pub fn model(&self) -> &Shared<Model>
        ensures { result.now ≡ self.now.model }
    {
        &self.model
    }
}
