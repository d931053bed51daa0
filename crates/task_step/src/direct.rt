//! A stepper that stores nothing.

ghost use Rattle.std.specs.Prelude.{◌≡◌};

use crate::one_by_one::run_jobs;
use crate::room::Room;
use aerie_base::{Model, OutOfMemory, Steps};
use body_code::Code;
use run_data::{Job, Stepper, Wave};
use std::alloc::Global;
use std::sync::ledger::Ledger;

/// Runs steps one job after another and stores none of them. It is of each model whose codes it has. Contracts see its
/// codes, how many statements and tests it ran, up to 2^64 - 1, and where its codes lie.
#[derive(Drop)]
pub struct Direct<'a> {
    codes: &'a [Code],
    opened: u64,
    /// What the steps of one wave leave for the next.
    room: Room,
}

impl<'a> std::marker::Model for Direct<'a> {
    ghost use Rattle.std.specs.Coded.{codes as coders};
    ghost use Rattle.aerie_base.specs.contracts.expressions.Expr as expr;
    ghost use Rattle.aerie_base.specs.contracts.conditions.Cond as cond;
    ghost use Rattle.aerie_base.specs.contracts.statements.Stmt as stmt;
    ghost use Rattle.task_step.specs.Directs.{DirectStepper};

    ghost Value = { DirectStepper };

    ghost coded = { Prim.hlevel (coders, expr.the_row.coded, cond.the_row.coded, stmt.the_row.coded) };

    ghost view = { λ direct. record { codes = direct.codes.now; opened = direct.opened; codes_at = direct.codes.ref_ptr.0 } };
}

impl<'a> Direct<'a> {
    /// A stepper over the codes of a model's bodies: those of the activity types and then those of the daemons, in the
    /// model's order. It takes no memory.
    pub fn new(codes: &'a [Code]) -> Direct<'a>
        ensures codes { result.codes ≡ codes.now }
        ensures opened { result.opened ≡ 0 }
        ensures address { result.codes_at ≡ codes.entry.ref_ptr.0 }
    {
        Direct {
            codes,
            opened: 0,
            room: Room::new(),
        }
    }

    /// How many statements and tests it ran, or 2^64 - 1 where there were more. It takes no memory.
    pub fn opened(&self) -> u64
        ensures { result ≡ self.now.opened }
    {
        self.opened
    }
}

impl<'a> Stepper for Direct<'a> {
    ghost use Rattle.std.specs.Prelude.{[], min};
    ghost use Rattle.std.proofs.Common.{arith};
    ghost use Rattle.std.proofs.lemmas.List.Elements.{All-nil};
    ghost use Rattle.body_code.specs.ModelCodes.{AreCodesOf};
    ghost use Rattle.run_data.specs.Records.{IsValid};
    ghost use Rattle.run_data.specs.Waves.{last_count};

    ghost is_of = { λ direct model. AreCodesOf model direct.codes };

    ghost records = { λ direct. [] };

    ghost opened = { λ direct. min direct.opened last_count };

    ghost address = { λ direct. direct.codes_at };

    ghost shares = { Unit {0} };

    ghost valid = { λ direct model of. All-nil (IsValid model) };

    ghost counted = { λ direct. Prim.omega arith };

    fn wave<L: Ledger, K: Ledger>(
        &mut self,
        alloc: Global,
        model: &Model,
        jobs: &[Job],
        fuel: u64,
        steps: &mut Steps<L>,
        looks: &mut Steps<K>,
    ) -> Result<Wave, OutOfMemory> {
        let _ = looks;
        let fresh = run_jobs(alloc, model, self.codes, jobs, fuel, &mut self.room)?;
        Ok(fresh.open(steps, &mut self.opened))
    }
}
