//! A wave that was run and is not counted yet.

ghost use Rattle.std.specs.Prelude.{◌≡◌, ◌+◌, []};
ghost use Rattle.run_data.specs.Waves.{IsFrugal, RoseAlike};
ghost use Rattle.task_step.specs.FreshWaves.{IsCostOf};

use aerie_base::Steps;
use run_data::Wave;
use std::marker::Model;
use std::sync::ledger::Ledger;

/// What a wave gives that was run and is not counted yet. Contracts see the wave and how many statements and tests were run
/// for it.
#[derive(Drop)]
pub struct FreshWave {
    wave: Wave,
    cost: u64,
}

impl Model for FreshWave {
    ghost use Rattle.std.specs.Coded.{codes};
    ghost use Rattle.aerie_base.specs.contracts.conditions.Cond as cond;
    ghost use Rattle.task_step.specs.FreshWaves.{IsCostOf, UncountedWave};

    ghost Value = { UncountedWave };

    ghost coded = { Prim.hlevel (codes, cond.the_row.coded) };

    ghost view = { λ fresh. record { wave = fresh.wave; cost = fresh.cost } };

    ghost invariant = { λ fresh. IsCostOf fresh.wave fresh.cost };
}

impl FreshWave {
    /// A wave that was just run, at this cost.
    pub(crate) fn new(wave: Wave, cost: u64) -> FreshWave
        requires { IsCostOf wave cost }
        ensures { result ≡ record { wave = wave; cost = cost } }
    {
        FreshWave { wave, cost }
    }

    /// How many statements and tests were run for it.
    pub fn cost(&self) -> u64
        ensures { result ≡ self.now.cost }
    {
        self.cost
    }

    /// The wave, whose statements and tests are counted with this. `opened` rises as `steps` does. It takes no memory.
    pub fn open<L: Ledger>(self, steps: &mut Steps<L>, opened: &mut u64) -> Wave
        ensures wave { result ≡ self.wave }
        ensures cost { IsCostOf result self.cost }
        ensures steps { steps.new ≡ steps.old + self.cost }
        ensures frugal { IsFrugal result [] steps.old steps.new }
        ensures opened { RoseAlike opened.old steps.old opened.new steps.new }
    {
        steps.rise(self.cost);
        *opened = opened.saturating_add(self.cost);
        self.wave
    }
}
