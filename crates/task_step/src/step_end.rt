ghost use Rattle.std.specs.Prelude.{◌≡◌};
ghost use Rattle.task_step.specs.declared.step_end.StepEnd.TheVariants.{OutOfMemory as NoMemory};

use thiserror::Error;

/// Why a step was not run to its end.
#[derive(Clone, Copy, Debug, PartialEq, Eq, Drop, Error)]
pub enum StepEnd {
    /// It costs more than it may.
    #[error("a step costs more than it may")]
    Fuel,
    /// Memory was wanted.
    #[error("out of memory")]
    OutOfMemory,
}

impl From<aerie_base::OutOfMemory> for StepEnd {
    ghost from_gives = { λ _ e. e ≡ NoMemory };

    fn from(_error: aerie_base::OutOfMemory) -> StepEnd {
        StepEnd::OutOfMemory
    }
}
