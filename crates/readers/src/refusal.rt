ghost use Rattle.std.specs.Prelude.{◌≡◌};
ghost use Rattle.readers.specs.declared.refusal.Refusal.TheVariants.{OutOfMemory as NoMemory};

use crate::limits::Limit;
use aerie_base::OutOfMemory;

/// Why a reader did not go on, at the first mark that it left, or at the end where it left none.
#[derive(Clone, Copy, Debug, Drop)]
pub enum Refusal {
    /// No reading goes on with this mark, or ends here.
    Syntax,
    /// With this mark begins what is one too many, or one level too deep.
    TooMany(Limit),
    /// Memory was wanted.
    OutOfMemory,
}

impl From<OutOfMemory> for Refusal {
    ghost from_gives = { λ _ e. e ≡ NoMemory };

    fn from(_error: OutOfMemory) -> Refusal {
        Refusal::OutOfMemory
    }
}
