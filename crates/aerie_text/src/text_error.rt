ghost use Rattle.std.specs.Prelude.{◌≡◌};
ghost use Rattle.aerie_text.specs.declared.text_error.TextError.TheVariants.{OutOfMemory as NoMemory};

use aerie_base::OutOfMemory;
use thiserror::Error;

/// Why a text was not cut into tokens.
#[derive(Clone, Copy, Debug, PartialEq, Eq, Drop, Error)]
pub enum TextError {
    /// The first place where no token begins, counted in bytes from 0.
    #[error("no token begins at byte {at}")]
    BadToken { at: usize },
    /// Memory was wanted.
    #[error("out of memory")]
    OutOfMemory,
}

impl From<OutOfMemory> for TextError {
    ghost from_gives = { λ _ e. e ≡ NoMemory };

    fn from(_error: OutOfMemory) -> TextError {
        TextError::OutOfMemory
    }
}
