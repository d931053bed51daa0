//! Why a text is not judged good.

ghost use Rattle.std.specs.Prelude.{◌≡◌};
ghost use Rattle.session_judge.specs.declared.judge_error.JudgeError.TheVariants.{OutOfMemory as NoMemory};

use aerie_base::OutOfMemory;
use refusal_text::Refusal;

/// Why a text is not judged good.
#[derive(Drop)]
pub enum JudgeError {
    /// It is refused, for this reason before all others.
    Refused(Refusal),
    /// Memory was wanted.
    OutOfMemory,
}

impl From<OutOfMemory> for JudgeError {
    ghost from_gives = { λ _ e. e ≡ NoMemory };

    fn from(_error: OutOfMemory) -> JudgeError {
        JudgeError::OutOfMemory
    }
}
