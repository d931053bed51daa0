//! Why a part of a model is refused.

ghost use Rattle.std.specs.Prelude.{◌≡◌};
ghost use Rattle.model_check.specs.Diagnostics.{number_of_cause};

use diagnostics::Ranked;

/// Why a part of a model is refused.
#[derive(Clone, Copy, Debug)]
pub(crate) enum Cause {
    /// A name of nothing that may stand there.
    Unknown,
    /// A name that stands for something else already.
    Duplicate,
    /// A value of another type than is needed, or a name of another kind.
    WrongType,
    /// A part that may not stand in a condition or in a linear form.
    NotLinear,
    /// A number out of its range.
    OutOfRange,
    /// A local more than a body may have.
    TooManyLocals,
    /// A term more than a linear form may have.
    TooManyTerms,
}

impl Ranked for Cause {
    ghost rank = { number_of_cause };

    fn rank(self) -> u8 {
        match self {
            Cause::Unknown => 1,
            Cause::Duplicate => 2,
            Cause::WrongType => 3,
            Cause::NotLinear => 4,
            Cause::OutOfRange => 5,
            Cause::TooManyLocals => 6,
            Cause::TooManyTerms => 6,
        }
    }
}
