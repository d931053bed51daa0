//! Why a name of a session is refused.

ghost use Rattle.std.specs.Prelude.{◌≡◌};
ghost use Rattle.session_reader.specs.Diagnostics.{number_of_cause};

use diagnostics::Ranked;

/// Why a name of a session is refused.
#[derive(Clone, Copy, Debug)]
pub(crate) enum Cause {
    /// A name of nothing that may stand there.
    Unknown,
    /// A name that is used before.
    Duplicate,
    /// A value of another type than is needed, or a parameter without any value.
    WrongType,
    /// A rate that no accumulator has.
    OutOfRange,
}

impl Ranked for Cause {
    ghost rank = { number_of_cause };

    fn rank(self) -> u8 {
        match self {
            Cause::Unknown => 1,
            Cause::Duplicate => 2,
            Cause::WrongType => 3,
            Cause::OutOfRange => 4,
        }
    }
}
