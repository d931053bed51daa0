//! Why rules as they are written are refused.

ghost use Rattle.std.specs.Prelude.{◌≡◌};
ghost use Rattle.rule_check.specs.Refusals.{number_of_wrong};

use diagnostics::Ranked;
use readers::Limit;

/// Why a part of a rule is refused.
#[derive(Clone, Copy, Debug)]
pub enum WrongRule {
    /// A name of nothing that may stand there.
    Unknown,
    /// A name that was used before.
    Duplicate,
    /// Something of another type than is needed.
    WrongType,
    /// A number out of its range.
    OutOfRange,
    /// One more than there may be.
    TooMany(Limit),
    /// Arguments that do not meet what their activity type requires.
    Invalid,
}

impl Ranked for WrongRule {
    ghost rank = { number_of_wrong };

    fn rank(self) -> u8 {
        match self {
            WrongRule::Unknown => 2,
            WrongRule::Duplicate => 3,
            WrongRule::WrongType => 4,
            WrongRule::OutOfRange => 5,
            WrongRule::TooMany(_) => 6,
            WrongRule::Invalid => 7,
        }
    }
}
