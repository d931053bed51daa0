//! How many things there are.

ghost use Rattle.std.specs.Prelude.{◌≡◌, ℕ, length, map, IfSome};
ghost use Rattle.std.specs.List.{sum};
ghost use Rattle.measure.specs.Counts.{frame_count};
ghost use Rattle.profiles.specs.GivenValues.{segment_count};

use aerie_base::{List, Shared};
use profiles::Profile;
use run_data::Instant;

/// What has many parts that are counted.
pub(crate) trait HasParts {
    ghost parts: { Self → ℕ };

    /// How many parts it has, or `None` where there are 2^64 or more.
    fn count(&self) -> Option<u64>
        ensures { IfSome result (λ count. count ≡ parts self.now) };
}

impl<T> HasParts for List<T> {
    ghost parts = { λ list. length list };

    fn count(&self) -> Option<u64> {
        Some(self.len() as u64)
    }
}

impl<T: HasParts> HasParts for Shared<T> {
    ghost parts = { T.parts };

    fn count(&self) -> Option<u64> {
        self.get().count()
    }
}

/// The frames of its batches.
impl HasParts for Instant {
    ghost parts = { frame_count };

    fn count(&self) -> Option<u64> {
        count_all(self.batches.as_slice())
    }
}

/// Its segments.
impl HasParts for Profile {
    ghost parts = { segment_count };

    fn count(&self) -> Option<u64> {
        match self {
            Profile::Discrete(segments) => segments.count(),
            Profile::Linear(segments) => segments.count(),
        }
    }
}

/// How many parts all of them have together, or `None` where there are 2^64 or more.
pub(crate) fn count_all<T: HasParts>(all: &[T]) -> Option<u64>
    ensures { IfSome result (λ count. count ≡ sum (map T.parts all.now)) }
{
    let mut count: u64 = 0;
    for one in all {
        count = count.checked_add(one.count()?)?;
    }
    Some(count)
}
