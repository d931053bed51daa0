//! Which of several has begun last by a time.

ghost use Rattle.std.specs.Prelude.{◌≡◌, ◌≤◌, Some, map, nat_le};
ghost use Rattle.windows.specs.Begun.{HaveBegun, last_begun};

use crate::segments::Segment;
use aerie_base::Time;

/// What begins at a time and lasts until the next one begins.
pub trait Begins: Sized {
    ghost use Rattle.std.specs.Prelude.{ℕ};

    /// Where one begins, in microseconds.
    ghost from: { Self → ℕ };

    /// Where it begins.
    fn start(&self) -> Time
        ensures { result ≡ from self.now };
}

impl<T> Begins for (Time, T) {
    ghost from = { λ entry. entry.0 };

    fn start(&self) -> Time {
        self.0
    }
}

impl Begins for Segment {
    ghost from = { λ segment. segment.from };

    fn start(&self) -> Time {
        self.from
    }
}

/// The last one that begins no later than the time, found in as many steps as their number has digits.
pub fn last_begun<B: Begins>(entries: &[B], t: Time) -> &B
    requires { HaveBegun t (map B.from entries.now) }
    ensures entry { Some result.now ≡ last_begun B.from entries.now t }
    ensures begun { B.from result.now ≤ t }
{
    let begun = entries.partition_point(|entry| has_begun(entry, t));
    &entries[begun - 1]
}

/// Whether the one begins no later than the time.
fn has_begun<B: Begins>(entry: &B, t: Time) -> bool
    ensures { result ≡ nat_le (B.from entry.now) t }
{
    entry.start().is_by(t)
}
