ghost use Rattle.std.specs.Prelude.{◌+◌, ◌≤◌, ℕ, List, Option};
ghost use Rattle.std.specs.Io.{ReadsAtMost};
ghost use Rattle.std.specs.Io.KnownBytes.{ReadConsumes};
ghost use Rattle.aerie_edge.specs.Faults.{HasCause};

use thiserror::Error;

/// A read failed, and gave no bytes.
#[derive(Clone, Copy, Debug, PartialEq, Eq, Drop, Error)]
#[error("reading failed")]
pub struct ReadFailed;

/// Where the program's text comes from.
///
/// `left` is the bytes still to come, where the source tells them. `faults` is a count of its faults, which never
/// falls and stands still at the last value of 64 bits. `reads` is how many reads were made, or fewer.
pub trait Source {
    ghost left: { Self → Option (List ℕ) };

    ghost faults: { Self → ℕ };

    ghost reads: { Self → ℕ };

    /// Puts the next bytes into the front of the room and answers how many; 0 for a room that is not empty is the
    /// end of the input. Fails only where the count of faults rose, and then no byte is lost.
    fn read(&mut self, room: &mut [u8]) -> Result<usize, ReadFailed>
        ensures bound { ReadsAtMost result room.new }
        ensures bytes { ReadConsumes (left self.old) (left self.new) result room.new }
        ensures cause { HasCause (faults self.old) (faults self.new) result }
        ensures reads { reads self.new ≤ reads self.old + 1 };
}
