ghost use Rattle.std.specs.Prelude.{◌<◌, ℕ, List, Option, length, IfOk};
ghost use Rattle.std.specs.Io.{WritesAtMost};
ghost use Rattle.aerie_edge.specs.Faults.{HasCause};
ghost use Rattle.aerie_edge.specs.Written.{WriteReceives, Hands};

use thiserror::Error;

/// A write failed, and took no bytes.
#[derive(Clone, Copy, Debug, PartialEq, Eq, Drop, Error)]
#[error("writing failed")]
pub struct WriteFailed;

/// Where the program's answers go.
///
/// `written` is all that the sink took, where it tells; it may stop telling. `faults` is a count of its faults, which
/// never falls and stands still at the last value of 64 bits. `pieces` is the pieces that it was handed, one for each
/// write, where it tells them: a caller says by it what it hands to whatever sink it is given.
pub trait Sink {
    ghost written: { Self → Option (List ℕ) };

    ghost faults: { Self → ℕ };

    ghost pieces: { Self → Option (List (List ℕ)) };

    /// Takes bytes from the front of the piece and answers how many: at least one of a piece that is not empty. Fails
    /// only where the count of faults rose, and what the sink tells is then as before.
    fn write(&mut self, piece: &[u8]) -> Result<usize, WriteFailed>
        ensures bound { WritesAtMost result piece.now }
        ensures some { IfOk result (λ n. 0 < length piece.now → 0 < n) }
        ensures bytes { WriteReceives (written self.old) (written self.new) result piece.now }
        ensures cause { HasCause (faults self.old) (faults self.new) result }
        ensures pieces { Hands (pieces self.old) (pieces self.new) piece.now };
}
