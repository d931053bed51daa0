ghost use Rattle.std.specs.Prelude.{◌≡◌, ◌≤◌, ◌<◌, length, take, None, IfOk, IfSome, is_err, if◌then◌else◌};
ghost use Rattle.std.specs.Io.{WritesAtMost};
ghost use Rattle.std.specs.Io.KnownBytes.{Appends};
ghost use Rattle.aerie_edge.specs.Faults.{HasCause, raised};
ghost use Rattle.aerie_edge.specs.Written.{WriteReceives, Hands};

use crate::interrupts::{flush_once, write_once};
use crate::sink::{Sink, WriteFailed};
use std::io::Write;
use std::marker::Model;

/// A writer of std as a sink. It tells nothing of what was written, since that may be outside.
#[derive(Drop)]
pub struct StdSink<W> {
    writer: W,
    faults: u64,
}

impl<W> Model for StdSink<W> {
    ghost use Rattle.aerie_edge.specs.Counted.{Counted};

    ghost Value = { Counted W };

    ghost view = { λ s. record { inner = s.writer; faults = s.faults } };
}

impl<W> StdSink<W> {
    /// The writer as a sink that has had no fault yet.
    pub fn new(writer: W) -> StdSink<W>
        ensures { result ≡ record { inner = writer; faults = 0 } }
    {
        StdSink { writer, faults: 0 }
    }
}

impl<W: Write> Sink for StdSink<W> {
    ghost written = { λ _. None };

    ghost faults = { λ s. s.faults };

    ghost pieces = { λ _. None };

    /// Writes once and flushes, so that no byte that was taken waits in a buffer; each again where a signal interrupted it, up
    /// to a thousand times. Each other error of the writer is one fault, and so is taking nothing of a piece that is not empty.
    fn write(&mut self, piece: &[u8]) -> Result<usize, WriteFailed>
        ensures bound { WritesAtMost result piece.now }
        ensures some { IfOk result (λ n. 0 < length piece.now → 0 < n) }
        ensures bytes { WriteReceives None None result piece.now }
        ensures cause { HasCause self.old.faults self.new.faults result }
        ensures pieces { Hands None None piece.now }
        ensures counted { self.new.faults ≡ (if is_err result then raised self.old.faults else self.old.faults) }
        ensures taken { IfOk result (λ n. Appends (W.contents self.old.inner) (W.contents self.new.inner) (take n piece.now)) }
    {
        match put(&mut self.writer, piece) {
            Some(count) => Ok(count),
            None => {
                self.faults = self.faults.saturating_add(1);
                Err(WriteFailed)
            }
        }
    }
}

/// Writes and flushes; answers how many bytes the writer took, or nothing where that is a fault.
fn put<W: Write>(writer: &mut W, piece: &[u8]) -> Option<usize>
    ensures bound { IfSome result (λ n. n ≤ length piece.now) }
    ensures some { IfSome result (λ n. 0 < length piece.now → 0 < n) }
    ensures taken { IfSome result (λ n. Appends (W.contents writer.old) (W.contents writer.new) (take n piece.now)) }
{
    let count = write_once(writer, piece).ok()?;
    if count == 0 && !piece.is_empty() {
        return None;
    }
    flush_once(writer).ok()?;
    Some(count)
}
