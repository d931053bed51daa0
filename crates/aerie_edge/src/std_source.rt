ghost use Rattle.std.specs.Prelude.{◌≡◌, ◌≤◌, None, is_err, if◌then◌else◌};
ghost use Rattle.std.specs.Io.{ReadsAtMost};
ghost use Rattle.std.specs.Io.KnownBytes.{ReadConsumes};
ghost use Rattle.aerie_edge.specs.Faults.{HasCause, raised};

use crate::interrupts::read_once;
use crate::source::{ReadFailed, Source};
use std::io::Read;
use std::marker::Model;

/// A reader of std as a source. It tells nothing of what is still to come, since it may come from outside.
#[derive(Drop)]
pub struct StdSource<R> {
    reader: R,
    faults: u64,
}

impl<R> Model for StdSource<R> {
    ghost use Rattle.aerie_edge.specs.Counted.{Counted};

    ghost Value = { Counted R };

    ghost view = { λ s. record { inner = s.reader; faults = s.faults } };
}

impl<R> StdSource<R> {
    /// The reader as a source that has had no fault yet.
    pub fn new(reader: R) -> StdSource<R>
        ensures { result ≡ record { inner = reader; faults = 0 } }
    {
        StdSource { reader, faults: 0 }
    }
}

impl<R: Read> Source for StdSource<R> {
    ghost left = { λ _. None };

    ghost faults = { λ s. s.faults };

    ghost reads = { λ _. 0 };

    /// Reads once, again where a signal interrupted that, up to a thousand times. Each other error of the reader is one fault.
    fn read(&mut self, room: &mut [u8]) -> Result<usize, ReadFailed>
        ensures bound { ReadsAtMost result room.new }
        ensures bytes { ReadConsumes None None result room.new }
        ensures cause { HasCause self.old.faults self.new.faults result }
        ensures reads { 0 ≤ 1 }
        ensures counted { self.new.faults ≡ (if is_err result then raised self.old.faults else self.old.faults) }
        ensures consumed { ReadConsumes (R.remaining self.old.inner) (R.remaining self.new.inner) result room.new }
    {
        match read_once(&mut self.reader, room) {
            Ok(count) => Ok(count),
            Err(_) => {
                self.faults = self.faults.saturating_add(1);
                Err(ReadFailed)
            }
        }
    }
}
