ghost use Rattle.std.specs.Prelude.{None, ◌≡◌, ◌≤◌, ◌<◌, length, [], IfOk, Ok, Some};
ghost use Rattle.std.specs.Io.{WritesAtMost};
ghost use Rattle.aerie_edge.specs.Faults.{HasCause};
ghost use Rattle.aerie_edge.specs.SureOutput.{after_sure_write};
ghost use Rattle.aerie_edge.specs.Written.{WriteReceives, Hands};

use crate::sink::{Sink, WriteFailed};
use aerie_base::OutOfMemory;
use std::alloc::Global;
use std::marker::Model;

/// Bytes that are taken into memory that was reserved, without any fault. The sink tells them for as long as they fit;
/// past that it takes each piece and tells nothing.
#[derive(Drop)]
pub struct SureSink {
    bytes: Vec<u8>,
    room: usize,
    fits: bool,
}

impl Model for SureSink {
    ghost use Rattle.std.specs.Prelude.{◌≤◌, length, vec_capacity, Some, None, if◌then◌else◌};
    ghost use Rattle.aerie_edge.specs.SureOutput.{SureOutput};

    ghost Value = { SureOutput };

    ghost view = { λ s. record {
      room = s.room;
      told = if s.fits then Some s.bytes.items else None;
    } };

    ghost invariant = { λ s. (length s.bytes.items ≤ s.room) × (s.room ≤ vec_capacity s.bytes) };
}

impl SureSink {
    /// A sink with room for this many bytes.
    pub fn new(alloc: Global, room: usize) -> Result<SureSink, OutOfMemory>
        ensures { IfOk result (λ sink. sink ≡ record { room = room; told = Some [] }) }
    {
        Ok(SureSink {
            bytes: Vec::with_capacity(alloc, room)?,
            room,
            fits: true,
        })
    }
}

impl Sink for SureSink {
    ghost written = { λ s. s.told };

    ghost faults = { λ _. 0 };

    ghost pieces = { λ _. None };

    /// Never fails, takes the whole piece, and takes no memory.
    fn write(&mut self, piece: &[u8]) -> Result<usize, WriteFailed>
        ensures bound { WritesAtMost result piece.now }
        ensures some { IfOk result (λ n. 0 < length piece.now → 0 < n) }
        ensures bytes { WriteReceives self.old.told self.new.told result piece.now }
        ensures cause { HasCause 0 0 result }
        ensures pieces { Hands None None piece.now }
        ensures count { result ≡ Ok (length piece.now) }
        ensures after { self.new ≡ after_sure_write self.old piece.now }
    {
        if self.fits && piece.len() <= self.room - self.bytes.len() {
            match self.bytes.extend_from_slice(piece) {
                Ok(()) => {}
                Err(_) => unreachable!(),
            }
        } else {
            self.fits = false;
        }
        Ok(piece.len())
    }
}
