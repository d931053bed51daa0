ghost use Rattle.std.specs.Prelude.{None, ◌≡◌, ◌<◌, length, min, take, [], true, IsErr, IfOk, OnErr, Some};
ghost use Rattle.std.specs.Io.{WritesAtMost};
ghost use Rattle.aerie_edge.specs.Faults.{HasCause};
ghost use Rattle.aerie_edge.specs.MemoryOutput.{after_fault, after_write, write_fails};
ghost use Rattle.aerie_edge.specs.Written.{WriteReceives, Hands};

use crate::sink::{Sink, WriteFailed};
use std::alloc::Global;
use std::marker::Model;

/// Bytes that are taken into memory in short pieces, with faults where a list says so.
#[derive(Drop)]
pub struct MemorySink {
    bytes: Vec<u8>,
    piece: usize,
    fails: Vec<u64>,
    calls: u64,
    faults: u64,
}

impl Model for MemorySink {
    ghost use Rattle.aerie_edge.specs.MemoryOutput.{MemoryOutput};

    ghost Value = { MemoryOutput };

    ghost view = { λ s. record {
      written = s.bytes.items;
      piece = s.piece;
      fails = s.fails.items;
      calls = s.calls;
      faults = s.faults;
    } };
}

impl MemorySink {
    /// A sink that takes at most `piece` bytes in one call, and fails the calls whose numbers, from 1, are listed.
    /// Where `piece` is 0, each call with a piece that is not empty is a fault.
    pub fn new(alloc: Global, piece: usize, fails: Vec<u64>) -> MemorySink
        ensures { result ≡ record {
          written = [];
          piece = piece;
          fails = fails.items;
          calls = 0;
          faults = 0;
        } }
    {
        MemorySink {
            bytes: Vec::new(alloc),
            piece,
            fails,
            calls: 0,
            faults: 0,
        }
    }

    /// All bytes that were taken.
    pub fn bytes(&self) -> &[u8]
        ensures { result.now ≡ self.now.written }
    {
        &self.bytes
    }
}

impl Sink for MemorySink {
    ghost written = { λ s. Some s.written };

    ghost faults = { λ s. s.faults };

    ghost pieces = { λ _. None };

    /// Fails where the call is listed, where it would take nothing of a piece that is not empty, and for want of
    /// memory; else takes as many bytes as the sink's piece allows.
    fn write(&mut self, piece: &[u8]) -> Result<usize, WriteFailed>
        ensures bound { WritesAtMost result piece.now }
        ensures some { IfOk result (λ n. 0 < length piece.now → 0 < n) }
        ensures bytes { WriteReceives (Some self.old.written) (Some self.new.written) result piece.now }
        ensures cause { HasCause self.old.faults self.new.faults result }
        ensures pieces { Hands None None piece.now }
        ensures fails { write_fails self.old ≡ true → IsErr result }
        ensures count { IfOk result (λ n. n ≡ min self.old.piece (length piece.now)) }
        ensures taken { IfOk result (λ n. self.new ≡ after_write self.old (take n piece.now)) }
        ensures failed { OnErr result (self.new ≡ after_fault self.old) }
    {
        self.calls = self.calls.saturating_add(1);
        let count = self.piece.min(piece.len());
        if self.fails.contains(&self.calls)
            || count == 0 && !piece.is_empty()
            || self.bytes.extend_from_slice(&piece[..count]).is_err()
        {
            self.faults = self.faults.saturating_add(1);
            return Err(WriteFailed);
        }
        Ok(count)
    }
}
