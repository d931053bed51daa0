ghost use Rattle.std.specs.Prelude.{◌≡◌, ◌≤◌, ◌+◌, ◌++◌, length, min, take, drop, Some, Ok, IfOk};
ghost use Rattle.std.specs.Io.{ReadsAtMost};
ghost use Rattle.std.specs.Io.KnownBytes.{ReadConsumes};
ghost use Rattle.aerie_edge.specs.Faults.{HasCause};

use crate::front::copy_front;
use crate::source::{ReadFailed, Source};
use std::marker::Model;

/// Bytes in memory that are given without any fault. Contracts see it as the bytes still to come.
#[derive(Drop)]
pub struct SureSource {
    bytes: Vec<u8>,
    given: usize,
}

impl Model for SureSource {
    ghost use Rattle.std.specs.Prelude.{ℕ, ◌≤◌, List, drop, length};

    ghost Value = { List ℕ };

    ghost view = { λ s. drop s.given s.bytes.items };

    ghost invariant = { λ s. s.given ≤ length s.bytes.items };
}

impl SureSource {
    /// A source of these bytes.
    pub fn new(bytes: Vec<u8>) -> SureSource
        ensures { result ≡ bytes.items }
    {
        SureSource { bytes, given: 0 }
    }
}

impl Source for SureSource {
    ghost left = { λ s. Some s };

    ghost faults = { λ _. 0 };

    ghost reads = { λ _. 0 };

    /// Never fails: gives as many bytes as the room and what is left allow.
    fn read(&mut self, room: &mut [u8]) -> Result<usize, ReadFailed>
        ensures bound { ReadsAtMost result room.new }
        ensures bytes { ReadConsumes (Some self.old) (Some self.new) result room.new }
        ensures cause { HasCause 0 0 result }
        ensures reads { 0 ≤ 1 }
        ensures count { result ≡ Ok (min (length room.old) (length self.old)) }
        ensures given { IfOk result (λ n. room.new ≡ take n self.old ++ drop n room.old) }
        ensures after { IfOk result (λ n. self.new ≡ drop n self.old) }
    {
        let count = copy_front(&self.bytes[self.given..], usize::MAX, room);
        self.given += count;
        Ok(count)
    }
}
