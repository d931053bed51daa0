//! Copies of what stands in lists, in options and in pairs.

ghost use Rattle.std.specs.Prelude.{◌≡◌, IfOk};

use aerie_base::{List, OutOfMemory};
use std::alloc::Global;

/// What is written can be copied into memory of its own.
pub trait RawData: Sized {
    /// An equal part.
    fn copied(&self, alloc: Global) -> Result<Self, OutOfMemory>
        ensures { IfOk result (λ copy. copy ≡ self.now) };
}

/// An equal list, at a cost linear in its size.
fn copy_all<T: RawData + Drop>(alloc: Global, parts: &List<T>) -> Result<List<T>, OutOfMemory>
    ensures { IfOk result (λ copies. copies ≡ parts.now) }
{
    let mut copies = List::new(alloc);
    for part in parts.as_slice() {
        copies.push(part.copied(alloc)?)?;
    }
    Ok(copies)
}

/// Equal parts, both of them.
pub fn copy_both<A: RawData + Drop, B: RawData + Drop>(
    alloc: Global,
    first: &A,
    second: &B,
) -> Result<(A, B), OutOfMemory>
    ensures { IfOk result (λ copy. copy ≡ (first.now, second.now)) }
{
    let first = first.copied(alloc)?;
    Ok((first, second.copied(alloc)?))
}

impl<T: RawData + Drop> RawData for Option<T> {
    fn copied(&self, alloc: Global) -> Result<Option<T>, OutOfMemory> {
        match self {
            None => Ok(None),
            Some(part) => Ok(Some(part.copied(alloc)?)),
        }
    }
}

impl<A: RawData + Drop, B: RawData + Drop> RawData for (A, B) {
    fn copied(&self, alloc: Global) -> Result<(A, B), OutOfMemory> {
        copy_both(alloc, &self.0, &self.1)
    }
}

impl<T: RawData + Drop> RawData for List<T> {
    fn copied(&self, alloc: Global) -> Result<List<T>, OutOfMemory> {
        copy_all(alloc, self)
    }
}
