//! Arguments as they are written are copied.

ghost use Rattle.std.specs.Prelude.{◌≡◌, IfOk};

use aerie_base::{List, OutOfMemory, RawArgument};
use std::alloc::Global;

/// An equal list of arguments, in memory of its own.
pub(crate) fn copy_arguments(
    alloc: Global,
    arguments: &[RawArgument],
) -> Result<List<RawArgument>, OutOfMemory>
    ensures { IfOk result (λ copies. copies ≡ arguments.now) }
{
    let mut copies = List::with_capacity(alloc, arguments.len())?;
    for argument in arguments {
        copies.push(argument.copy(alloc)?)?;
    }
    Ok(copies)
}
