ghost use Rattle.std.specs.Prelude.{◌≡◌, ◌≤◌, ◌+◌, ℕ, List, length, IfOk, IfErr};
ghost use Rattle.aerie.specs.declared.input.InputError.TheVariants.{OutOfMemory as NoMemory};
ghost use Rattle.aerie_edge.specs.Faults.{Rose};
ghost use Rattle.aerie.specs.Input.{HasRead, HasReadAll, ReadsMore};

use aerie_base::OutOfMemory;
use aerie_edge::Source;
use std::alloc::Global;

/// The most bytes that are read: one more than the longest session has, which tells that a session is too long.
const MOST: usize = 16_777_217;

/// How many bytes one read asks for at most.
const ROOM: usize = 4096;

/// Why the input was not read.
#[derive(Clone, Copy)]
pub enum InputError {
    /// The source failed.
    Failed,
    OutOfMemory,
}

impl From<OutOfMemory> for InputError {
    ghost from_gives = { λ _ e. e ≡ NoMemory };

    fn from(_error: OutOfMemory) -> InputError {
        InputError::OutOfMemory
    }
}

/// One read, to the end of the bytes; how many bytes it gave.
fn read_more<S: Source>(
    source: &mut S,
    room: &mut [u8],
    bytes: &mut Vec<u8>,
) -> Result<usize, InputError>
    ensures more { ReadsMore (S.left source.old) (S.left source.new)
        (length room.old) bytes.old.items bytes.new.items result }
    ensures reads { S.reads source.new ≤ S.reads source.old + 1 }
    ensures later { S.faults source.old ≤ S.faults source.new }
    ensures cause { IfErr result (λ e.
        e ≡ InputError.Failed → Rose (S.faults source.old) (S.faults source.new)) }
{
    let count = match source.read(room) {
        Ok(count) => count,
        Err(_) => return Err(InputError::Failed),
    };
    if bytes.extend_from_slice(&room[..count]).is_err() {
        return Err(InputError::OutOfMemory);
    }
    Ok(count)
}

/// Reads the source to its end, or as far as the most bytes.
pub fn read_input<S: Source>(alloc: Global, source: &mut S) -> Result<Vec<u8>, InputError>
    ensures read { (bytes : List ℕ) × HasRead (S.left source.old) (S.left source.new) bytes }
    ensures all { IfOk result (λ input. HasReadAll (S.left source.old) (S.left source.new) input.items) }
    ensures reads { S.reads source.new ≤ S.reads source.old + 16_777_217 }
    ensures later { S.faults source.old ≤ S.faults source.new }
    ensures cause { IfErr result (λ e.
        e ≡ InputError.Failed → Rose (S.faults source.old) (S.faults source.new)) }
{
    let mut room = [0u8; ROOM];
    let mut bytes = Vec::new(alloc);
    for _iteration in 0..MOST {
        let wanted = ROOM.min(MOST - bytes.len());
        if wanted == 0 {
            return Ok(bytes);
        }
        let count = read_more(source, &mut room[..wanted], &mut bytes)?;
        if count == 0 {
            return Ok(bytes);
        }
    }
    Ok(bytes)
}
