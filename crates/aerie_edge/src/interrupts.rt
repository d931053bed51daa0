//! Calls of std that a signal interrupted are made again, so that a signal alone is no fault.

ghost use Rattle.std.specs.Io.{ReadsAtMost, WritesAtMost};
ghost use Rattle.std.specs.Io.KnownBytes.{Keeps, ReadConsumes, WriteAppends};

use std::io;
use std::io::{ErrorKind, Read, Write};

/// How often a call is made again that a signal interrupted, before that is a fault.
const MOST_INTERRUPTS: u32 = 1_000;

/// Reads once that is not interrupted.
pub(crate) fn read_once<R: Read>(reader: &mut R, room: &mut [u8]) -> io::Result<usize>
    ensures bound { ReadsAtMost result room.new }
    ensures bytes { ReadConsumes (R.remaining reader.old) (R.remaining reader.new) result room.new }
{
    for _ in 0..MOST_INTERRUPTS {
        match reader.read(room) {
            Ok(count) => return Ok(count),
            Err(error) => {
                if error.kind() != ErrorKind::Interrupted {
                    return Err(error);
                }
            }
        }
    }
    reader.read(room)
}

/// Writes once that is not interrupted.
pub(crate) fn write_once<W: Write>(writer: &mut W, piece: &[u8]) -> io::Result<usize>
    ensures bound { WritesAtMost result piece.now }
    ensures bytes { WriteAppends (W.contents writer.old) (W.contents writer.new) result piece.now }
{
    for _ in 0..MOST_INTERRUPTS {
        match writer.write(piece) {
            Ok(count) => return Ok(count),
            Err(error) => {
                if error.kind() != ErrorKind::Interrupted {
                    return Err(error);
                }
            }
        }
    }
    writer.write(piece)
}

/// Flushes once that is not interrupted.
pub(crate) fn flush_once<W: Write>(writer: &mut W) -> io::Result<()>
    ensures bytes { Keeps (W.contents writer.old) (W.contents writer.new) }
{
    for _ in 0..MOST_INTERRUPTS {
        match writer.flush() {
            Ok(()) => return Ok(()),
            Err(error) => {
                if error.kind() != ErrorKind::Interrupted {
                    return Err(error);
                }
            }
        }
    }
    writer.flush()
}
