//! Calls of the system that a signal may interrupt, as a process that is stopped and goes on: they are
//! made again.
ghost use Rattle.std.specs.Io.{ReadsAtMost, WritesAtMost};

use std::io;
use std::io::{ErrorKind, Read, Write};

/// Reads once into the room, and tells how many bytes came.
pub fn read_again<R: Read>(source: &mut R, room: &mut [u8]) -> io::Result<usize>
    ensures { ReadsAtMost result room.new }
{
    for _ in 0..u64::MAX {
        match source.read(room) {
            Err(error) if error.kind() == ErrorKind::Interrupted => {}
            outcome => return outcome,
        }
    }
    Err(io::Error::from(ErrorKind::Interrupted))
}

/// Writes a front of the piece once, and tells how many bytes went.
pub fn write_again<W: Write>(target: &mut W, piece: &[u8]) -> io::Result<usize>
    ensures { WritesAtMost result piece.now }
{
    for _ in 0..u64::MAX {
        match target.write(piece) {
            Err(error) if error.kind() == ErrorKind::Interrupted => {}
            outcome => return outcome,
        }
    }
    Err(io::Error::from(ErrorKind::Interrupted))
}
