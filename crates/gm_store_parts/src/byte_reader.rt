//! What is read, as the program sees it: all that it does with a reader is to read on.

use std::io;
use std::io::Read;

/// A reader of bytes. Unlike std's `Read` it says whether a read may fail, so that a contract can say that reading
/// fails only then.
pub trait ByteReader {
    ghost use Rattle.std.specs.Prelude.{◌≡◌, ℕ, Bool, List, OnErr, Option, true};
    ghost use Rattle.std.specs.Io.{ReadsAtMost};
    ghost use Rattle.std.specs.Io.KnownBytes.{ReadConsumes};

    /// The bytes that are left to read, if the reader tells them.
    ghost remaining: { Self → Option (List ℕ) };

    /// Whether a read may fail, now or later. Of a real file, pipe or terminal any read may.
    ghost may_fail: { Self → Bool };

    /// Reads once into `room`, and returns how many bytes there are then at its front: 0 at the end (or if `room` is
    /// empty). If the read fails, no byte is consumed.
    fn read_once(&mut self, room: &mut [u8]) -> io::Result<usize>
        ensures bound { ReadsAtMost result room.new }
        ensures bytes { ReadConsumes (remaining self.old) (remaining self.new) result room.new }
        ensures fails { OnErr result (may_fail self.old ≡ true) }
        ensures may_fail { may_fail self.new ≡ may_fail self.old };
}

impl<R: Read> ByteReader for R {
    ghost use Rattle.std.specs.Prelude.{true};

    ghost remaining = { λ reader. R.remaining reader };

    ghost may_fail = { λ _. true };

    fn read_once(&mut self, room: &mut [u8]) -> io::Result<usize> {
        self.read(room)
    }
}
