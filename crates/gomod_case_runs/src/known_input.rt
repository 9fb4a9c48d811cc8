//! What a case has on standard input.

use gm_store::ByteReader;
use std::io;

/// The most bytes that a short read gives. Lines are longer.
const SHORT: usize = 3;

/// Standard input whose bytes are known, and the reader of it, which never fails.
#[derive(Clone, Copy)]
pub struct KnownInput<'a> {
    /// The bytes that are left.
    left: &'a [u8],
    /// Whether a read gives only a few of them.
    is_short: bool,
}

impl<'a> KnownInput<'a> {
    /// These bytes. A read gives as many of them as it has room for.
    pub fn of(bytes: &'a [u8]) -> KnownInput<'a> {
        KnownInput {
            left: bytes,
            is_short: false,
        }
    }

    /// The same bytes, of which a read gives a few.
    pub fn in_short_reads(self) -> KnownInput<'a> {
        KnownInput {
            left: self.left,
            is_short: true,
        }
    }
}

impl ByteReader for KnownInput<'_> {
    ghost use Rattle.std.specs.Prelude.{Some, false};

    ghost remaining = { λ input. Some input.left.now };

    ghost may_fail = { λ _. false };

    fn read_once(&mut self, room: &mut [u8]) -> io::Result<usize> {
        let most = if self.is_short { SHORT } else { room.len() };
        let count = room.len().min(self.left.len()).min(most);
        let (front, left) = self.left.split_at(count);
        room[..count].copy_from_slice(front);
        self.left = left;
        Ok(count)
    }
}
