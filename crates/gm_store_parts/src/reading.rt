//! Reading a file or stream up to a limit, so that no input can exhaust memory.
//!
//! Bytes are read in pieces that grow. Most files are small and fit the first piece; large files take few system
//! calls.

ghost use Rattle.gm_store_parts.specs.Pieces.{IsReadingFault};
ghost use Rattle.gm_store_parts.specs.Private.Reading.{AddsPiece};
ghost use Rattle.gm_store_parts.specs.declared.reading.ReadFault.TheVariants as read_fault;
ghost use Rattle.std.specs.Prelude.{◌≡◌, ◌+◌, ◌<◌, ◌≤◌, ℕ, length, take, drop, Some, IfErr, IfOk, IfSome, OnOk, vec_len};

use crate::byte_reader::ByteReader;
use std::alloc::{AllocError, Global};
use thiserror::Error;

/// The greatest length of a file, in bytes: 16 MiB. The go command has the same limit for `go.mod` files.
pub const LIMIT: usize = 16_777_216;

/// The length of the first piece, in bytes. Most files are shorter.
const FIRST: usize = 4_096;

/// The greatest length of a piece, in bytes.
const MOST: usize = 65_536;

/// The factor by which the next piece is longer than one that was filled.
const GROWTH: usize = 16;

/// Why a file or standard input was not read.
#[derive(Clone, Copy, Debug, PartialEq, Eq, Error)]
pub enum ReadFault {
    /// Memory ran out.
    #[error("out of memory")]
    NoMemory,
    /// A read failed.
    #[error("cannot read")]
    Device,
}

impl From<AllocError> for ReadFault {
    ghost from_gives = { λ _ fault. fault ≡ read_fault.NoMemory };

    fn from(_error: AllocError) -> ReadFault {
        ReadFault::NoMemory
    }
}

/// Makes a buffer `length` bytes long, to read a piece into it.
fn make_room(piece: &mut Vec<u8>, length: usize) -> Result<(), AllocError>
    ensures { OnOk result (vec_len piece.new ≡ length) }
{
    piece.resize(length, 0u8)
}

/// Reads once into `room`, and appends the bytes read to `bytes`. Returns their number, which is 0 at the reader's
/// end (or if `room` is empty).
///
/// `Device` is returned if the read fails, `NoMemory` if memory runs out.
fn read_piece<R: ByteReader>(
    reader: &mut R,
    room: &mut [u8],
    bytes: &mut Vec<u8>,
) -> Result<usize, ReadFault>
    ensures adds { IfOk result (λ count. AddsPiece (R.remaining reader.old) (R.remaining reader.new)
        bytes.old.items bytes.new.items (length room.old) count) }
    ensures fault { IfErr result (IsReadingFault (R.may_fail reader.old)) }
    ensures may_fail { R.may_fail reader.new ≡ R.may_fail reader.old }
{
    let Ok(count) = reader.read_once(room) else {
        return Err(ReadFault::Device);
    };
    bytes.extend_from_slice(&room[..count])?;
    Ok(count)
}

/// Reads once into `piece`, at most up to the limit, and appends the bytes read to `bytes`. Returns their number, which
/// is 0 at the reader's end. A piece that was filled is followed by a longer one.
///
/// `Device` is returned if the read fails, `NoMemory` if memory runs out.
fn read_next<R: ByteReader>(
    reader: &mut R,
    piece: &mut Vec<u8>,
    bytes: &mut Vec<u8>,
) -> Result<usize, ReadFault>
    requires short { length bytes.old.items ≤ LIMIT }
    requires room { 0 < vec_len piece.old }
    ensures adds { IfOk result (λ count. (room : ℕ) × (0 < room) × (length bytes.old.items + room ≤ LIMIT + 1)
        × AddsPiece (R.remaining reader.old) (R.remaining reader.new)
        bytes.old.items bytes.new.items room count) }
    ensures fault { IfErr result (IsReadingFault (R.may_fail reader.old)) }
    ensures may_fail { R.may_fail reader.new ≡ R.may_fail reader.old }
    ensures room { OnOk result (0 < vec_len piece.new) }
{
    let wanted = (LIMIT + 1 - bytes.len()).min(piece.len());
    let count = read_piece(reader, &mut piece[..wanted], bytes)?;
    if count == piece.len() && count < MOST {
        make_room(piece, (count * GROWTH).min(MOST))?;
    }
    Ok(count)
}

/// Reads all bytes of a reader, or the first `LIMIT + 1` if there are more. A result longer than `LIMIT` tells the
/// caller that the input is too long. The bytes after the first `LIMIT + 1` are left in the reader.
///
/// `Device` is returned if a read fails or is interrupted, and not otherwise; the bytes read before are lost.
/// `NoMemory` is returned if memory runs out. Each read but the last yields at least one byte, so the loop ends.
pub fn read_limited<R: ByteReader>(alloc: Global, reader: &mut R) -> Result<Vec<u8>, ReadFault>
    ensures bytes { IfOk result (λ bytes. IfSome (R.remaining reader.old) (λ all. bytes.items ≡ take (LIMIT + 1) all)) }
    ensures short { IfOk result (λ bytes. length bytes.items ≤ LIMIT + 1) }
    ensures rest { OnOk result (IfSome (R.remaining reader.old)
        (λ all. R.remaining reader.new ≡ Some (drop (LIMIT + 1) all))) }
    ensures fault { IfErr result (IsReadingFault (R.may_fail reader.old)) }
{
    read_by_pieces(alloc, reader, &mut Vec::new(alloc))
}

/// Reads as `read_limited` does, but into `piece`, which may be passed again for the next file. An empty piece is
/// allocated; one that a read filled is made longer.
///
/// If the bytes are at most `LIMIT`, the room that they don't need is given back.
pub(crate) fn read_by_pieces<R: ByteReader>(
    alloc: Global,
    reader: &mut R,
    piece: &mut Vec<u8>,
) -> Result<Vec<u8>, ReadFault>
    ensures bytes { IfOk result (λ bytes. IfSome (R.remaining reader.old) (λ all. bytes.items ≡ take (LIMIT + 1) all)) }
    ensures short { IfOk result (λ bytes. length bytes.items ≤ LIMIT + 1) }
    ensures rest { OnOk result (IfSome (R.remaining reader.old)
        (λ all. R.remaining reader.new ≡ Some (drop (LIMIT + 1) all))) }
    ensures fault { IfErr result (IsReadingFault (R.may_fail reader.old)) }
{
    if piece.is_empty() {
        make_room(piece, FIRST)?;
    }
    let mut bytes = Vec::new(alloc);
    'fill: while bytes.len() <= LIMIT {
        let count = read_next(reader, piece, &mut bytes)?;
        if count == 0 {
            bytes.shrink_to_fit();
            return Ok(bytes);
        }
    }
    Ok(bytes)
}
