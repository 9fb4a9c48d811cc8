//! What a lookup in a file system results in, from the outcomes of opening and reading a file.
//!
//! Only a file that the system reports as not found is absent. If other errors counted as absent, the
//! fallback would continue after a comma, which only an absent file allows.

ghost use Rattle.std.specs.Prelude.{◌≡◌, IfOk, OnErr};
ghost use Rattle.gm_store_parts.specs.Asked.{IsWithinLimit};
ghost use Rattle.gm_store_parts.specs.Openings.{IsRefusedLookup, MayLackMemory, MayShow, opening_of};
ghost use Rattle.gm_store_parts.specs.Private.Reading.{IsReadLookup};
ghost use Rattle.gm_store_parts.specs.Steps.{reply_in, result_of};

use crate::byte_reader::ByteReader;
use crate::looked::Looked;
use crate::reading::{LIMIT, ReadFault, read_by_pieces};
use gm_name::NoMemory;
use std::alloc::{AllocError, Global};
use std::io;
use std::io::ErrorKind;

/// The result of a lookup, from what came of opening the file at its path. The file is read by pieces into `piece`, at
/// most `LIMIT + 1` bytes of it.
///
/// The only refusal is `NoMemory`: always if the system ran out of memory while it opened the file, never for another
/// error of it, and for an opened file if reading ran out of memory.
pub fn opened_result<F: ByteReader + Drop>(
    alloc: Global,
    opened: io::Result<F>,
    piece: &mut Vec<u8>,
) -> Result<Looked, NoMemory>
    ensures shown { IfOk result (λ looked. MayShow (opening_of F.remaining F.may_fail opened) (result_of looked)) }
    ensures no_memory { OnErr result (MayLackMemory (opening_of F.remaining F.may_fail opened)) }
    ensures within_limit { IfOk result (λ looked. IsWithinLimit (reply_in (result_of looked))) }
{
    match opened {
        Ok(mut file) => read_result(read_by_pieces(alloc, &mut file, piece)),
        Err(error) => open_error_result(error.kind()),
    }
}

/// The result for a file that couldn't be opened: `Absent` if the system found no file of that name, `Failed`
/// otherwise.
///
/// The only refusal is `NoMemory`, if the system ran out of memory.
fn open_error_result(kind: ErrorKind) -> Result<Looked, NoMemory>
    ensures refused { IfOk result (λ looked. IsRefusedLookup kind (result_of looked)) }
    ensures no_memory { OnErr result (kind ≡ ErrorKind.OutOfMemory) }
    ensures within_limit { IfOk result (λ looked. IsWithinLimit (reply_in (result_of looked))) }
{
    match kind {
        ErrorKind::NotFound => Ok(Looked::Absent),
        ErrorKind::OutOfMemory => Err(AllocError),
        _ => Ok(Looked::Failed),
    }
}

/// The result for a file that was opened: `Found` or `TooLong` if it could be read, `Failed` otherwise.
///
/// The only refusal is `NoMemory`, if reading ran out of memory.
fn read_result(read: Result<Vec<u8>, ReadFault>) -> Result<Looked, NoMemory>
    ensures read { IfOk result (λ looked. IsReadLookup read (result_of looked)) }
    ensures no_memory { OnErr result (read ≡ Err ReadFault.NoMemory) }
    ensures within_limit { IfOk result (λ looked. IsWithinLimit (reply_in (result_of looked))) }
{
    match read {
        Ok(bytes) if bytes.len() > LIMIT => Ok(Looked::TooLong),
        Ok(bytes) => Ok(Looked::Found(bytes)),
        Err(ReadFault::NoMemory) => Err(AllocError),
        Err(ReadFault::Device) => Ok(Looked::Failed),
    }
}
