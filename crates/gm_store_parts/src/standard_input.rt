//! Standard input as the program sees it: all that it does with it is to take its reader and read that.

ghost use Rattle.gm_store_parts.specs.Openings.{MayRead};

use crate::byte_reader::ByteReader;
use crate::reading::{ReadFault, read_limited};
use std::alloc::Global;
use std::io::Input;

/// What has a standard input.
///
/// That is read only through this trait, so that a contract can say what follows from its bytes.
pub trait StandardInput {
    ghost use Rattle.gm_store_parts.specs.Openings.{Opening, opened};

    /// The reader of its bytes.
    type Reader: ByteReader + Drop;

    /// What may come of taking it, as of opening a file. For that of a process that is anything.
    ghost may_take: { Self → Opening → Type 0 };

    /// Its reader.
    fn take_input(&self) -> Self::Reader
        ensures { may_take self.now (opened (Self.Reader.remaining result) (Self.Reader.may_fail result)) };
}

impl<R: Input> StandardInput for R {
    type Reader = R::Reader;

    ghost may_take = { λ _ _. Unit {0} };

    fn take_input(&self) -> R::Reader {
        self.reader()
    }
}

/// Reads standard input, or its first `LIMIT + 1` bytes if there are more.
///
/// `Device` is returned if a read of it fails, and not otherwise. `NoMemory` is returned if memory runs out.
pub fn read_input<S: StandardInput>(system: &S, alloc: Global) -> Result<Vec<u8>, ReadFault>
    ensures { MayRead (S.may_take system.now) result }
{
    read_limited(alloc, &mut system.take_input())
}
