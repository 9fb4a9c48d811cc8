//! The file system as the program sees it: all that it does with one is to open a file and read it.

ghost use Rattle.gm_store_parts.specs.Openings.{MayRead};

use crate::byte_reader::ByteReader;
use crate::reading::{ReadFault, read_limited};
use std::alloc::Global;
use std::io::ErrorKind;
use std::{fs, io, rt};

/// A file system whose files can be opened.
///
/// Files are opened only through this trait, so that a contract can say which file is opened, and what follows from its
/// bytes or the error.
pub trait FileSystem {
    ghost use Rattle.std.specs.Prelude.{List, ℕ};
    ghost use Rattle.gm_store_parts.specs.Openings.{Opening, opening_of};

    /// An open file.
    type File: ByteReader + Drop;

    /// What may come of opening the file at a path. For the real file system that is anything.
    ghost may_open: { Self → List ℕ → Opening → Type 0 };

    /// Opens the file at a path to read it.
    fn open(&self, path: &str) -> io::Result<Self::File>
        ensures { may_open self.now path.now (opening_of Self.File.remaining Self.File.may_fail result) };
}

impl<R: rt::Files> FileSystem for R {
    type File = R::File;

    ghost may_open = { λ _ _ _. Unit {0} };

    fn open(&self, path: &str) -> io::Result<R::File> {
        fs::open(self, path)
    }
}

/// Reads the file at a path, or its first `LIMIT + 1` bytes if there are more.
///
/// `Device` is returned if the file can't be opened or a read of it fails, and not otherwise. `NoMemory` is returned if
/// memory runs out.
pub fn read_file<S: FileSystem>(system: &S, alloc: Global, path: &str) -> Result<Vec<u8>, ReadFault>
    ensures { MayRead (S.may_open system.now path.now) result }
{
    match system.open(path) {
        Ok(mut file) => read_limited(alloc, &mut file),
        Err(error) if error.kind() == ErrorKind::OutOfMemory => Err(ReadFault::NoMemory),
        Err(_) => Err(ReadFault::Device),
    }
}
