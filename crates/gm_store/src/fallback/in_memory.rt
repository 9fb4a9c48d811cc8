//! The GOPROXY fallback over folders in memory.
//!
//! Tests use it to run the fallback without a file system, and with device failures where they want them.

use crate::fallback::store::FallbackStore;
use crate::folders::in_memory::FoldersInMemory;
use gm_store_parts::{Mark, MemoryFolder};
use std::alloc::Global;

/// A store over folders in memory.
pub type MemoryFolders = FallbackStore<FoldersInMemory>;

impl FallbackStore<FoldersInMemory> {
    ghost use Rattle.std.specs.Prelude.{◌≡◌, ◌+◌, [], length};
    ghost use Rattle.gm_store.specs.Views.{asked_by, faults_of, folders_under, lookups_of, marks_between, refused_by};

    /// A store over the folders `proxies`, with `marks` between them, and over `beside`. Nothing has been
    /// requested from it yet.
    ///
    /// Module files are looked up in `proxies` in turn, as `step` decides. The `go.mod` of a local folder is
    /// looked up once, in `beside`, which stands for the surroundings of the main file. The caller shows that
    /// there is one mark fewer than folders.
    pub fn in_memory(
        alloc: Global,
        proxies: Vec<MemoryFolder>,
        marks: Vec<Mark>,
        beside: MemoryFolder,
    ) -> MemoryFolders
        requires { length proxies.items ≡ length marks.items + 1 }
        ensures proxies { (folders_under result).proxies ≡ proxies }
        ensures beside { (folders_under result).beside ≡ beside }
        ensures marks { marks_between result ≡ marks.items }
        ensures asked { asked_by result ≡ [] }
        ensures refused { refused_by result ≡ [] }
        ensures lookups { lookups_of result ≡ 0 }
        ensures faults { faults_of result ≡ 0 }
    {
        FallbackStore::over(alloc, FoldersInMemory { proxies, beside }, marks)
    }
}
