//! The GOPROXY fallback over folders of a file system.

use crate::fallback::store::FallbackStore;
use crate::folders::on_disk::FoldersOnDisk;
use gm_store_parts::{Asks, FileSystem, Keeps, LastAnswer, ProxyList};
use std::alloc::Global;

/// A store over folders of a file system. It keeps all answers.
pub type FolderFiles<S> = FallbackStore<FoldersOnDisk<S>>;

/// A store over folders of a file system. It keeps its last answer alone, so its memory doesn't grow with the files.
pub type FolderReader<S> = FallbackStore<FoldersOnDisk<S>, LastAnswer>;

impl<S: FileSystem, K: Keeps> FallbackStore<FoldersOnDisk<S>, K> {
    ghost use Rattle.std.specs.Prelude.{◌≡◌, [], Option, string_bytes};
    ghost use Rattle.gm_store_parts.specs.Asked.{Name, Reply};
    ghost use Rattle.gm_store_parts.specs.Proxies.{folders_in, marks_in};
    ghost use Rattle.gm_store.specs.DiskAnswers.{MayAnswer};
    ghost use Rattle.gm_store.specs.FoldersOnDisk.{main_folder, proxy_folders, system_of};
    ghost use Rattle.gm_store.specs.Views.{asked_by, faults_of, folders_under, lookups_of, marks_between, refused_by};

    /// A store over the folders of `proxy` and the main file's folder `main`. Nothing has been requested from it
    /// yet.
    ///
    /// Module files are looked up in the proxy folders in turn, as `step` decides. The `go.mod` of a local folder
    /// is looked up once, relative to `main` unless the folder's text is absolute. A file that the system doesn't
    /// find is absent. Every other error of the system is a failure of the device, except running out of memory.
    /// At most `LIMIT + 1` bytes of a file are read. No file is opened before the first request.
    pub fn new(
        system: S,
        alloc: Global,
        main: String,
        proxy: ProxyList,
    ) -> FallbackStore<FoldersOnDisk<S>, K>
        ensures system { system_of (folders_under result) ≡ system }
        ensures main { main_folder (folders_under result) ≡ string_bytes main }
        ensures proxies { proxy_folders (folders_under result) ≡ folders_in proxy }
        ensures marks { marks_between result ≡ marks_in proxy }
        ensures asked { asked_by result ≡ [] }
        ensures refused { refused_by result ≡ [] }
        ensures lookups { lookups_of result ≡ 0 }
        ensures faults { faults_of result ≡ 0 }
        // An answer is that of the file at the path of the name in one of these folders, and the device fails only if
        // opening or reading one of these files does.
        ensures answers { (name : Name) (outcome : Option Reply)
            → ⟦<FallbackStore<FoldersOnDisk<S>, K> as Asks>⟧.may_answer result name outcome
            → MayAnswer (S.may_open system) (string_bytes main) (folders_in proxy) (marks_in proxy) name outcome }
    {
        let ProxyList {
            folders: proxies,
            marks,
        } = proxy;
        let places = FoldersOnDisk {
            system,
            alloc,
            main,
            proxies,
        };
        FallbackStore::over(alloc, places, marks)
    }
}
