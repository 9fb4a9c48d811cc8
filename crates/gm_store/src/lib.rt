//! Stores of modules' files, lists of versions, and the sinks that output is written to.
//!
//! Go fetches modules through GOPROXY, a list of proxies that are tried in turn (Go Modules Reference, "Module
//! proxies"). Here each proxy is a folder with the layout of the proxy's URLs. Take the list `/mirror,/backup`:
//! the `.mod` file of `example.com/a` at `v1.2.0` is first looked up at `/mirror/example.com/a/@v/v1.2.0.mod`. If
//! it is absent there, the lookup falls back to `/backup`, because the mark between the folders is a comma.
//!
//! - `Asks` is the trait of stores: no file is answered twice. A store with the trait `Files` keeps its answers.
//! - `FallbackStore` is the GOPROXY fallback: `ProxyList` has the folders and the marks between them, `step` decides
//!   after each lookup whether to stop. `MemoryFolders` has the folders in memory, `FolderFiles` and `FolderReader` on
//!   a file system; the latter keeps its last answer alone.
//! - `MemoryFiles` is a map of files in memory, and `FailingFiles` adds one device failure to it, for tests.
//! - `versions_of` reads a list file, and `latest` selects from its versions.
//! - `read_limited` reads a file or stream up to a limit, `read_file` and `read_input` a named file and standard input.
//!   `Sink` takes output, in memory or to a writer.
//!
//! Every call that may allocate reports when memory runs out. Stores and sinks count each failure of their device,
//! including those that don't fail a request.
#![tactic(auto)]

mod fallback;
mod folders;
pub mod laws;
mod versions;

pub use crate::fallback::in_memory::MemoryFolders;
pub use crate::fallback::on_disk::{FolderFiles, FolderReader};
pub use crate::fallback::store::FallbackStore;
pub use crate::folders::in_memory::FoldersInMemory;
pub use crate::folders::main_folder::folder_of;
pub use crate::folders::on_disk::FoldersOnDisk;
pub use crate::folders::relative_path::relative_name;
pub use crate::versions::latest::latest;
pub use crate::versions::list::versions_of;
pub use gm_name::NoMemory;
pub use gm_store_parts::{
    AllAnswers, Answer, AskFault, Asks, ByteReader, FailingFiles, FileName, FileSystem, Files,
    Held, Keeps, LIMIT, LastAnswer, Looked, Mark, MemoryFiles, MemoryFolder, MemorySink, Next,
    ProxyFault, ProxyList, ReadFault, Sink, StandardInput, StdSink, WriteFault, copy_name,
    read_file, read_input, read_limited, step, write_all,
};
