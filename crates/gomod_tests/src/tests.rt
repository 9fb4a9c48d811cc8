//! Tests of readers, stores, documents and graphs, and of how faults are shown. The worked examples of the program are
//! cases of the crate `run_cases`.
//!
//! The tests run with ample memory. A test that runs out of it anyway ends, and says that this is the reason.

mod documents;
mod faults;
mod graphs;
mod opened_files;
mod readers;
mod stores;

ghost use Rattle.std.specs.Prelude.{◌≡◌, []};
ghost use Rattle.gm_store_parts.specs.Memory.{pairs_of};

use gm_name::{ModPath, ModVersion};
use gm_store::{FileName, MemoryFiles};
use std::alloc::Global;
use std::fmt::{Debug, Display};
use std::process::Abort;

/// The message of a test that runs out of memory.
const OUT_OF_MEMORY: &str = "out of memory";

/// The path and version of a module, or a folder and an empty version, followed by the content of its file.
type File = (&'static str, &'static str, &'static str);

/// Ends the test, with a title and both values, if it got another value than wanted.
fn assert_same<T: PartialEq + Debug>(
    rt: &impl Abort,
    title: impl Display + Drop,
    got: &T,
    wanted: &T,
) {
    assert_eq!(rt; *got, *wanted, "{title}");
}

/// A text of its own.
fn text(rt: &impl Abort, alloc: Global, text: &str) -> String {
    String::from_str(alloc, text).expect(rt, OUT_OF_MEMORY)
}

/// A module path.
fn path(rt: &impl Abort, alloc: Global, text: &str) -> ModPath {
    ModPath::parse(alloc, text).expect(rt, text)
}

/// A version.
fn version(rt: &impl Abort, alloc: Global, text: &str) -> ModVersion {
    ModVersion::parse(alloc, text).expect(rt, text)
}

/// The name of a module's file, or of the file in a folder if the version is empty.
fn file_name(rt: &impl Abort, alloc: Global, module: &str, at: &str) -> FileName {
    if at.is_empty() {
        return FileName::Folder(text(rt, alloc, module));
    }
    FileName::Mod(path(rt, alloc, module), version(rt, alloc, at))
}

/// Puts a file into a store.
fn put(rt: &impl Abort, alloc: Global, store: &mut MemoryFiles, file: File)
    ensures { pairs_of store.new ≡ pairs_of store.old }
{
    let name = file_name(rt, alloc, file.0, file.1);
    let content = Vec::from_slice(alloc, file.2.as_bytes()).expect(rt, OUT_OF_MEMORY);
    store.put(name, content).expect(rt, OUT_OF_MEMORY);
}

/// A store of these files that was not asked for anything yet.
fn store_of(rt: &impl Abort, alloc: Global, files: &'static [File]) -> MemoryFiles
    ensures { pairs_of result ≡ [] }
{
    let mut store = MemoryFiles::new(alloc);
    for file in files {
        put(rt, alloc, &mut store, *file);
    }
    store
}
