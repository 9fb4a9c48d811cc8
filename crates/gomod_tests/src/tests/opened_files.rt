//! Which files a store over folders of the file system opens, how often, and which failures it counts.

use super::{OUT_OF_MEMORY, assert_same, path};
use gm_store::{AskFault, Asks, FileName, FolderFiles, ProxyList};
use std::alloc::{AllocError, Allocator};
use std::cell::RefCell;
use std::fs::{File, Metadata, OpenOptions};
use std::io::ErrorKind;
use std::process::Abort;
use std::{io, rt};

/// A file system that records which files are to be opened. The files in a folder `full` are empty, those in
/// a folder `broken` can't be opened, at those in a folder `starved` memory runs out, and there are no others.
#[derive(Clone, Copy)]
struct RecordingSystem<'a> {
    /// The host, which opens the empty file.
    system: HostRuntime,
    /// The paths so far, each followed by a space.
    opened: &'a RefCell<String>,
}

impl RecordingSystem<'_> {
    /// Records a path. Fails only if memory runs out.
    fn note(&self, path: &str) -> Result<(), AllocError> {
        if let Ok(mut opened) = self.opened.try_borrow_mut() {
            opened.push_str(path)?;
            opened.push_str(" ")?;
        }
        Ok(())
    }
}

/// The result of every call that a store has no reason to make.
fn unsupported<T>() -> io::Result<T> {
    Err(io::Error::from(ErrorKind::Unsupported))
}

/// Only opening files is supported: asking a store for a file must need nothing else.
impl rt::Files for RecordingSystem<'_> {
    type File = File;

    type Dir = <HostRuntime as rt::Files>::Dir;

    /// Records the path, and then opens an empty file or fails, depending on the folder.
    fn open_file(&self, how: &OpenOptions, path: &str) -> io::Result<File> {
        self.note(path)?;
        if path.starts_with("full/") {
            return self.system.open_file(how, "/dev/null");
        }
        if path.starts_with("broken/") {
            return Err(io::Error::from(ErrorKind::PermissionDenied));
        }
        if path.starts_with("starved/") {
            return Err(io::Error::from(ErrorKind::OutOfMemory));
        }
        Err(io::Error::from(ErrorKind::NotFound))
    }

    /// Unsupported.
    fn open_dir(&self, _path: &str) -> io::Result<<HostRuntime as rt::Files>::Dir> {
        unsupported()
    }

    /// Unsupported.
    fn metadata(&self, _path: &str) -> io::Result<Metadata> {
        unsupported()
    }

    /// Unsupported.
    fn symlink_metadata(&self, _path: &str) -> io::Result<Metadata> {
        unsupported()
    }

    /// Unsupported.
    fn copy(&self, _from: &str, _to: &str) -> io::Result<u64> {
        unsupported()
    }

    /// Unsupported.
    fn rename(&self, _from: &str, _to: &str) -> io::Result<()> {
        unsupported()
    }

    /// Unsupported.
    fn remove_file(&self, _path: &str) -> io::Result<()> {
        unsupported()
    }

    /// Unsupported.
    fn create_dir(&self, _path: &str) -> io::Result<()> {
        unsupported()
    }

    /// Unsupported.
    fn remove_dir(&self, _path: &str) -> io::Result<()> {
        unsupported()
    }

    /// Unsupported.
    fn remove_dir_all<B: Allocator>(&self, _alloc: B, _path: &str) -> io::Result<()> {
        unsupported()
    }
}

/// The end of a request.
type Ended = Result<(), AskFault>;

/// A request for the list of a module.
struct Request {
    /// Folders with the marks between them.
    folders: &'static str,
    /// The files that are opened.
    opened: &'static str,
    /// How the request ends.
    ended: Ended,
    /// How many lookups are counted, and how many failures of the device. They are counted too if memory runs out
    /// after them; the lookup in which it does is not.
    counts: (u64, u64),
}

/// Requests over one folder or more.
const REQUESTS: &'static [Request] = &[
    Request {
        folders: "full",
        opened: "full/p.io/@v/list ",
        ended: Ok(()),
        counts: (1, 0),
    },
    Request {
        folders: "full,empty",
        opened: "full/p.io/@v/list ",
        ended: Ok(()),
        counts: (1, 0),
    },
    Request {
        folders: "empty,full",
        opened: "empty/p.io/@v/list full/p.io/@v/list ",
        ended: Ok(()),
        counts: (2, 0),
    },
    Request {
        folders: "empty|empty",
        opened: "empty/p.io/@v/list empty/p.io/@v/list ",
        ended: Ok(()),
        counts: (2, 0),
    },
    Request {
        folders: "broken",
        opened: "broken/p.io/@v/list ",
        ended: Err(AskFault::Device),
        counts: (1, 1),
    },
    Request {
        folders: "broken,full",
        opened: "broken/p.io/@v/list ",
        ended: Err(AskFault::Device),
        counts: (1, 1),
    },
    Request {
        folders: "broken|full",
        opened: "broken/p.io/@v/list full/p.io/@v/list ",
        ended: Ok(()),
        counts: (2, 1),
    },
    Request {
        folders: "starved|full",
        opened: "starved/p.io/@v/list ",
        ended: Err(AskFault::NoMemory),
        counts: (0, 0),
    },
    Request {
        folders: "broken|starved",
        opened: "broken/p.io/@v/list starved/p.io/@v/list ",
        ended: Err(AskFault::NoMemory),
        counts: (1, 1),
    },
    Request {
        folders: "broken|empty,broken|starved",
        opened: "broken/p.io/@v/list empty/p.io/@v/list broken/p.io/@v/list starved/p.io/@v/list ",
        ended: Err(AskFault::NoMemory),
        counts: (3, 2),
    },
];

/// Asks a store over these folders for the list of a module. Says how the request ends, and how many lookups and
/// failures of the device are counted.
fn ask_for_list(
    rt: &impl Abort,
    system: RecordingSystem<'_>,
    folders: &str,
) -> (Ended, (u64, u64)) {
    let alloc = system.system.alloc();
    let proxy = ProxyList::read(alloc, folders).expect(rt, OUT_OF_MEMORY);
    let name = FileName::List(path(rt, alloc, "p.io"));
    let mut store = FolderFiles::new(system, alloc, String::new(alloc), proxy);
    let ended = store.ask(&name);
    (ended, (store.lookups(), store.faults()))
}

/// Makes a request, and compares what comes of it.
fn make(rt: &impl Abort, host: HostRuntime, request: &Request) {
    let opened = RefCell::new(String::new(host.alloc()));
    let system = RecordingSystem {
        system: host,
        opened: &opened,
    };
    let (ended, counts) = ask_for_list(rt, system, request.folders);
    let opened = opened.into_inner();
    let got = (opened.as_str(), ended, counts);
    let wanted = (request.opened, request.ended, request.counts);
    assert_same(rt, request.folders, &got, &wanted);
}

#[test]
fn each_file_is_opened_once(rt: HostRuntime) {
    for request in REQUESTS {
        make(&rt, rt, request);
    }
}
