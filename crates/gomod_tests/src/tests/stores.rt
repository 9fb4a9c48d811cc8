//! A store whose device fails at one ask.

use super::{File, OUT_OF_MEMORY, assert_same, path, store_of, text, version};
use gm_store::{AskFault, Asks, FailingFiles, FileName, Files};

/// One file of a module at a version, and one in a folder.
const FILES: &'static [File] = &[
    ("a.io", "v1.0.0", "module a.io\n"),
    ("../b", "", "module b.io\n"),
];

/// How many names a store was asked for, and how often its device failed.
fn counts(store: &FailingFiles) -> (usize, u64) {
    (store.count(), store.faults())
}

#[test]
fn a_failing_store_refuses_one_ask(rt: HostRuntime) {
    let mut store = FailingFiles::after(store_of(&rt, rt.alloc(), FILES), 1);
    let module = path(&rt, rt.alloc(), "a.io");
    let name = FileName::Mod(module, version(&rt, rt.alloc(), "v1.0.0"));
    let other = FileName::Folder(text(&rt, rt.alloc(), "../b"));
    store.ask(&name).expect(&rt, OUT_OF_MEMORY);
    let first = counts(&store);
    let fault = store.ask(&other).err().expect(&rt, "the device fails");
    let second = counts(&store);
    store.ask(&other).expect(&rt, OUT_OF_MEMORY);
    let third = counts(&store);
    assert_same(&rt, "the fault", &fault, &AskFault::Device);
    assert_same(
        &rt,
        "counts",
        &[first, second, third],
        &[(1, 0), (1, 1), (2, 1)],
    );
}
