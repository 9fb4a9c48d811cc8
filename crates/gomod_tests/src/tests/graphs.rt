//! What no command prints of a module graph: the turns by which it is loaded, and what a cache of files that is asked
//! by name lends to those who walk a graph of their own.

ghost use Rattle.std.specs.Option.{option_map};
ghost use Rattle.std.specs.Prelude.{◌<◌};
ghost use Rattle.gm_store_parts.specs.Asked.{name_of};
ghost use Rattle.gm_store_parts.specs.Memory.{pairs_of};
ghost use Rattle.gm_graph_cache.specs.Cached.{Knows, KnowsLender, file_count};
ghost use Rattle.gm_graph_files.specs.Places.{place_limit};

use super::{File, OUT_OF_MEMORY, assert_same, path, store_of, version};
use gm_file::{MainFile, MainModule};
use gm_graph::{Cache, Depth, Known, Turn, load};
use gm_name::ModVer;
use gm_store::{FileName, MemoryFiles};
use std::alloc::Global;
use std::process::Abort;

/// The main file, which is pruned. It requires a pruned module, and one without pruning that leads to that one again.
const MAIN: &str = "module m.io\ngo 1.17\nrequire a.io v1.0.0\nrequire b.io v1.0.0\n";

/// A main file that is not pruned. It requires a pruned module.
const UNPRUNED_MAIN: &str = "module m.io\nrequire a.io v1.0.0\n";

/// The files of the other modules.
const FILES: &'static [File] = &[
    (
        "a.io",
        "v1.0.0",
        "module a.io\ngo 1.17\nrequire c.io v1.0.0\nrequire e.io v1.0.0\n",
    ),
    ("b.io", "v1.0.0", "module b.io\nrequire a.io v1.0.0\n"),
    (
        "c.io",
        "v1.0.0",
        "module c.io\ngo 1.17\nrequire d.io v1.0.0\n",
    ),
    ("d.io", "v1.0.0", "module d.io\n"),
    ("e.io", "v1.0.0", "module e.io\n"),
];

/// For which module paths requirements are read from the pruned main file on, and to which depth. From the other main
/// file on they are read for the same paths at full depth, and for none at the top.
const TURNS: &'static [(&'static str, Depth)] = &[
    ("a.io", Depth::Top),
    ("b.io", Depth::Top),
    ("a.io", Depth::Deep),
    ("c.io", Depth::Deep),
    ("d.io", Depth::Deep),
    ("e.io", Depth::Deep),
];

/// Whether one of these turns takes a module to this depth.
fn is_taken(turns: &[Turn], path: &str, depth: Depth) -> bool {
    for turn in turns {
        if turn.vertex.path().as_str() == path && turn.depth == depth {
            return true;
        }
    }
    false
}

/// How many of the expected turns are taken.
fn taken_count(turns: &[Turn]) -> usize {
    let mut count: usize = 0;
    for (path, depth) in TURNS {
        if is_taken(turns, path, *depth) {
            count = count.saturating_add(1);
        }
    }
    count
}

/// How many turns are taken to load the graph, and how many of the expected ones are among them.
fn turn_counts(rt: &impl Abort, alloc: Global, main: &MainFile<'_>) -> (usize, usize) {
    let mut store = store_of(rt, alloc, FILES);
    let loaded = load(alloc, main, &mut store, None).expect(rt, OUT_OF_MEMORY);
    (loaded.turns().len(), taken_count(loaded.turns()))
}

/// How many modules a cache lends for a vertex, whose file has this name.
fn lent_count(
    rt: &impl Abort,
    cache: &mut Cache<'_>,
    vertex: &ModVer,
    name: Option<&FileName>,
) -> usize
    requires { KnowsLender cache.old vertex.now (option_map (λ n. name_of n.now) name) }
    ensures { KnowsLender cache.new vertex.now (option_map (λ n. name_of n.now) name.entry) }
{
    let lent = cache
        .lend(vertex, Depth::Deep, name)
        .expect(rt, OUT_OF_MEMORY);
    lent.modules().len()
}

/// How many modules a cache lends for a vertex, whose file has this name, when it is asked once and again.
fn lent_counts(
    rt: &impl Abort,
    cache: &mut Cache<'_>,
    vertex: &ModVer,
    name: Option<&FileName>,
) -> (usize, usize)
    requires { KnowsLender cache.old vertex.now (option_map (λ n. name_of n.now) name) }
{
    let once = lent_count(rt, cache, vertex, name);
    (once, lent_count(rt, cache, vertex, name))
}

/// How many modules a vertex requires, once its file is known to a cache, when that is asked once and again.
fn asked_counts(
    rt: &impl Abort,
    store: &mut MemoryFiles,
    cache: &mut Cache<'_>,
    vertex: &ModVer,
) -> (usize, usize)
    requires knows { Knows cache.old (pairs_of store.old) }
    requires few { file_count cache.old < place_limit }
{
    match cache.known(store, vertex).expect(rt, OUT_OF_MEMORY) {
        Known::Fault(_) => lent_counts(rt, cache, vertex, None),
        Known::Sound(name) => lent_counts(rt, cache, vertex, Some(&name)),
    }
}

/// How many modules a vertex requires, by its file, when a cache is asked once and again.
fn required_counts(
    rt: &impl Abort,
    alloc: Global,
    main: &MainModule,
    vertex: &ModVer,
) -> (usize, usize) {
    let mut store = store_of(rt, alloc, FILES);
    let mut cache = Cache::new(alloc, main, None).expect(rt, OUT_OF_MEMORY);
    asked_counts(rt, &mut store, &mut cache, vertex)
}

/// How many modules a.io at a version requires, when a cache is asked once and again.
fn counts_of(rt: &impl Abort, alloc: Global, main: &MainModule, number: &str) -> (usize, usize) {
    let pair = ModVer::pair(path(rt, alloc, "a.io"), version(rt, alloc, number));
    required_counts(rt, alloc, main, &pair.expect(rt, number))
}

/// Compares how many turns are taken from a main file on, and what a cache lends beside it, with what is wanted.
// Both in one function, since what owns a main file is proved through all its fields.
fn assert_counts(rt: &impl Abort, alloc: Global, text: &str, turns: (usize, usize)) {
    let main = MainFile::read_bytes(alloc, text.as_bytes()).expect(rt, text);
    assert_same(rt, text, &turn_counts(rt, alloc, &main), &turns);
    let known = counts_of(rt, alloc, main.main_module(), "v1.0.0");
    assert_same(rt, "a module with a file", &known, &(2, 2));
    let missing = counts_of(rt, alloc, main.main_module(), "v1.1.0");
    assert_same(rt, "a module without one", &missing, &(0, 0));
}

#[test]
fn turns_are_taken_and_a_cache_lends_by_name(rt: HostRuntime) {
    assert_counts(&rt, rt.alloc(), MAIN, (6, 6));
    assert_counts(&rt, rt.alloc(), UNPRUNED_MAIN, (4, 4));
}
