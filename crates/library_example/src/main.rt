//! Prints the build list of a main module: `hello GO.MOD FOLDERS`.
#![tactic(auto)]

use anyhow::Result;
use gm_file::MainFile;
use gm_graph::{Loaded, Row, Step, load};
use gm_store::{FolderReader, ProxyList, folder_of, read_limited};
use std::{env, fs, io};

/// Prints a row: the path of the main module, or a module at its version.
fn print_row(rt: &impl Print, main: &MainFile<'_>, row: &Row) -> io::Result<()> {
    match &row.step {
        Step::Main => println!(rt; "{}", main.module()),
        Step::Of(module) => println!(rt; "{module}"),
    }
}

/// Prints the build list of a graph, or the faults of its modules if there are any.
fn print_list(rt: &impl Print, main: &MainFile<'_>, graph: &Loaded) -> io::Result<()> {
    if graph.faults().is_empty() {
        for row in graph.build_list() {
            print_row(rt, main, row)?;
        }
    }
    for fault in graph.faults() {
        println!(rt; "{}: {}", fault.vertex, fault.class)?;
    }
    Ok(())
}

/// Loads the graph of a main module, with the files of other modules from folders.
fn graph(rt: HostRuntime, main: &MainFile<'_>, go_mod: &str, folders: &str) -> Result<Loaded> {
    let folder = folder_of(rt.alloc(), go_mod)?;
    let proxies = ProxyList::read(rt.alloc(), folders)?;
    let mut store = FolderReader::new(rt, rt.alloc(), folder, proxies);
    load(rt.alloc(), main, &mut store, None).map_err(anyhow::Error::from)
}

/// Prints the build list of a main module, with the files of other modules from folders.
fn show(rt: HostRuntime, main: &MainFile<'_>, go_mod: &str, folders: &str) -> Result<()> {
    let graph = graph(rt, main, go_mod, folders)?;
    print_list(&rt, main, &graph).map_err(anyhow::Error::from)
}

/// Reads a go.mod, and prints its build list.
fn run(rt: HostRuntime, go_mod: &str, folders: &str) -> Result<()> {
    let bytes = read_limited(rt.alloc(), &mut fs::open(&rt, go_mod)?)?;
    let main = MainFile::read_bytes(rt.alloc(), &bytes)?;
    show(rt, &main, go_mod, folders)
}

fn main(rt: HostRuntime) -> Result<()> {
    let words: Vec<String> = env::args(&rt)?.collect(rt.alloc())?;
    match words.as_slice() {
        [_, go_mod, folders] => run(rt, go_mod, folders),
        _ => Ok(println!(&rt; "usage: hello GO.MOD FOLDERS")?),
    }
}
