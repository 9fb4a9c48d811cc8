//! Answers a query: reads the two files, loads the module graph that the main module's file leads to, and makes the
//! outcome. Faults of modules are handled once, before any query looks at the graph, so the queries agree on when
//! they print nothing.

ghost use Rattle.std.specs.Prelude.{◌≡◌, [], IfOk, MatchResult, List, ℕ};
ghost use Rattle.std.specs.Option.{option_copied};
ghost use Rattle.std.specs.Str.{IsUtf8};
ghost use Rattle.gomod_texts.specs.FromFaults.{report_by_load};
ghost use Rattle.gomod_texts.specs.Queries.{AreInvalidSums, AreSums};
ghost use Rattle.gomod_texts.specs.Outcome.{OrNoMemory, ended_view, report_outcome, refusal_outcome};
ghost use Rattle.gomod_outcomes.specs.Runs.{ComesTo, command_of};
ghost use Rattle.gomod_outcomes.specs.Private.Folders.{AreUtf8Folders};
ghost use Rattle.gomod_outcomes.specs.Private.Found.{IsOutcomeOfFound, PrintsFound};

use crate::queries::chain::chain_outcome;
use crate::queries::graph::graph_outcome;
use crate::queries::list::list_outcome;
use crate::queries::query::Query;
use gm_file::{MainFile, MainModule};
use gm_graph::{LoadFault, Loaded, load_module};
use gm_store::Asks;
use gm_store_sums::SumTable;
use gomod_texts::{Report, Text};
use std::alloc::Global;

/// The table of a go.sum, or `None` if no go.sum is given; or the report of its first fault.
fn sum_table<'a, 'r>(
    alloc: Global,
    sums: Option<&'a [u8]>,
) -> Result<Option<SumTable<'a>>, Report<'r>>
    ensures { MatchResult result
        (λ table. AreSums (option_copied sums.entry) table)
        (λ told. OrNoMemory (λ outcome. (report : List ℕ) × AreInvalidSums (option_copied sums.entry) report
        × (outcome ≡ refusal_outcome report)) (report_outcome told)) }
{
    match sums {
        Some(text) => Ok(Some(SumTable::read(alloc, text)?)),
        None => Ok(None),
    }
}

/// The folders of a main file are UTF-8, since it holds them as strings. This does nothing: the contract is a law.
fn folders_are_utf8(main: &MainModule)
    ensures { AreUtf8Folders main.now.replaces }
{
    let _replaces = main.replaces();
}

/// What a query ends with if no opened module has a fault.
fn query_outcome<'q>(
    alloc: Global,
    query: Query<'q>,
    main: &MainModule,
    loaded: Loaded,
) -> Result<Text, Report<'q>>
    requires no_fault { loaded.faults ≡ [] }
    requires main { loaded.main ≡ main.now.path }
    ensures { OrNoMemory (PrintsFound query.entry main.now loaded) (ended_view result) }
{
    match query {
        Query::Graph => graph_outcome(alloc, main, loaded),
        Query::List(after, limit) => list_outcome(alloc, main, loaded, after, limit),
        Query::Chain(path) => chain_outcome(alloc, main, &loaded, path),
    }
}

/// What a query ends with once loading has finished: a report of the faults if there are any, otherwise what the
/// query prints. If loading was refused, the report says why.
fn loaded_outcome<'q>(
    alloc: Global,
    query: Query<'q>,
    main: &MainModule,
    loaded: Result<Loaded, LoadFault>,
) -> Result<Text, Report<'q>>
    requires { IfOk loaded (λ loaded. loaded.main ≡ main.now.path) }
    ensures { MatchResult loaded
        (λ loaded. OrNoMemory (IsOutcomeOfFound query.entry main.now loaded) (ended_view result))
        (λ fault. ended_view result ≡ report_outcome (report_by_load fault)) }
{
    let loaded = loaded?;
    if loaded.faults().is_empty() {
        return query_outcome(alloc, query, main, loaded);
    }
    Err(Report::Faults(loaded.into_faults()))
}

/// What `query` ends with over the bytes `file` of a main module's go.mod, the bytes `sums` of a
/// go.sum if one is given, and a store `files` (Go Modules Reference, "Minimal version selection", "go mod
/// graph" and "go list -m").
///
/// If both files are valid, loading completes and no opened module has a fault, the text is what `query` asks
/// for: the edges of the module graph, rows of the build list, or a shortest chain of requirements to the
/// build list's entry for a path. If the list has no entry for the path, the report says so. Otherwise the report
/// gives the first of these that applies:
///
/// - the first fault of the main file,
/// - the first fault of the go.sum,
/// - that more than 65,536 module versions are opened, or the file on which the store's device failed,
/// - each opened module that has a fault.
///
/// If one of the two files is invalid, the store is asked for nothing. Otherwise it is asked for the files of
/// the modules that are opened according to its previous answers, each once, and for no other file. Each
/// answer is one that the store may give. Its device fails on at most one file, which is one of these, and
/// only if the count of its failures rises or has reached its maximum. All this holds however the run ends.
///
/// The store must not have been asked for anything before. If memory runs out, which can happen instead of any
/// answer but the report of the store's device, the report is `NoMemory`.
pub fn answer<'q, F: Asks>(
    alloc: Global,
    query: Query<'q>,
    file: &[u8],
    sums: Option<&[u8]>,
    files: &mut F,
) -> Result<Text, Report<'q>>
    requires { (F.state files.old).asked ≡ [] }
    ensures comes { ComesTo (command_of query.entry) file.now (option_copied sums.entry)
        (F.may_answer files.old) (F.may_answer files.new) (F.state files.old) (F.state files.new)
        (ended_view result) }
    ensures utf8 { IsUtf8 (ended_view result).text }
{
    let main = MainFile::read_bytes(alloc, file)?.into_module();
    folders_are_utf8(&main);
    let table = sum_table(alloc, sums)?;
    let loaded = load_module(alloc, &main, files, table.as_ref());
    loaded_outcome(alloc, query, &main, loaded)
}
