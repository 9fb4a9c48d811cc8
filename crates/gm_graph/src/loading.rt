//! Loading a module graph: a loop over the worklist, and the assembly of the result.

ghost use Rattle.std.specs.Prelude.{◌≡◌, ◌<◌, ◌++◌, [], All, Contains, IfOk, Err, length, map};
ghost use Rattle.std.specs.Option.{option_copied};
ghost use Rattle.gm_store_parts.specs.Asked.{name_of, names_in};
ghost use Rattle.gm_store_parts.specs.States.{HasServed};
ghost use Rattle.gm_store_parts.specs.declared.files.FileName.{FileName};
ghost use Rattle.gm_graph.specs.Private.Asking.{AsksInTurn};
ghost use Rattle.gm_graph_cache.specs.Cached.{Knows, file_count, main_in, run_in, sums_in, turns_in};
ghost use Rattle.gm_graph_cache.specs.Refusals.{refused_in};
ghost use Rattle.gm_file.specs.Main.{main_of, replacement_in};
ghost use Rattle.gm_graph_select.specs.BuildList.{IsBuildList};
ghost use Rattle.gm_graph_select.specs.Chains.{IsRooted};
ghost use Rattle.gm_graph_select.specs.Graph.{IsEdgeEnd, among, edge_cmp};
ghost use Rattle.gm_graph_select.specs.Adjacency.{edges_of, sources_of};
ghost use Rattle.gm_name.specs.ModuleVersion.{ModuleVersion};
ghost use Rattle.gm_graph_select.specs.declared.step.Step.TheVariants.{Of};
ghost use Rattle.gm_graph_select.specs.Order.{HaveSame, IsAscending};
ghost use Rattle.gm_graph.specs.Private.Gathering.{AreFaultsOf, AreFilePlaces, steps_by};
ghost use Rattle.gm_graph.specs.Run.{AreTooMany, AskedInTurn, IsDue, IsRead, LoadingNeeds};
ghost use Rattle.gm_graph_cache.specs.Sayings.{run_of};
ghost use Rattle.gm_graph.specs.Outcome.{IsLoaded};
ghost use Rattle.gm_graph.specs.Private.Visiting.{IsOpenedIn};
ghost use Rattle.gm_graph.specs.Private.Worklists.{turn_of};

use crate::findings::Findings;
use crate::followed::Followed;
use crate::gathering::{fault_list, graph_of};
use crate::loaded::Loaded;
use crate::rows::build_list;
use crate::starting::first_worklist;
use crate::visiting::visit;
use crate::worklist::{NumberedTurn, Worklist};
use gm_file::{MainFile, MainModule};
use gm_graph_cache::{Cache, CacheParts, LoadFault, Turn};
use gm_name::ModVer;
use gm_store::Asks;
use gm_store_sums::SumTable;
use std::alloc::{AllocError, Global};

/// Visits the vertices of a worklist one after another: those that the main file requires, and those that visits add.
/// Returns the worklist, and what was found.
fn visit_all<F: Asks>(
    alloc: Global,
    main: &MainModule,
    cache: &mut Cache<'_>,
    files: &mut F,
) -> Result<(Worklist, Findings), LoadFault>
    requires main { main_in cache.old ≡ main.now }
    requires asked { (F.state files.old).asked ≡ [] }
    requires knows { Knows cache.old [] }
    requires lent { turns_in cache.old ≡ [] }
    requires none { file_count cache.old ≡ 0 }
    ensures opened { IfOk result (λ found.
        IsOpenedIn (run_in cache.old (F.state files.new).asked) cache.new found.0 found.1) }
    ensures too_many { result ≡ Err LoadFault.TooMany → IsRead (run_in cache.old (F.state files.new).asked)
        × AreTooMany (run_in cache.old (F.state files.new).asked) }
    ensures asks { AsksInTurn (main_in cache.old) (sums_in cache.old) (F.may_answer files.old) (F.may_answer files.new)
        (F.state files.old) (F.state files.new) (refused_in result) }
{
    let mut worklist = first_worklist(alloc, main, cache)?;
    let mut followed = Followed::new(alloc);
    let mut findings = Findings::new(alloc);
    let mut at = 0;
    'turns: while at < worklist.turns.len() {
        let one = worklist.turns[at];
        visit(
            cache,
            files,
            &mut worklist,
            &mut followed,
            &mut findings,
            one,
        )?;
        at += 1;
    }
    Ok((worklist, findings))
}

/// The turns of a worklist whose numbers are those of these modules. The worklist is dropped.
fn turn_list(
    alloc: Global,
    modules: &[ModVer],
    turns: Vec<NumberedTurn>,
) -> Result<Vec<Turn>, AllocError>
    requires { All (λ one. one.number < length modules.now) turns.items }
    ensures { IfOk result (λ list. list.items ≡ map (turn_of modules.now) turns.items) }
{
    let mut list = Vec::with_capacity(alloc, turns.len())?;
    for one in turns.as_slice() {
        let vertex = modules[one.number as usize].copy(alloc)?;
        list.push(Turn {
            vertex,
            depth: one.depth,
        })?;
    }
    Ok(list)
}

/// The loaded graph of what was found: the vertices are sorted, and the build list is made of them.
fn assemble(
    alloc: Global,
    main: &MainModule,
    parts: CacheParts,
    turns: Vec<NumberedTurn>,
    findings: Findings,
) -> Result<Loaded, AllocError>
    requires turned { All (λ one. one.number < length parts.modules.items) turns.items }
    requires faults { All (λ one. one.number < length parts.modules.items) findings.faults.items }
    requires places { AreFilePlaces parts findings.places.items }
    requires rooted { IsRooted (among (edges_of parts.modules.items (steps_by parts findings.places.items))) }
    requires sources { (x : ModuleVersion)
        → Contains (sources_of parts.modules.items (steps_by parts findings.places.items)) (Of x)
        → IsEdgeEnd (among (edges_of parts.modules.items (steps_by parts findings.places.items))) x }
    ensures main { IfOk result (λ loaded. loaded.main ≡ main.now.path) }
    ensures faults { IfOk result (λ loaded. AreFaultsOf parts.modules.items findings.faults.items loaded.faults) }
    ensures ascending { IfOk result (λ loaded. IsAscending edge_cmp loaded.edges) }
    ensures edges { IfOk result (λ loaded.
        HaveSame (edges_of parts.modules.items (steps_by parts findings.places.items)) loaded.edges) }
    ensures rows { IfOk result (λ loaded.
        IsBuildList main.now.path (replacement_in main.now) (among loaded.edges) loaded.rows) }
    ensures turns { IfOk result (λ loaded. loaded.turns ≡ map (turn_of parts.modules.items) turns.items) }
{
    let Findings { places, faults } = findings;
    let turns = turn_list(alloc, &parts.modules, turns)?;
    let faults = fault_list(alloc, &parts.modules, &faults)?;
    let graph = graph_of(alloc, parts, places)?;
    let rows = build_list(alloc, main, &graph)?;
    let path = main.path().copy(alloc)?;
    Ok(Loaded::new(path, faults, graph, rows, turns))
}

/// Loads the module graph of a main module, as `load` does. What its file says is enough, so that the file itself need not
/// be held.
pub fn load_module<F: Asks>(
    alloc: Global,
    main: &MainModule,
    files: &mut F,
    sums: Option<&SumTable>,
) -> Result<Loaded, LoadFault>
    requires { (F.state files.old).asked ≡ [] }
    ensures loaded { IfOk result
        (IsLoaded (run_of main.now (option_copied sums.entry) (F.state files.new).asked)
        (names_in (F.state files.new).asked)) }
    ensures too_many { result ≡ Err LoadFault.TooMany
        → IsRead (run_of main.now (option_copied sums.entry) (F.state files.new).asked)
        × AreTooMany (run_of main.now (option_copied sums.entry) (F.state files.new).asked) }
    ensures asks { AskedInTurn (LoadingNeeds main.now (option_copied sums.entry))
        (F.state files.new).asked }
    ensures device { (name : FileName) → result ≡ Err (LoadFault.Device name)
        → IsDue (run_of main.now (option_copied sums.entry) (F.state files.new).asked) (name_of name) }
    ensures refused { (F.state files.new).refused ≡ (F.state files.old).refused ++ refused_in result }
    ensures served { HasServed (F.may_answer files.old) (F.may_answer files.new)
        (F.state files.old) (F.state files.new) }
{
    let mut cache = Cache::new(alloc, main, sums)?;
    let found = visit_all(alloc, main, &mut cache, files);
    // The cache is taken apart before a fault is returned, since a path that drops all of it takes long to prove.
    let parts = cache.into_parts();
    let (worklist, findings) = found?;
    Ok(assemble(alloc, main, parts, worklist.into_turns(), findings)?)
}

/// Loads the module graph of a main module's file: finds the faults of the opened vertices, the edges of the graph
/// and the build list (Go Modules Reference, "Minimal version selection" and "Module graph pruning"). Nothing may
/// have been asked of the store before.
///
/// Exactly the files of the opened vertices that may be asked for are asked for, each once. If there is a go.sum, the
/// files of proxies are checked against it.
///
/// `Device` is returned if the store's device fails when it is asked for that file, and `TooMany` only if more than
/// 65,536 vertices are opened; with `Ok` at most that many are. `NoMemory` may be returned instead of any other
/// result. After a refusal the store still holds the answers so far.
pub fn load<F: Asks>(
    alloc: Global,
    main: &MainFile<'_>,
    files: &mut F,
    sums: Option<&SumTable>,
) -> Result<Loaded, LoadFault>
    requires { (F.state files.old).asked ≡ [] }
    ensures loaded { IfOk result
        (IsLoaded (run_of (main_of main.now) (option_copied sums.entry) (F.state files.new).asked)
        (names_in (F.state files.new).asked)) }
    ensures too_many { result ≡ Err LoadFault.TooMany
        → IsRead (run_of (main_of main.now) (option_copied sums.entry) (F.state files.new).asked)
        × AreTooMany (run_of (main_of main.now) (option_copied sums.entry) (F.state files.new).asked) }
    ensures asks { AskedInTurn (LoadingNeeds (main_of main.now) (option_copied sums.entry))
        (F.state files.new).asked }
    ensures device { (name : FileName) → result ≡ Err (LoadFault.Device name)
        → IsDue (run_of (main_of main.now) (option_copied sums.entry) (F.state files.new).asked) (name_of name) }
    ensures refused { (F.state files.new).refused ≡ (F.state files.old).refused ++ refused_in result }
    ensures served { HasServed (F.may_answer files.old) (F.may_answer files.new)
        (F.state files.old) (F.state files.new) }
{
    load_module(alloc, main.main_module(), files, sums)
}
