//! What visits found, as the parts of a graph: sources, the spans of their lists, and faults.
//!
//! The requirements of the main file are the first list, and those of the files follow in the order in which they were
//! read. Each is a part of the cache's list of numbers, which the graph takes over as it is.

ghost use Rattle.std.specs.Prelude.{◌≡◌, ◌↔◌, ◌⊎◌, ◌<◌, ◌++◌, ◌∷◌, [], ℕ, All, Contains, IfOk, IsSome, OnOk, Some, length, map};
ghost use Rattle.std.specs.BTreeMap as tree;
ghost use Rattle.gm_name.specs.ModuleVersion.{ModuleVersion, module_at, pair_cmp};
ghost use Rattle.gm_graph.specs.Private.Findings.{place_at};
ghost use Rattle.gm_graph.specs.Private.Gathering.{AreFaultsOf, AreFilePlaces, HasFaultOf, fault, source_at, gathered_sources, span_after, spans_of, steps_by};
ghost use Rattle.gm_graph_files.specs.KeptFiles.{AreListsInOrder, AreSpansInOrder};
ghost use Rattle.gm_graph_files.specs.Places.{place_limit};
ghost use Rattle.gm_graph_select.specs.Adjacency.{edges_of, sources_of as steps_left};
ghost use Rattle.gm_graph_select.specs.declared.step.Step.TheVariants.{Of};
ghost use Rattle.gm_graph_select.specs.Graph.{IsEdgeEnd, among, edge_cmp};
ghost use Rattle.gm_graph_select.specs.Order.{HaveSame, IsAscending};

use crate::fault::Fault;
use crate::findings::NumberedFault;
use gm_graph_cache::{CacheParts, Class, Kept, ListSpan};
use gm_graph_select::{Graph, Source, Span};
use gm_name::ModVer;
use gm_name_table::MOST_PLACES;
use std::alloc::{AllocError, Global};
use std::collections::BTreeMap;

/// Appends the source that the vertex with a number is, if this is the place of the file that has its list.
fn push_source(
    sources: &mut Vec<Source>,
    number: usize,
    place: Option<u32>,
) -> Result<(), AllocError>
    requires { IsSome place → number < 4294967296 }
    ensures { OnOk result (sources.new.items ≡ sources.old.items ++ source_at number place) }
{
    if let Some(file) = place {
        sources.push(Source {
            from: Some(number as u32),
            list: file as usize + 1,
        })?;
    }
    Ok(())
}

/// The sources: the main module, and each vertex that has a file, by its number.
fn source_list(alloc: Global, places: &[Option<u32>]) -> Result<Vec<Source>, AllocError>
    requires { (number : ℕ) → IsSome (place_at places.now number) → number < 4294967296 }
    ensures { IfOk result (λ sources. sources.items ≡ gathered_sources places.now) }
{
    let mut sources = Vec::new(alloc);
    sources.push(Source {
        from: None,
        list: 0,
    })?;
    let mut number = 0;
    for place in places {
        push_source(&mut sources, number, *place)?;
        number += 1;
    }
    Ok(sources)
}

/// Where the own list of a file is: an empty span at this place if it has none.
fn span_after(end: u32, own: Option<ListSpan>) -> Span
    requires { AreSpansInOrder end (own ∷ []) place_limit }
    ensures { result ≡ span_after end own }
{
    match own {
        Some(span) => Span {
            start: span.start as u32,
            end: span.end as u32,
        },
        None => Span { start: end, end },
    }
}

/// Where the lists are: that of the main file, whose requirements are so many at the front, and the own list of each
/// file.
fn span_list(alloc: Global, first: usize, files: &[Kept]) -> Result<Vec<Span>, AllocError>
    requires { AreListsInOrder first files.now place_limit }
    ensures { IfOk result (λ spans. spans.items ≡ spans_of first files.now) }
{
    let mut end = first as u32;
    let mut spans = Vec::new(alloc);
    spans.push(Span { start: 0, end })?;
    for kept in files {
        let span = span_after(end, kept.own_span());
        spans.push(span)?;
        end = span.end;
    }
    Ok(spans)
}

/// Lists by their spans, and the steps that they are of.
#[derive(Drop)]
struct Lists {
    /// Where the lists are.
    spans: Vec<Span>,
    /// The main module, and each vertex that has a file.
    sources: Vec<Source>,
}

/// The lists of what the main file and the vertices with a file require. `NoMemory` is returned also if there are
/// `MOST_PLACES` numbers or more.
fn lists_of(
    alloc: Global,
    parts: &CacheParts,
    places: Vec<Option<u32>>,
) -> Result<Lists, AllocError>
    requires { AreFilePlaces parts.now places.items }
    ensures spans { IfOk result (λ lists. lists.spans.items
        ≡ spans_of parts.now.first parts.now.files.items) }
    ensures sources { IfOk result (λ lists. lists.sources.items ≡ gathered_sources places.items) }
{
    if parts.numbers.len() >= MOST_PLACES as usize {
        return Err(AllocError);
    }
    let spans = span_list(alloc, parts.first, &parts.files)?;
    let sources = source_list(alloc, &places)?;
    Ok(Lists { spans, sources })
}

/// The graph of what the main file and the vertices with a file require. Everything else that was read is dropped before
/// the sorted vertices take their memory.
pub(crate) fn graph_of(
    alloc: Global,
    parts: CacheParts,
    places: Vec<Option<u32>>,
) -> Result<Graph, AllocError>
    requires { AreFilePlaces parts places.items }
    ensures vertices { IfOk result (λ graph. (x : ModuleVersion) → Contains graph.vertices x
        ↔ (IsEdgeEnd (among graph.edges) x
        ⊎ Contains (steps_left parts.modules.items (steps_by parts places.items)) (Of x))) }
    ensures edges { IfOk result (λ graph.
        HaveSame (edges_of parts.modules.items (steps_by parts places.items)) graph.edges) }
    ensures ascending { IfOk result (λ graph. IsAscending edge_cmp graph.edges) }
{
    let lists = lists_of(alloc, &parts, places)?;
    let (modules, numbers) = parts.into_lists();
    Graph::new(alloc, modules, numbers, lists.spans, lists.sources)
}

/// The faults by the vertices with these numbers. If one has several, the last one counts.
fn faults_by_vertex(
    alloc: Global,
    modules: &[ModVer],
    faults: &[NumberedFault],
) -> Result<BTreeMap<ModVer, Class>, AllocError>
    requires { All (λ one. one.number < length modules.now) faults.now }
    ensures only { IfOk result (λ map. (x : ModuleVersion) (class : Class) → tree.get pair_cmp map x ≡ Some class
        → HasFaultOf modules.now faults.now x class) }
    ensures each { IfOk result (λ map. All (λ one. IsSome (tree.get pair_cmp map (module_at modules.now one.number)))
        faults.now) }
{
    let mut map = BTreeMap::new(alloc);
    for one in faults {
        map.insert(modules[one.number as usize].copy(alloc)?, one.class)?;
    }
    Ok(map)
}

/// The faults of a map, in the order of their vertices.
fn fault_entries(alloc: Global, faults: BTreeMap<ModVer, Class>) -> Result<Vec<Fault>, AllocError>
    ensures faults { IfOk result (λ list. list.items ≡ map (λ entry. fault entry.0 entry.1) faults.entries) }
    ensures ordered { OnOk result (tree.IsOrdered pair_cmp faults) }
{
    let mut list = Vec::new(alloc);
    for (vertex, class) in faults {
        list.push(Fault { vertex, class })?;
    }
    Ok(list)
}

/// The faults of the vertices with these numbers, in ascending order of the vertices, each with one.
pub(crate) fn fault_list(
    alloc: Global,
    modules: &[ModVer],
    faults: &[NumberedFault],
) -> Result<Vec<Fault>, AllocError>
    requires { All (λ one. one.number < length modules.now) faults.now }
    ensures { IfOk result (λ list. AreFaultsOf modules.now faults.now list.items) }
{
    let map = faults_by_vertex(alloc, modules, faults)?;
    let list = fault_entries(alloc, map)?;
    Ok(list)
}
