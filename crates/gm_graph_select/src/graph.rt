//! Module graphs: vertices in ascending order, and edges by their ranks.
//!
//! The vertices are sorted once. From then on a vertex is its rank, its place in the sorted list, so that edges are in
//! order if their ranks are.

ghost use Rattle.std.specs.Prelude.{◌≡◌, ◌↔◌, ◌⊎◌, ◌<◌, ◌≤◌, All, Contains, IfOk, List, length};
ghost use Rattle.std.specs.List.{IsDistinct};
ghost use Rattle.gm_name.specs.ModuleVersion.{ModuleVersion, pair_eq};
ghost use Rattle.gm_graph_select.specs.Adjacency.{IsBelow, by_step, edges_of, same_step, sources_of};
ghost use Rattle.gm_graph_select.specs.declared.step.Edge.{Edge};
ghost use Rattle.gm_graph_select.specs.declared.step.Step.TheVariants.{Of};
ghost use Rattle.gm_graph_select.specs.BuildList.{AreSelected};
ghost use Rattle.gm_graph_select.specs.Graph.{AreEnds, IsEdgeEnd, among, edge_cmp};
ghost use Rattle.gm_graph_select.specs.Order.{HaveSame, IsAscending};
ghost use Rattle.gm_graph_select.specs.Spans.{AreSpansApart, lists_at};

use crate::adjacency::{Source, sources_by_ranks};
use crate::edge_list::Edges;
use crate::marking::marks_of;
use crate::number_lists::{NumberLists, Span};
use crate::ranking::ranked;
use crate::selecting::Selection;
use gm_name::{ModPath, ModVer, NoMemory};
use std::alloc::Global;
use std::marker::Model;

/// A module graph: its vertices, and its edges in strictly ascending order.
#[derive(Drop)]
pub struct Graph {
    /// The vertices, in strictly ascending order.
    pub(crate) vertices: Vec<ModVer>,
    /// Lists of the ranks of vertices, each in strictly ascending order.
    pub(crate) lists: NumberLists,
    /// For each step that edges leave, by its rank, the list of the vertices that they lead to. The steps ascend.
    pub(crate) sources: Vec<Source>,
}

impl Model for Graph {
    ghost use Rattle.gm_graph_select.specs.Adjacency.{GraphView, AreRanked, by_step, edges_of};

    ghost Value = { GraphView };

    ghost view = { λ g. record {
      vertices = g.vertices.items;
      edges = edges_of g.vertices.items (by_step g.lists g.sources.items);
      sources = g.sources.items;
    } };

    ghost invariant = { λ g. AreRanked g.vertices.items (by_step g.lists g.sources.items) };
}

impl Graph {
    /// The graph of these edges by the numbers of modules. Each span is that of a list of numbers, and none begins
    /// before the end of the one before it. At most one source is each step; several may share a list, and a list may be
    /// that of none. A list may have its numbers in any order, and twice. The modules are distinct; those that no edge
    /// leads to and that are no sources are left out.
    ///
    /// The numbers aren't copied: the graph has ranks in their places.
    ///
    /// The only refusal is `NoMemory`. For n vertices, s sources and lists of m numbers in all it takes n log n
    /// comparisons of vertices, and of numbers m log m + s log s at most, however many edges there are. Time and memory
    /// are also in proportion to the modules and the spans.
    pub fn new(
        alloc: Global,
        modules: Vec<ModVer>,
        numbers: Vec<u32>,
        spans: Vec<Span>,
        sources: Vec<Source>,
    ) -> Result<Graph, NoMemory>
        requires few { length modules.items ≤ 4294967295 }
        requires distinct { IsDistinct pair_eq modules.items }
        requires apart { AreSpansApart 0 spans.items (length numbers.items) }
        requires sources { All (λ one. IsBelow (length modules.items) one.from) sources.items }
        requires lists { All (All (λ number. number < length modules.items)) (lists_at numbers.items spans.items) }
        requires once { IsDistinct (same_step modules.items)
            (by_step (lists_at numbers.items spans.items) sources.items) }
        ensures vertices { IfOk result (λ graph. (x : ModuleVersion) → Contains graph.vertices x
            ↔ (IsEdgeEnd (among graph.edges) x ⊎ Contains (sources_of modules.items
            (by_step (lists_at numbers.items spans.items) sources.items)) (Of x))) }
        ensures edges { IfOk result (λ graph. HaveSame (edges_of modules.items
            (by_step (lists_at numbers.items spans.items) sources.items)) graph.edges) }
        ensures ascending { IfOk result (λ graph. IsAscending edge_cmp graph.edges) }
    {
        let lists = NumberLists::new(numbers, spans);
        let is_vertex = marks_of(alloc, modules.len(), &lists, &sources)?;
        let ranking = ranked(alloc, modules, &is_vertex)?;
        let lists = lists.by_ranks(&ranking.ranks);
        let sources = sources_by_ranks(sources, &ranking.ranks);
        Ok(Graph {
            vertices: ranking.vertices,
            lists,
            sources,
        })
    }

    /// The edges, in strictly ascending order. It takes no memory.
    pub fn edges(&self) -> Edges<'_>
        ensures { result ≡ self.now.edges }
    {
        Edges::all(&self.vertices, &self.lists, &self.sources)
    }

    /// The selected modules (Go Modules Reference, "Minimal version selection"). Each path of a vertex but the main
    /// module's comes once, at its greatest version, in ascending order of the bytes of the path. That is minimal
    /// version selection if an edge leads to each vertex. It takes no memory.
    pub fn selected<'a>(&'a self, main: &'a ModPath) -> Selection<'a>
        ensures { (edges : List Edge) → AreEnds self.now.vertices (among edges)
            → AreSelected main.now (among edges) result }
    {
        Selection::among(main, &self.vertices)
    }
}
