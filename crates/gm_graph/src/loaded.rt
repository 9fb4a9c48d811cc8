//! The loaded module graph, and what can be asked of it.

ghost use Rattle.std.specs.Prelude.{◌≡◌, [], IfOk, OnErr, IsErrOf};
ghost use Rattle.gm_graph_select.specs.BuildList.{IsEntryOf, HasEntryFor, IsRestAfter};
ghost use Rattle.gm_graph.specs.Entries.{entries_of_rows};
ghost use Rattle.gm_graph_select.specs.Chains.{IsChain};
ghost use Rattle.gm_graph_select.specs.Graph.{among};
ghost use Rattle.gm_graph_select.specs.declared.step.Step.{Step};
ghost use Rattle.gm_graph.specs.Outcome.{AreReached};

use crate::fault::Fault;
use crate::rows::{Row, Rows};
use gm_graph_cache::Turn;
use gm_graph_select::{ChainFault, Edges, Graph, NotListed, Step};
use gm_name::ModPath;
use std::alloc::Global;
use std::marker::Model;

/// The module graph of a main module's file: its faults, its edges, and the build list by minimal version selection
/// (Go Modules Reference, "Minimal version selection").
#[derive(Drop)]
pub struct Loaded {
    /// The main module's path.
    main: ModPath,
    /// The faults, in strictly ascending order of their vertices.
    faults: Vec<Fault>,
    /// The vertices that edges lead to, and the edges.
    graph: Graph,
    /// The build list.
    rows: Vec<Row>,
    /// The turns whose requirements were read, without duplicates.
    turns: Vec<Turn>,
}

impl Model for Loaded {
    ghost use Rattle.gm_graph.specs.Entries.{entries_of_rows};
    ghost use Rattle.gm_graph.specs.Outcome.{AreReached, LoadedGraph};

    ghost Value = { LoadedGraph };

    ghost view = { λ l. record {
      main = l.main;
      faults = l.faults.items;
      edges = l.graph.edges;
      rows = entries_of_rows l.rows.items;
      turns = l.turns.items;
    } };

    ghost invariant = { λ l. AreReached l.graph.edges (entries_of_rows l.rows.items) };
}

impl Loaded {
    /// The graph with these parts.
    pub(crate) fn new(
        main: ModPath,
        faults: Vec<Fault>,
        graph: Graph,
        rows: Vec<Row>,
        turns: Vec<Turn>,
    ) -> Loaded
        requires { AreReached graph.edges (entries_of_rows rows.items) }
        ensures main { result.main ≡ main }
        ensures faults { result.faults ≡ faults.items }
        ensures edges { result.edges ≡ graph.edges }
        ensures rows { result.rows ≡ entries_of_rows rows.items }
        ensures turns { result.turns ≡ turns.items }
    {
        Loaded {
            main,
            faults,
            graph,
            rows,
            turns,
        }
    }

    /// The opened vertices with a fault, each with its fault, in strictly ascending order. It takes no memory.
    pub fn faults(&self) -> &[Fault]
        ensures { result.now ≡ self.now.faults }
    {
        self.faults.as_slice()
    }

    /// The faults, as `faults` lends them. All else is dropped. It takes no memory.
    pub fn into_faults(self) -> Vec<Fault>
        ensures { result.items ≡ self.faults }
    {
        self.faults
    }

    /// The edges of the graph, in strictly ascending order. It takes no memory.
    pub fn edges(&self) -> Edges<'_>
        ensures { result ≡ self.now.edges }
    {
        self.graph.edges()
    }

    /// The vertices and depths for which requirements were read, without duplicates. It takes no memory.
    pub fn turns(&self) -> &[Turn]
        ensures { result.now ≡ self.now.turns }
    {
        self.turns.as_slice()
    }

    /// The build list. It begins with the main module, and each other path follows once with its greatest version,
    /// in ascending order of the bytes of the path. No opened vertex may have a fault, since the list would
    /// otherwise be incomplete. It takes no memory.
    pub fn build_list(&self) -> &[Row]
        requires { self.now.faults ≡ [] }
        ensures { entries_of_rows result.now ≡ self.now.rows }
    {
        self.rows.as_slice()
    }

    /// The entries after that of a path in the build list. No opened vertex may have a fault.
    ///
    /// `NotListed` is returned exactly if the path isn't in the build list. It takes no memory.
    pub fn rest_after<'a>(&'a self, path: &ModPath) -> Result<Rows<'a>, NotListed>
        requires { self.now.faults ≡ [] }
        ensures rest { IfOk result (λ left.
            IsRestAfter self.now.main self.now.rows path.now (entries_of_rows left)) }
        ensures not_listed { OnErr result (¬ (HasEntryFor self.now.main self.now.rows path.now)) }
    {
        gm_graph_select::rest_after(&self.main, &self.rows, path)
    }

    /// The shortest chain of edges from the main module to the entry of a path in the build list. Among several
    /// predecessors of a vertex the least is taken. No opened vertex may have a fault.
    ///
    /// `NotListed` is returned exactly if the path isn't in the build list, unless memory runs out and `NoMemory` is
    /// returned in its place.
    pub fn chain(&self, alloc: Global, path: &ModPath) -> Result<Vec<Step>, ChainFault>
        requires { self.now.faults ≡ [] }
        ensures chain { IfOk result (λ steps. (s : Step) × IsEntryOf self.now.main self.now.rows path.now s
            × IsChain (among self.now.edges) s steps.items) }
        ensures not_listed { IsErrOf result ChainFault.NotListed
            → ¬ (HasEntryFor self.now.main self.now.rows path.now) }
    {
        self.graph.chain(alloc, &self.main, &self.rows, path)
    }
}
