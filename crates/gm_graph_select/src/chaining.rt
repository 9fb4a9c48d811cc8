//! Shortest chains of requirements, found by a breadth-first search.
//!
//! A chain is traced back from its last step: each visit of the search names its predecessor's. Among several
//! predecessors of a vertex the least is taken, so the chain doesn't depend on the order in which files were read.

ghost use Rattle.std.specs.Prelude.{◌≡◌, ◌++◌, ◌∷◌, ◌<◌, [], IfNone, IfOk, IfSome, IsErrOf, OnOk, length};
ghost use Rattle.gm_name.specs.ModuleVersion.{module_at};
ghost use Rattle.gm_graph_select.specs.Graph.{among};
ghost use Rattle.gm_graph_select.specs.BuildList.{IsEntryOf, HasEntryFor, entries_in};
ghost use Rattle.gm_graph_select.specs.Chains.{IsChain, IsReached};
ghost use Rattle.gm_graph_select.specs.Private.Searching.{IsTracedTo};
ghost use Rattle.gm_graph_select.specs.declared.step.Step.{Step};
ghost use Rattle.gm_graph_select.specs.declared.step.Step.TheVariants.{Of};
ghost use Rattle.gm_graph_select.specs.declared.chaining.ChainFault.TheVariants.{NoMemory};

use crate::graph::Graph;
use crate::row::{Row, row_at};
use crate::searching::{Visit, visits_to};
use crate::step::Step;
use gm_name::{ModPath, ModVer};
use std::alloc::{AllocError, Global};
use thiserror::Error;

/// Why there is no chain.
#[derive(Clone, Copy, Debug, PartialEq, Eq, Error)]
pub enum ChainFault {
    /// Memory ran out.
    #[error("out of memory")]
    NoMemory,
    /// The path is not in the build list.
    #[error("not in the build list")]
    NotListed,
}

impl From<AllocError> for ChainFault {
    ghost from_gives = { λ _ fault. fault ≡ NoMemory };

    /// A failed allocation is `NoMemory`.
    fn from(_error: AllocError) -> ChainFault {
        ChainFault::NoMemory
    }
}

/// The step that the rows have for a path: the main module or a vertex.
fn entry_of<'a, R>(main: &ModPath, rows: &'a [Row<R>], path: &ModPath) -> Option<&'a Step>
    ensures some { IfSome result (λ step. IsEntryOf main.now (entries_in rows.now) path.now step.now) }
    ensures none { IfNone result (¬ (HasEntryFor main.now (entries_in rows.now) path.now)) }
{
    match row_at(main, rows, path) {
        Some((row, _)) => Some(&row.step),
        None => None,
    }
}

/// Appends the step of a copy of a vertex.
fn push_step(alloc: Global, steps: &mut Vec<Step>, vertex: &ModVer) -> Result<(), AllocError>
    ensures { OnOk result (steps.new.items ≡ steps.old.items ++ Of vertex.now ∷ []) }
{
    steps.push(Step::Of(vertex.copy(alloc)?))?;
    Ok(())
}

/// The chain to the goal, whose rank is given. Steps are collected from the last to the first and then reversed, since
/// each visit has only its predecessor's place.
fn walk_back(
    alloc: Global,
    graph: &Graph,
    visits: &[Visit],
    goal: usize,
) -> Result<Vec<Step>, AllocError>
    requires goal { goal < length graph.now.vertices }
    requires traced { IsTracedTo graph.now (module_at graph.now.vertices goal) visits.now }
    ensures { IfOk result (λ steps.
        IsChain (among graph.now.edges) (Of (module_at graph.now.vertices goal)) steps.items) }
{
    let mut steps = Vec::new(alloc);
    push_step(alloc, &mut steps, graph.vertex(goal))?;
    let mut place = visits.len() - 1;
    'back: while let Some(vertex) = graph.numbered(visits[place].number) {
        push_step(alloc, &mut steps, vertex)?;
        place = visits[place].before;
    }
    steps.push(Step::Main)?;
    steps.reverse();
    Ok(steps)
}

/// The chain to a step, or `None` if no edges lead to it from the main module.
fn chain_to(alloc: Global, graph: &Graph, last: &Step) -> Result<Option<Vec<Step>>, AllocError>
    ensures chain { IfOk result (λ chain. IfSome chain (λ steps.
        IsChain (among graph.now.edges) last.now steps.items)) }
    ensures none { IfOk result (λ chain. IfNone chain (¬ (IsReached (among graph.now.edges) last.now))) }
{
    let Step::Of(goal) = last else {
        // The chain to the main module is that module alone.
        return Ok(Some(vec![in alloc; Step::Main]?));
    };
    let Some(rank) = graph.rank_of(goal) else {
        return Ok(None);
    };
    let Some(visits) = visits_to(alloc, graph, rank)? else {
        return Ok(None);
    };
    Ok(Some(walk_back(alloc, graph, &visits, rank)?))
}

impl Graph {
    /// The shortest chain of requirements to the module that the rows list for a path. It begins with the main module,
    /// whose path is `main`; each step requires the next, and no chain of edges to the same module is shorter. The
    /// predecessor of each step is the least of those that are one edge nearer to the main module. The chain to the
    /// main module's own path is the main module alone.
    ///
    /// `NotListed` is returned exactly if no row has the path, or no edges lead from the main module to the row that
    /// has it. `NoMemory` is returned if memory runs out. For n vertices, and lists of m numbers in all, it compares
    /// log n vertices, and numbers n log n + m times at most, however many edges there are.
    pub fn chain<R>(
        &self,
        alloc: Global,
        main: &ModPath,
        rows: &[Row<R>],
        path: &ModPath,
    ) -> Result<Vec<Step>, ChainFault>
        ensures chain { IfOk result (λ steps. (s : Step) × IsEntryOf main.now (entries_in rows.now) path.now s
            × IsChain (among self.now.edges) s steps.items) }
        ensures not_listed { IsErrOf result ChainFault.NotListed
            → ¬ ((s : Step) × IsEntryOf main.now (entries_in rows.now) path.now s
            × IsReached (among self.now.edges) s) }
    {
        let Some(entry) = entry_of(main, rows, path) else {
            return Err(ChainFault::NotListed);
        };
        let Some(steps) = chain_to(alloc, self, entry)? else {
            return Err(ChainFault::NotListed);
        };
        Ok(steps)
    }
}
