//! A breadth-first search for a vertex, by numbers.
//!
//! The steps of a level are visited in ascending order, and the edges that leave a visited step are followed. So the
//! first edge that leads to a step comes from its predecessor: the least step that is one edge nearer to the main
//! module. The search ends at the first edge that leads to the goal.
//!
//! If steps share a list, their edges lead to the same vertices, so those of a later one find nothing new. Each list is
//! passed over once.

ghost use Rattle.std.specs.Prelude.{◌≡◌, ◌<◌, ◌≤◌, ◌++◌, ◌∷◌, [], false, true, ℕ, IfNone, IfOk, IfSome, OnOk, length, replicate, slice_index_or, slice_set};
ghost use Rattle.std.specs.List.Sorted.{IsNonDecreasingBy};
ghost use Rattle.gm_name.specs.ModuleVersion.{module_at};
ghost use Rattle.gm_graph_select.specs.Graph.{among};
ghost use Rattle.gm_graph_select.specs.declared.step.Step.TheVariants.{Of};
ghost use Rattle.gm_graph_select.specs.Order.{HaveSame};
ghost use Rattle.gm_graph_select.specs.Chains.{IsReached};
ghost use Rattle.gm_graph_select.specs.Private.Marking.{AreMarked, HasMark};
ghost use Rattle.gm_graph_select.specs.Private.Numbering.{IsGraph, step_at, steps_of};
ghost use Rattle.gm_graph_select.specs.Private.Searching.{AreEndsFound, AreNewVisits, ArePassed, IsEdgeTo, IsFollowed, IsSearchedTo, IsTracedTo};

use crate::graph::Graph;
use crate::sorting::sorted;
use std::alloc::{AllocError, Global};
use std::mem;

/// A visit to a step. Visits are ordered by the number of the step first, which the field order decides.
#[derive(Clone, Copy, Drop, PartialEq, Eq, PartialOrd, Ord)]
pub(crate) struct Visit {
    /// The number of the step.
    pub(crate) number: usize,
    /// The place among the visits at which its predecessor was visited. The main module has none.
    pub(crate) before: usize,
}

/// The state of a search.
#[derive(Drop)]
struct Search {
    /// For each number, whether an edge that was followed leads to its step.
    is_found: Vec<bool>,
    /// The visits so far, in their order.
    visits: Vec<Visit>,
    /// The visits to the next level, in the order in which its steps were found.
    next: Vec<Visit>,
    /// For each list of the graph, whether the edges of a step with this list were followed, none of them to the goal.
    is_passed: Vec<bool>,
}

impl Search {
    /// The state before the first level, whose only step is the main module.
    fn new(alloc: Global, graph: &Graph) -> Result<Search, AllocError>
        ensures found { IfOk result (λ search.
            search.is_found.items ≡ slice_set (replicate (length (steps_of graph.now)) false) 0 true) }
        ensures visits { IfOk result (λ search. search.visits.items ≡ []) }
        ensures next { IfOk result (λ search. search.next.items ≡ []) }
        ensures passed { IfOk result (λ search. (list : ℕ) → ¬ (HasMark search.is_passed.items list)) }
    {
        let mut is_found = vec![in alloc; false; graph.step_count()]?;
        is_found[0] = true;
        let is_passed = vec![in alloc; false; graph.list_count()]?;
        Ok(Search {
            is_found,
            visits: Vec::new(alloc),
            next: Vec::new(alloc),
            is_passed,
        })
    }

    /// Whether the list at this place was passed.
    fn has_passed(&self, list: usize) -> bool
        ensures { result ≡ slice_index_or self.now.is_passed.items list false }
    {
        match self.is_passed.get(list) {
            None => false,
            Some(is_passed) => *is_passed,
        }
    }

    /// Notes that the list at this place was passed. There is nothing to note at a place past the end.
    fn pass(&mut self, list: usize)
        ensures others { self.new ≡ record self.old { is_passed = self.new.is_passed } }
        ensures passed { self.new.is_passed.items ≡ slice_set self.old.is_passed.items list true }
    {
        if list < self.is_passed.len() {
            self.is_passed[list] = true;
        }
    }

    /// Follows an edge from the step that was visited at the place `before` to the step with this number, which isn't
    /// the goal.
    fn follow(&mut self, before: usize, number: usize) -> Result<(), AllocError>
        requires { number < length self.old.is_found.items }
        ensures others { self.new ≡ record self.old { is_found = self.new.is_found; next = self.new.next } }
        ensures found { AreMarked self.old.is_found.items (number ∷ []) self.new.is_found.items }
        ensures followed { OnOk result (AreNewVisits before (λ found. found ≡ number) self.old self.new) }
    {
        if self.is_found[number] {
            return Ok(());
        }
        self.is_found[number] = true;
        self.next.push(Visit { number, before })?;
        Ok(())
    }

    /// Visits a step of the level, and follows the edges that leave it, unless its list was passed. Returns whether one
    /// of them leads to the goal, whose rank is given.
    fn visit(&mut self, graph: &Graph, goal: usize, visit: Visit) -> Result<bool, AllocError>
        requires graph { IsGraph graph.now }
        requires goal { goal < length graph.now.vertices }
        requires size { length self.old.is_found.items ≡ length (steps_of graph.now) }
        requires inside { visit.number < length (steps_of graph.now) }
        ensures size { length self.new.is_found.items ≡ length (steps_of graph.now) }
        ensures visits { OnOk result (self.new.visits.items ≡ self.old.visits.items ++ visit ∷ []) }
        ensures found { IfOk result (λ is_goal. is_goal ≡ true
            → among graph.now.edges (step_at (steps_of graph.now) visit.number) (module_at graph.now.vertices goal)) }
        ensures missed { IfOk result (λ is_goal. is_goal ≡ false
            → AreNewVisits (length self.old.visits.items) (IsEdgeTo graph.now visit.number) self.old self.new
            × (ArePassed graph.now (module_at graph.now.vertices goal) self.old.is_found.items self.old.is_passed.items
            → ArePassed graph.now (module_at graph.now.vertices goal) self.new.is_found.items self.new.is_passed.items
            × AreEndsFound graph.now (module_at graph.now.vertices goal) self.new.is_found.items visit.number)) }
    {
        let before = self.visits.len();
        self.visits.push(visit)?;
        let Some(list) = graph.list_of(visit.number) else {
            return Ok(false);
        };
        let ranks = graph.ranks_in(list);
        if self.has_passed(list) {
            return Ok(false);
        }
        for rank in ranks {
            let rank = *rank as usize;
            if rank == goal {
                return Ok(true);
            }
            self.follow(before, rank + 1)?;
        }
        self.pass(list);
        Ok(false)
    }

    /// Visits the steps of a level. Returns whether an edge that leaves one of them leads to the goal, whose rank is
    /// given.
    fn visit_level(&mut self, graph: &Graph, goal: usize, due: &[Visit]) -> Result<bool, AllocError>
        requires graph { IsGraph graph.now }
        requires goal { goal < length graph.now.vertices }
        requires searched { (level : ℕ)
            × IsSearchedTo graph.now (module_at graph.now.vertices goal) level self.old due.now }
        ensures found { IfOk result (λ is_goal. is_goal ≡ true
            → IsTracedTo graph.now (module_at graph.now.vertices goal) self.new.visits.items) }
        ensures missed { IfOk result (λ is_goal. is_goal ≡ false → (level : ℕ)
            → IsSearchedTo graph.now (module_at graph.now.vertices goal) level self.old due.now
            → IsFollowed graph.now (module_at graph.now.vertices goal) level self.old.is_found.items due.now self.new) }
    {
        for visit in due {
            if self.visit(graph, goal, *visit)? {
                return Ok(true);
            }
        }
        Ok(false)
    }

    /// Takes the visits to the next level, in ascending order of their steps.
    fn take_level(&mut self, alloc: Global) -> Vec<Visit>
        ensures others { self.new ≡ record self.old { next = self.new.next } }
        ensures none { self.new.next.items ≡ [] }
        ensures members { HaveSame self.old.next.items result.items }
        ensures fewer { length result.items ≤ length self.old.next.items }
        ensures ascending { IsNonDecreasingBy (λ visit. visit.number) result.items }
    {
        sorted(mem::replace(&mut self.next, Vec::new(alloc)))
    }
}

/// The visits up to that of the goal's predecessor, or `None` if no edges lead from the main module to the goal, whose
/// rank is given. A level is visited, then the next one, and so on, until an edge leads to the goal or no steps are
/// left.
pub(crate) fn visits_to(
    alloc: Global,
    graph: &Graph,
    goal: usize,
) -> Result<Option<Vec<Visit>>, AllocError>
    requires graph { IsGraph graph.now }
    requires goal { goal < length graph.now.vertices }
    ensures found { IfOk result (λ visits. IfSome visits (λ visits.
        IsTracedTo graph.now (module_at graph.now.vertices goal) visits.items)) }
    ensures none { IfOk result (λ visits. IfNone visits
        (IsReached (among graph.now.edges) (Of (module_at graph.now.vertices goal)) → ⊥)) }
{
    // The only step of the first level is the main module.
    let main = Visit {
        number: 0,
        before: 0,
    };
    let mut due = vec![in alloc; main]?;
    let mut search = Search::new(alloc, graph)?;
    'levels: while !due.is_empty() {
        if search.visit_level(graph, goal, &due)? {
            return Ok(Some(search.visits));
        }
        due = search.take_level(alloc);
    }
    Ok(None)
}
