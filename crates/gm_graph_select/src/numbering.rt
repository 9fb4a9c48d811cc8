//! Numbers for the steps of a module graph: 0 for the main module, and for each vertex one more than its rank.
//!
//! A search goes over each list once. By numbers it compares no texts there, and needs no map.

ghost use Rattle.std.specs.Prelude.{◌≡◌, ◌<◌, [], Contains, IfNone, IfSome, length};
ghost use Rattle.gm_name.specs.ModuleVersion.{module_at};
ghost use Rattle.gm_graph_select.specs.declared.step.Step.TheVariants.{Main, Of};
ghost use Rattle.gm_graph_select.specs.Private.Numbering.{AreInList, AreLeaving, HasList, IsGraph, number_left, step_at, steps_of};

use crate::adjacency::Source;
use crate::graph::Graph;
use gm_name::ModVer;

/// The number of the step that is a source.
fn number_left(one: &Source) -> usize
    ensures { result ≡ number_left one.now }
{
    match one.from {
        None => 0,
        Some(rank) => rank as usize + 1,
    }
}

impl Graph {
    /// How many steps there are: the main module and the vertices.
    pub(crate) fn step_count(&self) -> usize
        ensures { result ≡ length (steps_of self.now) }
    {
        self.vertices.len() + 1
    }

    /// The vertex with this rank.
    pub(crate) fn vertex(&self, rank: usize) -> &ModVer
        requires { rank < length self.now.vertices }
        ensures { result.now ≡ module_at self.now.vertices rank }
    {
        &self.vertices[rank]
    }

    /// The vertex with this number, or `None` for the main module.
    pub(crate) fn numbered(&self, number: usize) -> Option<&ModVer>
        requires { number < length (steps_of self.now) }
        ensures some { IfSome result (λ vertex. step_at (steps_of self.now) number ≡ Of vertex.now) }
        ensures none { IfNone result (step_at (steps_of self.now) number ≡ Main) }
    {
        if number == 0 {
            return None;
        }
        Some(&self.vertices[number - 1])
    }

    /// The rank of a vertex, or `None` if it isn't in the graph. For n vertices it takes log n comparisons.
    pub(crate) fn rank_of(&self, vertex: &ModVer) -> Option<usize>
        ensures graph { IsGraph self.now }
        ensures some { IfSome result (λ rank.
            (rank < length self.now.vertices) × (module_at self.now.vertices rank ≡ vertex.now)) }
        ensures none { IfNone result (Contains self.now.vertices vertex.now → ⊥) }
    {
        match self.vertices.binary_search(vertex) {
            Ok(rank) => Some(rank),
            Err(_) => None,
        }
    }

    /// How many lists there are.
    pub(crate) fn list_count(&self) -> usize {
        self.lists.len()
    }

    /// The place of the list of the vertices that edges lead to from the step with this number, or `None` if it has
    /// none. For n vertices it compares log n numbers.
    pub(crate) fn list_of(&self, number: usize) -> Option<usize>
        requires { number < length (steps_of self.now) }
        ensures some { IfSome result (λ list. HasList self.now number list) }
        ensures none { IfNone result (AreLeaving self.now number []) }
    {
        match self.sources.binary_search_by_key(&number, number_left) {
            Ok(place) => Some(self.sources[place].list),
            Err(_) => None,
        }
    }

    /// The ranks in the list at this place. Each step with this list has edges to their vertices, and to no others.
    pub(crate) fn ranks_in(&self, list: usize) -> &[u32]
        ensures { AreInList self.now list result.now }
    {
        self.lists.at(list)
    }
}
