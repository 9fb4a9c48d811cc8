//! The edges that leave sources, one after the other, without a copy of any module.

ghost use Rattle.std.specs.Prelude.{◌≡◌, ◌∷◌, [], IfNone, IfOk, IfSome, length};
ghost use Rattle.std.specs.Iterator.{YieldsFirst, YieldsFirstBy, item_count};
ghost use Rattle.gm_graph_select.specs.Adjacency.{HaveNumbers, IsBelow, by_step, edges_of, step_with};
ghost use Rattle.gm_graph_select.specs.EdgeList.{edge_of_ref, step_of_ref};
ghost use Rattle.gm_graph_select.specs.Private.Adjacency.{numbered_edges};

use crate::adjacency::Source;
use crate::number_lists::NumberLists;
use crate::step::{Edge, Step};
use gm_name::ModVer;
use std::alloc::{AllocError, Global};
use std::marker::Model;

/// The edges that leave sources, each as the numbers of its ends. A clause sees those that are still to come.
#[derive(Drop)]
pub(crate) struct Pairs<'a> {
    /// The number of the vertex that the next edges leave, or `None` for the main module.
    from: Option<u32>,
    /// The numbers of the vertices that these edges lead to.
    to: &'a [u32],
    /// The sources of the edges after them.
    sources: &'a [Source],
    /// The lists of the sources.
    lists: &'a NumberLists,
}

impl<'a> Model for Pairs<'a> {
    ghost use Rattle.std.specs.Prelude.{◌∷◌, List};
    ghost use Rattle.gm_graph_select.specs.Adjacency.{by_step};
    ghost use Rattle.gm_graph_select.specs.EdgeList.{NumberedEdge};
    ghost use Rattle.gm_graph_select.specs.Private.Adjacency.{numbered_edges};

    ghost Value = { List NumberedEdge };

    ghost view = { λ p. numbered_edges (record { from = p.from; to = p.to.now } ∷ by_step p.lists.now p.sources.now) };
}

impl<'a> Pairs<'a> {
    /// The edges that leave all sources.
    fn all(lists: &'a NumberLists, sources: &'a [Source]) -> Pairs<'a>
        ensures { result ≡ numbered_edges (by_step lists.now sources.now) }
    {
        Pairs {
            from: None,
            to: &[],
            sources,
            lists,
        }
    }
}

/// The first edge that leaves one of these sources, and those after it.
fn first_of<'a>(
    lists: &'a NumberLists,
    sources: &'a [Source],
) -> Option<((Option<u32>, u32), Pairs<'a>)>
    ensures some { IfSome result (λ found. numbered_edges (by_step lists.now sources.now) ≡ found.0 ∷ found.1) }
    ensures none { IfNone result (numbered_edges (by_step lists.now sources.now) ≡ []) }
{
    for (place, one) in sources.iter().enumerate() {
        if let Some((number, to)) = lists.at(one.list).split_first() {
            let rest = Pairs {
                from: one.from,
                to,
                sources: &sources[place + 1..],
                lists,
            };
            return Some(((one.from, *number), rest));
        }
    }
    None
}

impl<'a> Iterator for Pairs<'a> {
    /// The numbers of the vertex that the edge leaves, if it isn't the main module, and of that it leads to.
    type Item = (Option<u32>, u32);

    ghost next_gives = { YieldsFirst (λ pairs. pairs) };

    ghost remaining = { item_count (λ pairs. pairs) };

    /// The next edge, or `None` after the last one.
    fn next(&mut self) -> Option<(Option<u32>, u32)> {
        if let Some((number, to)) = self.to.split_first() {
            self.to = to;
            return Some((self.from, *number));
        }
        let (pair, rest) = first_of(self.lists, self.sources)?;
        *self = rest;
        Some(pair)
    }
}

/// An edge that a graph lends.
#[derive(Clone, Copy)]
pub struct EdgeRef<'a> {
    /// The module that requires, or `None` for the main module.
    pub from: Option<&'a ModVer>,
    /// The module that it requires.
    pub to: &'a ModVer,
}

impl<'a> EdgeRef<'a> {
    /// The edge, which shares the texts of its modules. The only refusal is `AllocError`, if memory runs out.
    pub fn to_edge(&self, alloc: Global) -> Result<Edge, AllocError>
        ensures { IfOk result (λ edge. edge ≡ edge_of_ref self.now) }
    {
        let from = match self.from {
            None => Step::Main,
            Some(vertex) => Step::Of(vertex.copy(alloc)?),
        };
        let to = self.to.copy(alloc)?;
        Ok(Edge { from, to })
    }
}

/// An iterator over edges, in order. It takes no memory. A clause sees it as the list of the edges that are still to
/// come.
#[derive(Drop)]
pub struct Edges<'a> {
    /// The vertices of the graph.
    vertices: &'a [ModVer],
    /// The edges that are still to come, by the numbers of these vertices.
    pairs: Pairs<'a>,
}

impl<'a> Model for Edges<'a> {
    ghost use Rattle.std.specs.Prelude.{All, List, length, map};
    ghost use Rattle.gm_graph_select.specs.declared.step.Edge.{Edge};
    ghost use Rattle.gm_graph_select.specs.EdgeList.{AreEndsBelow, edge_with};

    ghost Value = { List Edge };

    ghost view = { λ e. map (edge_with e.vertices.now) e.pairs };

    ghost invariant = { λ e. All (AreEndsBelow (length e.vertices.now)) e.pairs };
}

/// The vertex with this number, or `None` for the main module.
fn vertex_with(vertices: &[ModVer], number: Option<u32>) -> Option<&ModVer>
    requires { IsBelow (length vertices.now) number }
    ensures { step_of_ref result ≡ step_with vertices.now number }
{
    match number {
        None => None,
        Some(number) => Some(&vertices[number as usize]),
    }
}

impl<'a> Iterator for Edges<'a> {
    /// An edge of the list.
    type Item = EdgeRef<'a>;

    ghost next_gives = { YieldsFirstBy edge_of_ref (λ edges. edges) };

    ghost remaining = { item_count (λ edges. edges) };

    /// The next edge, or `None` after the last one.
    fn next(&mut self) -> Option<EdgeRef<'a>> {
        let (from, to) = self.pairs.next()?;
        Some(EdgeRef {
            from: vertex_with(self.vertices, from),
            to: &self.vertices[to as usize],
        })
    }
}

impl<'a> Edges<'a> {
    /// The edges that leave all sources, by the numbers of these vertices.
    pub(crate) fn all(
        vertices: &'a [ModVer],
        lists: &'a NumberLists,
        sources: &'a [Source],
    ) -> Edges<'a>
        requires { HaveNumbers (length vertices.now) (by_step lists.now sources.now) }
        ensures { result ≡ edges_of vertices.now (by_step lists.now sources.now) }
    {
        Edges {
            vertices,
            pairs: Pairs::all(lists, sources),
        }
    }
}
