//! Adjacency lists: edges by the numbers of the vertices, grouped by the step that they leave.
//!
//! A vertex may be as long as a file. While a graph is made a vertex is its number, which takes four bytes, and is
//! compared at once. Steps with the same requirements share a list of these, so that it is held and sorted once.

ghost use Rattle.std.specs.Prelude.{◌≡◌, ◌<◌, ◌≤◌, All, length, map, slice_index, take};
ghost use Rattle.std.specs.List.Sorted.{IsPermutation, IsSortedByKey};
ghost use Rattle.std.specs.Option.{option_cmp, option_map};
ghost use Rattle.std.specs.Ordering.{nat_cmp};
ghost use Rattle.gm_graph_select.specs.Adjacency.{IsBelow};
ghost use Rattle.gm_graph_select.specs.Private.Adjacency.{IsByRanks, source_by_ranks};

use crate::sorting::put_in_order;

/// A step that edges leave, and where the vertices are that they lead to. The number of a vertex is its place in a list
/// of vertices.
#[derive(Clone, Copy, Drop)]
pub struct Source {
    /// The number of the vertex that the edges leave, or `None` for the main module.
    pub from: Option<u32>,
    /// The place of the list of the vertices that they lead to, among lists of numbers. Sources may share a list.
    pub list: usize,
}

/// The rank at this number, if it is one.
fn rank_of(number: Option<u32>, ranks: &[u32]) -> Option<u32>
    requires { IsBelow (length ranks.now) number }
    ensures { result ≡ option_map (slice_index ranks.now) number }
{
    match number {
        None => None,
        Some(number) => Some(ranks[number as usize]),
    }
}

/// Puts the rank of each of these numbers in its place.
fn put_ranks(numbers: &mut [u32], ranks: &[u32])
    requires { All (λ number. number < length ranks.now) numbers.old }
    ensures { numbers.new ≡ map (slice_index ranks.now) numbers.old }
{
    for number in numbers.iter_mut() {
        *number = ranks[*number as usize];
    }
}

/// Puts ranks in the places of these numbers, in ascending order, each once, and returns how many there are. They are
/// at the front. It takes no memory. For n numbers it takes n log n comparisons, or only n if the ranks come in
/// ascending order.
pub(crate) fn rank_list(numbers: &mut [u32], ranks: &[u32]) -> usize
    requires { All (λ number. number < length ranks.now) numbers.old }
    ensures count { result ≤ length numbers.old }
    ensures ranks { IsByRanks ranks.now numbers.old (take result numbers.new) }
{
    put_ranks(numbers, ranks);
    put_in_order(numbers)
}

/// Puts ranks in the places of the numbers of the steps that sources are.
fn rank_sources(sources: &mut [Source], ranks: &[u32])
    requires { All (λ one. IsBelow (length ranks.now) one.from) sources.old }
    ensures { sources.new ≡ map (source_by_ranks ranks.now) sources.old }
{
    for one in sources.iter_mut() {
        one.from = rank_of(one.from, ranks);
    }
}

/// These sources by ranks, in ascending order.
pub(crate) fn sources_by_ranks(mut sources: Vec<Source>, ranks: &[u32]) -> Vec<Source>
    requires { All (λ one. IsBelow (length ranks.now) one.from) sources.items }
    ensures permutation { IsPermutation (map (source_by_ranks ranks.now) sources.items) result.items }
    ensures sorted { IsSortedByKey (λ one. one.from) (option_cmp nat_cmp) result.items }
{
    rank_sources(&mut sources, ranks);
    sources.sort_unstable_by_key(|one| one.from);
    sources
}
