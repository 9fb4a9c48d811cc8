//! Lists of numbers, each a part of one long list.
//!
//! One long list takes two allocations, however many lists there are, and whoever made it gives it away without a copy.

ghost use Rattle.std.specs.Prelude.{◌≡◌, ◌<◌, ◌∷◌, [], All, length};
ghost use Rattle.std.specs.List.{AllZip};
ghost use Rattle.gm_graph_select.specs.Adjacency.{list_at};
ghost use Rattle.gm_graph_select.specs.Private.Adjacency.{IsByRanks};
ghost use Rattle.gm_graph_select.specs.Spans.{AreSpansApart, lists_at, part_at};
ghost use Rattle.gm_graph_select.specs.Private.Spans.{IsPartByRanks};

use crate::adjacency::rank_list;
use std::marker::Model;

/// A part of a list of numbers: those from `start` up to, not including, `end`.
#[derive(Clone, Copy, Drop)]
pub struct Span {
    /// The place of the first number.
    pub start: u32,
    /// The place behind the last number.
    pub end: u32,
}

/// The numbers at a span.
fn part(numbers: &[u32], span: Span) -> &[u32]
    requires { AreSpansApart 0 (span ∷ []) (length numbers.now) }
    ensures { result.now ≡ part_at numbers.now span }
{
    &numbers[span.start as usize..span.end as usize]
}

/// Puts ranks in the places of the numbers at a span, in ascending order, each once, and returns where they are: at the
/// front of the span.
fn rank_part(numbers: &mut [u32], span: Span, ranks: &[u32]) -> Span
    requires within { AreSpansApart 0 (span ∷ []) (length numbers.old) }
    requires numbered { All (λ number. number < length ranks.now) (part_at numbers.old span) }
    ensures { IsPartByRanks ranks.now numbers.old span numbers.new result }
{
    let Span { start, end } = span;
    let count = rank_list(&mut numbers[start as usize..end as usize], ranks);
    Span {
        start,
        end: start + count as u32,
    }
}

/// Puts ranks in the places of the numbers at each of these spans, in ascending order, each once. The spans end earlier
/// if there are fewer ranks than numbers.
fn rank_parts(numbers: &mut [u32], spans: &mut [Span], ranks: &[u32])
    requires apart { AreSpansApart 0 spans.old (length numbers.old) }
    requires numbered { All (All (λ number. number < length ranks.now)) (lists_at numbers.old spans.old) }
    ensures size { length numbers.new ≡ length numbers.old }
    ensures apart { AreSpansApart 0 spans.new (length numbers.old) }
    ensures ranks { AllZip (IsByRanks ranks.now) (lists_at numbers.old spans.old) (lists_at numbers.new spans.new) }
{
    for span in spans.iter_mut() {
        *span = rank_part(numbers, *span, ranks);
    }
}

/// Lists of numbers. A clause sees them as lists.
#[derive(Drop)]
pub(crate) struct NumberLists {
    /// The numbers of all lists.
    numbers: Vec<u32>,
    /// Where each list is among them.
    spans: Vec<Span>,
}

impl Model for NumberLists {
    ghost use Rattle.std.specs.Prelude.{List, ℕ, length};
    ghost use Rattle.gm_graph_select.specs.Spans.{AreSpansApart, lists_at};

    ghost Value = { List (List ℕ) };

    ghost view = { λ a. lists_at a.numbers.items a.spans.items };

    ghost invariant = { λ a. AreSpansApart 0 a.spans.items (length a.numbers.items) };
}

impl NumberLists {
    /// The lists at these spans.
    pub(crate) fn new(numbers: Vec<u32>, spans: Vec<Span>) -> NumberLists
        requires { AreSpansApart 0 spans.items (length numbers.items) }
        ensures { result ≡ lists_at numbers.items spans.items }
    {
        NumberLists { numbers, spans }
    }

    /// How many lists there are.
    pub(crate) fn len(&self) -> usize
        ensures { result ≡ length self.now }
    {
        self.spans.len()
    }

    /// The list at a place. There is nothing at a place past the end.
    pub(crate) fn at(&self, place: usize) -> &[u32]
        ensures { result.now ≡ list_at self.now place }
    {
        match self.spans.get(place) {
            None => &[],
            Some(span) => part(&self.numbers, *span),
        }
    }

    /// These lists by ranks, each in ascending order. It takes no memory. For n numbers it takes n log n comparisons,
    /// or only n if the ranks of each list come in ascending order.
    pub(crate) fn by_ranks(mut self, ranks: &[u32]) -> NumberLists
        requires { All (All (λ number. number < length ranks.now)) self }
        ensures { AllZip (IsByRanks ranks.now) self result }
    {
        rank_parts(&mut self.numbers, &mut self.spans, ranks);
        self
    }
}
