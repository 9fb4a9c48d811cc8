//! Which modules are vertices: those that a source or its list names.

ghost use Rattle.std.specs.Prelude.{◌≡◌, ◌↔◌, ◌<◌, All, Contains, IfOk, length, ℕ};
ghost use Rattle.std.specs.Option.{option_to_list};
ghost use Rattle.gm_graph_select.specs.Adjacency.{IsBelow, by_step, list_at};
ghost use Rattle.gm_graph_select.specs.Private.Marking.{AreMarked, ArePassedMarked, HasMark, numbers_named};

use crate::adjacency::Source;
use crate::number_lists::NumberLists;
use std::alloc::{AllocError, Global};

/// Marks this number, if it is one.
fn mark_one(marks: &mut [bool], number: Option<u32>)
    requires { IsBelow (length marks.old) number }
    ensures { AreMarked marks.old (option_to_list number) marks.new }
{
    if let Some(number) = number {
        marks[number as usize] = true;
    }
}

/// Marks each of these numbers.
fn mark_each(marks: &mut [bool], numbers: &[u32])
    requires { All (λ number. number < length marks.old) numbers.now }
    ensures { AreMarked marks.old numbers.now marks.new }
{
    for number in numbers {
        marks[*number as usize] = true;
    }
}

/// Marks each number of the list at a place, unless that was passed, and notes that it was. There is nothing at a place
/// past the end.
fn mark_list(marks: &mut [bool], is_passed: &mut [bool], lists: &NumberLists, place: usize)
    requires lists { All (All (λ number. number < length marks.old)) lists.now }
    requires count { length is_passed.old ≡ length lists.now }
    requires passed { ArePassedMarked lists.now is_passed.old marks.old }
    ensures marks { AreMarked marks.old (list_at lists.now place) marks.new }
    ensures count { length is_passed.new ≡ length is_passed.old }
    ensures passed { ArePassedMarked lists.now is_passed.new marks.new }
{
    if place >= is_passed.len() || is_passed[place] {
        return;
    }
    is_passed[place] = true;
    mark_each(marks, lists.at(place));
}

/// Marks the numbers of the steps that are sources, and those of their lists. Several sources may share a list, which is
/// passed once.
fn mark_sources(marks: &mut [bool], is_passed: &mut [bool], lists: &NumberLists, sources: &[Source])
    requires sources { All (λ one. IsBelow (length marks.old) one.from) sources.now }
    requires lists { All (All (λ number. number < length marks.old)) lists.now }
    requires count { length is_passed.old ≡ length lists.now }
    requires passed { ArePassedMarked lists.now is_passed.old marks.old }
    ensures { AreMarked marks.old (numbers_named (by_step lists.now sources.now)) marks.new }
{
    for one in sources {
        mark_one(marks, one.from);
        mark_list(marks, is_passed, lists, one.list);
    }
}

/// For each of so many numbers, whether any of these sources or its list names it.
pub(crate) fn marks_of(
    alloc: Global,
    count: usize,
    lists: &NumberLists,
    sources: &[Source],
) -> Result<Vec<bool>, AllocError>
    requires sources { All (λ one. IsBelow count one.from) sources.now }
    requires lists { All (All (λ number. number < count)) lists.now }
    ensures count { IfOk result (λ marks. length marks.items ≡ count) }
    ensures marks { IfOk result (λ marks. (number : ℕ) → HasMark marks.items number
        ↔ Contains (numbers_named (by_step lists.now sources.now)) number) }
{
    let mut marks = vec![in alloc; false; count]?;
    let mut is_passed = vec![in alloc; false; lists.len()]?;
    mark_sources(&mut marks, &mut is_passed, lists, sources);
    Ok(marks)
}
