//! Removing lines of a file in place.
//!
//! Lines that go have a mark. Marks are widened to the blocks that this empties, each with a blank line directly after
//! it, so that the blank lines before and after the block don't end up next to each other. Then each line that stays
//! moves at most once. Nothing is allocated.

ghost use Rattle.std.specs.Prelude.{◌≡◌, ◌+◌, ◌∷◌, ◌<◌, false, length, drop, Some, None};
ghost use Rattle.std.specs.List.{list_any};
ghost use Rattle.gm_syntax.specs.Layout.{is_blank_line};
ghost use Rattle.gm_syntax.specs.LineViews.{line_of, plain};
ghost use Rattle.gm_file_edit.specs.Fates.{empties, fate_by, remaining, widened_from};
ghost use Rattle.gm_file_edit.specs.Private.Marks.{AreAtEntries, block_at, closes_bare, fates_of, is_behind_gone, line_at, opens_bare};

use crate::keyed_lines::KeyedLines;
use gm_syntax::Line;

/// Where a line is.
#[derive(Clone, Copy)]
pub(crate) enum Place {
    /// Outside blocks.
    Outside,
    /// Outside blocks, and the nearest line before it that has no mark closes a block that goes.
    BehindGone,
    /// In a block that stays.
    InKept,
    /// In a block that goes.
    InGone,
}

/// Whether the line at an index is blank.
fn is_blank_at(lines: &KeyedLines, n: usize) -> bool
    requires { n < length lines.now }
    ensures { result ≡ is_blank_line (plain (line_at lines.now n)) }
{
    matches!(lines.line(n), Line::Blank)
}

/// Whether a line is a closing without a comment.
fn closes_bare(line: &Line) -> bool
    ensures { result ≡ closes_bare (line_of line.now) }
{
    matches!(line, Line::Close(None))
}

/// Whether a line is an opening without a comment.
fn opens_bare(line: &Line) -> bool
    ensures { result ≡ opens_bare (line_of line.now) }
{
    matches!(line, Line::Open(_, None))
}

/// Whether the lines from an index to a closing empty a block: each is blank or has a mark, the closing has no comment,
/// and a line has a mark.
fn empties(lines: &KeyedLines, marks: &[bool], from: usize) -> bool
    requires { length marks.now ≡ length lines.now }
    ensures { result ≡ empties false (fates_of (drop from marks.now) (drop from lines.now)) }
{
    let mut lost = false;
    for n in from..lines.len() {
        if marks[n] {
            lost = true;
        } else if !is_blank_at(lines, n) {
            return lost && closes_bare(lines.line(n));
        }
    }
    false
}

/// Whether the line at an index and a place goes, which has no mark, and the place after it.
fn after_line(place: Place, lines: &KeyedLines, marks: &[bool], n: usize) -> (bool, Place)
    requires len { length marks.now ≡ length lines.now }
    requires in_range { n < length lines.now }
    ensures { widened_from (block_at place) (is_behind_gone place)
        (Some (line_at lines.now n) ∷ fates_of (drop (n + 1) marks.now) (drop (n + 1) lines.now))
        ≡ fate_by result.0 (line_at lines.now n) ∷ widened_from (block_at result.1) (is_behind_gone result.1)
        (fates_of (drop (n + 1) marks.now) (drop (n + 1) lines.now)) }
{
    match lines.line(n) {
        Line::Blank => match place {
            Place::BehindGone => (true, Place::Outside),
            Place::InGone => (true, Place::InGone),
            Place::Outside | Place::InKept => (false, place),
        },
        Line::Open(_, _) => match place {
            Place::Outside | Place::BehindGone => {
                if opens_bare(lines.line(n)) && empties(lines, marks, n + 1) {
                    (true, Place::InGone)
                } else {
                    (false, Place::InKept)
                }
            }
            Place::InKept | Place::InGone => (false, Place::InKept),
        },
        Line::Close(_) => match place {
            Place::InGone => (true, Place::BehindGone),
            Place::Outside | Place::BehindGone | Place::InKept => (false, Place::Outside),
        },
        Line::Comment(_) | Line::Entry(_, _) => match place {
            Place::BehindGone => (false, Place::Outside),
            Place::Outside | Place::InKept | Place::InGone => (false, place),
        },
    }
}

/// Marks the lines of the blocks too that the marks empty, and a blank line directly after such a block.
fn widen(lines: &KeyedLines, marks: &mut Vec<bool>)
    requires { length marks.old.items ≡ length lines.now }
    ensures len { length marks.new.items ≡ length lines.now }
    ensures marks { fates_of marks.new.items lines.now ≡ widened_from None false (fates_of marks.old.items lines.now) }
{
    let mut place = Place::Outside;
    for n in 0..lines.len() {
        if !marks[n] {
            let (goes, next) = after_line(place, lines, marks.as_slice(), n);
            marks[n] = goes;
            place = next;
        }
    }
}

/// Whether some line has a mark.
fn has_mark(marks: &[bool]) -> bool
    ensures { result ≡ list_any (λ mark. mark) marks.now }
{
    marks.iter().any(|mark| *mark)
}

/// Removes the lines that have a mark, and the blocks that this empties. Takes no memory.
pub(crate) fn pack(lines: &mut KeyedLines, marks: Vec<bool>)
    requires { AreAtEntries marks.items lines.old }
    ensures { lines.new ≡ remaining (fates_of marks.items lines.old) }
{
    if !has_mark(marks.as_slice()) {
        return;
    }
    let mut widened = marks;
    widen(lines, &mut widened);
    lines.remove_marked(widened.as_slice());
}
