//! Rewriting the first entry that an operation targets.
//!
//! An entry is rewritten in place, so that its comment and its position in a block are kept.

ghost use Rattle.std.specs.Prelude.{◌≡◌, ◌<◌, Option, false, true, is_some, length, take, slice_set, IfOk, OnOk, None};
ghost use Rattle.gm_syntax_words.specs.Lines.{HasNoLineFeed};
ghost use Rattle.gm_syntax_words.specs.Tokens.{Placed};
ghost use Rattle.gm_syntax.specs.LineViews.{line_of};
ghost use Rattle.gm_file.specs.Directives.{block_after_lines};
ghost use Rattle.gm_file.specs.Views.{replace_view};
ghost use Rattle.gm_file_edit.specs.Edits.{Set};
ghost use Rattle.gm_file_edit.specs.Fates.{remaining};
ghost use Rattle.gm_file_edit.specs.Holding.{is_loose};
ghost use Rattle.gm_file_edit.specs.Private.Keys.{key_at};
ghost use Rattle.gm_file_edit.specs.Renewing.{made_new, with_arguments, with_last};
ghost use Rattle.gm_file_edit.specs.NewWords.{replace_words};
ghost use Rattle.gm_file_edit.specs.Private.Marks.{AreAtEntries, line_at, fates_of};
ghost use Rattle.gm_file_edit.specs.Sound.{IsSoundEdit, IsSoundRight, setting_of};

use crate::keyed_lines::KeyedLines;
use crate::keys::Key;
use crate::new_words::{push_replace, push_word};
use crate::op::Setting;
use crate::packing::pack;
use gm_file::Replace;
use gm_syntax::Line;
use std::alloc::{AllocError, Global};

/// Replaces the last word of an entry. Any other line stays as it is. If memory runs out, the word may be gone.
fn set_last<'a>(alloc: Global, line: &mut Line<'a>, value: &str) -> Result<(), AllocError>
    requires { HasNoLineFeed value.now }
    ensures { (block : Option Placed) → OnOk result (line_of line.new ≡ with_last value.now block (line_of line.old)) }
{
    let Line::Entry(words, _) = line else {
        return Ok(());
    };
    words.pop();
    push_word(alloc, words, value)
}

/// Replaces the arguments of an entry by the words of a `replace`. Any other line stays as it is. If memory runs out,
/// some of the arguments may be missing.
fn set_arguments<'a>(
    alloc: Global,
    inside: bool,
    line: &mut Line<'a>,
    replace: &Replace,
) -> Result<(), AllocError>
    requires { IsSoundRight (replace_view replace.now).1 }
    ensures { (block : Option Placed) → inside ≡ is_some block → OnOk result (line_of line.new
        ≡ with_arguments (replace_words (replace_view replace.now)) block (line_of line.old)) }
{
    let Line::Entry(words, _) = line else {
        return Ok(());
    };
    words.truncate(if inside { 0 } else { 1 });
    push_replace(alloc, words, replace)
}

/// Rewrites a targeted line as a setting does. If memory runs out, some of its words may be missing.
fn rewrite<'a>(
    alloc: Global,
    setting: &Setting,
    inside: bool,
    line: &mut Line<'a>,
) -> Result<(), AllocError>
    requires { IsSoundEdit (Set (setting_of setting.now)) }
    ensures { (block : Option Placed) → inside ≡ is_some block → OnOk result (line_of line.new
        ≡ made_new (Set (setting_of setting.now)) block (line_of line.old)) }
{
    match setting {
        Setting::Module(path) => set_last(alloc, line, path.as_str()),
        Setting::Go(text) => set_last(alloc, line, text.as_str()),
        Setting::Require((_, version)) => set_last(alloc, line, version.as_str()),
        Setting::Replace(replace) => set_arguments(alloc, inside, line, replace),
    }
}

/// The line at an index as a setting rewrites it.
pub(crate) fn new_line<'a>(
    alloc: Global,
    setting: &Setting,
    lines: &KeyedLines<'a>,
    at: usize,
) -> Result<Line<'a>, AllocError>
    requires written { IsSoundEdit (Set (setting_of setting.now)) }
    requires in_range { at < length lines.now }
    ensures { IfOk result (λ l. line_of l
        ≡ made_new (Set (setting_of setting.now)) (block_after_lines None (take at lines.now)) (line_at lines.now at)) }
{
    let mut line = lines.line(at).copy(alloc)?;
    rewrite(alloc, setting, lines.key(at).inside, &mut line)?;
    Ok(line)
}

/// Puts a line with its key in the place of the first that has a mark, which is at an index, and removes the others
/// that have one and the blocks that this empties.
pub(crate) fn renew<'a>(
    lines: &mut KeyedLines<'a>,
    marks: Vec<bool>,
    first: usize,
    line: Line<'a>,
    key: Key,
)
    requires marks { length marks.items ≡ length lines.old }
    requires in_range { first < length lines.old }
    requires old_loose { is_loose (line_at lines.old first) ≡ true }
    requires loose { is_loose (line_of line) ≡ true }
    requires key { key ≡ key_at (block_after_lines None (take first lines.old)) (line_of line) }
    requires others { AreAtEntries marks.items lines.old }
    ensures { lines.new ≡ remaining
        (fates_of (slice_set marks.items first false) (slice_set lines.old first (line_of line.entry))) }
{
    lines.put(first, line, key);
    let mut others = marks;
    others[first] = false;
    pack(lines, others);
}
