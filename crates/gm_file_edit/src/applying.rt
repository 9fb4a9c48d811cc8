//! Applying operations to the lines of a go.mod file.
//!
//! Whatever may run out of memory comes before any change of the lines, so that a failed edit leaves them unchanged.

ghost use Rattle.std.specs.Prelude.{◌≡◌, ◌<◌, false, true, not, length, take_while, OnErr, OnOk, None};
ghost use Rattle.gm_syntax_words.specs.Lines.{HasNoLineFeed};
ghost use Rattle.gm_syntax.specs.Document.{IsDocument};
ghost use Rattle.gm_syntax.specs.LineViews.{plain_lines};
ghost use Rattle.gm_file.specs.Directives.{Strict, block_after_lines, main_verb, verb_eq};
ghost use Rattle.gm_file.specs.declared.verb.Verb.TheVariants.{Unknown};
ghost use Rattle.gm_file.specs.Faults.{fault_of};
ghost use Rattle.gm_file_edit.specs.About.{about};
ghost use Rattle.gm_file_edit.specs.Edits.{Add, Set};
ghost use Rattle.gm_file_edit.specs.Edited.{with_addition, with_change, lines_after, put_in};
ghost use Rattle.gm_file_edit.specs.Kinds.{is_fit};
ghost use Rattle.gm_file_edit.specs.Private.Keys.{IsKeyedEntry};
ghost use Rattle.gm_file_edit.specs.Private.Marks.{marks_from};
ghost use Rattle.gm_file_edit.specs.NewWords.{pair_words};
ghost use Rattle.gm_file_edit.specs.Sound.{IsSoundEdit, addition_of, edit_of, setting_of};

use crate::adding::{add, add_go};
use crate::keyed_lines::KeyedLines;
use crate::keys::{Key, key_with};
use crate::marking::{any_agrees, first_mark, marks};
use crate::new_words::{interval_words, pair_words, replace_words};
use crate::op::{Addition, Change, Setting};
use crate::packing::pack;
use crate::renewing::{new_line, renew};
use crate::subject::{addition_target, setting_target, takes_any_version, target_of};
use gm_file::does_left_fit;
use gm_name::{ModPath, ModVersion, fits};
use std::alloc::{AllocError, Global};

/// Whether the versions of an operation fit their paths. Only versions that it requires or excludes and the one in
/// the left side of a `replace` are checked, since strict reading of the result refuses those.
pub(crate) fn is_fit(change: &Change) -> bool
    ensures { result ≡ is_fit (edit_of change.now) }
{
    match change {
        Change::Set(Setting::Require((path, version))) => fits(path, version),
        Change::Add(Addition::Exclude((path, version))) => fits(path, version),
        Change::Set(Setting::Replace(replace)) => does_left_fit(&replace.left, &replace.version),
        _ => true,
    }
}

/// Changes the lines that have a mark, those that an operation targets. The first is at an index. If memory runs out,
/// the lines stay as they are.
fn change_lines<'a>(
    alloc: Global,
    change: &Change,
    lines: &mut KeyedLines<'a>,
    marks: Vec<bool>,
    first: usize,
) -> Result<(), AllocError>
    requires written { IsSoundEdit (edit_of change.now) }
    requires marked { marks.items ≡ marks_from (about (edit_of change.now)) None lines.old }
    requires first { first ≡ length (take_while (λ mark. not mark) marks.items) }
    requires in_range { first < length lines.old }
    requires fit { is_fit (edit_of change.now) ≡ true }
    requires document { IsDocument (plain_lines lines.old) }
    requires sound { fault_of Strict (plain_lines lines.old) ≡ None }
    ensures ok { OnOk result (lines.new ≡ with_change (edit_of change.now) lines.old) }
    ensures err { OnErr result (lines.new ≡ lines.old) }
{
    match change {
        Change::Set(setting) => {
            let line = new_line(alloc, setting, lines, first)?;
            let key = key_with(setting_target(setting), lines.key(first).inside);
            renew(lines, marks, first, line, key);
            Ok(())
        }
        Change::Add(_) => Ok(()),
        Change::Drop(_) => {
            pack(lines, marks);
            Ok(())
        }
    }
}

/// Adds an entry of a path and a version with a key. If memory runs out, the lines stay as they are.
fn add_pair<'a>(
    alloc: Global,
    key: Key,
    verb: &str,
    path: &ModPath,
    version: &ModVersion,
    lines: &mut KeyedLines<'a>,
) -> Result<(), AllocError>
    requires verb { HasNoLineFeed verb.now }
    requires known { verb_eq (main_verb verb.now) Unknown ≡ false }
    requires about { IsKeyedEntry key verb.now (pair_words (path.now, version.now)) }
    requires closed { block_after_lines None lines.old ≡ None }
    ensures ok { OnOk result (lines.new ≡ with_addition verb.now (pair_words (path.now, version.now)) lines.old) }
    ensures err { OnErr result (lines.new ≡ lines.old) }
{
    let words = pair_words(alloc, path, version)?;
    add(alloc, key, verb, words, lines)
}

/// Adds the entry of a setting that targets no line, if it adds one. If memory runs out, the lines stay as they are.
#[tactic(auto, unfolding(crate::specs::Edited::put_in))]
fn put_setting<'a>(
    alloc: Global,
    setting: &Setting,
    lines: &mut KeyedLines<'a>,
) -> Result<(), AllocError>
    requires written { IsSoundEdit (Set (setting_of setting.now)) }
    requires closed { block_after_lines None lines.old ≡ None }
    ensures ok { OnOk result (lines.new ≡ put_in (Set (setting_of setting.now)) lines.old) }
    ensures err { OnErr result (lines.new ≡ lines.old) }
{
    let key = key_with(setting_target(setting), false);
    match setting {
        Setting::Module(_) => Ok(()),
        Setting::Go(text) => add_go(alloc, key, text.as_str(), lines),
        Setting::Require((path, version)) => {
            add_pair(alloc, key, "require", path, version, lines)
        }
        Setting::Replace(replace) => {
            let words = replace_words(alloc, replace)?;
            add(alloc, key, "replace", words, lines)
        }
    }
}

/// Adds the entry of an addition that targets no line. If memory runs out, the lines stay as they are.
#[tactic(auto, unfolding(crate::specs::Edited::put_in))]
fn put_addition<'a>(
    alloc: Global,
    addition: &Addition,
    lines: &mut KeyedLines<'a>,
) -> Result<(), AllocError>
    requires written { IsSoundEdit (Add (addition_of addition.now)) }
    requires closed { block_after_lines None lines.old ≡ None }
    ensures ok { OnOk result (lines.new ≡ put_in (Add (addition_of addition.now)) lines.old) }
    ensures err { OnErr result (lines.new ≡ lines.old) }
{
    let key = key_with(addition_target(addition), false);
    match addition {
        Addition::Exclude((path, version)) => {
            add_pair(alloc, key, "exclude", path, version, lines)
        }
        Addition::Retract(ends) => {
            let words = interval_words(alloc, ends)?;
            add(alloc, key, "retract", words, lines)
        }
    }
}

/// Adds the entry of an operation that targets no line, if it adds one. If memory runs out, the lines stay as they are.
#[tactic(auto, unfolding(crate::specs::Edited::put_in))]
fn put_in<'a>(alloc: Global, change: &Change, lines: &mut KeyedLines<'a>) -> Result<(), AllocError>
    requires written { IsSoundEdit (edit_of change.now) }
    requires closed { block_after_lines None lines.old ≡ None }
    ensures ok { OnOk result (lines.new ≡ put_in (edit_of change.now) lines.old) }
    ensures err { OnErr result (lines.new ≡ lines.old) }
{
    match change {
        Change::Set(setting) => put_setting(alloc, setting, lines),
        Change::Add(addition) => put_addition(alloc, addition, lines),
        Change::Drop(_) => Ok(()),
    }
}

/// Changes the lines of a file by an operation. If memory runs out, they stay as they are.
pub(crate) fn edit_lines<'a>(
    alloc: Global,
    change: &Change,
    lines: &mut KeyedLines<'a>,
) -> Result<(), AllocError>
    requires written { IsSoundEdit (edit_of change.now) }
    requires fit { is_fit (edit_of change.now) ≡ true }
    requires document { IsDocument (plain_lines lines.old) }
    requires sound { fault_of Strict (plain_lines lines.old) ≡ None }
    ensures ok { OnOk result (lines.new ≡ lines_after (edit_of change.now) lines.old) }
    ensures err { OnErr result (lines.new ≡ lines.old) }
{
    let target = target_of(change);
    let wanted = key_with(target, false);
    if !any_agrees(&wanted, takes_any_version(change), lines.keys()) {
        return put_in(alloc, change, lines);
    }
    let marks = marks(alloc, change, lines)?;
    let first = first_mark(marks.as_slice());
    if first < lines.len() {
        return change_lines(alloc, change, lines, marks, first);
    }
    put_in(alloc, change, lines)
}
