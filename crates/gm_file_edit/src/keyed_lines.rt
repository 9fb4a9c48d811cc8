//! The lines of a file with their keys.

ghost use Rattle.std.specs.Prelude.{◌≡◌, ◌+◌, ◌^◌, ◌∷◌, ◌++◌, ◌<◌, ◌≤◌, length, take, drop, insert, slice_set, true, IfOk, None, OnErr, OnOk};
ghost use Rattle.std.specs.Vec.{vec_capacity, vec_len};
ghost use Rattle.gm_marked_items.specs.Unmarked.{unmarked};
ghost use Rattle.gm_syntax.specs.Document.{Blank, IsDocument};
ghost use Rattle.gm_syntax.specs.LineViews.{line_of, line_views, plain_lines};
ghost use Rattle.gm_file.specs.Directives.{Strict, block_after_lines, with_blocks_from};
ghost use Rattle.gm_file.specs.Faults.{fault_of};
ghost use Rattle.gm_file_edit.specs.Holding.{is_loose};
ghost use Rattle.gm_file_edit.specs.Private.Keys.{key_at, keys_from};
ghost use Rattle.gm_file_edit.specs.Private.Marks.{line_at};

use crate::keys::{Key, key_of, silent_key};
use gm_file::block_after_line;
use gm_marked_items::keep_unmarked;
use gm_syntax::Line;
use std::alloc::{AllocError, Global};
use std::marker::Model;
use std::mem;

/// The lines of a file. Each has a key, kept up to date, in a list of its own that is quick to go over.
#[derive(Drop)]
pub(crate) struct KeyedLines<'a> {
    /// The lines.
    lines: Vec<Line<'a>>,
    /// The key of each line.
    keys: Vec<Key>,
}

impl<'a> Model for KeyedLines<'a> {
    ghost use Rattle.std.specs.Prelude.{List, ◌≡◌, None, length};
    ghost use Rattle.gm_syntax_words.specs.Tokens.{Placed};
    ghost use Rattle.gm_syntax.specs.Document.{Line as LineOf};
    ghost use Rattle.gm_syntax.specs.LineViews.{line_views};
    ghost use Rattle.gm_file_edit.specs.Private.Keys.{keys_from};

    ghost Value = { List (LineOf Placed) };

    ghost view = { λ l. line_views l.lines.items };

    ghost invariant = { λ l. (l.keys.items ≡ keys_from None (line_views l.lines.items))
        × (length l.keys.items ≡ length l.lines.items) };
}

/// The keys of the lines of a valid file.
fn keys_of(alloc: Global, lines: &[Line]) -> Result<Vec<Key>, AllocError>
    requires document { IsDocument (plain_lines (line_views lines.now)) }
    requires sound { fault_of Strict (plain_lines (line_views lines.now)) ≡ None }
    ensures keys { IfOk result (λ v. v.items ≡ keys_from None (line_views lines.now)) }
    ensures len { IfOk result (λ v. length v.items ≡ length lines.now) }
{
    let mut keys = Vec::with_capacity(alloc, lines.len())?;
    let mut block = None;
    for line in lines {
        let key = key_of(alloc, block, line)?;
        keys.push(key)?;
        block = block_after_line(block, line);
    }
    Ok(keys)
}

/// Inserts an item where the list has room for it.
fn insert_in_room<T: Drop>(list: &mut Vec<T>, at: usize, item: T)
    requires in_range { at ≤ vec_len list.old }
    requires room { vec_len list.old < vec_capacity list.old }
    ensures items { list.new.items ≡ insert list.old.items at item }
    ensures len { vec_len list.new ≡ vec_len list.old + 1 }
    ensures capacity { vec_capacity list.old ≤ vec_capacity list.new }
{
    if let Err(refused) = list.insert(at, item) {
        drop(refused);
    }
}

/// Puts an item in the place of the one at an index.
fn put_item<T: Drop>(list: &mut Vec<T>, at: usize, item: T)
    requires { at < length list.old.items }
    ensures { list.new.items ≡ slice_set list.old.items at item }
{
    let _before = mem::replace(&mut list[at], item);
}

/// Makes room for that many more lines and their keys, which stay as they are.
fn make_room<'a>(
    lines: &mut Vec<Line<'a>>,
    keys: &mut Vec<Key>,
    count: usize,
) -> Result<(), AllocError>
    ensures lines { lines.new.items ≡ lines.old.items }
    ensures keys { keys.new.items ≡ keys.old.items }
    ensures len_of_lines { vec_len lines.new ≡ vec_len lines.old }
    ensures len_of_keys { vec_len keys.new ≡ vec_len keys.old }
    ensures room_of_lines { OnOk result (vec_len lines.new + count ≤ vec_capacity lines.new) }
    ensures room_of_keys { OnOk result (vec_len keys.new + count ≤ vec_capacity keys.new) }
{
    lines.reserve(count)?;
    keys.reserve(count)
}

/// Inserts a line and its key where there is room for both.
fn insert_keyed<'a>(
    lines: &mut Vec<Line<'a>>,
    keys: &mut Vec<Key>,
    at: usize,
    line: Line<'a>,
    key: Key,
)
    requires line_in_range { at ≤ vec_len lines.old }
    requires key_in_range { at ≤ vec_len keys.old }
    requires room_of_lines { vec_len lines.old < vec_capacity lines.old }
    requires room_of_keys { vec_len keys.old < vec_capacity keys.old }
    ensures lines { lines.new.items ≡ insert lines.old.items at line.entry }
    ensures keys { keys.new.items ≡ insert keys.old.items at key }
    ensures len_of_lines { vec_len lines.new ≡ vec_len lines.old + 1 }
    ensures len_of_keys { vec_len keys.new ≡ vec_len keys.old + 1 }
    ensures capacity_of_lines { vec_capacity lines.old ≤ vec_capacity lines.new }
    ensures capacity_of_keys { vec_capacity keys.old ≤ vec_capacity keys.new }
{
    insert_in_room(keys, at, key);
    insert_in_room(lines, at, line);
}

impl<'a> KeyedLines<'a> {
    /// The lines of a valid file, with their keys. Fails only if memory runs out.
    pub(crate) fn new(alloc: Global, lines: Vec<Line<'a>>) -> Result<KeyedLines<'a>, AllocError>
        requires document { IsDocument (plain_lines (line_views lines.items)) }
        requires sound { fault_of Strict (plain_lines (line_views lines.items)) ≡ None }
        ensures { IfOk result (λ keyed. keyed ≡ line_views lines.entry.items) }
    {
        let keys = keys_of(alloc, lines.as_slice())?;
        Ok(KeyedLines { lines, keys })
    }

    /// The lines without their keys.
    pub(crate) fn into_lines(self) -> Vec<Line<'a>>
        ensures { line_views result.items ≡ self.entry }
    {
        let KeyedLines { lines, keys: _ } = self;
        lines
    }

    /// The keys of the lines.
    pub(crate) fn keys(&self) -> &[Key]
        ensures keys { result.now ≡ keys_from None self.now }
        ensures len { length result.now ≡ length self.now }
    {
        self.keys.as_slice()
    }

    /// The line at an index.
    pub(crate) fn line(&self, at: usize) -> &Line<'a>
        requires { at < length self.now }
        ensures line { line_of result.now ≡ line_at self.now at }
        ensures small { at + 1 < 2 ^ 64 }
    {
        &self.lines[at]
    }

    /// The key of the line at an index.
    pub(crate) fn key(&self, at: usize) -> Key
        requires { at < length self.now }
        ensures { result ≡ key_at (block_after_lines None (take at self.now)) (line_at self.now at) }
    {
        self.keys[at]
    }

    /// The number of lines.
    pub(crate) fn len(&self) -> usize
        ensures { result ≡ length self.now }
    {
        self.lines.len()
    }

    /// Inserts a line with its key at an index. It neither opens nor closes a block. If memory runs out, the lines stay
    /// as they are.
    pub(crate) fn insert(&mut self, at: usize, line: Line<'a>, key: Key) -> Result<(), AllocError>
        requires in_range { at ≤ length self.old }
        requires loose { is_loose (line_of line) ≡ true }
        requires key { key ≡ key_at (block_after_lines None (take at self.old)) (line_of line) }
        ensures ok { OnOk result (self.new ≡ insert self.old at (line_of line.entry)) }
        ensures err { OnErr result (self.new ≡ self.old) }
    {
        // with room for both, neither is inserted alone
        make_room(&mut self.lines, &mut self.keys, 1)?;
        insert_keyed(&mut self.lines, &mut self.keys, at, line, key);
        Ok(())
    }

    /// Inserts a blank line and then a line with its key at an index outside blocks. The line neither opens nor closes
    /// a block. If memory runs out, the lines stay as they are.
    pub(crate) fn insert_after_blank(
        &mut self,
        at: usize,
        line: Line<'a>,
        key: Key,
    ) -> Result<(), AllocError>
        requires in_range { at ≤ length self.old }
        requires loose { is_loose (line_of line) ≡ true }
        requires outside { block_after_lines None (take at self.old) ≡ None }
        requires key { key ≡ key_at None (line_of line) }
        ensures ok { OnOk result (self.new
            ≡ take at self.old ++ (Blank ∷ line_of line.entry ∷ drop at self.old)) }
        ensures err { OnErr result (self.new ≡ self.old) }
    {
        make_room(&mut self.lines, &mut self.keys, 2)?;
        insert_keyed(&mut self.lines, &mut self.keys, at, line, key);
        insert_keyed(
            &mut self.lines,
            &mut self.keys,
            at,
            Line::Blank,
            silent_key(false),
        );
        Ok(())
    }

    /// Puts a line with its key in the place of the one at an index. Neither opens or closes a block.
    pub(crate) fn put(&mut self, at: usize, line: Line<'a>, key: Key)
        requires in_range { at < length self.old }
        requires old_loose { is_loose (line_at self.old at) ≡ true }
        requires loose { is_loose (line_of line) ≡ true }
        requires key { key ≡ key_at (block_after_lines None (take at self.old)) (line_of line) }
        ensures { self.new ≡ slice_set self.old at (line_of line.entry) }
    {
        self.keys[at] = key;
        put_item(&mut self.lines, at, line);
    }

    /// Removes the lines that have a mark. The others stay in their blocks. If there is one alone, the lines after it
    /// move at once.
    pub(crate) fn remove_marked(&mut self, marks: &[bool])
        requires len { length marks.now ≡ length self.old }
        requires in_blocks { with_blocks_from None (unmarked marks.now self.old)
            ≡ unmarked marks.now (with_blocks_from None self.old) }
        ensures { self.new ≡ unmarked marks.now self.old }
    {
        keep_unmarked(&mut self.lines, marks);
        keep_unmarked(&mut self.keys, marks);
    }
}
