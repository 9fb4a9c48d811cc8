//! Adding an entry.
//!
//! A new entry goes next to its own kind, so that the file keeps its grouping.

ghost use Rattle.std.specs.Prelude.{◌≡◌, ◌∷◌, ◌++◌, ◌≤◌, [], false, length, take, drop, List, IfNone, IfOk, IfSome, OnErr, OnOk, None, codes};
ghost use Rattle.gm_syntax_words.specs.Tokens.{Placed};
ghost use Rattle.gm_syntax_words.specs.Lines.{HasNoLineFeed};
ghost use Rattle.gm_syntax.specs.Document.{Blank, Line as LineOf};
ghost use Rattle.gm_file.specs.Directives.{block_after_lines, is_of_verb, main_verb, verb_eq};
ghost use Rattle.gm_file.specs.declared.verb.Verb.TheVariants.{Unknown};
ghost use Rattle.gm_file.specs.Faults.{is_module};
ghost use Rattle.gm_file_edit.specs.Edited.{with_addition, after_closing, after_first_of};
ghost use Rattle.gm_syntax.specs.LineViews.{line_of};
ghost use Rattle.gm_file_edit.specs.NewWords.{entry_at, made_word, single};
ghost use Rattle.gm_file_edit.specs.Private.Keys.{IsKeyedEntry};
ghost use Rattle.gm_file_edit.specs.Private.Marks.{IsAdditionSpot};
ghost use Rattle.gm_file_edit.specs.Holding.{is_there};

use crate::keyed_lines::KeyedLines;
use crate::keys::Key;
use crate::new_words::one_word;
use gm_file::{Verb, main_verb};
use gm_syntax::{Line, Token};
use std::alloc::{AllocError, Global};

/// A position between two lines.
#[derive(Clone, Copy)]
pub(crate) struct Spot {
    /// The number of lines before the position.
    before: usize,
    /// Whether a block is open at the position.
    inside: bool,
}

/// The position directly after the last entry with this verb, if any. It is looked for from the end, so that an entry
/// which follows another of its kind needs no look at the lines before.
fn added_spot(own: Verb, lines: &KeyedLines) -> Option<Spot>
    requires known { verb_eq own Unknown ≡ false }
    ensures place { IfSome result (λ spot. IsAdditionSpot own lines.now spot) }
    ensures none { IfNone result (is_there (is_of_verb own) None lines.now ≡ false) }
{
    let mut n = lines.len();
    while n > 0 {
        let key = lines.key(n - 1);
        if key.is_of(own) {
            return Some(Spot {
                before: n,
                inside: key.inside,
            });
        }
        n -= 1;
    }
    None
}

/// An entry outside blocks: its verb and its arguments.
fn single<'a>(alloc: Global, verb: &str, arguments: Vec<Token<'a>>) -> Result<Line<'a>, AllocError>
    requires { HasNoLineFeed verb.now }
    ensures { IfOk result (λ line. line_of line ≡ single verb.now arguments.entry.items) }
{
    let mut words = arguments;
    words.insert(0, Token::spell(alloc, verb)?)?;
    Ok(Line::Entry(words, None))
}

/// An entry with this verb. The verb is written only outside blocks, since a block has it at its opening.
fn entry_at<'a>(
    alloc: Global,
    inside: bool,
    verb: &str,
    arguments: Vec<Token<'a>>,
) -> Result<Line<'a>, AllocError>
    requires { HasNoLineFeed verb.now }
    ensures { IfOk result (λ line. line_of line ≡ entry_at inside verb.now arguments.entry.items) }
{
    if inside {
        return Ok(Line::Entry(arguments, None));
    }
    single(alloc, verb, arguments)
}

/// Inserts a blank line and an entry outside blocks at an index. If memory runs out, the lines stay as they are.
fn insert_single<'a>(
    alloc: Global,
    key: Key,
    verb: &str,
    arguments: Vec<Token<'a>>,
    at: usize,
    lines: &mut KeyedLines<'a>,
) -> Result<(), AllocError>
    requires verb { HasNoLineFeed verb.now }
    requires in_range { at ≤ length lines.old }
    requires outside { block_after_lines None (take at lines.old) ≡ None }
    requires about { IsKeyedEntry key verb.now arguments.items }
    ensures ok { OnOk result (lines.new
        ≡ take at lines.old ++ (Blank ∷ single verb.now arguments.entry.items ∷ drop at lines.old)) }
    ensures err { OnErr result (lines.new ≡ lines.old) }
{
    let entry = single(alloc, verb, arguments)?;
    lines.insert_after_blank(at, entry, key.placed(false))
}

/// Adds an entry with a key. It goes directly after the last entry with its verb, in the same block if that one is
/// in a block. If no entry has the verb, it goes to the end, after a blank line. If memory runs out, the lines stay as
/// they are.
pub(crate) fn add<'a>(
    alloc: Global,
    key: Key,
    verb: &str,
    arguments: Vec<Token<'a>>,
    lines: &mut KeyedLines<'a>,
) -> Result<(), AllocError>
    requires verb { HasNoLineFeed verb.now }
    requires known { verb_eq (main_verb verb.now) Unknown ≡ false }
    requires about { IsKeyedEntry key verb.now arguments.items }
    requires outside { block_after_lines None lines.old ≡ None }
    ensures ok { OnOk result (lines.new ≡ with_addition verb.now arguments.entry.items lines.old) }
    ensures err { OnErr result (lines.new ≡ lines.old) }
{
    match added_spot(main_verb(verb), lines) {
        Some(spot) => {
            let entry = entry_at(alloc, spot.inside, verb, arguments)?;
            lines.insert(spot.before, entry, key.placed(spot.inside))
        }
        None => {
            let end = lines.len();
            insert_single(alloc, key, verb, arguments, end, lines)
        }
    }
}

/// The index after the closing of the block that is open before the line at an index, or of the end if there is none.
fn close_index(lines: &KeyedLines, from: usize) -> usize
    requires { from ≤ length lines.now }
    ensures index { (new : List (LineOf Placed)) → take result lines.now ++ (new ++ drop result lines.now)
        ≡ take from lines.now ++ after_closing new (drop from lines.now) }
    ensures in_range { result ≤ length lines.now }
    ensures outside { block_after_lines None lines.now ≡ None → block_after_lines None (take result lines.now) ≡ None }
{
    for n in from..lines.len() {
        if let Line::Close(_) = lines.line(n) {
            return n + 1;
        }
    }
    lines.len()
}

/// The index at which a new go directive goes: after the module directive, or after its block if it is in one, or the
/// end of the file if there is no module directive. It can't go into a block of `module`, since every entry there has
/// that verb.
fn go_index(lines: &KeyedLines) -> usize
    requires closed { block_after_lines None lines.now ≡ None }
    ensures index { (new : List (LineOf Placed))
        → take result lines.now ++ (new ++ drop result lines.now) ≡ after_first_of is_module new None lines.now }
    ensures in_range { result ≤ length lines.now }
    ensures outside { block_after_lines None (take result lines.now) ≡ None }
{
    for n in 0..lines.len() {
        let key = lines.key(n);
        if key.is_of(Verb::Module) {
            if key.is_inside() {
                return close_index(lines, n + 1);
            }
            return n + 1;
        }
    }
    lines.len()
}

/// Adds a blank line and a go directive with this version after the module directive, or after its block if it is in
/// one. If there is no module directive, both go to the end. If memory runs out, the lines stay as they are.
pub(crate) fn add_go<'a>(
    alloc: Global,
    key: Key,
    version: &str,
    lines: &mut KeyedLines<'a>,
) -> Result<(), AllocError>
    requires version { HasNoLineFeed version.now }
    requires about { IsKeyedEntry key (codes "go") (made_word version.now ∷ []) }
    requires outside { block_after_lines None lines.old ≡ None }
    ensures ok { OnOk result (lines.new ≡ after_first_of is_module
        (Blank ∷ single (codes "go") (made_word version.now ∷ []) ∷ []) None lines.old) }
    ensures err { OnErr result (lines.new ≡ lines.old) }
{
    let at = go_index(lines);
    let words = one_word(alloc, version)?;
    insert_single(alloc, key, "go", words, at, lines)
}
