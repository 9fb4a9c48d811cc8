//! The retractions of a dependency's file. Their faults don't count and a build doesn't need them, so they are read in
//! a pass of their own.

ghost use Rattle.std.specs.Prelude.{◌≡◌, ◌∷◌, ◌++◌, [], IfErr, IfOk, List, OnOk};
ghost use Rattle.std.specs.Option.{option_map, option_to_list};
ghost use Rattle.gm_syntax_words.specs.Tokens.{words_of};
ghost use Rattle.gm_syntax_words.specs.Words.{Word};
ghost use Rattle.gm_syntax.specs.Document.{Line as LineOf};
ghost use Rattle.gm_syntax.specs.LineReading.{HasRead};
ghost use Rattle.gm_syntax.specs.LineViews.{line_of, line_views, plain, plain_lines};
ghost use Rattle.gm_file.specs.DepLines.{AreRetractedIn};
ghost use Rattle.gm_file.specs.Directives.{Lax, item_at};
ghost use Rattle.gm_file.specs.Fields.{lax_retracts_of};
ghost use Rattle.gm_file.specs.Misreading.{IsBytesFault};
ghost use Rattle.gm_file.specs.Private.Reading.{KeepsNames};
ghost use Rattle.gm_file.specs.Private.Retracting.{AreRetractionsOf, IsEntryRead, retraction_at, retraction_in};
ghost use Rattle.gm_file.specs.Views.{interval_view, interval_views};

use crate::dep_lines::pass_line;
use crate::fault::LineFault;
use crate::misreading::BytesFault;
use crate::part::{is_empty_block, read_interval};
use crate::replace::Interval;
use gm_name_table::KnownNames;
use gm_syntax::{Line, LineReader, Token};
use std::alloc::{AllocError, Global};

/// The verb and the arguments of an entry, or `None` for a line that is not an entry. `block` is the verb of the open
/// block, if any.
#[tactic(auto, unfolding(crate::specs::Directives::item_at))]
fn entry_of<'w, 'a>(
    block: Option<&'w Token<'a>>,
    line: &'w Line<'a>,
) -> Option<(&'w Token<'a>, &'w [Token<'a>])>
    ensures { IsEntryRead (item_at (option_map (λ t. t.now.word) block.entry, plain (line_of line.now)))
        (option_map (λ e. (e.0.now.word, words_of e.1.now)) result) }
{
    let words = line.entry()?;
    match block {
        Some(verb) => Some((verb, words)),
        None => match words {
            [] => None,
            [verb, arguments @ ..] => {
                if is_empty_block(arguments) {
                    return None;
                }
                Some((verb, arguments))
            }
        },
    }
}

/// The interval that the arguments of a `retract` spell, or `None` if strict reading would refuse them.
fn interval_in(
    alloc: Global,
    names: &mut KnownNames,
    words: &[Token],
) -> Result<Option<Interval>, AllocError>
    ensures kept { KeepsNames names.old names.new }
    ensures read { IfOk result (λ interval. option_map interval_view interval ≡ retraction_in (words_of words.now)) }
{
    match read_interval(alloc, names, words) {
        Ok(interval) => Ok(Some(interval)),
        Err(LineFault::NoMemory) => Err(AllocError),
        Err(LineFault::Kind(_)) => Ok(None),
    }
}

/// The interval that a line retracts, if it retracts one. `block` is the verb of the open block, if any.
fn retraction_at(
    alloc: Global,
    names: &mut KnownNames,
    block: Option<&Token>,
    line: &Line,
) -> Result<Option<Interval>, AllocError>
    ensures kept { KeepsNames names.old names.new }
    ensures read { IfOk result (λ interval. option_map interval_view interval
        ≡ retraction_at (item_at (option_map (λ t. t.now.word) block.entry, plain (line_of line.now)))) }
{
    let Some((verb, words)) = entry_of(block, line) else {
        return Ok(None);
    };
    if verb.spelling() != "retract" {
        return Ok(None);
    }
    interval_in(alloc, names, words)
}

/// Adds the interval that a line retracts, if it retracts one. `block` is the verb of the open block, if any.
fn add_retraction(
    alloc: Global,
    names: &mut KnownNames,
    intervals: &mut Vec<Interval>,
    block: Option<&Token>,
    line: &Line,
) -> Result<(), AllocError>
    ensures kept { KeepsNames names.old names.new }
    ensures read { OnOk result (interval_views intervals.new.items
        ≡ interval_views intervals.old.items ++ option_to_list
        (retraction_at (item_at (option_map (λ t. t.now.word) block.entry, plain (line_of line.now))))) }
{
    if let Some(interval) = retraction_at(alloc, names, block, line)? {
        intervals.push(interval)?;
    }
    Ok(())
}

/// The retractions of the lines so far.
#[derive(Drop)]
struct Retractions<'a> {
    /// The verb of the block that is open, if any.
    block: Option<Token<'a>>,
    /// The intervals of the well-formed `retract` entries, in order.
    intervals: Vec<Interval>,
}

impl<'a> Retractions<'a> {
    /// The retractions of no lines.
    fn none(alloc: Global) -> Retractions<'a>
        ensures { AreRetractionsOf [] result }
    {
        Retractions {
            block: None,
            intervals: Vec::new(alloc),
        }
    }

    /// Reads the next line.
    fn read_line(
        &mut self,
        alloc: Global,
        names: &mut KnownNames,
        line: &Line<'a>,
    ) -> Result<(), AllocError>
        ensures kept { KeepsNames names.old names.new }
        ensures read { (lines : List (LineOf Word)) → AreRetractionsOf lines self.old
            → OnOk result (AreRetractionsOf (lines ++ plain (line_of line.now) ∷ []) self.new) }
    {
        let block = self.block.as_ref();
        add_retraction(alloc, names, &mut self.intervals, block, line)?;
        pass_line(alloc, &mut self.block, line)?;
        Ok(())
    }
}

/// The intervals that the lines of a document retract.
pub(crate) fn retractions_of_lines(
    alloc: Global,
    names: &mut KnownNames,
    lines: &[Line],
) -> Result<Vec<Interval>, AllocError>
    ensures kept { KeepsNames names.old names.new }
    ensures read { IfOk result (λ intervals. interval_views intervals.items
        ≡ lax_retracts_of (plain_lines (line_views lines.now))) }
{
    let mut said = Retractions::none(alloc);
    for line in lines {
        said.read_line(alloc, names, line)?;
    }
    let Retractions { intervals, .. } = said;
    Ok(intervals)
}

/// The intervals that the lines of a file's bytes retract. The lines are read in one pass, and none is kept.
pub(crate) fn retractions_of_bytes(
    alloc: Global,
    names: &mut KnownNames,
    bytes: &[u8],
) -> Result<Vec<Interval>, BytesFault>
    ensures kept { KeepsNames names.old names.new }
    ensures ok { IfOk result (λ intervals. AreRetractedIn bytes.now (interval_views intervals.items)) }
    ensures fault { IfErr result (IsBytesFault Lax bytes.now) }
{
    let mut reader = LineReader::new(alloc, bytes)?;
    retractions_left(alloc, names, &mut reader)
}

/// The intervals that the lines of a file retract, of which none must have been read.
fn retractions_left<'a>(
    alloc: Global,
    names: &mut KnownNames,
    reader: &mut LineReader<'a>,
) -> Result<Vec<Interval>, BytesFault>
    requires { HasRead reader.old [] }
    ensures kept { KeepsNames names.old names.new }
    ensures ok { IfOk result (λ intervals. AreRetractedIn reader.old.source (interval_views intervals.items)) }
    ensures fault { IfErr result (IsBytesFault Lax reader.old.source) }
{
    let mut said = Retractions::none(alloc);
    loop {
        let Some(line) = reader.next()? else {
            let Retractions { intervals, .. } = said;
            return Ok(intervals);
        };
        let read = said.read_line(alloc, names, &line);
        reader.recycle(line);
        read?;
    }
}
