//! A dependency's lines: the ones of a document, or those of bytes, read in one pass, so that no document is kept.

ghost use Rattle.std.specs.Prelude.{◌≡◌, ◌≤◌, ◌∷◌, ◌++◌, [], List, None, Option, IfErr, IsTrue, OnOk, codes, length};
ghost use Rattle.std.specs.Option.{option_map};
ghost use Rattle.gm_syntax_words.specs.Tokens.{Placed};
ghost use Rattle.gm_syntax_words.specs.Words.{Word};
ghost use Rattle.gm_syntax.specs.Document.{Line as LineOf};
ghost use Rattle.gm_syntax.specs.LineReading.{HasRead, Unread};
ghost use Rattle.gm_syntax.specs.LineViews.{line_of, line_views, plain, plain_lines};
ghost use Rattle.gm_syntax.specs.SimpleLines.{IsSimpleRead};
ghost use Rattle.gm_file.specs.Private.DepLines.{AreAllRead, AreDepLines, HasNextFault, IsNextLineOf};
ghost use Rattle.gm_file.specs.Directives.{Lax, block_after_line};
ghost use Rattle.gm_file.specs.Private.Holding.{HaveIndexes};
ghost use Rattle.gm_file.specs.Misreading.{IsBytesFault};
ghost use Rattle.gm_file.specs.Private.Reading.{KeepsNames};
ghost use Rattle.gm_file.specs.Private.SimpleLines.{AreReadSofar, IsLineSaid, TakesSimple};
ghost use Rattle.gm_file.specs.Views.{ReportsFault};

use crate::fault::{DirectiveKind, FileFault, LineFault};
use crate::fields::Fields;
use crate::misreading::BytesFault;
use crate::required::Required;
use crate::verb::Mode;
use gm_name_table::KnownNames;
use gm_syntax::{Line, LineReader, SimpleLine, Token};
use std::alloc::{AllocError, Global};

/// What the lines so far of a dependency's file say.
#[derive(Drop)]
pub(crate) struct DepLines<'a> {
    /// The verb of the block that is open, if any.
    pub(crate) block: Option<Token<'a>>,
    /// The fields.
    pub(crate) fields: Fields,
}

/// Sets the verb of the open block to that of the one that is open after a line.
pub(crate) fn pass_line<'a>(
    alloc: Global,
    block: &mut Option<Token<'a>>,
    line: &Line<'a>,
) -> Result<(), AllocError>
    ensures { OnOk result (option_map (λ t. t.word) block.new
        ≡ block_after_line (option_map (λ t. t.word) block.old) (plain (line_of line.now))) }
{
    match line {
        Line::Open(verb, _) => set_block(block, Some(verb.copy(alloc)?)),
        Line::Close(_) => set_block(block, None),
        Line::Blank | Line::Comment(_) | Line::Entry(_, _) => (),
    }
    Ok(())
}

/// Sets the verb of the open block.
fn set_block<'a>(block: &mut Option<Token<'a>>, verb: Option<Token<'a>>)
    ensures { block.new ≡ verb.entry }
{
    *block = verb;
}

impl<'a> DepLines<'a> {
    /// The state before the first line. Requirements are added to `requirements`, which must be empty.
    pub(crate) fn over(alloc: Global, requirements: Required) -> DepLines<'a>
        requires { requirements.items ≡ [] }
        ensures before { result.fields.requirements.before ≡ requirements.before }
        ensures lines { AreDepLines [] result }
        ensures found { HaveIndexes result.fields }
    {
        DepLines {
            block: None,
            fields: Fields::over(alloc, requirements),
        }
    }

    /// Reads the next line.
    fn read_line(
        &mut self,
        alloc: Global,
        names: &mut KnownNames,
        line: &Line<'a>,
    ) -> Result<(), LineFault>
        requires { HaveIndexes self.old.fields }
        ensures kept { KeepsNames names.old names.new }
        ensures before { self.new.fields.requirements.before ≡ self.old.fields.requirements.before }
        ensures found { OnOk result (HaveIndexes self.new.fields) }
        ensures read { (lines : List (LineOf Word)) → AreDepLines lines self.old
            → IsNextLineOf lines (plain (line_of line.now)) self.new result }
    {
        let block = self.block.as_ref();
        self.fields.read_line(alloc, names, Mode::Lax, block, line)?;
        pass_line(alloc, &mut self.block, line)?;
        Ok(())
    }

    /// Whether the next line may be read as a simple one: no block is open, or one of `require`.
    fn takes_simple(&self) -> bool
        ensures { IsTrue result → TakesSimple self.now }
    {
        match &self.block {
            Some(verb) => verb.spelling() == "require",
            None => true,
        }
    }

    /// Reads the next line, which is simple. The verb that was asked for is `require`.
    // Inlined, so that the line isn't moved.
    #[inline(always)]
    fn read_simple(&mut self, names: &mut KnownNames, line: SimpleLine<'a>) -> Result<(), LineFault>
        requires block { TakesSimple self.old }
        requires found { HaveIndexes self.old.fields }
        ensures kept { KeepsNames names.old names.new }
        ensures block { (lines : List (LineOf Placed)) (left : Unread)
            → IsSimpleRead left lines (codes "require") line.entry → OnOk result (TakesSimple self.new) }
        ensures before { self.new.fields.requirements.before ≡ self.old.fields.requirements.before }
        ensures found { OnOk result (HaveIndexes self.new.fields) }
        ensures read { (lines : List (LineOf Placed)) (left : Unread) → AreDepLines (plain_lines lines) self.old
            → IsSimpleRead left lines (codes "require") line.entry → IsLineSaid left lines self.new result }
    {
        match line {
            SimpleLine::Blank => Ok(()),
            SimpleLine::Pair(first, second) => {
                if self.block.is_some() {
                    return self.fields.requirements.read(names, first, second);
                }
                self.fields.read_single(names, first, second)
            }
            SimpleLine::PairAfter(path, version) => {
                // In a block of `require` these are three arguments.
                if self.block.is_some() {
                    return Err(LineFault::Kind(DirectiveKind::WrongArguments));
                }
                self.fields.requirements.read(names, path, version)
            }
            SimpleLine::Opening(verb) => {
                set_block(&mut self.block, Some(verb));
                Ok(())
            }
            SimpleLine::Closing => {
                set_block(&mut self.block, None);
                Ok(())
            }
        }
    }
}

/// The fault of the bytes, given the fault of the last line that was read: a fault of the text on a later line comes
/// first.
fn fault_of_all(reader: &mut LineReader, fault: LineFault) -> BytesFault
    ensures { (lines : List (LineOf Placed)) (here : LineOf Placed) → HasRead reader.old (lines ++ here ∷ [])
        → HasNextFault (plain_lines lines) (plain here) fault → IsBytesFault Lax reader.old.source result }
{
    let number = reader.lines_read();
    match reader.skip_rest() {
        Ok(()) => BytesFault::from(fault.at_line(number)),
        Err(syntax) => BytesFault::from(syntax),
    }
}

/// Reads the next lines as far as they are simple. Nearly all lines of a file are read here.
fn read_simple_lines<'a>(
    names: &mut KnownNames,
    reader: &mut LineReader<'a>,
    said: &mut DepLines<'a>,
) -> Result<(), BytesFault>
    requires found { HaveIndexes said.old.fields }
    requires read { AreReadSofar reader.old said.old }
    ensures kept { KeepsNames names.old names.new }
    ensures before { said.new.fields.requirements.before ≡ said.old.fields.requirements.before }
    ensures found { OnOk result (HaveIndexes said.new.fields) }
    ensures read { OnOk result (AreReadSofar reader.new said.new) }
    ensures source { OnOk result (reader.new.source ≡ reader.old.source) }
    ensures no_longer { OnOk result (length reader.new.rest ≤ length reader.old.rest) }
    ensures fault { IfErr result (IsBytesFault Lax reader.old.source) }
{
    if !said.takes_simple() {
        return Ok(());
    }
    // A simple line opens or closes no other block than one of `require`, so no line needs another look at the verb.
    while let Some(line) = reader.next_simple("require") {
        if let Err(fault) = said.read_simple(names, line) {
            return Err(fault_of_all(reader, fault));
        }
    }
    Ok(())
}

/// Reads every line of a file's bytes into `said`, which must be that of no lines.
pub(crate) fn read_all<'a>(
    alloc: Global,
    names: &mut KnownNames,
    bytes: &'a [u8],
    said: &mut DepLines<'a>,
) -> Result<(), BytesFault>
    requires lines { AreDepLines [] said.old }
    requires found { HaveIndexes said.old.fields }
    ensures kept { KeepsNames names.old names.new }
    ensures before { said.new.fields.requirements.before ≡ said.old.fields.requirements.before }
    ensures ok { OnOk result (AreAllRead bytes.now said.new) }
    ensures fault { IfErr result (IsBytesFault Lax bytes.now) }
{
    let mut reader = LineReader::new(alloc, bytes)?;
    loop {
        read_simple_lines(names, &mut reader, said)?;
        let Some(line) = reader.next()? else {
            return Ok(());
        };
        let read = said.read_line(alloc, names, &line);
        reader.recycle(line);
        if let Err(fault) = read {
            return Err(fault_of_all(&mut reader, fault));
        }
    }
}

/// Reads the lines of a document, so that what no lines say becomes what these say. Lines are counted from 1.
pub(crate) fn read_document<'a>(
    alloc: Global,
    names: &mut KnownNames,
    lines: &[Line<'a>],
    said: &mut DepLines<'a>,
) -> Result<(), FileFault>
    requires lines { AreDepLines [] said.old }
    requires found { HaveIndexes said.old.fields }
    ensures kept { KeepsNames names.old names.new }
    ensures before { said.new.fields.requirements.before ≡ said.old.fields.requirements.before }
    ensures ok { OnOk result (AreDepLines (plain_lines (line_views lines.now)) said.new) }
    ensures fault { IfErr result (ReportsFault Lax (plain_lines (line_views lines.now))) }
{
    for (n, line) in lines.iter().enumerate() {
        if let Err(fault) = said.read_line(alloc, names, line) {
            return Err(fault.at_line(n + 1));
        }
    }
    Ok(())
}
