//! Reading cases.

use crate::cases::{Case, Run};
use crate::escapes::push_unescaped;
use crate::faults::{
    BAD_COUNT, BAD_STATUS, BEFORE_COMMAND, CaseFault, NO_COMMAND, NO_MARK, NO_SIZE, SAID_BEFORE,
    UNDER_CALL,
};
use crate::numbering::{count_before, push_numbered};
use crate::pieces::{CasePiece, header, take_line};
use crate::sizes::{PLACE, SIZES};
use crate::words::words_of_line;
use std::alloc::Global;

/// The line of a case that is cut at every byte.
const EVERY_BYTE: &str = "% every byte";

/// What follows the mark in the line of a command that is run over real files alone.
const FILES_ONLY: &str = " files";

/// Takes the lines of a case.
#[derive(Drop)]
struct Reader<'a> {
    alloc: Global,
    /// The case so far.
    case: Case<'a>,
    /// The piece of a file that the next line belongs to.
    piece: Option<CasePiece>,
}

/// The case of a text that begins with its title, in the line of this number.
pub fn read_case<'a>(alloc: Global, line: usize, text: &'a str) -> Result<Case<'a>, CaseFault> {
    let (title, lines) = text.split_once('\n').unwrap_or((text, ""));
    let mut reader = Reader {
        alloc,
        case: Case::new(alloc, line, title),
        piece: None,
    };
    reader.take_lines(lines)?;
    let Reader { case, .. } = reader;
    Ok(case)
}

impl<'a> Reader<'a> {
    /// Takes the lines below the title.
    fn take_lines(&mut self, lines: &'a str) -> Result<(), CaseFault> {
        let title = self.case.line;
        for (index, line) in lines.split('\n').enumerate() {
            if index > 0 || !line.starts_with(SIZES) {
                self.take(title.saturating_add(index).saturating_add(1), line)?;
            }
        }
        self.end_piece(true)?;
        if self.case.runs.is_empty() {
            return Err(CaseFault::Line(title, NO_COMMAND));
        }
        Ok(())
    }

    /// Takes the next line.
    fn take(&mut self, number: usize, line: &'a str) -> Result<(), CaseFault> {
        if line.contains(PLACE) {
            return Err(CaseFault::Line(number, NO_SIZE));
        }
        if let Some(text) = header(line) {
            return self.begin_piece(number, text);
        }
        match &mut self.piece {
            Some(piece) => piece.take(self.alloc, number, line),
            None => take_among_commands(self.alloc, &mut self.case, number, line),
        }
    }

    /// Begins the piece of a file with a header.
    fn begin_piece(&mut self, number: usize, text: &str) -> Result<(), CaseFault> {
        self.end_piece(false)?;
        self.piece = Some(CasePiece::begin(self.alloc, number, text)?);
        Ok(())
    }

    /// Ends the piece that the lines so far belong to. One blank line at the end of the last piece belongs to no file.
    fn end_piece(&mut self, is_last: bool) -> Result<(), CaseFault> {
        if let Some(piece) = &mut self.piece {
            piece.end(self.alloc, is_last)?;
        }
        match self.piece.take() {
            Some(piece) => Ok(piece.put_into(self.alloc, &mut self.case)?),
            None => Ok(()),
        }
    }
}

/// Whether a line among commands is blank or a remark.
pub(crate) fn is_passed(line: &str) -> bool {
    line.trim().is_empty() || line.starts_with('#')
}

/// Takes a line among the commands of a case.
fn take_among_commands<'a>(
    alloc: Global,
    case: &mut Case<'a>,
    number: usize,
    line: &'a str,
) -> Result<(), CaseFault> {
    if is_passed(line) {
        return Ok(());
    }
    if line == EVERY_BYTE {
        return mark_once(&mut case.is_cut_everywhere, number);
    }
    if let Some(command) = line.strip_prefix("$ ") {
        return begin_run(alloc, &mut case.runs, number, command);
    }
    match case.runs.last_mut() {
        Some(run) => take_line_of_run(alloc, run, number, line),
        None => Err(CaseFault::Line(number, BEFORE_COMMAND)),
    }
}

/// Begins a command of a case.
fn begin_run<'a>(
    alloc: Global,
    runs: &mut Vec<Run<'a>>,
    number: usize,
    command: &'a str,
) -> Result<(), CaseFault> {
    let words = words_of_line(alloc, number, command)?;
    Ok(runs.push(Run::new(alloc, number, command, words))?)
}

/// Takes a line of the expected result of a command. Only a command line has a report, a status, opened files and a
/// way to run.
fn take_line_of_run<'a>(
    alloc: Global,
    run: &mut Run<'a>,
    number: usize,
    line: &'a str,
) -> Result<(), CaseFault> {
    let mut chars = line.chars();
    let mark = chars.next();
    let rest = chars.as_str();
    match mark {
        Some('>') => take_written(alloc, &mut run.out, number, rest),
        Some('!' | '?' | '@' | '%') if !run.is_command_line() => {
            Err(CaseFault::Line(number, UNDER_CALL))
        }
        Some('!') => take_written(alloc, &mut run.report, number, rest),
        Some('@') => take_opened(alloc, &mut run.opened, number, rest),
        Some('?') => take_status(&mut run.status, number, rest),
        Some('%') if rest == FILES_ONLY => mark_once(&mut run.is_over_files_only, number),
        _ => Err(CaseFault::Line(number, NO_MARK)),
    }
}

/// Takes the text after the mark of the status of a command.
fn take_status(status: &mut Option<u8>, number: usize, rest: &str) -> Result<(), CaseFault> {
    let Some(text) = rest.strip_prefix(' ') else {
        return Err(CaseFault::Line(number, NO_MARK));
    };
    let Ok(given) = text.parse::<u8>() else {
        return Err(CaseFault::Line(number, BAD_STATUS));
    };
    if status.is_some() {
        return Err(CaseFault::Line(number, SAID_BEFORE));
    }
    *status = Some(given);
    Ok(())
}

/// Sets what the line of this number says, which no line before it said.
fn mark_once(mark: &mut bool, number: usize) -> Result<(), CaseFault> {
    if *mark {
        return Err(CaseFault::Line(number, SAID_BEFORE));
    }
    *mark = true;
    Ok(())
}

/// Takes the text after the mark of a line that a command writes.
fn take_written(
    alloc: Global,
    text: &mut Vec<u8>,
    number: usize,
    rest: &str,
) -> Result<(), CaseFault> {
    if let Some(line) = rest.strip_prefix("\\ ") {
        return push_unescaped(alloc, text, number, line);
    }
    let mut chars = rest.chars();
    match chars.next() {
        None | Some(' ') => Ok(take_line(text, chars.as_str())?),
        Some('*') => take_repeated(alloc, text, number, chars.as_str()),
        _ => Err(CaseFault::Line(number, NO_MARK)),
    }
}

/// Takes the text after the mark of a line that a command writes several times.
fn take_repeated(
    alloc: Global,
    text: &mut Vec<u8>,
    number: usize,
    rest: &str,
) -> Result<(), CaseFault> {
    let Some((count, line)) = count_before(rest, ' ') else {
        return Err(CaseFault::Line(number, BAD_COUNT));
    };
    let line = format!(in alloc; "{line}\n")?;
    Ok(push_numbered(alloc, text, line.as_str(), count)?)
}

/// Takes the text after the mark of a file that a command opens.
fn take_opened<'a>(
    alloc: Global,
    opened: &mut Option<Vec<&'a str>>,
    number: usize,
    rest: &'a str,
) -> Result<(), CaseFault> {
    let is_first = opened.is_none();
    let names = opened.get_or_insert(Vec::new(alloc));
    if !is_first && (names.is_empty() || rest.is_empty()) {
        return Err(CaseFault::Line(number, SAID_BEFORE));
    }
    match rest.strip_prefix(' ') {
        Some(name) => Ok(names.push(name)?),
        None if rest.is_empty() => Ok(()),
        None => Err(CaseFault::Line(number, NO_MARK)),
    }
}
