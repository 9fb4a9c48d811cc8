//! The pieces that the files of a case are made of.

use crate::cases::{Case, CaseFile, Content};
use crate::escapes::push_unescaped;
use crate::faults::{BAD_HEADER, BAD_WORDS, CaseFault, LIKE_MARK, NO_CONTENT, SEVERAL_LINES};
use crate::numbering::{NUMBER, count_of, numbered, push_numbered};
use crate::words::{texts_of, words_of_line};
use std::alloc::{AllocError, Global};
use std::{mem, str};

/// The last line of a file that does not end in a line end.
pub const NO_LINE_END: &str = "\\ No newline at end of file";

/// What the words of a header after the name say.
#[derive(Clone, Copy)]
enum HeaderKind<'a> {
    /// A file with lines of this form.
    Lines(LineForm),
    /// A file with this mode.
    Mode(u32),
    Folder,
    Link(&'a str),
    Copy(&'a str),
}

/// How the lines below a header are read.
#[derive(Clone, Copy)]
enum LineForm {
    /// As they stand.
    Plain,
    /// With escapes.
    Escaped,
    /// This many times, each with its number.
    Repeated(usize),
    /// As one line, whose last character is repeated until the line, with its end, has this many bytes.
    Filled(usize),
}

/// A piece of a file of a case: its header, and the lines below it.
#[derive(Drop)]
pub(crate) struct CasePiece {
    /// The number of the header's line.
    line: usize,
    /// The file that it makes or continues, with the bytes of the lines so far.
    file: CaseFile,
    form: LineForm,
    lines: usize,
    /// The number of blank lines at the end, which are not among the bytes yet.
    blanks: usize,
}

/// The header in a line, if it is one.
pub(crate) fn header(line: &str) -> Option<&str> {
    line.strip_prefix("-- ")?.strip_suffix(" --")
}

/// The mode that octal digits name.
fn mode_of(text: &str) -> Option<u32> {
    match u32::from_str_radix(text, 8) {
        Ok(mode @ 0..=0o777) => Some(mode),
        _ => None,
    }
}

/// What the words of a header after the name say.
fn kind_of<'a>(words: &[&'a str]) -> Option<HeaderKind<'a>> {
    match words {
        [] => Some(HeaderKind::Lines(LineForm::Plain)),
        [verb] => kind_alone(verb),
        [verb, argument] => kind_with(verb, argument),
        _ => None,
    }
}

/// What a word of a header says that has no argument.
fn kind_alone<'a>(verb: &str) -> Option<HeaderKind<'a>> {
    match verb {
        "escaped" => Some(HeaderKind::Lines(LineForm::Escaped)),
        "folder" => Some(HeaderKind::Folder),
        _ => None,
    }
}

/// What a word of a header says with its argument.
fn kind_with<'a>(verb: &str, argument: &'a str) -> Option<HeaderKind<'a>> {
    match (verb, count_of(argument), mode_of(argument)) {
        ("repeat", Some(count), _) => Some(HeaderKind::Lines(LineForm::Repeated(count))),
        ("fill", Some(count), _) => Some(HeaderKind::Lines(LineForm::Filled(count))),
        ("mode", _, Some(mode)) => Some(HeaderKind::Mode(mode)),
        ("link", _, _) => Some(HeaderKind::Link(argument)),
        ("copy", _, _) => Some(HeaderKind::Copy(argument)),
        _ => None,
    }
}

/// What a case has at the place of a header, before any line.
fn content_of(alloc: Global, kind: HeaderKind<'_>) -> Result<Content, AllocError> {
    Ok(match kind {
        HeaderKind::Lines(_) | HeaderKind::Mode(_) => Content::Bytes(Vec::new(alloc)),
        HeaderKind::Folder => Content::Folder,
        HeaderKind::Link(place) => Content::Link(String::from_str(alloc, place)?),
        HeaderKind::Copy(file) => Content::Copy(String::from_str(alloc, file)?),
    })
}

/// Whether the name of a file is the shortest spelling of its place, and leads at most one folder up out of the folder
/// of its case.
fn is_place(name: &str) -> bool {
    let rest = name
        .strip_prefix("../")
        .or(name.strip_prefix('/'))
        .unwrap_or(name);
    for part in rest.split('/') {
        if matches!(part, "" | "." | "..") {
            return false;
        }
    }
    true
}

/// The name and the kind in the words of a header.
fn read_header<'a>(words: &[&'a str]) -> Option<(&'a str, HeaderKind<'a>)> {
    match words {
        [name, rest @ ..] if is_place(name) => Some((*name, kind_of(rest)?)),
        _ => None,
    }
}

impl CasePiece {
    /// The piece that a header begins.
    pub(crate) fn begin(alloc: Global, line: usize, text: &str) -> Result<CasePiece, CaseFault> {
        let words = words_of_line(alloc, line, text)?;
        match texts_of(alloc, words.as_slice())? {
            Some(texts) => CasePiece::of_words(alloc, line, texts.as_slice()),
            None => Err(CaseFault::Line(line, BAD_WORDS)),
        }
    }

    /// The piece that the words of a header begin.
    fn of_words(alloc: Global, line: usize, words: &[&str]) -> Result<CasePiece, CaseFault> {
        match read_header(words) {
            Some((name, kind)) => Ok(CasePiece::new(alloc, line, name, kind)?),
            None => Err(CaseFault::Line(line, BAD_HEADER)),
        }
    }

    /// A piece without lines.
    fn new(
        alloc: Global,
        line: usize,
        name: &str,
        kind: HeaderKind<'_>,
    ) -> Result<CasePiece, AllocError> {
        let (form, mode) = match kind {
            HeaderKind::Lines(form) => (form, None),
            HeaderKind::Mode(mode) => (LineForm::Plain, Some(mode)),
            HeaderKind::Folder | HeaderKind::Link(_) | HeaderKind::Copy(_) => (
                LineForm::Plain,
                None,
            ),
        };
        let name = String::from_str(alloc, name)?;
        let content = content_of(alloc, kind)?;
        let file = CaseFile {
            name,
            content,
            mode,
        };
        Ok(CasePiece {
            line,
            file,
            form,
            lines: 0,
            blanks: 0,
        })
    }

    /// Takes a line below the header.
    pub(crate) fn take(
        &mut self,
        alloc: Global,
        number: usize,
        line: &str,
    ) -> Result<(), CaseFault> {
        if line.is_empty() {
            self.blanks = self.blanks.saturating_add(1);
            return Ok(());
        }
        if line.starts_with("==") || line.starts_with("--") {
            return Err(CaseFault::Line(number, LIKE_MARK));
        }
        self.take_blanks(0)?;
        self.lines = self.lines.saturating_add(1);
        match &mut self.file.content {
            Content::Bytes(bytes) => push_formed(alloc, bytes, self.form, number, line),
            _ => Err(CaseFault::Line(number, NO_CONTENT)),
        }
    }

    /// Takes the blank lines at the end, but for this many.
    fn take_blanks(&mut self, left: usize) -> Result<(), AllocError> {
        let count = self.blanks.saturating_sub(left);
        self.blanks = 0;
        match &mut self.file.content {
            Content::Bytes(bytes) => bytes.resize(bytes.len().saturating_add(count), b'\n'),
            _ => Ok(()),
        }
    }

    /// Ends the piece: its lines get their form. One blank line at the end of the last piece belongs to no file.
    pub(crate) fn end(&mut self, alloc: Global, is_last: bool) -> Result<(), CaseFault> {
        self.take_blanks(if is_last { 1 } else { 0 })?;
        if matches!(self.form, LineForm::Filled(_)) && self.lines != 1 {
            return Err(CaseFault::Line(self.line, SEVERAL_LINES));
        }
        Ok(self.form_bytes(alloc)?)
    }

    /// Fills its line, or repeats its lines, unless each is to be a file of its own.
    fn form_bytes(&mut self, alloc: Global) -> Result<(), AllocError> {
        let Content::Bytes(bytes) = &mut self.file.content else {
            return Ok(());
        };
        match self.form {
            LineForm::Filled(count) => fill(bytes, count),
            LineForm::Repeated(count) if !self.file.name.as_str().contains(NUMBER) => {
                repeat(alloc, bytes, count)
            }
            _ => Ok(()),
        }
    }

    /// Adds what it makes, once it has ended, to the files of its case.
    pub(crate) fn put_into(self, alloc: Global, case: &mut Case<'_>) -> Result<(), AllocError> {
        match self.form {
            LineForm::Plain | LineForm::Escaped => {}
            LineForm::Repeated(_) | LineForm::Filled(_) => case.is_large = true,
        }
        match self.form {
            LineForm::Repeated(count) if self.file.name.as_str().contains(NUMBER) => {
                put_files(alloc, case, &self.file, count)
            }
            _ => put(case, self.file),
        }
    }
}

/// Takes a line of a piece into its bytes.
fn push_formed(
    alloc: Global,
    bytes: &mut Vec<u8>,
    form: LineForm,
    number: usize,
    line: &str,
) -> Result<(), CaseFault> {
    if line == NO_LINE_END || !matches!(form, LineForm::Escaped) {
        return Ok(take_line(bytes, line)?);
    }
    push_unescaped(alloc, bytes, number, line)?;
    Ok(bytes.push(b'\n')?)
}

/// Takes a line into a text.
pub(crate) fn take_line(text: &mut Vec<u8>, line: &str) -> Result<(), AllocError> {
    if line == NO_LINE_END {
        let _ = text.pop();
        return Ok(());
    }
    text.extend_from_slice(line.as_bytes())?;
    text.extend_from_slice(b"\n")
}

/// Repeats the last byte of a line until the line, with its end, has this many bytes.
fn fill(line: &mut Vec<u8>, count: usize) -> Result<(), AllocError> {
    let _ = line.pop();
    let last = line.last().copied().unwrap_or(b' ');
    line.resize(count.saturating_sub(1), last)?;
    line.extend_from_slice(b"\n")
}

/// Repeats a text, each time with its number. One that is not UTF-8 is left out.
fn repeat(alloc: Global, bytes: &mut Vec<u8>, count: usize) -> Result<(), AllocError> {
    let text = mem::replace(bytes, Vec::new(alloc));
    push_numbered(
        alloc,
        bytes,
        str::from_utf8(text.as_slice()).unwrap_or(""),
        count,
    )
}

/// Adds a file to a case, or its bytes to those of a file with its name.
fn put(case: &mut Case<'_>, file: CaseFile) -> Result<(), AllocError> {
    if is_continued(&mut case.files, &file)? {
        return Ok(());
    }
    Ok(case.files.push(file)?)
}

/// Whether some of these files have a name, in which case the first of them gets the bytes of the file with that name.
fn is_continued(files: &mut [CaseFile], more: &CaseFile) -> Result<bool, AllocError> {
    for file in files {
        if file.name == more.name {
            append(&mut file.content, more.bytes())?;
            return Ok(true);
        }
    }
    Ok(false)
}

/// Appends bytes to what a case has at a place, if these are bytes.
fn append(content: &mut Content, bytes: &[u8]) -> Result<(), AllocError> {
    match content {
        Content::Bytes(before) => before.extend_from_slice(bytes),
        _ => Ok(()),
    }
}

/// Adds this many files to a case, each with its number.
fn put_files(
    alloc: Global,
    case: &mut Case<'_>,
    file: &CaseFile,
    count: usize,
) -> Result<(), AllocError> {
    for index in 0..count {
        let file = numbered_file(alloc, file, index.saturating_add(1), count)?;
        case.files.push(file)?;
    }
    Ok(())
}

/// The file with this number.
fn numbered_file(
    alloc: Global,
    file: &CaseFile,
    number: usize,
    greatest: usize,
) -> Result<CaseFile, AllocError> {
    let text = str::from_utf8(file.bytes()).unwrap_or("");
    let text = numbered(alloc, text, NUMBER, number, greatest)?;
    let name = numbered(alloc, file.name.as_str(), NUMBER, number, greatest)?;
    Ok(CaseFile {
        name,
        content: Content::Bytes(text.into_bytes()),
        mode: None,
    })
}
