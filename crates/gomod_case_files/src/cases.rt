//! Cases: commands over a few files, and the results they must have.

use std::alloc::Global;

/// The name of the file that commands read from standard input.
pub const STDIN: &str = "stdin";

/// The word that a command line begins with. Any other first word names a call.
const PROGRAM: &[u8] = b"gomod";

/// What a case has at a place.
#[derive(Drop)]
pub enum Content {
    /// A file with these bytes.
    Bytes(Vec<u8>),
    /// A folder.
    Folder,
    /// A symbolic link to this place.
    Link(String),
    /// A copy of a file in the folder of the file of cases, until it is read.
    Copy(String),
}

/// A file of a case.
#[derive(Drop)]
pub struct CaseFile {
    /// Its place, relative to the folder that the commands run in.
    pub name: String,
    /// What it holds.
    pub content: Content,
    /// Its permissions, if the case gives them.
    pub mode: Option<u32>,
}

impl CaseFile {
    /// The bytes of the file, or none if it is a folder or a link.
    pub(crate) fn bytes(&self) -> &[u8] {
        match &self.content {
            Content::Bytes(bytes) => bytes.as_slice(),
            _ => b"",
        }
    }
}

/// A command, and its expected result.
#[derive(Drop)]
pub struct Run<'a> {
    /// The number of its line.
    pub line: usize,
    /// The command as the case spells it.
    pub command: &'a str,
    /// Its words, without quotes and escapes. They need not be UTF-8.
    pub words: Vec<Vec<u8>>,
    /// What it writes to standard output.
    pub out: Vec<u8>,
    /// What it writes to standard error.
    pub report: Vec<u8>,
    /// Its exit status, if the case gives it.
    pub status: Option<u8>,
    /// The files that it opens, in order, if the case lists them.
    pub opened: Option<Vec<&'a str>>,
    /// Whether it is run over real files alone, and not in memory.
    pub is_over_files_only: bool,
}

impl<'a> Run<'a> {
    /// A command that is expected to write nothing.
    pub(crate) fn new(
        alloc: Global,
        line: usize,
        command: &'a str,
        words: Vec<Vec<u8>>,
    ) -> Run<'a> {
        Run {
            line,
            command,
            words,
            out: Vec::new(alloc),
            report: Vec::new(alloc),
            status: None,
            opened: None,
            is_over_files_only: false,
        }
    }

    /// Whether it is a command line of the program and not a call.
    pub fn is_command_line(&self) -> bool {
        matches!(self.words.first(), Some(word) if word.as_slice() == PROGRAM)
    }

    /// The exit status that it must have: 0 unless the case gives another.
    pub fn wanted_status(&self) -> u8 {
        self.status.unwrap_or(0)
    }
}

/// Some commands over some files.
#[derive(Drop)]
pub struct Case<'a> {
    /// The number of the line of its title.
    pub line: usize,
    pub title: &'a str,
    /// Its commands, in order.
    pub runs: Vec<Run<'a>>,
    /// Its files.
    pub files: Vec<CaseFile>,
    /// Whether one of its files is made by repetition. Such a case is run once.
    pub is_large: bool,
    /// Whether those of its commands that run in memory run there alone, as they do at all sizes of a range but the
    /// greatest.
    pub is_in_memory_alone: bool,
    /// Whether its files and outputs are cut at every byte, however many runs that takes.
    pub is_cut_everywhere: bool,
}

impl<'a> Case<'a> {
    /// A case without commands and files.
    pub(crate) fn new(alloc: Global, line: usize, title: &'a str) -> Case<'a> {
        Case {
            line,
            title,
            runs: Vec::new(alloc),
            files: Vec::new(alloc),
            is_large: false,
            is_in_memory_alone: false,
            is_cut_everywhere: false,
        }
    }

    /// The file of this name.
    pub fn file(&self, name: &str) -> Option<&CaseFile> {
        for file in &self.files {
            if file.name.as_str() == name {
                return Some(file);
            }
        }
        None
    }
}
