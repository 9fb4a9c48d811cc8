//! A runtime whose files are in one folder, and whose words and standard input are known.

ghost use Rattle.std.specs.Prelude.{Some};
ghost use Rattle.std.specs.Io.{WritesAtMost};
ghost use Rattle.gomod_words.specs.Given.{IsFilled};

use crate::known_input::KnownInput;
use gm_store::{FileSystem, StandardInput};
use gomod_case_files::is_near;
use gomod_words::Words;
use std::alloc::{AllocError, Global};
use std::cell::{Cell, RefCell};
use std::env::FillError;
use std::fs::File;
use std::io::ErrorKind;
use std::{fs, io};

/// What was read: the files that were opened, which of them can't be opened, and whether standard input was taken.
#[derive(Drop)]
pub struct Log {
    opened: RefCell<Vec<String>>,
    /// How many files can be opened before the one that can't, if there is one.
    left: Cell<Option<usize>>,
    takes_input: Cell<bool>,
}

impl Log {
    /// An empty log. If a number is given, the file after that many others can't be opened.
    pub fn new(alloc: Global, left: Option<usize>) -> Log {
        Log {
            opened: RefCell::new(Vec::new(alloc)),
            left: Cell::new(left),
            takes_input: Cell::new(false),
        }
    }

    /// Records a file that is to be opened, and says whether it can be.
    fn note(&self, alloc: Global, path: &str) -> io::Result<()> {
        let name = String::from_str(alloc, path)?;
        if let Ok(mut opened) = self.opened.try_borrow_mut() {
            opened.push(name).map_err(AllocError::from)?;
        }
        let Some(left) = self.left.get() else {
            return Ok(());
        };
        if left == 0 {
            self.left.set(None);
            return Err(io::Error::from(ErrorKind::PermissionDenied));
        }
        self.left.set(Some(left.saturating_sub(1)));
        Ok(())
    }

    /// The names of the files, in the order in which they were opened.
    pub fn take(&self, alloc: Global) -> Vec<String> {
        match self.opened.try_replace(Vec::new(alloc)) {
            Ok(opened) => opened,
            Err(_) => Vec::new(alloc),
        }
    }

    /// Whether the reader of standard input was asked for.
    pub fn takes_input(&self) -> bool {
        self.takes_input.get()
    }
}

/// A runtime whose files are in one real folder, whose standard input is that of a case, and whose command line has
/// some words. All else that it can do is to allocate.
#[derive(Clone, Copy)]
pub struct CaseRuntime<'case, 'run> {
    /// The words of the command line after the program's name.
    pub words: &'run [Vec<u8>],
    /// The runtime that opens the real files.
    pub system: HostRuntime,
    /// The real folder.
    pub folder: &'case str,
    /// Standard input.
    pub input: KnownInput<'case>,
    /// Where each file that is opened is recorded, and each use of standard input.
    pub log: &'run Log,
}

impl Alloc for CaseRuntime<'_, '_> {
    type A = Global;

    fn alloc(&self) -> Global {
        self.system.alloc()
    }
}

impl Words for CaseRuntime<'_, '_> {
    ghost use Rattle.std.specs.Prelude.{Some, map};

    ghost given = { λ runtime. Some (map (λ word. word.items) runtime.words.now) };

    fn fill_word(&self, number: usize, room: &mut [u8]) -> Result<usize, FillError> {
        match self.words.get(number) {
            Some(word) => copy_word(word.as_slice(), room),
            None => Err(FillError::NotPresent),
        }
    }
}

/// Copies a word to the front of `room`, and returns its length in bytes.
fn copy_word(word: &[u8], room: &mut [u8]) -> Result<usize, FillError>
    ensures bound { WritesAtMost result room.new }
    ensures word { IsFilled (Some word.now) room.new result }
{
    if room.len() < word.len() {
        return Err(FillError::TooLong);
    }
    room[..word.len()].copy_from_slice(word);
    Ok(word.len())
}

impl<'case> StandardInput for CaseRuntime<'case, '_> {
    ghost use Rattle.std.specs.Prelude.{◌≡◌, Some, false};
    ghost use Rattle.gm_store_parts.specs.Openings.{opened};

    type Reader = KnownInput<'case>;

    ghost may_take = { λ runtime opening. opening ≡ opened (Some runtime.input.left.now) false };

    fn take_input(&self) -> KnownInput<'case> {
        self.log.takes_input.set(true);
        self.input
    }
}

impl FileSystem for CaseRuntime<'_, '_> {
    type File = File;

    ghost may_open = { λ _ _ _. Unit {0} };

    fn open(&self, path: &str) -> io::Result<File> {
        let alloc = self.system.alloc();
        self.log.note(alloc, path)?;
        if !is_near(alloc, path)? {
            return Err(io::Error::from(ErrorKind::NotFound));
        }
        let folder = self.folder;
        let place = format!(in alloc; "{folder}/{path}")?;
        fs::open(&self.system, place.as_str())
    }
}
