//! What command lines ask the program for.

use gomod_case_files::{Case, Run, STDIN, texts_of, tidied};
use gomod_words::{Command, Places, UsageFault, read_words};
use std::alloc::{AllocError, Global};

/// What a command line asks for, and the files that it names: the main file and the go.sum by the shortest spelling of
/// their places, or by the name of a case's standard input.
#[derive(Drop)]
pub struct Parsed {
    /// The command.
    pub command: Command,
    /// The files that it names, and its proxy folders.
    pub places: Places,
    /// Whether the command reads standard input.
    takes_input: bool,
}

impl Parsed {
    /// What words ask for, or none if they are a usage error or a request for help.
    fn of(alloc: Global, words: &[&str]) -> Result<Option<Parsed>, AllocError> {
        match read_words(alloc, words) {
            Ok((command, places)) => tidied_parsed(alloc, command, places),
            Err(UsageFault::NoMemory) => Err(AllocError),
            Err(_) => Ok(None),
        }
    }

    /// How many proxy folders it names.
    pub fn folder_count(&self) -> usize {
        match &self.places.proxy {
            Some(list) => list.folders.len(),
            None => 0,
        }
    }
}

/// Whether a command reads standard input: `versions` does so without proxy folders, and any command if it is one of
/// the files that are named.
fn takes_input(command: &Command, places: &Places) -> bool {
    match command {
        Command::Versions { .. } => places.proxy.is_none(),
        _ => is_input(places.main.as_str()) || names_input(&places.sums),
    }
}

/// Whether the go.sum is standard input.
fn names_input(sums: &Option<String>) -> bool {
    match sums {
        Some(place) => is_input(place.as_str()),
        None => false,
    }
}

/// Whether a place that is named is standard input.
fn is_input(place: &str) -> bool {
    place == "-"
}

/// A command, with the places of its files in their shortest spelling.
fn tidied_parsed(
    alloc: Global,
    command: Command,
    places: Places,
) -> Result<Option<Parsed>, AllocError> {
    let takes_input = takes_input(&command, &places);
    let mut places = places;
    tidy(alloc, &mut places)?;
    Ok(Some(Parsed {
        command,
        places,
        takes_input,
    }))
}

/// Brings the places of the main file and of the go.sum into their shortest spelling.
fn tidy(alloc: Global, places: &mut Places) -> Result<(), AllocError> {
    places.main = tidied_place(alloc, places.main.as_str())?;
    if let Some(sums) = &mut places.sums {
        *sums = tidied_place(alloc, sums.as_str())?;
    }
    Ok(())
}

/// A place in its shortest spelling. Standard input is a file of the case.
fn tidied_place(alloc: Global, place: &str) -> Result<String, AllocError> {
    if is_input(place) {
        return String::from_str(alloc, STDIN);
    }
    tidied(alloc, place)
}

/// A command of a case, and what it asks the program for.
#[derive(Drop)]
pub struct ParsedRun<'a> {
    /// The command, with the results that the case states.
    pub run: &'a Run<'a>,
    /// None if the command is a call, a usage error or a request for help. A word that is not UTF-8 is a usage error.
    pub parsed: Option<Parsed>,
}

impl<'a> ParsedRun<'a> {
    /// Whether the command reads standard input.
    pub fn takes_input(&self) -> bool {
        match &self.parsed {
            Some(parsed) => parsed.takes_input,
            None => false,
        }
    }

    /// Whether the command reads the file in this place as a main file.
    pub fn reads_main(&self, place: &str) -> bool {
        match &self.parsed {
            Some(parsed) => {
                !matches!(parsed.command, Command::Versions { .. })
                    && parsed.places.main.as_str() == place
            }
            None => false,
        }
    }
}

/// What a command of a case asks the program for.
fn parsed_words(alloc: Global, run: &Run<'_>) -> Result<Option<Parsed>, AllocError> {
    if !run.is_command_line() {
        return Ok(None);
    }
    match texts_of(alloc, run.words.as_slice())? {
        Some(words) => Parsed::of(alloc, words.as_slice()),
        None => Ok(None),
    }
}

/// The commands of a case, and what each of them asks for.
pub fn parsed_runs<'a>(
    alloc: Global,
    case: &'a Case<'a>,
) -> Result<Vec<ParsedRun<'a>>, AllocError> {
    let mut parsed_runs = Vec::new(alloc);
    for run in &case.runs {
        let parsed = parsed_words(alloc, run)?;
        parsed_runs.push(ParsedRun { run, parsed })?;
    }
    Ok(parsed_runs)
}
