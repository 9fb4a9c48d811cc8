//! A program over files of cases.

use crate::checking::check_case;
use crate::program::Program;
use gomod_case_files::{
    Case, CaseFault, CaseFile, CaseText, Content, Sizes, case_texts, read_case,
};
use gomod_case_runs::{Count, Differences};
use std::process::ExitCode;
use std::{env, fs, io};

/// The ending of the words that name files of cases.
const ENDING: &str = ".txt";

/// Whether a word names a file of cases.
fn names_file(word: &str) -> bool {
    word.ends_with(ENDING)
}

/// Runs cases with a program. The words of the command line that end in `.txt` name files of cases, and all others
/// choose the cases whose titles contain one of them. It runs these cases, reports on standard error how each that
/// fails differs, and prints how many passed and failed, and if all passed how many runs were made. The status is 0 if
/// all passed, 1 if one failed or a file of cases can't be read, and 3 if the cases can't be run.
pub fn exit_code<P: Program>(rt: &HostRuntime, program: &P) -> ExitCode {
    match all_pass(rt, program) {
        Ok(true) => ExitCode::SUCCESS,
        Ok(false) => ExitCode::from(1),
        Err(error) => {
            let _ = eprintln!(rt; "run_cases: {error}");
            ExitCode::from(3)
        }
    }
}

/// The words of the command line.
fn words(rt: &HostRuntime) -> io::Result<Vec<String>> {
    Ok(env::args(rt)?.skip(1).collect(rt.alloc())?)
}

/// Runs the cases, and says whether all passed.
fn all_pass<P: Program>(rt: &HostRuntime, program: &P) -> io::Result<bool> {
    let words = words(rt)?;
    all_chosen_pass(rt, program, words.as_slice())
}

/// Runs the cases that words name and choose, and says whether all passed.
fn all_chosen_pass<P: Program>(
    rt: &HostRuntime,
    program: &P,
    words: &[String],
) -> io::Result<bool> {
    let mut unmatched = Vec::new(rt.alloc());
    unmatched.resize(words.len(), true)?;
    let mut session = Session {
        system: *rt,
        program,
        words,
        unmatched,
        count: Count::new(),
        passed: 0,
        failed: 0,
    };
    session.run_files()
}

/// What the cases are run with, which are asked for, and how many passed and failed so far.
#[derive(Drop)]
struct Session<'a, P> {
    system: HostRuntime,
    program: &'a P,
    words: &'a [String],
    /// For each word, whether it names no file and is in no title so far.
    unmatched: Vec<bool>,
    count: Count,
    passed: usize,
    failed: usize,
}

impl<'a, P: Program> Session<'a, P> {
    /// Runs the cases of all files, prints how many passed, and says whether all did.
    fn run_files(&mut self) -> io::Result<bool> {
        for word in self.words {
            if names_file(word.as_str()) {
                self.run_file(word.as_str())?;
            }
        }
        self.fail_unmatched()?;
        self.report_tally()?;
        Ok(self.failed == 0)
    }

    /// Fails for each word that was to choose cases and chose none, and if no case was run at all.
    fn fail_unmatched(&mut self) -> io::Result<()> {
        let words = self.words;
        for (index, word) in words.iter().enumerate() {
            if self.unmatched.get(index) == Some(&true) && !names_file(word.as_str()) {
                self.count_failure();
                eprintln!(&self.system; "no title has {word}")?;
            }
        }
        if self.passed == 0 && self.failed == 0 {
            self.count_failure();
            eprintln!(&self.system; "no case was run")?;
        }
        Ok(())
    }

    /// Prints how many cases passed and failed, and how many runs were made if all passed. A case that fails is not run
    /// further, so its number of runs says nothing.
    fn report_tally(&self) -> io::Result<()> {
        let (passed, failed) = (self.passed, self.failed);
        if failed > 0 {
            return println!(&self.system; "{passed} passed, {failed} failed");
        }
        let runs = self.count.runs();
        println!(&self.system; "{passed} passed, {failed} failed, {runs} runs")
    }

    /// Runs the cases of a file.
    fn run_file(&mut self, name: &str) -> io::Result<()> {
        match fs::read_to_string(&self.system, name) {
            Ok(text) => self.run_text(name, text.as_str()),
            Err(error) => self.fail_unread(name, &error),
        }
    }

    /// Reports a file of cases that can't be read.
    fn fail_unread(&mut self, name: &str, error: &io::Error) -> io::Result<()> {
        self.count_failure();
        eprintln!(&self.system; "{name}: {error}")
    }

    /// Runs the cases of a text.
    fn run_text(&mut self, name: &str, text: &str) -> io::Result<()> {
        match case_texts(self.system.alloc(), text) {
            Ok(cases) => self.run_chosen(name, cases.as_slice()),
            Err(fault) => self.fail_read(name, fault),
        }
    }

    /// Runs those of the cases that the words choose.
    fn run_chosen(&mut self, name: &str, cases: &[CaseText<'_>]) -> io::Result<()> {
        for case in cases {
            if is_chosen(case.title(), self.words, &mut self.unmatched) {
                self.run_case_text(name, case)?;
            }
        }
        Ok(())
    }

    /// Runs a case as it stands, or at each of its sizes.
    fn run_case_text(&mut self, name: &str, case: &CaseText<'_>) -> io::Result<()> {
        match case.sizes(self.system.alloc()) {
            Ok(None) => self.run_read(name, case.line, case.text, None),
            Ok(Some(sizes)) => self.run_sized(name, case, &sizes),
            Err(fault) => self.fail_read(name, fault),
        }
    }

    /// Runs a case at each of its sizes.
    fn run_sized(&mut self, name: &str, case: &CaseText<'_>, sizes: &Sizes) -> io::Result<()> {
        for (index, size) in sizes.all.iter().enumerate() {
            let text = case.at(self.system.alloc(), *size)?;
            let is_in_memory_alone = sizes.is_in_memory_alone(index);
            self.run_read(name, case.line, text.as_str(), Some(is_in_memory_alone))?;
        }
        Ok(())
    }

    /// Runs the case of a text whose title is in this line. If it is one of several sizes, it is said whether it is run
    /// in memory alone.
    fn run_read(
        &mut self,
        name: &str,
        line: usize,
        text: &str,
        sized: Option<bool>,
    ) -> io::Result<()> {
        match read_case(self.system.alloc(), line, text) {
            Ok(mut case) => self.run_case(name, &mut case, sized),
            Err(fault) => self.fail_read(name, fault),
        }
    }

    /// Reports why a case can't be read.
    fn fail_read(&mut self, name: &str, fault: CaseFault) -> io::Result<()> {
        match fault {
            CaseFault::Line(number, what) => {
                self.count_failure();
                eprintln!(&self.system; "{name}:{number}: {what}")
            }
            CaseFault::NoMemory => Err(io::Error::from(io::ErrorKind::OutOfMemory)),
        }
    }

    /// Runs a case, once if it is at one of several sizes, after it reads the files that it copies.
    fn run_case(&mut self, name: &str, case: &mut Case<'_>, sized: Option<bool>) -> io::Result<()> {
        if let Some(is_in_memory_alone) = sized {
            case.is_large = true;
            case.is_in_memory_alone = is_in_memory_alone;
        }
        read_copies(&self.system, case)?;
        self.check(name, case)
    }

    /// Checks a case.
    fn check(&mut self, name: &str, case: &Case<'_>) -> io::Result<()> {
        let mut differences = Differences::new(self.system.alloc());
        check_case(
            &self.system,
            self.program,
            case,
            &self.count,
            &mut differences,
        )?;
        self.end_case(name, case, &differences)
    }

    /// Counts a case, and reports how it differs, if it does.
    fn end_case(
        &mut self,
        name: &str,
        case: &Case<'_>,
        differences: &Differences,
    ) -> io::Result<()> {
        let differences = differences.finished()?;
        if differences.is_empty() {
            self.passed = self.passed.saturating_add(1);
            return Ok(());
        }
        self.count_failure();
        let (line, title) = (case.line, case.title);
        eprint!(&self.system; "{name}:{line}: {title}\n{differences}")
    }

    /// Counts a failure, which its caller reports.
    fn count_failure(&mut self) {
        self.failed = self.failed.saturating_add(1);
    }
}

/// Reads the files that a case copies.
fn read_copies(rt: &HostRuntime, case: &mut Case<'_>) -> io::Result<()> {
    for file in &mut case.files {
        read_copy(rt, file)?;
    }
    Ok(())
}

/// Reads the file that a file of a case copies, if it is a copy.
fn read_copy(rt: &HostRuntime, file: &mut CaseFile) -> io::Result<()> {
    let bytes = match &file.content {
        Content::Copy(name) => fs::read(rt, name.as_str())?,
        _ => return Ok(()),
    };
    file.content = Content::Bytes(bytes);
    Ok(())
}

/// Whether the words choose the case with a title. If no word chooses titles, all cases are chosen. It notes the words
/// that are in the title.
fn is_chosen(title: &str, words: &[String], unmatched: &mut [bool]) -> bool {
    let (mut chooses, mut is_chosen) = (false, false);
    for (word, is_unmatched) in words.iter().zip(unmatched) {
        if !names_file(word.as_str()) {
            chooses = true;
            if title.contains(word.as_str()) {
                is_chosen = true;
                *is_unmatched = false;
            }
        }
    }
    is_chosen || !chooses
}
