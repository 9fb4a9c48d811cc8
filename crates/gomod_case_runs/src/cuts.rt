//! Files that are cut off, and what is right over them.

use crate::differences::Differences;
use crate::outcomes::{DEVICE, Outcome};
use crate::parsing::ParsedRun;
use gomod_case_files::Run;

/// The greatest length of a text that is cut at every byte. A longer one is cut at its line ends alone, unless the case
/// says that it is cut at every byte.
const MOST: usize = 600;

/// Whether a text of this length is cut at every byte.
pub fn is_short(length: usize) -> bool {
    length <= MOST
}

/// Whether a line of a text begins at this place.
pub fn begins_line(text: &[u8], at: usize) -> bool {
    at == 0 || text.get(at.saturating_sub(1)) == Some(&b'\n')
}

/// Whether a text is cut at this place.
pub fn is_cut(text: &[u8], at: usize, is_cut_everywhere: bool) -> bool {
    is_cut_everywhere || begins_line(text, at)
}

/// A file that is cut off, and what is left of it.
#[derive(Clone, Copy)]
pub struct CutFile<'a> {
    /// Its name in the case.
    pub name: &'a str,
    /// What is left of it.
    pub bytes: &'a [u8],
    /// Whether the real file is cut off too, and not only the file in memory.
    pub is_real: bool,
}

/// Checks the result of a command in memory, if it runs there.
pub fn check_found_over_cut(
    parsed_run: &ParsedRun<'_>,
    cut: &CutFile<'_>,
    layout: &Option<Outcome>,
    found: &Option<Outcome>,
    differences: &mut Differences,
) {
    let Some(found) = found else {
        return;
    };
    if let Some(fault) = unsound(layout, parsed_run, cut, found) {
        report_cut(parsed_run.run, fault, cut, found, differences);
    }
}

/// Checks the result of a command over real files by the one in memory, if it runs there.
pub fn check_real_over_cut(
    parsed_run: &ParsedRun<'_>,
    cut: &CutFile<'_>,
    layout: &Option<Outcome>,
    found: &Option<Outcome>,
    real: &Outcome,
    differences: &mut Differences,
) {
    let fault = match found {
        Some(found) => otherwise(found, real),
        None => unsound(layout, parsed_run, cut, real),
    };
    if let Some(fault) = fault {
        report_cut(parsed_run.run, fault, cut, real, differences);
    }
}

/// How the result of a command over real files differs from the one in memory.
fn otherwise(found: &Outcome, real: &Outcome) -> Option<&'static str> {
    if found.is_same(real) {
        None
    } else {
        Some("otherwise than in memory")
    }
}

/// Reports what is wrong with the result of a command over a file that is cut off.
fn report_cut(
    run: &Run<'_>,
    fault: &str,
    cut: &CutFile<'_>,
    outcome: &Outcome,
    differences: &mut Differences,
) {
    differences.command(run, fault);
    differences.line(cut.name);
    differences.number("  cut off after so many bytes", cut.bytes.len());
    differences.outcome(outcome);
}

/// How a command differs from what `fmt` reports of its main file, if `fmt` refuses that.
fn differs(
    layout: &Option<Outcome>,
    parsed_run: &ParsedRun<'_>,
    cut: &CutFile<'_>,
    outcome: &Outcome,
) -> Option<&'static str> {
    // an invalid go.sum is reported before an invalid main file
    if parsed_run.run.wanted_status() == DEVICE || !parsed_run.reads_main(cut.name) {
        return None;
    }
    match layout {
        Some(layout) if layout.status != 0 && !layout.is_same(outcome) => {
            Some("over a main file that fmt refuses otherwise")
        }
        _ => None,
    }
}

/// What is wrong with the result of a command over files of which one is cut off.
fn unsound(
    layout: &Option<Outcome>,
    parsed_run: &ParsedRun<'_>,
    cut: &CutFile<'_>,
    outcome: &Outcome,
) -> Option<&'static str> {
    if is_sound(parsed_run.run, outcome) {
        differs(layout, parsed_run, cut, outcome)
    } else {
        Some("over a file that is cut off")
    }
}

/// Whether a command that fails writes nothing to its output and reports why, and one that succeeds reports nothing. A
/// status of 2 or 3 is right only if the command has it over the whole file too.
fn is_sound(run: &Run<'_>, outcome: &Outcome) -> bool {
    let out = outcome.out.bytes();
    let report = outcome.report.bytes();
    match outcome.status {
        0 => report.is_empty(),
        1 => out.is_empty() && report.ends_with(b"\n"),
        status => status == run.wanted_status() && out.is_empty() && report.ends_with(b"\n"),
    }
}
