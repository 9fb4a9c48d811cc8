//! The outcome of `versions`: the module's list, its versions, what the go.mod of the latest one retracts, and the line
//! of those that are shown.

ghost use Rattle.std.specs.Prelude.{◌≡◌, ◌⊎◌, ◌++◌, ℕ, [], Bool, IfOk, List, MatchOption, MatchResult, None, OnOk, Option, Some, codes, false, map, true};
ghost use Rattle.std.specs.String.{string_bytes};
ghost use Rattle.std.specs.List.Sorted.{IsStrictlySortedBy};
ghost use Rattle.gm_version.specs.Version.{version_cmp};
ghost use Rattle.gm_file.specs.Views.{interval_views};
ghost use Rattle.gm_file.specs.Shown.{shown_of};
ghost use Rattle.gm_store_parts.specs.Asked.{IsWithinLimit, Name, answer_in, bytes, mod_file, name_of, reply_of};
ghost use Rattle.gm_store_parts.specs.States.{HasServed, StoreState};
ghost use Rattle.gm_store.specs.Latest.{IsLatest};
ghost use Rattle.gm_graph_files.specs.Summaries.{RetractsBy, reading_of};
ghost use Rattle.gm_graph_files.specs.Reading.{IsFileReading};
ghost use Rattle.gomod_texts.specs.Outcome.{OrNoMemory, report_outcome, text_outcome};
ghost use Rattle.gomod_outcomes.specs.Private.Ended.{outcome_view};
ghost use Rattle.gomod_outcomes.specs.Versions.{list_refusal, versions_line};
ghost use Rattle.gomod_outcomes.specs.Private.VersionsRuns.{AreVersionsAnswered, IsListAnswered, IsVersionsRun};

use crate::asking::ask_for;
use gm_file::{Interval, shown_versions};
use gm_graph::{Class, FileReading};
use gm_name::{BorrowedVersion, ModPath, ModVersion, NoMemory};
use gm_name_table::KnownNames;
use gm_store::{Answer, Asks, FileName, latest, versions_of};
use gomod_texts::Report;
use std::alloc::Global;

/// Appends a space and a version.
fn push_version(line: &mut String, version: &BorrowedVersion<'_>) -> Result<(), NoMemory>
    ensures { OnOk result (string_bytes line.new ≡ string_bytes line.old ++ (codes " " ++ version.now)) }
{
    line.push_str(" ")?;
    line.push_str(version.as_str())
}

/// The path and the versions on one line, separated by single spaces.
fn versions_line(
    alloc: Global,
    path: &ModPath,
    versions: &[&BorrowedVersion<'_>],
) -> Result<String, NoMemory>
    ensures { IfOk result (λ line. string_bytes line
        ≡ versions_line path.now (map (λ version. version.now) versions.now)) }
{
    let mut line = String::from_str(alloc, path.as_str())?;
    for version in versions {
        push_version(&mut line, version)?;
    }
    line.push_str("\n")?;
    Ok(line)
}

/// The path and the versions that no interval contains, on one line. `versions` must be in ascending order, each
/// once.
fn shown_line<'r>(
    alloc: Global,
    path: &ModPath,
    versions: &[BorrowedVersion<'_>],
    intervals: &[Interval],
) -> Result<String, Report<'r>>
    requires { IsStrictlySortedBy version_cmp versions.now }
    ensures { OrNoMemory (λ outcome. outcome ≡ text_outcome
        (versions_line path.now (shown_of (interval_views intervals.now) versions.now))) (outcome_view result) }
{
    let shown = shown_versions(alloc, versions, intervals)?;
    let line = versions_line(alloc, path, shown.as_slice())?;
    Ok(line)
}

/// The list of a module in the answer for it, or the report that there is none or that it is too long. It takes no
/// memory.
fn list_in<'p, 'a>(path: &'p ModPath, answer: &'a Answer) -> Result<&'a [u8], Report<'p>>
    ensures { MatchResult result
        (λ list. reply_of answer.entry.now ≡ bytes list.now)
        (λ told. list_refusal path.entry.now true (Some (reply_of answer.entry.now)) ≡ Some (report_outcome told)) }
{
    match answer {
        Answer::Bytes(list) => Ok(list.as_slice()),
        Answer::Absent => Err(Report::List(path, Class::Missing)),
        Answer::TooLong => Err(Report::List(path, Class::TooLong)),
    }
}

/// Asks for the list of a module that a proxy can have, and copies it: its versions borrow their texts, and not from
/// the store, which is asked once more. A list that can't be had is reported before the copy takes memory.
fn list_of<'p, F: Asks>(
    alloc: Global,
    path: &'p ModPath,
    files: &mut F,
) -> Result<Vec<u8>, Report<'p>>
    requires { (F.state files.old).asked ≡ [] }
    ensures run { (all : Bool) → MatchResult result
        (λ list. IsListAnswered path.now (F.state files.old) (F.state files.new) (bytes list.items))
        (λ told. IsVersionsRun path.now all (F.state files.old) (F.state files.new) (report_outcome told)) }
    ensures served { HasServed (F.may_answer files.old) (F.may_answer files.new)
        (F.state files.old) (F.state files.new) }
{
    if !path.is_fetchable() {
        return Err(Report::List(path, Class::NotFetchable));
    }
    ask_for(files, FileName::List(path.copy(alloc)?))?;
    let list = list_in(path, files.last())?;
    Ok(Vec::from_slice(alloc, list)?)
}

/// The version whose go.mod says what is retracted: the latest one, or `None` if all are asked for or there are none.
fn latest_unless(
    alloc: Global,
    all: bool,
    versions: &[BorrowedVersion<'_>],
) -> Result<Option<ModVersion>, NoMemory>
    ensures { IfOk result (λ found. MatchOption found
        ((all ≡ true) ⊎ (versions.now ≡ []))
        (λ latest. (all ≡ false) × IsLatest versions.now latest)) }
{
    if all {
        return Ok(None);
    }
    match latest(versions) {
        Some(version) => Ok(Some(version.to_version(alloc)?)),
        None => Ok(None),
    }
}

/// The name of the go.mod of a version.
fn mod_name(alloc: Global, path: &ModPath, version: &ModVersion) -> Result<FileName, NoMemory>
    ensures { IfOk result (λ name. name_of name ≡ mod_file path.now version.now) }
{
    Ok(FileName::Mod(path.copy(alloc)?, version.copy(alloc)?))
}

/// What the answer for a go.mod says, or what is wrong with it. No hash is checked.
fn read_answer(alloc: Global, answer: &Answer) -> Result<FileReading, NoMemory>
    ensures reading { (name : Name) → IfOk result (λ read. IsWithinLimit (reply_of answer.now)
        → IsFileReading None name (reply_of answer.now) (reading_of read)) }
    ensures retracts { IfOk result (RetractsBy (reply_of answer.now)) }
{
    match answer {
        Answer::Bytes(file) => {
            FileReading::of_bytes(alloc, &mut KnownNames::new(alloc, 0), file.as_slice())
        }
        Answer::Absent => Ok(FileReading::Faulty(Class::Missing)),
        Answer::TooLong => Ok(FileReading::Faulty(Class::TooLong)),
    }
}

/// What `versions` ends with over the listed versions, the latest of which has the go.mod that says what is retracted.
fn unretracted_outcome<'p, F: Asks>(
    alloc: Global,
    path: &'p ModPath,
    versions: &[BorrowedVersion<'_>],
    latest: ModVersion,
    files: &mut F,
) -> Result<String, Report<'p>>
    requires unasked { answer_in (F.state files.old).asked (mod_file path.now latest) ≡ None }
    requires sorted { IsStrictlySortedBy version_cmp versions.now }
    ensures run { (first : StoreState)
        → AreVersionsAnswered path.now first (F.state files.old) versions.now → IsLatest versions.now latest
        → IsVersionsRun path.now false first (F.state files.new) (outcome_view result) }
    ensures served { HasServed (F.may_answer files.old) (F.may_answer files.new)
        (F.state files.old) (F.state files.new) }
{
    ask_for(files, mod_name(alloc, path, &latest)?)?;
    match read_answer(alloc, files.last())? {
        FileReading::Valid(file) => shown_line(alloc, path, versions, file.retracts()),
        FileReading::Faulty(class) => Err(Report::File(path, latest, class)),
    }
}

/// What `versions` ends with over the listed versions. All of them are printed if all are asked for, or there are none.
fn listed_outcome<'p, F: Asks>(
    alloc: Global,
    path: &'p ModPath,
    all: bool,
    versions: &[BorrowedVersion<'_>],
    files: &mut F,
) -> Result<String, Report<'p>>
    requires unasked { (latest : List ℕ) → answer_in (F.state files.old).asked (mod_file path.now latest) ≡ None }
    requires sorted { IsStrictlySortedBy version_cmp versions.now }
    ensures run { (first : StoreState)
        → AreVersionsAnswered path.now first (F.state files.old) versions.now
        → IsVersionsRun path.now all first (F.state files.new) (outcome_view result) }
    ensures served { HasServed (F.may_answer files.old) (F.may_answer files.new)
        (F.state files.old) (F.state files.new) }
{
    match latest_unless(alloc, all, versions)? {
        Some(latest) => unretracted_outcome(alloc, path, versions, latest, files),
        None => shown_line(alloc, path, versions, &[]),
    }
}

/// What `versions` ends with over a store that has not been asked yet. With `all`, retracted versions are printed too.
pub(crate) fn versions_outcome<'p, F: Asks>(
    alloc: Global,
    path: &'p ModPath,
    all: bool,
    files: &mut F,
) -> Result<String, Report<'p>>
    requires { (F.state files.old).asked ≡ [] }
    ensures run { IsVersionsRun path.now all (F.state files.old) (F.state files.new) (outcome_view result) }
    ensures served { HasServed (F.may_answer files.old) (F.may_answer files.new)
        (F.state files.old) (F.state files.new) }
{
    let list = list_of(alloc, path, files)?;
    let versions = versions_of(alloc, path, list.as_slice())?;
    listed_outcome(alloc, path, all, versions.as_slice(), files)
}
