//! What operations are about.

ghost use Rattle.std.specs.Prelude.{◌≡◌, Some, None};
ghost use Rattle.gm_file.specs.Views.{interval_view};
ghost use Rattle.gm_file_edit.specs.Edits.{Add, Drop, Set};
ghost use Rattle.gm_file_edit.specs.Private.Keys.{subject_view, takes_any_version, target_of_edit};
ghost use Rattle.gm_file_edit.specs.Sound.{addition_of, edit_of, setting_of, target_of};

use crate::op::{Addition, Change, Setting, Target};
use gm_file::{Interval, Verb};
use gm_name::{ModPath, ModVersion};

/// What a directive is about: an operation targets all directives with the same subject.
#[derive(Clone, Copy)]
pub(crate) struct Subject<'c> {
    /// The verb.
    pub(crate) verb: Verb,
    /// The path, or the lower end of the interval.
    pub(crate) first: Option<&'c str>,
    /// The version that is excluded or replaced, or the upper end of the interval.
    pub(crate) second: Option<&'c str>,
}

/// All directives of a verb.
fn of_verb<'c>(verb: Verb) -> Subject<'c>
    ensures { subject_view result ≡ (verb, (None, None)) }
{
    Subject {
        verb,
        first: None,
        second: None,
    }
}

/// A path.
fn of_path<'c>(verb: Verb, path: &'c ModPath) -> Subject<'c>
    ensures { subject_view result ≡ (verb, (Some path.now, None)) }
{
    Subject {
        verb,
        first: Some(path.as_str()),
        second: None,
    }
}

/// A path and a version.
fn of_pair<'c>(verb: Verb, path: &'c ModPath, version: &'c ModVersion) -> Subject<'c>
    ensures { subject_view result ≡ (verb, (Some path.now, Some version.now)) }
{
    Subject {
        verb,
        first: Some(path.as_str()),
        second: Some(version.as_str()),
    }
}

/// The left side of a `replace`.
fn of_left<'c>(path: &'c ModPath, version: &'c Option<ModVersion>) -> Subject<'c>
    ensures { subject_view result ≡ (Verb.Replace, (Some path.now, version.now)) }
{
    match version {
        None => of_path(Verb::Replace, path),
        Some(version) => of_pair(Verb::Replace, path, version),
    }
}

/// An interval.
fn of_interval<'c>(ends: &'c Interval) -> Subject<'c>
    ensures { subject_view result ≡ (Verb.Retract, (Some (interval_view ends.now).0, Some (interval_view ends.now).1)) }
{
    Subject {
        verb: Verb::Retract,
        first: Some(ends.low.as_str()),
        second: Some(ends.high.as_str()),
    }
}

/// What a setting is about.
pub(crate) fn setting_target<'c>(setting: &'c Setting) -> Subject<'c>
    ensures { subject_view result ≡ target_of_edit (Set (setting_of setting.now)) }
{
    match setting {
        Setting::Module(_) => of_verb(Verb::Module),
        Setting::Go(_) => of_verb(Verb::Go),
        Setting::Require((path, _)) => of_path(Verb::Require, path),
        Setting::Replace(replace) => of_left(&replace.left, &replace.version),
    }
}

/// What an addition is about.
pub(crate) fn addition_target<'c>(addition: &'c Addition) -> Subject<'c>
    ensures { subject_view result ≡ target_of_edit (Add (addition_of addition.now)) }
{
    match addition {
        Addition::Exclude((path, version)) => of_pair(Verb::Exclude, path, version),
        Addition::Retract(ends) => of_interval(ends),
    }
}

/// What a drop is about.
fn drop_target<'c>(target: &'c Target) -> Subject<'c>
    ensures { subject_view result ≡ target_of_edit (Drop (target_of target.now)) }
{
    match target {
        Target::Require(path) => of_path(Verb::Require, path),
        Target::Exclude((path, version)) => of_pair(Verb::Exclude, path, version),
        Target::Replace(side) => of_left(&side.path, &side.version),
        Target::Retract(ends) => of_interval(ends),
    }
}

/// What an operation is about.
pub(crate) fn target_of<'c>(change: &'c Change) -> Subject<'c>
    ensures { subject_view result ≡ target_of_edit (edit_of change.now) }
{
    match change {
        Change::Set(setting) => setting_target(setting),
        Change::Add(addition) => addition_target(addition),
        Change::Drop(target) => drop_target(target),
    }
}

/// Whether an operation targets all directives about its path, whatever their versions. A `replace` without a version
/// supersedes all of its path.
pub(crate) fn takes_any_version(change: &Change) -> bool
    ensures { result ≡ takes_any_version (edit_of change.now) }
{
    match change {
        Change::Set(Setting::Replace(replace)) => replace.version.is_none(),
        _ => false,
    }
}
