//! Parsing operations from text.
//!
//! Parsing needs no file, so whether a text is an operation never depends on what a file says.

ghost use Rattle.std.specs.Prelude.{◌≡◌, IfOk, IsErrOf, None, Some};
ghost use Rattle.gm_file_edit.specs.Edits.{edit_as, edit_in, edit_named};
ghost use Rattle.gm_file_edit.specs.Sound.{edit_of};
ghost use Rattle.gm_file_edit.specs.Private.Sound.{IsParsedPart};

use crate::fault::OpFault;
use crate::part::{
    LeftSide, read_go, read_interval, read_left, read_pair, read_path, read_replace, split_at,
};
use gm_file::{Interval, Replace};
use gm_name::{ModPath, ModVersion};
use gm_operation::OperationKind;
use std::alloc::Global;
use std::marker::Model;

/// A directive that an operation sets.
#[derive(Drop)]
pub(crate) enum Setting {
    /// `module=PATH`: the module path.
    Module(ModPath),
    /// `go=VERSION`: the go version.
    Go(String),
    /// `require=PATH@VERSION`: the required version of a path.
    Require((ModPath, ModVersion)),
    /// `replace=LEFT=RIGHT`: a replacement. A left side without a version targets all replacements of its path.
    Replace(Replace),
}

/// A directive that an operation adds.
#[derive(Drop)]
pub(crate) enum Addition {
    /// `exclude=PATH@VERSION`: an exclusion.
    Exclude((ModPath, ModVersion)),
    /// `retract=INTERVAL`: a retraction.
    Retract(Interval),
}

/// The directives that an operation drops.
#[derive(Drop)]
pub(crate) enum Target {
    /// `droprequire=PATH`: the requirements of a path, whatever their versions.
    Require(ModPath),
    /// `dropexclude=PATH@VERSION`: the exclusions of a version of a path.
    Exclude((ModPath, ModVersion)),
    /// `dropreplace=LEFT`: the replacements with exactly this left side.
    Replace(LeftSide),
    /// `dropretract=INTERVAL`: the retractions of exactly this interval.
    Retract(Interval),
}

/// What an operation does.
#[derive(Drop)]
pub(crate) enum Change {
    /// Leaves one directive instead of all that the operation targets, and adds one if there is none. (A valid file
    /// always declares its module.)
    Set(Setting),
    /// Adds a directive, unless it is there.
    Add(Addition),
    /// Removes directives.
    Drop(Target),
}

/// An operation on the go.mod file of a main module (go help mod edit). It owns its texts.
#[derive(Drop)]
pub struct Op {
    /// What the operation does, with its arguments.
    pub(crate) change: Change,
}

impl Model for Op {
    ghost use Rattle.gm_file_edit.specs.Edits.{Edit};
    ghost use Rattle.gm_file_edit.specs.Sound.{IsSoundEdit, edit_of};

    ghost Value = { Edit };

    ghost view = { λ o. edit_of o.change };

    ghost invariant = { λ o. IsSoundEdit (edit_of o.change) };
}

/// Parses the argument of an operation of this kind.
fn read_as(alloc: Global, kind: OperationKind, text: &str) -> Result<Change, OpFault>
    ensures { IsParsedPart edit_of (edit_as kind text.now) result }
{
    match kind {
        OperationKind::Module => Ok(Change::Set(Setting::Module(read_path(alloc, text)?))),
        OperationKind::Go => Ok(Change::Set(Setting::Go(read_go(alloc, text)?))),
        OperationKind::Require => Ok(Change::Set(Setting::Require(read_pair(alloc, text)?))),
        OperationKind::DropRequire => Ok(Change::Drop(Target::Require(read_path(alloc, text)?))),
        OperationKind::Exclude => Ok(Change::Add(Addition::Exclude(read_pair(alloc, text)?))),
        OperationKind::DropExclude => Ok(Change::Drop(Target::Exclude(read_pair(alloc, text)?))),
        OperationKind::Replace => Ok(Change::Set(Setting::Replace(read_replace(alloc, text)?))),
        OperationKind::DropReplace => Ok(Change::Drop(Target::Replace(read_left(alloc, text)?))),
        OperationKind::Retract => Ok(Change::Add(Addition::Retract(read_interval(alloc, text)?))),
        OperationKind::DropRetract => Ok(Change::Drop(Target::Retract(read_interval(
            alloc, text,
        )?))),
    }
}

/// Parses the argument of the operation with this name. Any other name is refused with `Spelling`.
#[tactic(auto, unfolding(crate::specs::Edits::edit_named))]
fn read_named(alloc: Global, name: &str, text: &str) -> Result<Change, OpFault>
    ensures { IsParsedPart edit_of (edit_named name.now text.now) result }
{
    match OperationKind::named(name) {
        Some(kind) => read_as(alloc, kind, text),
        None => Err(OpFault::Spelling),
    }
}

impl Op {
    /// Parses an operation: a name, `=` and an argument (go help mod edit).
    ///
    /// The operations are `module=PATH`, `go=VERSION`, `require=PATH@VERSION`, `droprequire=PATH`,
    /// `exclude=PATH@VERSION`, `dropexclude=PATH@VERSION`, `replace=LEFT=RIGHT`, `dropreplace=LEFT`,
    /// `retract=INTERVAL` and `dropretract=INTERVAL`.
    ///
    /// - The version of `go` is a go version that strict reading of a main file accepts.
    /// - A left side is `PATH` or `PATH@VERSION`. In `replace` it ends at the first `=`.
    /// - A right side is a folder, taken verbatim and without a line feed, or `PATH@VERSION`.
    /// - An interval is a version, or `[`, two versions separated by a comma, and `]`. Spaces and tabs are allowed
    ///   around each of the two versions.
    ///
    /// Fails with `Spelling` only if the text is none of these. `NoMemory` is possible for any text, including an
    /// invalid one. Whether a version fits its path is checked by `apply`, not here.
    #[tactic(auto, unfolding(crate::specs::Edits::edit_in))]
    pub fn parse(alloc: Global, text: &str) -> Result<Op, OpFault>
        ensures ok { IfOk result (λ op. edit_in text.now ≡ Some op) }
        ensures spelling { IsErrOf result OpFault.Spelling → edit_in text.now ≡ None }
    {
        let Some((name, argument)) = split_at(text, '=') else {
            return Err(OpFault::Spelling);
        };
        let change = read_named(alloc, name, argument)?;
        Ok(Op { change })
    }
}
