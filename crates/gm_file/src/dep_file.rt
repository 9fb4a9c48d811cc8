//! A dependency's file: lax reading, which keeps only what a build needs from a dependency.

ghost use Rattle.std.specs.Prelude.{◌≡◌, [], IfOk, IfErr, OnErr, None, unwrap_or};
ghost use Rattle.std.specs.Option.{option_copied};
ghost use Rattle.gm_syntax.specs.LineViews.{line_views, plain_lines};
ghost use Rattle.gm_name_table.specs.Kept.{IsWithinRoom, KeepsAll};
ghost use Rattle.gm_name_table.specs.Listed.{Appends};
ghost use Rattle.gm_file.specs.DepLines.{AreRetractedIn, IsDependencyIn};
ghost use Rattle.gm_file.specs.Directives.{Lax};
ghost use Rattle.gm_file.specs.Faults.{fault_of};
ghost use Rattle.gm_file.specs.Fields.{dependency_of, lax_retracts_of};
ghost use Rattle.gm_file.specs.Listed.{IsListedFrom};
ghost use Rattle.gm_file.specs.Misreading.{IsBytesFault};
ghost use Rattle.gm_file.specs.Private.Reading.{KeepsNames};
ghost use Rattle.gm_file.specs.Views.{ReportsFault, interval_views};

use crate::dep_lines::{DepLines, read_all, read_document};
use crate::fault::FileFault;
use crate::fields::Fields;
use crate::listed_file::ListedFile;
use crate::misreading::BytesFault;
use crate::replace::Interval;
use crate::required::Required;
use crate::retractions::{retractions_of_bytes, retractions_of_lines};
use gm_name::{ModPath, ModVer};
use gm_name_table::{KnownNames, ModuleList};
use gm_syntax::{Doc, Line};
use std::alloc::Global;
use std::marker::Model;
use std::mem;

/// About how many bytes a line with one requirement takes, to reserve the list of requirements once.
const BYTES_OF_ONE: usize = 40;

/// A dependency's file, read laxly: its `module`, `go`, `require` and `retract` directives.
///
/// It borrows nothing from its document, which may be dropped after reading.
#[derive(Drop)]
pub struct DepFile {
    /// The path of the `module` directive, if there is one.
    declared: Option<ModPath>,
    /// The first two numbers of the go version, or 1 and 16.
    go: (u32, u32),
    /// The modules of the `require` lines, in order.
    requirements: Vec<ModVer>,
    /// The intervals of the well-formed `retract` entries, in order.
    retracts: Vec<Interval>,
}

impl Model for DepFile {
    ghost use Rattle.gm_file.specs.Fields.{DependencyFile};
    ghost use Rattle.gm_file.specs.Views.{interval_views};

    ghost Value = { DependencyFile };

    ghost view = { λ f. record {
      dependency = record { declared = f.declared; go = f.go; requirements = f.requirements.items };
      retracts = interval_views f.retracts.items;
    } };
}

impl DepFile {
    /// Reads `module`, `go`, `require` and `retract` as in a main file, and ignores every other verb with its block (Go
    /// Modules Reference, go.mod files). The go version may have a leading `v`, and after its second number any text
    /// that doesn't begin with a digit. `module` may be missing.
    ///
    /// A document with a fault is refused with `FileFault::Directive`, which has the first faulty line, counted from
    /// 1, and the first kind of that line's faults in the order of `DirectiveKind`. A `retract` is never a fault: an
    /// entry that strict reading would refuse retracts nothing. `NoMemory` may replace any result, when memory runs
    /// out.
    pub fn read(alloc: Global, doc: &Doc) -> Result<DepFile, FileFault>
        ensures ok { IfOk result (λ file. (file.dependency ≡ dependency_of (plain_lines doc.now))
            × (fault_of Lax (plain_lines doc.now) ≡ None)) }
        ensures retracts { IfOk result (λ file. file.retracts ≡ lax_retracts_of (plain_lines doc.now)) }
        ensures fault { IfErr result (ReportsFault Lax (plain_lines doc.now)) }
    {
        let mut names = KnownNames::new(alloc, 0);
        DepFile::read_lines(alloc, &mut names, doc.lines())
    }

    /// Reads the lines of a document as `read` does.
    // The retractions come first, so that little is held where they are refused.
    fn read_lines(
        alloc: Global,
        names: &mut KnownNames,
        lines: &[Line],
    ) -> Result<DepFile, FileFault>
        ensures kept { KeepsNames names.old names.new }
        ensures ok { IfOk result (λ file. (file.dependency ≡ dependency_of (plain_lines (line_views lines.now)))
            × (fault_of Lax (plain_lines (line_views lines.now)) ≡ None)) }
        ensures retracts { IfOk result (λ file. file.retracts ≡ lax_retracts_of (plain_lines (line_views lines.now))) }
        ensures fault { IfErr result (ReportsFault Lax (plain_lines (line_views lines.now))) }
    {
        let retracts = retractions_of_lines(alloc, names, lines)?;
        let mut said = DepLines::over(alloc, Required::own(Vec::new(alloc)));
        let read = read_document(alloc, names, lines, &mut said);
        let DepLines { fields, .. } = said;
        let file = DepFile::of_fields(fields, retracts);
        match read {
            Ok(()) => Ok(file),
            Err(fault) => Err(fault),
        }
    }

    /// Reads the bytes of a file: the result is that of `Doc::parse` and then `read`, but no document is kept. A
    /// pass of its own reads the retractions.
    ///
    /// A fault of the text comes first, on whichever line it is: the bytes are read to the end even if a directive
    /// before it is at fault. `NoMemory` may replace any result, when memory runs out.
    ///
    /// Names are looked up in `names` and added to it, so that files that name the same modules share memory. The
    /// result doesn't depend on which names are known.
    pub fn read_bytes(
        alloc: Global,
        names: &mut KnownNames,
        bytes: &[u8],
    ) -> Result<DepFile, BytesFault>
        ensures kept { KeepsAll names.old names.new }
        ensures within { IsWithinRoom names.old → IsWithinRoom names.new }
        ensures ok { IfOk result (λ file. IsDependencyIn bytes.now file.dependency) }
        ensures retracts { IfOk result (λ file. AreRetractedIn bytes.now file.retracts) }
        ensures fault { IfErr result (IsBytesFault Lax bytes.now) }
    {
        let retracts = retractions_of_bytes(alloc, names, bytes)?;
        let pairs = Vec::with_capacity(alloc, bytes.len() / BYTES_OF_ONE)?;
        let mut said = DepLines::over(alloc, Required::own(pairs));
        let read = read_all(alloc, names, bytes, &mut said);
        let DepLines { fields, .. } = said;
        let file = DepFile::of_fields(fields, retracts);
        match read {
            Ok(()) => Ok(file),
            Err(fault) => Err(fault),
        }
    }

    /// Reads the bytes of a file as `read_bytes` does, but puts the requirements to the end of a list of modules. On a
    /// refusal the list is as it was, but more modules may have numbers. Retractions are passed over.
    ///
    /// A module that was in the list before is not stored again, nor tested again if its words are bare.
    pub fn read_listed(
        alloc: Global,
        names: &mut KnownNames,
        modules: &mut ModuleList,
        bytes: &[u8],
    ) -> Result<ListedFile, BytesFault>
        ensures kept { KeepsAll names.old names.new }
        ensures within { IsWithinRoom names.old → IsWithinRoom names.new }
        ensures ok { IfOk result (IsListedFrom bytes.now modules.old modules.new) }
        ensures fault { IfErr result (IsBytesFault Lax bytes.now) }
        ensures err { OnErr result (Appends modules.old modules.new []) }
    {
        let start = modules.len();
        let list = mem::replace(modules, ModuleList::new(alloc));
        let mut said = DepLines::over(alloc, Required::at_end(list));
        let read = read_all(alloc, names, bytes, &mut said);
        let DepLines { fields, .. } = said;
        let file = ListedFile::of_fields(fields, modules);
        match read {
            Ok(()) => Ok(file),
            Err(fault) => {
                modules.truncate(start);
                Err(fault)
            }
        }
    }

    /// The file with these fields and retractions.
    fn of_fields(fields: Fields, retracts: Vec<Interval>) -> DepFile
        requires { fields.requirements.before ≡ None }
        ensures dependency { result.dependency ≡ record {
          declared = fields.declared;
          go = unwrap_or fields.go (1, 16);
          requirements = fields.requirements.items;
        } }
        ensures retracts { result.retracts ≡ interval_views retracts.items }
    {
        let Fields {
            declared,
            go,
            requirements,
            ..
        } = fields;
        DepFile {
            declared,
            go: go.unwrap_or((1, 16)),
            requirements: requirements.into_pairs(),
            retracts,
        }
    }

    /// The path of the `module` directive, if there is one.
    pub fn module(&self) -> Option<&ModPath>
        ensures { option_copied result ≡ self.now.dependency.declared }
    {
        self.declared.as_ref()
    }

    /// The first two numbers of the `go` directive's version, or 1 and 16 if the file has no `go` directive (Go
    /// Modules Reference, go directive).
    pub fn go(&self) -> (u32, u32)
        ensures { result ≡ self.now.dependency.go }
    {
        self.go
    }

    /// The modules of the `require` lines, in the order of the lines and with duplicates.
    pub fn requirements(&self) -> &[ModVer]
        ensures { result.now ≡ self.now.dependency.requirements }
    {
        self.requirements.as_slice()
    }

    /// The intervals of the `retract` entries that strict reading would accept, in the order of the lines and with
    /// duplicates.
    pub fn retracts(&self) -> &[Interval]
        ensures { interval_views result.now ≡ self.now.retracts }
    {
        self.retracts.as_slice()
    }
}
