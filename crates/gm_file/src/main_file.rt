//! The main module's file: strict reading, and lookups of replacements and exclusions.

ghost use Rattle.std.specs.Prelude.{◌≡◌, IfOk, IfErr, None, Some};
ghost use Rattle.std.specs.Option.{option_map};
ghost use Rattle.gm_syntax.specs.LineViews.{plain_lines};
ghost use Rattle.gm_file.specs.Directives.{Strict};
ghost use Rattle.gm_file.specs.Faults.{fault_of};
ghost use Rattle.gm_file.specs.Fields.{module_of, retracts_of};
ghost use Rattle.gm_file.specs.Private.Holding.{AreRead};
ghost use Rattle.gm_file.specs.Main.{IsMainOf, is_excluded, is_pruned_by, main_of, replacement_in};
ghost use Rattle.gm_file.specs.Misreading.{IsBytesFault};
ghost use Rattle.gm_file.specs.Views.{ReportsFault, interval_views, replace_views, right_view};

use crate::fault::{DirectiveKind, FileFault};
use crate::fields::{Fields, read_lines};
use crate::main_module::MainModule;
use crate::misreading::BytesFault;
use crate::replace::{Interval, Replace, Right};
use gm_name::{ModPath, ModVer};
use gm_name_table::KnownNames;
use gm_syntax::Doc;
use std::alloc::Global;
use std::marker::Model;

/// How many paths, and as many versions, the lines of a main file share. A long one names few versions again and again.
const MOST_SHARED: usize = 1_024;

/// The main module's file, read strictly.
///
/// It keeps its document, so that the file can be edited later. The words of the document borrow from the bytes that
/// were parsed.
#[derive(Drop)]
pub struct MainFile<'a> {
    /// The document that was read.
    doc: Doc<'a>,
    /// What it says, other than its retractions.
    main: MainModule,
    /// The intervals of the `retract` lines, in order.
    retracts: Vec<Interval>,
}

impl<'a> Model for MainFile<'a> {
    ghost use Rattle.std.specs.Prelude.{List};
    ghost use Rattle.gm_syntax_words.specs.Tokens.{Placed};
    ghost use Rattle.gm_syntax.specs.Document.{Line};
    ghost use Rattle.gm_file.specs.Held.{AreMainFields};

    ghost Value = { List (Line Placed) };

    ghost view = { λ f. f.doc };

    ghost invariant = { λ f. AreMainFields f.doc f.main f.retracts.items };
}

impl<'a> MainFile<'a> {
    /// Reads the directives of a main module's file (Go Modules Reference, go.mod files).
    ///
    /// A document with a fault is refused with `FileFault::Directive`, which has the first faulty line and the first
    /// kind of that line's faults in the order of `DirectiveKind`. A file without `module` and without any other fault
    /// is refused with `NoModule` at line 0. Lines are counted in the document, from 1. `NoMemory` may replace any
    /// result, when memory runs out. The document is consumed, also on a refusal. Reading n lines takes O(n log n)
    /// steps.
    pub fn read(alloc: Global, doc: Doc<'a>) -> Result<MainFile<'a>, FileFault>
        ensures ok { IfOk result (λ file. (file ≡ doc.entry) × (fault_of Strict (plain_lines doc.entry) ≡ None)) }
        ensures fault { IfErr result (ReportsFault Strict (plain_lines doc.entry)) }
    {
        let mut names = KnownNames::new(alloc, MOST_SHARED);
        let fields = read_lines(alloc, &mut names, doc.lines())?;
        MainFile::of_fields(doc, fields)
    }

    /// Reads the bytes of a main module's file: the result is that of `Doc::parse` and then `read`.
    ///
    /// A fault of the text comes before those of directives, on whichever line it is. Bytes without a `module` and
    /// without any other fault are refused with `NoModule` at line 0. `NoMemory` may replace any result, when memory
    /// runs out.
    pub fn read_bytes(alloc: Global, bytes: &'a [u8]) -> Result<MainFile<'a>, BytesFault>
        ensures ok { IfOk result (IsMainOf bytes.now) }
        ensures fault { IfErr result (IsBytesFault Strict bytes.now) }
    {
        let doc = Doc::parse(alloc, bytes)?;
        Ok(MainFile::read(alloc, doc)?)
    }

    /// The file of a document with these fields. Without a `module` it is refused with `NoModule` at line 0.
    fn of_fields(doc: Doc<'a>, fields: Fields) -> Result<MainFile<'a>, FileFault>
        requires own { fields.requirements.before ≡ None }
        requires read { AreRead Strict (plain_lines doc) fields }
        ensures ok { IfOk result (λ file. (file ≡ doc.entry) × (fault_of Strict (plain_lines doc.entry) ≡ None)) }
        ensures fault { IfErr result (ReportsFault Strict (plain_lines doc.entry)) }
    {
        let Fields {
            declared,
            go,
            requirements,
            excludes,
            replaces,
            retracts,
        } = fields;
        let Some(declared) = declared else {
            return Err(FileFault::Directive {
                line: 0,
                kind: DirectiveKind::NoModule,
            });
        };
        let go = go.unwrap_or((1, 16));
        let requirements = requirements.into_pairs();
        let main = MainModule::new(declared, go, requirements, excludes, replaces);
        Ok(MainFile {
            doc,
            main,
            retracts,
        })
    }

    /// The document that was read.
    pub fn doc(&self) -> &Doc<'a>
        ensures lines { result.now ≡ self.now }
        ensures sound { fault_of Strict (plain_lines self.now) ≡ None }
    {
        &self.doc
    }

    /// The document that was read, without the fields. Takes no memory.
    pub fn into_doc(self) -> Doc<'a>
        ensures lines { result ≡ self.entry }
        ensures sound { fault_of Strict (plain_lines self.entry) ≡ None }
    {
        self.doc
    }

    /// What the file says, other than its retractions.
    pub fn main_module(&self) -> &MainModule
        ensures { result.now ≡ main_of self.now }
    {
        &self.main
    }

    /// What the file says, other than its retractions, without the document. Takes no memory.
    pub fn into_module(self) -> MainModule
        ensures { result ≡ main_of self.entry }
    {
        self.main
    }

    /// The path of the `module` directive.
    pub fn module(&self) -> &ModPath
        ensures declared { module_of Strict (plain_lines self.now) ≡ Some result.now }
        ensures path { result.now ≡ (main_of self.now).path }
    {
        self.main.path()
    }

    /// The first two numbers of the `go` directive's version, or 1 and 16 if the file has no `go` directive (Go
    /// Modules Reference, go directive).
    pub fn go(&self) -> (u32, u32)
        ensures { result ≡ (main_of self.now).go }
    {
        self.main.go()
    }

    /// Whether the file is pruned by its go version, that is, whether the first two numbers are 1.17 or higher (Go
    /// Modules Reference, "Module graph pruning").
    pub fn is_pruned(&self) -> bool
        ensures { result ≡ is_pruned_by (main_of self.now).go }
    {
        self.main.is_pruned()
    }

    /// The modules of the `require` lines, in the order of the lines and with duplicates.
    pub fn requirements(&self) -> &[ModVer]
        ensures { result.now ≡ (main_of self.now).requirements }
    {
        self.main.requirements()
    }

    /// The modules of the `exclude` lines, in the order of the lines and with duplicates.
    pub fn excludes(&self) -> &[ModVer]
        ensures { result.now ≡ (main_of self.now).excludes }
    {
        self.main.excludes()
    }

    /// The `replace` lines, in order and with duplicates.
    pub fn replaces(&self) -> &[Replace]
        ensures { replace_views result.now ≡ (main_of self.now).replaces }
    {
        self.main.replaces()
    }

    /// The intervals of the `retract` lines, in the order of the lines and with duplicates. A single version is an
    /// interval with that version as both ends.
    pub fn retracts(&self) -> &[Interval]
        ensures { retracts_of (plain_lines self.now) ≡ interval_views result.now }
    {
        self.retracts.as_slice()
    }

    /// The replacement of a module at a version, or `None` if no `replace` applies to it.
    ///
    /// This is the right side of the `replace` that names the version, otherwise of the one that names only the path
    /// (Go Modules Reference, replace directive). The lookup allocates nothing and takes logarithmic time in the
    /// number of lines.
    pub fn replacement(&self, pair: &ModVer) -> Option<&Right>
        ensures { option_map (λ right. right_view right.now) result ≡ replacement_in (main_of self.now) pair.now }
    {
        self.main.replacement(pair)
    }

    /// Whether an `exclude` line names that path and version (Go Modules Reference, exclude directive).
    ///
    /// The lookup allocates nothing and takes logarithmic time in the number of lines.
    pub fn excluded(&self, pair: &ModVer) -> bool
        ensures { result ≡ is_excluded (main_of self.now) pair.now }
    {
        self.main.excluded(pair)
    }
}
