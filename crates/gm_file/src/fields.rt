//! The fields that both ways of reading collect, line by line, and the loop of strict reading, which stops at the first
//! fault.

ghost use Rattle.std.specs.Prelude.{◌≡◌, [], IfErr, IfOk, None, OnOk};
ghost use Rattle.std.specs.Option.{option_map};
ghost use Rattle.gm_syntax.specs.LineViews.{line_of, line_views, plain, plain_lines};
ghost use Rattle.gm_file.specs.Directives.{Mode as ModeOf, Strict, Lax, DeclaresGo, DeclaresModule, block_after_line, item_at};
ghost use Rattle.gm_file.specs.DirectiveViews.{directive_view};
ghost use Rattle.gm_file.specs.Faults.{go_in, path_kinds};
ghost use Rattle.gm_file.specs.Private.Holding.{HaveIndexes, AreRead, Holds, IsAdded, IsLineAdded};
ghost use Rattle.gm_file.specs.Private.Reading.{KeepsNames};
ghost use Rattle.gm_file.specs.Reading.{own_kinds};
ghost use Rattle.gm_file.specs.Private.SimpleLines.{single_item};
ghost use Rattle.gm_file.specs.VerbViews.{mode_view};
ghost use Rattle.gm_file.specs.Views.{ReportsFault};

use crate::directive::{Directive, read_line_with_names};
use crate::exclusions::Exclusions;
use crate::fault::{DirectiveKind, FileFault, LineFault};
use crate::go_version::{lax_go, strict_go};
use crate::part::read_path;
use crate::replace::Interval;
use crate::replacements::Replacements;
use crate::required::Required;
use crate::verb::Mode;
use gm_name::ModPath;
use gm_name_table::KnownNames;
use gm_syntax::{Line, Token};
use std::alloc::Global;

/// The fields of the lines that have been read.
#[derive(Drop)]
pub(crate) struct Fields {
    /// The path of the `module` directive, if there was one.
    pub(crate) declared: Option<ModPath>,
    /// The first two numbers of the go version, if there was one.
    pub(crate) go: Option<(u32, u32)>,
    /// The modules of the `require` lines, in order.
    pub(crate) requirements: Required,
    /// The modules of the `exclude` lines, in order, with their index.
    pub(crate) excludes: Exclusions,
    /// The `replace` lines, in order, with their index.
    pub(crate) replaces: Replacements,
    /// The intervals of the `retract` lines, in order.
    pub(crate) retracts: Vec<Interval>,
}

/// The first two numbers of a go version, or `None` if the mode doesn't accept the text.
fn go_in(mode: Mode, text: &str) -> Option<(u32, u32)>
    ensures { result ≡ go_in (mode_view mode) text.now }
{
    match mode {
        Mode::Strict => strict_go(text),
        Mode::Lax => lax_go(text),
    }
}

impl Fields {
    /// The state before the first line. Requirements are added to `requirements`, which must be empty.
    pub(crate) fn over(alloc: Global, requirements: Required) -> Fields
        requires { requirements.items ≡ [] }
        ensures before { result.requirements.before ≡ requirements.before }
        ensures holds { (mode : ModeOf) → Holds mode [] result }
        ensures found { HaveIndexes result }
    {
        Fields {
            declared: None,
            go: None,
            requirements,
            excludes: Exclusions::new(alloc),
            replaces: Replacements::new(alloc),
            retracts: Vec::new(alloc),
        }
    }

    /// The fields of no lines.
    pub(crate) fn new(alloc: Global) -> Fields
        ensures own { result.requirements.before ≡ None }
        ensures holds { (mode : ModeOf) → Holds mode [] result }
        ensures found { HaveIndexes result }
    {
        Fields::over(alloc, Required::own(Vec::new(alloc)))
    }

    /// Adds the path of a `module` directive. A second one is refused with `Repeated`.
    fn add_module(&mut self, path: ModPath) -> Result<(), LineFault>
        requires early { path_kinds path ≡ [] }
        requires found { HaveIndexes self.old }
        ensures before { self.new.requirements.before ≡ self.old.requirements.before }
        ensures found { OnOk result (HaveIndexes self.new) }
        ensures added { (mode : ModeOf) → IsAdded mode self.old self.new (DeclaresModule path) result }
    {
        if self.declared.is_some() {
            return Err(LineFault::Kind(DirectiveKind::Repeated));
        }
        self.declared = Some(path);
        Ok(())
    }

    /// Adds the version of a `go` directive. A second one is refused with `Repeated`, whatever its version, and then an
    /// invalid version with `BadGo`.
    fn add_go(&mut self, mode: Mode, text: &str) -> Result<(), LineFault>
        requires found { HaveIndexes self.old }
        ensures before { self.new.requirements.before ≡ self.old.requirements.before }
        ensures found { OnOk result (HaveIndexes self.new) }
        ensures added { IsAdded (mode_view mode) self.old self.new (DeclaresGo text.now) result }
    {
        if self.go.is_some() {
            return Err(LineFault::Kind(DirectiveKind::Repeated));
        }
        let Some(numbers) = go_in(mode, text) else {
            return Err(LineFault::Kind(DirectiveKind::BadGo));
        };
        self.go = Some(numbers);
        Ok(())
    }

    /// Adds a directive that has no fault by itself. It is refused if it conflicts with an earlier one, a go version
    /// also if it is invalid, and any directive with `NoMemory` if memory runs out.
    fn add(&mut self, alloc: Global, mode: Mode, directive: Directive) -> Result<(), LineFault>
        requires early { own_kinds (directive_view directive) ≡ [] }
        requires found { HaveIndexes self.old }
        ensures before { self.new.requirements.before ≡ self.old.requirements.before }
        ensures found { OnOk result (HaveIndexes self.new) }
        ensures added { IsAdded (mode_view mode) self.old self.new (directive_view directive) result }
    {
        match directive {
            Directive::Module(path) => self.add_module(path),
            Directive::Go(text) => self.add_go(mode, text.as_str()),
            Directive::Require(pair) => {
                self.requirements.push(pair)?;
                Ok(())
            }
            Directive::Exclude(pair) => self.excludes.add(alloc, pair),
            Directive::Replace(replace) => self.replaces.add(alloc, replace),
            Directive::Retract(interval) => {
                self.retracts.push(interval)?;
                Ok(())
            }
            Directive::Kept => Ok(()),
        }
    }

    /// Adds the directive of this verb and this value, which are the bare words of a line outside blocks in a
    /// dependency's file.
    pub(crate) fn read_single(
        &mut self,
        names: &mut KnownNames,
        verb: &str,
        value: &str,
    ) -> Result<(), LineFault>
        requires { HaveIndexes self.old }
        ensures kept { KeepsNames names.old names.new }
        ensures before { self.new.requirements.before ≡ self.old.requirements.before }
        ensures found { OnOk result (HaveIndexes self.new) }
        ensures added { IsLineAdded Lax self.old self.new (single_item verb.now value.now) result }
    {
        if verb == "module" {
            let path = read_path(names, value)?;
            return self.add_module(path);
        }
        if verb == "go" {
            return self.add_go(Mode::Lax, value);
        }
        if verb == "require" {
            return Err(LineFault::Kind(DirectiveKind::WrongArguments));
        }
        Ok(())
    }

    /// Reads the next line and adds its directive. `block` is the verb of the open block, if any.
    pub(crate) fn read_line(
        &mut self,
        alloc: Global,
        names: &mut KnownNames,
        mode: Mode,
        block: Option<&Token>,
        line: &Line,
    ) -> Result<(), LineFault>
        requires { HaveIndexes self.old }
        ensures kept { KeepsNames names.old names.new }
        ensures before { self.new.requirements.before ≡ self.old.requirements.before }
        ensures found { OnOk result (HaveIndexes self.new) }
        ensures added { IsLineAdded (mode_view mode) self.old self.new
            (item_at (option_map (λ t. t.now.word) block.entry, plain (line_of line.now))) result }
    {
        match read_line_with_names(alloc, names, mode, block, line)? {
            Some(directive) => self.add(alloc, mode, directive),
            None => Ok(()),
        }
    }
}

/// The verb of the block that is open after a line, given the verb of the one that is open before it. Takes no memory.
pub fn block_after_line<'w, 'a>(
    block: Option<&'w Token<'a>>,
    line: &'w Line<'a>,
) -> Option<&'w Token<'a>>
    ensures placed { option_map (λ t. t.now) result
        ≡ block_after_line (option_map (λ t. t.now) block.entry) (line_of line.now) }
    ensures words { option_map (λ t. t.now.word) result
        ≡ block_after_line (option_map (λ t. t.now.word) block.entry) (plain (line_of line.now)) }
{
    match line {
        Line::Open(verb, _) => Some(verb),
        Line::Close(_) => None,
        Line::Blank | Line::Comment(_) | Line::Entry(_, _) => block,
    }
}

/// The fields of all lines of a main file, or the first fault of the first line that has one. Lines are counted from 1.
/// A missing `module` is no fault here: `MainFile::read` checks for it.
pub(crate) fn read_lines(
    alloc: Global,
    names: &mut KnownNames,
    lines: &[Line],
) -> Result<Fields, FileFault>
    ensures kept { KeepsNames names.old names.new }
    ensures own { IfOk result (λ fields. fields.requirements.before ≡ None) }
    ensures ok { IfOk result (AreRead Strict (plain_lines (line_views lines.now))) }
    ensures fault { IfErr result (ReportsFault Strict (plain_lines (line_views lines.now))) }
{
    let mut fields = Fields::new(alloc);
    let mut block = None;
    for (n, line) in lines.iter().enumerate() {
        if let Err(fault) = fields.read_line(alloc, names, Mode::Strict, block, line) {
            return Err(fault.at_line(n + 1));
        }
        block = block_after_line(block, line);
    }
    Ok(fields)
}
