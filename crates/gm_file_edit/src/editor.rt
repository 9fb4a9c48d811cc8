//! Editing the lines of a file by operations in turn.
//!
//! An operation leaves a sound file sound, so nothing is read again between two operations.

ghost use Rattle.std.specs.Prelude.{◌≡◌, ◌↔◌, IfOk, IsErrOf, OnErr, OnOk, None, false};
ghost use Rattle.gm_syntax.specs.LineViews.{plain_lines};
ghost use Rattle.gm_file.specs.Directives.{Strict};
ghost use Rattle.gm_file.specs.Faults.{fault_of};
ghost use Rattle.gm_file_edit.specs.Edited.{lines_after};
ghost use Rattle.gm_file_edit.specs.Kinds.{is_fit};

use crate::applying::{edit_lines, is_fit};
use crate::fault::EditFault;
use crate::keyed_lines::KeyedLines;
use crate::op::Op;
use gm_file::{FileFault, MainFile};
use gm_syntax::Doc;
use std::alloc::{AllocError, Global};
use std::marker::Model;

/// The lines of a main module's file, which operations change in turn. They are always a document that strict reading
/// accepts. Its methods take memory from the allocator of the lines.
#[derive(Drop)]
pub struct Editor<'a> {
    /// The allocator of the lines.
    alloc: Global,
    /// The lines after the operations so far.
    lines: KeyedLines<'a>,
}

impl<'a> Model for Editor<'a> {
    ghost use Rattle.std.specs.Prelude.{List, ◌≡◌, None};
    ghost use Rattle.gm_syntax_words.specs.Tokens.{Placed};
    ghost use Rattle.gm_syntax.specs.Document.{IsDocument, Line as LineOf};
    ghost use Rattle.gm_syntax.specs.LineViews.{plain_lines};
    ghost use Rattle.gm_file.specs.Directives.{Strict};
    ghost use Rattle.gm_file.specs.Faults.{fault_of};

    ghost Value = { List (LineOf Placed) };

    ghost view = { λ e. e.lines };

    ghost invariant = { λ e. IsDocument (plain_lines e.lines) × (fault_of Strict (plain_lines e.lines) ≡ None) };
}

impl<'a> Editor<'a> {
    /// An editor of a file's lines, which it takes. Fails only if memory runs out.
    pub fn of(file: MainFile<'a>) -> Result<Editor<'a>, AllocError>
        ensures { IfOk result (λ editor. editor ≡ file.entry) }
    {
        let alloc = file.doc().allocator();
        let lines = KeyedLines::new(alloc, file.into_doc().into_lines())?;
        Ok(Editor { alloc, lines })
    }

    /// An editor of a copy of a file's lines. Fails only if memory runs out.
    pub fn new(file: &MainFile<'a>) -> Result<Editor<'a>, AllocError>
        ensures { IfOk result (λ editor. editor ≡ file.now) }
    {
        let alloc = file.doc().allocator();
        let lines = KeyedLines::new(alloc, file.doc().copy()?.into_lines())?;
        Ok(Editor { alloc, lines })
    }

    /// Applies an operation to the lines (go help mod edit).
    ///
    /// Fails with `Misfit` if and only if a version doesn't fit its path. This concerns a version that the operation
    /// requires or excludes, or the one in the left side of a `replace`. The right side of a `replace` isn't checked.
    /// The check comes before any allocation.
    ///
    /// Fails with `NoMemory` if memory runs out. On any failure the lines are unchanged.
    pub fn apply(&mut self, op: &Op) -> Result<(), EditFault>
        ensures ok { OnOk result (self.new ≡ lines_after op.now self.old) }
        ensures err { OnErr result (self.new ≡ self.old) }
        ensures misfit { IsErrOf result EditFault.Misfit ↔ is_fit op.now ≡ false }
    {
        if !is_fit(&op.change) {
            return Err(EditFault::Misfit);
        }
        edit_lines(self.alloc, &op.change, &mut self.lines)?;
        Ok(())
    }

    /// The document of the lines. Takes no memory.
    pub fn into_doc(self) -> Doc<'a>
        ensures lines { result ≡ self.entry }
        ensures sound { fault_of Strict (plain_lines self.entry) ≡ None }
    {
        let Editor { alloc: _, lines } = self;
        Doc::of_lines(lines.into_lines())
    }

    /// The file of the lines, with the fields that strict reading gives for them. Fails only if memory runs out.
    pub fn into_file(self) -> Result<MainFile<'a>, AllocError>
        ensures { IfOk result (λ file. file ≡ self.entry) }
    {
        let alloc = self.alloc;
        match MainFile::read(alloc, self.into_doc()) {
            Ok(file) => Ok(file),
            Err(FileFault::NoMemory) => Err(AllocError),
            Err(FileFault::Directive { line: _, kind: _ }) => unreachable!(),
        }
    }
}
