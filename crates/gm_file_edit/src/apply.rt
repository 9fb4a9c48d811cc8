//! Applying one operation to the go.mod file of a main module.

use crate::applying::is_fit;
use crate::editor::Editor;
use crate::fault::EditFault;
use crate::op::Op;
use gm_file::MainFile;
use std::mem;

/// A file that operations are applied to: a `MainFile`, whose crate doesn't know operations.
pub trait Apply {
    ghost use Rattle.std.specs.Prelude.{◌≡◌, ◌↔◌, List, IsErrOf, OnErr, OnOk, false};
    ghost use Rattle.gm_syntax_words.specs.Tokens.{Placed};
    ghost use Rattle.gm_syntax.specs.Document.{Line};
    ghost use Rattle.gm_file_edit.specs.Edited.{lines_after};
    ghost use Rattle.gm_file_edit.specs.Kinds.{is_fit};

    /// The lines of the file.
    ghost lines: { Self → List (Line Placed) };

    /// Applies an operation to the file (go help mod edit). The file then holds the new lines and the fields that
    /// strict reading gives for them.
    ///
    /// Fails with `Misfit` if and only if a version doesn't fit its path. This concerns a version that the operation
    /// requires or excludes, or the one in the left side of a `replace`. The right side of a `replace` isn't checked.
    /// The check comes before any allocation.
    ///
    /// Takes memory from the allocator of the file's lines. Fails with `NoMemory` if it runs out. On any failure the
    /// file is unchanged.
    ///
    /// The whole file is read again. For more than one operation an `Editor` reads nothing between them.
    fn apply(&mut self, op: &Op) -> Result<(), EditFault>
        ensures ok { OnOk result (lines self.new ≡ lines_after op.now (lines self.old)) }
        ensures err { OnErr result (lines self.new ≡ lines self.old) }
        ensures misfit { IsErrOf result EditFault.Misfit ↔ is_fit op.now ≡ false };
}

impl<'a> Apply for MainFile<'a> {
    ghost lines = { λ file. file };

    fn apply(&mut self, op: &Op) -> Result<(), EditFault> {
        if !is_fit(&op.change) {
            return Err(EditFault::Misfit);
        }
        let mut editor = Editor::new(self)?;
        editor.apply(op)?;
        let _before = mem::replace(self, editor.into_file()?);
        Ok(())
    }
}
