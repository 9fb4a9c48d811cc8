//! `edit`: each operation is parsed and applied in turn. This is here and not in `gm_file_edit`, because reports belong
//! to the program and not to the library.

ghost use Rattle.std.specs.Prelude.{◌≡◌, ◌∷◌, [], IfErr, IsErrAnd, IsOk, MatchResult, None, OnOk, map};
ghost use Rattle.std.specs.List.{filter_map};
ghost use Rattle.std.specs.String.{string_bytes};
ghost use Rattle.gm_file_edit.specs.Edits.{edit_in};
ghost use Rattle.gm_file.specs.Main.{IsMainOf};
ghost use Rattle.gm_file.specs.Misreading.{IsMisread};
ghost use Rattle.gm_file.specs.Directives.{Strict};
ghost use Rattle.gomod_texts.specs.Outcome.{OrNoMemory, refusal_outcome, report_outcome};
ghost use Rattle.gomod_outcomes.specs.Private.Ended.{outcome_view};
ghost use Rattle.gomod_texts.specs.Reports.{FaultPlace, main_line};
ghost use Rattle.gomod_outcomes.specs.Edit.{EditEnds, lines_after_all, refusal_of};
ghost use Rattle.gomod_outcomes.specs.Private.Refusals.{IsRefusedOperation, report_by_edit, report_by_op};

use gm_file::MainFile;
use gm_file_edit::{EditFault, Editor, Op, OpFault};
use gomod_texts::{Refusal, Report};
use std::alloc::Global;

/// The report of a text that is not parsed as the operation of this number.
fn unparsed<'r>(number: usize, fault: OpFault) -> Report<'r>
    ensures { result ≡ report_by_op number fault }
{
    match fault {
        OpFault::NoMemory => Report::NoMemory,
        OpFault::Spelling => Report::Operation {
            number,
            refusal: Refusal::Spelling,
        },
    }
}

/// The report of an operation of this number that is not applied.
fn unapplied<'r>(number: usize, fault: EditFault) -> Report<'r>
    ensures { result ≡ report_by_edit number fault }
{
    match fault {
        EditFault::NoMemory => Report::NoMemory,
        EditFault::Misfit => Report::Operation {
            number,
            refusal: Refusal::Misfit,
        },
    }
}

/// What applying the operation of this number comes to, with the report if it is not applied.
fn reported<'r>(number: usize, applied: Result<(), EditFault>) -> Result<(), Report<'r>>
    ensures ok { OnOk result (IsOk applied) }
    ensures err { IfErr result (λ told. IsErrAnd applied (λ fault. told ≡ report_by_edit number fault)) }
{
    match applied {
        Ok(()) => Ok(()),
        Err(fault) => Err(unapplied(number, fault)),
    }
}

/// Parses the operation of this number and applies it.
fn apply_text<'r>(
    alloc: Global,
    editor: &mut Editor<'_>,
    number: usize,
    text: &str,
) -> Result<(), Report<'r>>
    ensures accepted { OnOk result (refusal_of (edit_in text.now) ≡ None) }
    ensures applied { OnOk result (editor.new ≡ lines_after_all (filter_map edit_in (text.now ∷ [])) editor.old) }
    ensures refused { IfErr result (λ told. OrNoMemory (IsRefusedOperation number (edit_in text.now))
        (report_outcome told)) }
{
    match Op::parse(alloc, text) {
        Ok(op) => reported(number, editor.apply(&op)),
        Err(fault) => Err(unparsed(number, fault)),
    }
}

/// An editor of a main module's file, or the report of the first fault of its bytes.
fn editor_of<'a, 'r>(alloc: Global, file: &'a [u8]) -> Result<Editor<'a>, Report<'r>>
    ensures { MatchResult result
        (λ editor. IsMainOf file.now editor)
        (λ told. OrNoMemory (λ outcome. (place : FaultPlace) × IsMisread Strict file.now place.0 place.1
        × (outcome ≡ refusal_outcome (main_line place))) (report_outcome told)) }
{
    let main = MainFile::read_bytes(alloc, file)?;
    Ok(Editor::of(main)?)
}

/// What `edit` ends with over the bytes of a main module's file: the layout after all operations, or the report of the
/// first that is refused.
pub(crate) fn edit_outcome<'r>(
    alloc: Global,
    operations: &[String],
    file: &[u8],
) -> Result<String, Report<'r>>
    ensures { OrNoMemory (EditEnds (map string_bytes operations.now) file.now) (outcome_view result) }
{
    let mut editor = editor_of(alloc, file)?;
    for (n, text) in operations.iter().enumerate() {
        apply_text(alloc, &mut editor, n + 1, text.as_str())?;
    }
    Ok(editor.into_doc().format()?)
}
