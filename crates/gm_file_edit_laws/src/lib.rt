//! Laws of what an operation leaves of a main module's go.mod file.
//!
//! They show that the definitions that the contracts of `Op::parse` and `apply` of gm_file_edit cite mean what a user
//! expects of an edit. Each law is the contract of an empty function. They are a crate of their own: no function rests
//! on them, and who uses gm_file_edit can cite them without the program above it.
//!
//! Laws on what is set or added, on other directives, on second additions, settings and operations, on undoing and on
//! order are about a file without a fault and operations that some text writes and that aren't refused.
#![tactic(auto)]

ghost use Rattle.std.specs.Prelude.{◌≡◌, ℕ, true, List, Some, None};
ghost use Rattle.gm_syntax_words.specs.Tokens.{Placed};
ghost use Rattle.gm_syntax.specs.Document.{IsDocument, Line};
ghost use Rattle.gm_syntax.specs.LineViews.{plain_lines};
ghost use Rattle.gm_file.specs.Directives.{Strict};
ghost use Rattle.gm_file.specs.Faults.{fault_of};
ghost use Rattle.gm_file_edit.specs.Edited.{lines_after};
ghost use Rattle.gm_file_edit.specs.Kinds.{is_fit};
ghost use Rattle.gm_file_edit_laws.specs.EditLaws.{AdditionFollowsItsVerb, AdditionOfANewVerbIsLast, CommentLinesStay, IdleAdditionChangesNothing, IdleDropChangesNothing, SecondAdditionChangesNothing, SecondDropChangesNothing, SecondOperationChangesNothing, SecondSettingChangesNothing};
ghost use Rattle.gm_file_edit.specs.Edits.{Edit, edit_in};
ghost use Rattle.gm_file_edit_laws.specs.GoPlace.{GoFollowsModule, GoFollowsModuleBlock};
ghost use Rattle.gm_file_edit_laws.specs.Laws.{AddedIsThere, DroppedIsGone, EitherOrderLeavesTheSame, OthersStay, SetStandsAlone};
ghost use Rattle.gm_file_edit_laws.specs.UndoingEdits.{DropUndoes, DropUndoesForLayout};

/// A valid file stays valid. If the lines are a document that strict reading accepts without a fault, so are the
/// lines after the operation. The operation must be one that some text spells, and the versions that it puts in must
/// fit their paths.
pub fn edited_lines_are_read()
    ensures { (text : List ℕ) (edit : Edit) (lines : List (Line Placed)) → edit_in text ≡ Some edit → is_fit edit ≡ true
        → IsDocument (plain_lines lines) → fault_of Strict (plain_lines lines) ≡ None
        → IsDocument (plain_lines (lines_after edit lines))
        × (fault_of Strict (plain_lines (lines_after edit lines)) ≡ None) }
{}

/// The result of an operation doesn't depend on the source positions of words: lists of lines that differ only in
/// positions give results that differ only in positions.
pub fn places_are_not_looked_at()
    ensures { (edit : Edit) (lines others : List (Line Placed)) → plain_lines lines ≡ plain_lines others
        → plain_lines (lines_after edit lines) ≡ plain_lines (lines_after edit others) }
{}

/// Nothing is left of what an operation drops: after `droprequire=P` no directive requires P. The same holds for the
/// other operations that drop directives.
pub fn what_is_dropped_is_gone()
    ensures { DroppedIsGone }
{}

/// What an operation sets is the only directive of its kind. After `require=P@V` exactly one directive requires P,
/// and it does so at V. After `module=P` or `go=V` there is one module directive or one go directive. After a
/// `replace` there is one with this left side, or one with this path if the left side has no version.
pub fn what_is_set_stands_alone()
    ensures { SetStandsAlone }
{}

/// What an operation adds is there. After `exclude=P@V` exactly one directive excludes P at V if none did before.
/// Otherwise the directives that exclude it are the same as before. The same holds for `retract=[V,W]` and the
/// retractions with the ends V and W.
pub fn what_is_added_is_there()
    ensures { AddedIsThere }
{}

/// The directives that an operation doesn't target form the same list before and after it.
pub fn other_directives_stay()
    ensures { OthersStay }
{}

/// An operation that drops directives leaves all lines as they are if there is no directive for it to drop.
pub fn drops_of_nothing_change_nothing()
    ensures { IdleDropChangesNothing }
{}

/// `exclude=P@V` leaves all lines as they are if a directive excludes P at V already. The same holds for `retract`.
pub fn additions_of_what_is_there_change_nothing()
    ensures { IdleAdditionChangesNothing }
{}

/// An operation that drops directives gives the same lines if it is applied twice.
pub fn second_drops_change_nothing()
    ensures { SecondDropChangesNothing }
{}

/// `exclude=P@V` gives the same lines if it is applied twice, and so does `retract`.
pub fn second_additions_change_nothing()
    ensures { SecondAdditionChangesNothing }
{}

/// An operation that sets a directive gives the same lines if it is applied twice: `module`, `go`, `require` and
/// `replace`.
pub fn second_settings_change_nothing()
    ensures { SecondSettingChangesNothing }
{}

/// So every operation gives the same lines if it is applied twice.
pub fn second_operations_change_nothing()
    ensures { SecondOperationChangesNothing }
{}

/// A drop undoes what an operation put in. If no directive requires P, `require=P@V` and then `droprequire=P` give the
/// lines as they were; if the file had no requirement at all, a blank line stays at the end. The same holds for
/// `exclude` and `retract`, and for `replace` if it takes the place of no other.
pub fn drops_undo_what_was_put_in()
    ensures { DropUndoes }
{}

/// So an operation that put a directive in and the drop of it leave what formatting leaves.
pub fn undone_operations_only_format()
    ensures { DropUndoesForLayout }
{}

/// Two operations leave the same directives in either order, each as often, if they target no directive in common.
/// `require=P@V` and `exclude=Q@W` are such operations, whatever P and Q are. The directives of one verb may stand in
/// another order.
pub fn either_order_leaves_the_same()
    ensures { EitherOrderLeavesTheSame }
{}

/// The comment lines of a file are the same before and after any operation, and in the same order.
pub fn comment_lines_stay()
    ensures { CommentLinesStay }
{}

/// A new entry stands directly after the last directive of its verb, in the same block if that one is in a block.
pub fn additions_follow_their_verb()
    ensures { AdditionFollowsItsVerb }
{}

/// A new entry stands at the end, after a blank line, if the file has no directive of its verb.
pub fn additions_of_new_verbs_are_last()
    ensures { AdditionOfANewVerbIsLast }
{}

/// A new go directive stands after the module directive and a blank line, if the module directive is in no block.
pub fn new_go_follows_the_module()
    ensures { GoFollowsModule }
{}

/// A new go directive stands after the block of the module directive and a blank line, if that one is in a block.
pub fn new_go_follows_the_block_of_the_module()
    ensures { GoFollowsModuleBlock }
{}
