//! Laws of two operations of `edit`: one that the other undoes, and two in either order.

ghost use Rattle.gomod_laws.specs.EditPairLaws.{EitherOrderChangesNoBuild, UndoneIsFormatted};

/// A drop undoes what an operation put in. Let `edit` be given `require=P@V` and then `droprequire=P`, and let the file
/// have no requirement of P. If V fits P, `edit` prints what `fmt` prints. The same holds for `exclude`, `retract` and
/// `replace`, with their drops, if the file has nothing that they would find, or, of `replace`, take the place of.
pub fn an_undone_operation_only_formats()
    ensures { UndoneIsFormatted }
{}

/// Two operations lead to the same build in either order, if they target no directive in common. Let them be the last
/// two of `edit`, and let it print in both orders. `list`, `graph` and `chain` come to the same over both texts,
/// whether they print or refuse, as long as these are short enough to be read.
pub fn either_order_changes_no_build()
    ensures { EitherOrderChangesNoBuild }
{}
