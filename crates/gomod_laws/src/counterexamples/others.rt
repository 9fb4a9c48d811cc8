//! What the laws of `edit` conclude, tried on outputs.

ghost use Rattle.gomod_laws.specs.CounterOthers.{FormatsAnother, NeitherFormats, TwiceIsRefused, TwicePrintsAnother};

/// That an operation twice is the operation once is false if another file is printed, or if it is refused the second
/// time.
pub fn twice_can_differ()
    ensures prints { TwicePrintsAnother }
    ensures refuses { TwiceIsRefused }
{}

/// That an undone operation only formats is false if `edit` prints another file than `fmt`, or if both refuse.
pub fn an_undone_operation_can_differ()
    ensures prints { FormatsAnother }
    ensures refuses { NeitherFormats }
{}
