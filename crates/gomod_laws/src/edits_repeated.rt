//! The law of an operation of `edit` that is given twice.

ghost use Rattle.gomod_laws.specs.EditTwiceLaws.{LastTwiceIsOnce, TwiceIsOnceOrRefused, TwicePrintsAsOnce};

/// An operation twice is the operation once, whichever it is. Let one of the operations of `edit` be given a second
/// time, directly after itself.
pub fn an_operation_twice_is_once()
    // if `edit` prints with either, it prints the same with both
    ensures prints { TwicePrintsAsOnce }
    // as the last operation, it is refused with both or with neither, and the report is the same
    ensures last { LastTwiceIsOnce }
    // anywhere, all is the same, but for the number of a refused operation after it, which is one higher
    ensures numbers { TwiceIsOnceOrRefused }
{}
