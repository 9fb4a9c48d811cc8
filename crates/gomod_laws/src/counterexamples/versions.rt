//! What the law of `versions` concludes, tried on its outputs.

ghost use Rattle.gomod_laws.specs.CounterVersions.{ListedIsMissing, RetractedIsShown, UnretractedIsLeftOut};

/// Let the list file of a.b name v1.0.0 and v1.1.0. That the retracted ones are left out is false if v1.0.0 is printed
/// and the go.mod of v1.1.0 retracts it, and if it is left out and that file does not. It is false if v1.0.0 is not
/// printed with `--retracted`.
pub fn a_retraction_can_be_ignored()
    ensures shown { RetractedIsShown }
    ensures left_out { UnretractedIsLeftOut }
    ensures missing { ListedIsMissing }
{}
