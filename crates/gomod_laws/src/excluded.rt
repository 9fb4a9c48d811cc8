//! A law of excluded versions.

ghost use Rattle.gomod_laws.specs.ExclusionLaws.{NoFaultIsExcluded, NoFieldIsExcluded, NoRowIsExcluded, NoStepIsExcluded};

/// An excluded version is nowhere: no row of `list`, no field of a line of `graph`, no step of `chain` and no line of a
/// fault is of a version that the main file excludes, in whatever file it is required. It may stand right of an arrow,
/// if another module is replaced by it, and its file is read then.
pub fn an_excluded_version_is_nowhere()
    ensures rows { NoRowIsExcluded }
    ensures fields { NoFieldIsExcluded }
    ensures steps { NoStepIsExcluded }
    ensures faults { NoFaultIsExcluded }
{}
