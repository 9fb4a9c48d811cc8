//! What the laws of one query conclude, tried on outputs of `list`, `graph` and `chain` and on a report.

ghost use Rattle.gomod_laws.specs.Counterexamples.{ArrowAtPathIsMissing, ArrowIsMissing, FaultIsExcluded, FieldIsExcluded, RowIsExcluded, StepIsExcluded};

/// What the laws on `list` conclude is false of `m`, `a.b v1.0.0`: that no row is of an excluded version, if a.b v1.0.0
/// is excluded, and that a.b v1.0.0 or a.b is replaced.
pub fn a_list_can_contradict()
    ensures excluded { RowIsExcluded }
    ensures arrow { ArrowIsMissing }
    ensures arrow_at_path { ArrowAtPathIsMissing }
{}

/// That no field of a line of `graph` is of an excluded version is false of `m a.b@v1.0.0`, if a.b v1.0.0 is excluded.
pub fn a_graph_can_contradict()
    ensures { FieldIsExcluded }
{}

/// That no step of `chain` is of an excluded version is false of `m`, `a.b@v1.0.0`, if a.b v1.0.0 is excluded.
pub fn a_chain_can_contradict()
    ensures { StepIsExcluded }
{}

/// What the law on reports concludes is false of `a.b@v1.0.0: Missing`, if the main file excludes that version: that it
/// reports what is of no version, or no fault of an excluded one.
pub fn a_report_can_contradict()
    ensures { FaultIsExcluded }
{}
