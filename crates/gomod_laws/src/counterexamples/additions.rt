//! What the laws of two runs of queries conclude, tried on pairs of outputs.

ghost use Rattle.gomod_laws.specs.CounterAdditions.{ChainIsByNoLine, ChainIsToAnother, LineIsLost, RowIsLower, UnlistedIsShown};

/// That an addition lowers nothing is false of a list with a.b v1.1.0 and one with a.b v1.0.0 after it. That it loses
/// no line is false of a graph with one line and one with another line after it.
pub fn an_addition_can_lower()
    ensures row { RowIsLower }
    ensures line { LineIsLost }
{}

/// Let `list` print `m` and `a.b v1.0.0`, and `graph` print `m a.b@v1.0.0`. That each row is explained is false if
/// `chain a.b` prints `m`, `b.c@v1.0.0` and `a.b@v1.0.0`, or `m` and `b.c@v1.0.0`, and if `chain b.c` prints that.
pub fn a_row_can_be_unexplained()
    ensures way { ChainIsByNoLine }
    ensures end { ChainIsToAnother }
    ensures unlisted { UnlistedIsShown }
{}
