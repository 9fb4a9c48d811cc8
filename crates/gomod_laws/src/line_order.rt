//! A law of the order of the lines of a main file.

ghost use Rattle.gomod_laws.specs.LineOrderLaws.{LinesInAnyOrder};

/// The order of lines doesn't matter. `list`, `graph` and `chain` come to the same over two valid main files that hold
/// the same directives, whether they print or refuse: the directives may stand in any order, in or outside blocks, and
/// more than once.
pub fn lines_in_any_order()
    ensures { LinesInAnyOrder }
{}
