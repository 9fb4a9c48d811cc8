//! A requirement added lowers nothing.

ghost use Rattle.gomod_laws.specs.AdditionLaws.{GraphKeepsLines, ListLowersNothing};

/// A requirement added lowers nothing. Let a main file say what another says and require more, or exclude less, or have
/// a go version below 1.17 while the other's is not. If `list` or `graph` prints over it, that command prints over the
/// other, too.
pub fn nothing_is_lowered()
    // for each row over the other there is a row of its path over this one, at a version that is not below; the version
    // is the one left of an arrow
    ensures list { ListLowersNothing }
    // each line of `graph` over the other is one over this one
    ensures graph { GraphKeepsLines }
{}
