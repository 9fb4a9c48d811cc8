//! What the laws of `gomod_run::queries` conclude, tried on outputs of `list`, `graph` and `chain`.

ghost use Rattle.gomod_laws.specs.CounterListings.{ChainBeginsElsewhere, ChainEndsElsewhere, ChainIsOfAnotherGraph, ChainIsTooLong, ListIsOfAnotherGraph, MainIsMissing, PageHasAnotherRow, PageIsMissing, PartHasAnotherRow, PartIsTheWhole, PartIsTooLong, PathIsTwice, RequiredHasNoRow, RowIsNotRequired, RowIsTooLow, RowsAreUnordered};

/// A list is no build list if a path has two rows, if the rows are not in path order, or if the main module is missing.
/// Nor is it one if a row is below what the main module requires, if what that requires has no row, or if it requires
/// nothing and there is a row.
pub fn a_list_can_be_no_build_list()
    ensures twice { PathIsTwice }
    ensures unordered { RowsAreUnordered }
    ensures no_main { MainIsMissing }
    ensures low { RowIsTooLow }
    ensures missing { RequiredHasNoRow }
    ensures not_required { RowIsNotRequired }
{}

/// `b.c v1.0.0` is no part of `m`, `a.b v1.0.0`. All of a list is no part of one row, and not what follows a row.
pub fn a_part_can_be_of_another_list()
    ensures another { PartHasAnotherRow }
    ensures long { PartIsTooLong }
    ensures whole { PartIsTheWhole }
{}

/// Pages of one row do not join to `m`, `a.b v1.0.0` if the page after m has a row of b.c, or if there is none.
pub fn pages_can_fail_to_join()
    ensures another { PageHasAnotherRow }
    ensures missing { PageIsMissing }
{}

/// No shortest chain to b.c ends at a.b, and none begins elsewhere than with the main module. If that requires
/// a.b v1.0.0, no shortest chain to a.b goes by b.c.
pub fn a_chain_can_be_no_shortest()
    ensures ends { ChainEndsElsewhere }
    ensures begins { ChainBeginsElsewhere }
    ensures long { ChainIsTooLong }
{}

/// A list with a row of b.c, and a chain to b.c, are not of the graph `m a.b@v1.0.0`.
pub fn outputs_can_be_of_two_graphs()
    ensures list { ListIsOfAnotherGraph }
    ensures chain { ChainIsOfAnotherGraph }
{}
