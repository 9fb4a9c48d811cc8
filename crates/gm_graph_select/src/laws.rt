//! Laws over the definitions, for use in the proofs of the crates above. The functions do nothing: each contract is
//! a law.
//!
//! They show that the definitions mean what the Go Modules Reference says, independently of any code.

ghost use Rattle.gm_graph_select.specs.Laws.{ChainIsShortest, EntriesAreReached, MainIsFirst, OneBuildList, OneChain, OneRest, PagesExist, PagesJoin, RowsAreEnds, RowsSatisfy, SomeBuildList};

/// Each row's version is one that an edge leads to.
pub fn rows_are_ends<R>()
    ensures { RowsAreEnds R }
{}

/// Each path other than the main module's that an edge leads to has a row, and no edge leads to a greater version
/// of the path (Go Modules Reference, "Minimal version selection").
pub fn rows_satisfy<R>()
    ensures { RowsSatisfy R }
{}

/// Each list of edges has exactly one build list.
pub fn one_build_list<R>()
    ensures unique { OneBuildList R }
    ensures exist { SomeBuildList R }
{}

/// The rest after a path is unique.
pub fn one_rest<R>()
    ensures { OneRest R }
{}

/// Consider pages of n rows, each starting after the last row of the page before. Joined, they are the build list,
/// and for every n from 1 on there are such pages.
pub fn pages_join<R>()
    ensures join { PagesJoin R }
    ensures exist { PagesExist R }
{}

/// A chain has one step more than the level of its last step, and fewer edges never lead there.
pub fn chain_is_shortest()
    ensures { ChainIsShortest }
{}

/// The chain to a step is unique.
pub fn one_chain()
    ensures { OneChain }
{}

/// The entry of the main module's path is the main module itself.
pub fn main_is_first<R>()
    ensures { MainIsFirst R }
{}

/// If all edges leave the main module or a step that edges lead to from it, every listed path has a chain.
pub fn entries_are_reached<R>()
    ensures { EntriesAreReached R }
{}
