//! The laws of build lists for the rows of a loaded graph.
//!
//! gm_graph_select has them for rows whose replacements are of any type. Here the replacements are those that the
//! contracts of gm_graph show.

ghost use Rattle.gm_file.specs.Directives.{Right};
ghost use Rattle.gm_graph_select.specs.Laws.{EntriesAreReached, MainIsFirst, OneBuildList, OneRest, PagesExist, PagesJoin, RowsAreEnds, RowsSatisfy, SomeBuildList};

/// A list of edges has exactly one build list (Go Modules Reference, "Minimal version selection"). Its rows are ends of
/// edges, and satisfy each edge; it has one rest after each path, and pages that join to it. Its entry of the main
/// module's path is the main module. Edges lead to every row if each edge leaves a step that edges lead to.
pub fn a_loaded_graph_has_one_build_list()
    ensures ends { RowsAreEnds Right }
    ensures satisfy { RowsSatisfy Right }
    ensures unique { OneBuildList Right }
    ensures exist { SomeBuildList Right }
    ensures rest { OneRest Right }
    ensures join { PagesJoin Right }
    ensures pages { PagesExist Right }
    ensures main_is_first { MainIsFirst Right }
    ensures reached { EntriesAreReached Right }
{}
