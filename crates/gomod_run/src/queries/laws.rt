//! Laws that follow from the definitions, for the crates above to rely on. The functions do nothing: each
//! contract is a law. A law that names no section of the Go Modules Reference is about a choice of this
//! program.

ghost use Rattle.gomod_texts.specs.QueryLaws.{BuildListIsListed, ListIsBuildList, PrintedChainIsShortest, PrintedPagesJoin};
ghost use Rattle.gm_graph.specs.declared.fault.Fault.{Fault};
ghost use Rattle.gm_graph.specs.Entries.{Entry};
ghost use Rattle.gm_graph_select.specs.declared.step.Edge.{Edge};
ghost use Rattle.gm_graph_select.specs.declared.step.Step.{Step};
ghost use Rattle.gm_name.specs.Path.{IsPath};
ghost use Rattle.std.specs.Prelude.{List, ℕ};
ghost use Rattle.gomod_texts.specs.ChainQuery.{chain_text};
ghost use Rattle.gomod_texts.specs.GraphQuery.{edge_text, graph_text};
ghost use Rattle.gomod_texts.specs.LineParts.{step_text};
ghost use Rattle.gomod_texts.specs.ListQuery.{list_text, row_text};
ghost use Rattle.gomod_texts.specs.PrintedLines.{HasLines, IsProperEdge, IsProperFault, IsProperRow, IsProperStep, LineIsOfOne, LineSaysOne, RunHasNames, RunHasProperEdges, RunHasProperFaults, RunHasProperRows, RunHasProperSteps, TextSaysAll, fault_text};
ghost use Rattle.gomod_texts.specs.Reports.{faults_text};

/// When `list` prints, the files of the opened modules are known and have no faults. The text has a row for
/// the main module and then, in path order, one row for each other path that the main module or an opened
/// module requires. The row has the greatest version required and the replacement, if any (Go Modules
/// Reference, "Minimal version selection"). Conversely, `list` prints any rows that meet this description.
pub fn list_is_build_list()
    ensures prints { ListIsBuildList }
    ensures printed { BuildListIsListed }
{}

/// Pages of n rows, each starting after the last row of the previous page, concatenate to what `list` prints
/// at once, for every n from 1.
pub fn pages_join()
    ensures { PrintedPagesJoin }
{}

/// When `chain` prints steps, they begin with the main module, an edge leads from each step to the next, and
/// the last step is the entry of the build list for the path. No sequence of this kind has fewer steps.
pub fn chain_is_shortest()
    ensures { PrintedChainIsShortest }
{}

/// The text of a list, cut at its line feeds, is one line for each row, in order, and a line says its row: path and
/// version, and what is right of the arrow. So rows with the same text are the same, and a row whose line is in the
/// text is one of the rows. This holds if every path is a module path and every version a version, and no folder has a
/// line feed.
pub fn a_list_says_its_rows()
    ensures lines { (main : List ℕ) → IsPath main → HasLines Entry IsProperRow (row_text main) (list_text main) }
    ensures row { (main : List ℕ) → IsPath main → LineSaysOne Entry IsProperRow (row_text main) }
    ensures text { (main : List ℕ) → IsPath main → TextSaysAll Entry IsProperRow (list_text main) }
    ensures found { (main : List ℕ) → IsPath main → LineIsOfOne Entry IsProperRow (row_text main) (list_text main) }
{}

/// The text of a graph, cut at its line feeds, is one line for each edge, in order, and a line says its edge. So edges
/// with the same text are the same.
pub fn a_graph_says_its_edges()
    ensures lines { (main : List ℕ) → IsPath main → HasLines Edge IsProperEdge (edge_text main) (graph_text main) }
    ensures edge { (main : List ℕ) → IsPath main → LineSaysOne Edge IsProperEdge (edge_text main) }
    ensures text { (main : List ℕ) → IsPath main → TextSaysAll Edge IsProperEdge (graph_text main) }
    ensures found { (main : List ℕ) → IsPath main → LineIsOfOne Edge IsProperEdge (edge_text main) (graph_text main) }
{}

/// The text of a chain, cut at its line feeds, is one line for each step, in order, and a line says its step. So steps
/// with the same text are the same.
pub fn a_chain_says_its_steps()
    ensures lines { (main : List ℕ) → IsPath main → HasLines Step IsProperStep (step_text main) (chain_text main) }
    ensures step { (main : List ℕ) → IsPath main → LineSaysOne Step IsProperStep (step_text main) }
    ensures text { (main : List ℕ) → IsPath main → TextSaysAll Step IsProperStep (chain_text main) }
    ensures found { (main : List ℕ) → IsPath main → LineIsOfOne Step IsProperStep (step_text main) (chain_text main) }
{}

/// The text of a report on modules, cut at its line feeds, is one line for each fault, in order, and a line says its
/// fault: path and version, the class, and for `Malformed` the line and the kind. So faults with the same text are the
/// same, and a fault whose line is in the text is one of the faults.
pub fn a_report_says_its_faults()
    ensures lines { HasLines Fault IsProperFault fault_text faults_text }
    ensures fault { LineSaysOne Fault IsProperFault fault_text }
    ensures text { TextSaysAll Fault IsProperFault faults_text }
    ensures found { LineIsOfOne Fault IsProperFault fault_text faults_text }
{}

/// In what a run finds, paths are paths and versions are versions: if its main file and its go.sum are valid, the path
/// of its main module is a path, and each module that is opened or that an edge leads to is a path and a version. So
/// its rows, its edges, the steps of its chains and its faults are what the laws on their texts ask for: no folder on
/// the right side of a row has a line feed, and the line of a fault has a number that a file can have.
pub fn a_run_has_names()
    ensures names { RunHasNames }
    ensures rows { RunHasProperRows }
    ensures edges { RunHasProperEdges }
    ensures steps { RunHasProperSteps }
    ensures faults { RunHasProperFaults }
{}
