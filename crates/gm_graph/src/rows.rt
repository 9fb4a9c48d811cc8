//! The build list of a graph: the main module, and the selected modules with what replaces them.

ghost use Rattle.std.specs.Prelude.{◌≡◌, ◌∷◌, [], IfOk, map};
ghost use Rattle.std.specs.Option.{option_map};
ghost use Rattle.gm_file.specs.Views.{right_view};
ghost use Rattle.gm_file.specs.Main.{replacement_in};
ghost use Rattle.gm_graph_select.specs.BuildList.{IsBuildList, entry_of, main_entry};
ghost use Rattle.gm_graph.specs.Entries.{entries_of_rows, entry_of_row};
ghost use Rattle.gm_graph_select.specs.Graph.{AreEnds, among};

use gm_file::{MainModule, Right};
use gm_graph_select::{Graph, Selection, Step};
use gm_name::ModVer;
use std::alloc::{AllocError, Global};

/// A row of the build list, with the right side of a `replace`.
pub type Row = gm_graph_select::Row<Right>;

/// An iterator over such rows.
pub type Rows<'a> = gm_graph_select::Rows<'a, Right>;

/// A copy of the replacement of a vertex in the main file, if it has one.
fn replacement_of(
    alloc: Global,
    main: &MainModule,
    vertex: &ModVer,
) -> Result<Option<Right>, AllocError>
    ensures { IfOk result (λ right. option_map right_view right ≡ replacement_in main.now vertex.now) }
{
    match main.replacement(vertex) {
        Some(right) => Ok(Some(right.copy(alloc)?)),
        None => Ok(None),
    }
}

/// The row of a vertex, with its replacement.
fn row_of(alloc: Global, main: &MainModule, vertex: &ModVer) -> Result<Row, AllocError>
    ensures { IfOk result (λ row. entry_of_row row ≡ entry_of (replacement_in main.now) vertex.now) }
{
    let right = replacement_of(alloc, main, vertex)?;
    Ok(Row {
        step: Step::Of(vertex.copy(alloc)?),
        right,
    })
}

/// The rows of the build list before all vertices: that of the main module.
fn main_row(alloc: Global) -> Result<Vec<Row>, AllocError>
    ensures { IfOk result (λ rows. entries_of_rows rows.items ≡ main_entry ∷ []) }
{
    let mut rows = Vec::new(alloc);
    rows.push(Row {
        step: Step::Main,
        right: None,
    })?;
    Ok(rows)
}

/// The main module's row, followed by those of the selected modules with their replacements.
fn rows_of(
    alloc: Global,
    main: &MainModule,
    selected: Selection<'_>,
) -> Result<Vec<Row>, AllocError>
    ensures { IfOk result (λ rows. entries_of_rows rows.items
        ≡ main_entry ∷ map (entry_of (replacement_in main.now)) selected.entry) }
{
    let mut rows = main_row(alloc)?;
    for vertex in selected {
        rows.push(row_of(alloc, main, vertex)?)?;
    }
    Ok(rows)
}

/// The build list of a graph (Go Modules Reference, "Minimal version selection").
pub(crate) fn build_list(
    alloc: Global,
    main: &MainModule,
    graph: &Graph,
) -> Result<Vec<Row>, AllocError>
    ensures { IfOk result (λ rows. AreEnds graph.now.vertices (among graph.now.edges)
        → IsBuildList main.now.path (replacement_in main.now) (among graph.now.edges)
        (entries_of_rows rows.items)) }
{
    let selected = graph.selected(main.path());
    let rows = rows_of(alloc, main, selected)?;
    Ok(rows)
}
