//! Minimal version selection over the vertices of a module graph.
//!
//! Sorted by path and version, the greatest version of each path is the last vertex of its path, so one pass
//! selects them all.

ghost use Rattle.std.specs.Prelude.{◌≡◌, ◌∷◌, [], IfNone, IfSome, List};
ghost use Rattle.std.specs.Iterator.{YieldsFirstRef, item_count};
ghost use Rattle.gm_name.specs.ModuleVersion.{pair_cmp};
ghost use Rattle.gm_graph_select.specs.declared.step.Edge.{Edge};
ghost use Rattle.gm_graph_select.specs.BuildList.{AreSelected};
ghost use Rattle.gm_graph_select.specs.Graph.{AreEnds, among};
ghost use Rattle.gm_graph_select.specs.Greatest.{first_has_path, greatest_of, is_selected};
ghost use Rattle.gm_graph_select.specs.Order.{IsAscending};

use gm_name::{ModPath, ModVer};
use std::marker::Model;

/// Whether the first of these vertices has the path.
fn begins_with(path: &ModPath, vertices: &[ModVer]) -> bool
    ensures { result ≡ first_has_path path.now vertices.now }
{
    match vertices {
        [] => false,
        [first, ..] => *first.path() == *path,
    }
}

/// Among vertices in ascending order, whether this one has the greatest version of its path, and the path isn't the
/// main module's. `behind` are the vertices after it.
fn is_selected(main: &ModPath, vertex: &ModVer, behind: &[ModVer]) -> bool
    ensures { result ≡ is_selected main.now vertex.now behind.now }
{
    // Most vertices are followed by another version of their path.
    !begins_with(vertex.path(), behind) && *vertex.path() != *main
}

/// The first of these vertices that is selected, and the vertices after it.
fn first_selected<'a>(main: &ModPath, vertices: &'a [ModVer]) -> Option<(&'a ModVer, &'a [ModVer])>
    ensures some { IfSome result (λ found.
        greatest_of main.now vertices.now ≡ found.0.now ∷ greatest_of main.now found.1.now) }
    ensures none { IfNone result (greatest_of main.now vertices.now ≡ []) }
{
    for (place, one) in vertices.iter().enumerate() {
        let behind = &vertices[place + 1..];
        if is_selected(main, one, behind) {
            return Some((one, behind));
        }
    }
    None
}

/// An iterator over the selected modules, in order. It takes no memory. A clause sees it as the list of the modules
/// that are still to come.
#[derive(Drop)]
pub struct Selection<'a> {
    /// The main module's path.
    main: &'a ModPath,
    /// The vertices that are still to come, in ascending order.
    rest: &'a [ModVer],
}

impl<'a> Model for Selection<'a> {
    ghost use Rattle.std.specs.Prelude.{List};
    ghost use Rattle.gm_name.specs.ModuleVersion.{ModuleVersion};
    ghost use Rattle.gm_graph_select.specs.Greatest.{greatest_of};

    ghost Value = { List ModuleVersion };

    ghost view = { λ s. greatest_of s.main.now s.rest.now };
}

impl<'a> Iterator for Selection<'a> {
    /// A path at its selected version.
    type Item = &'a ModVer;

    ghost next_gives = { YieldsFirstRef (λ selected. selected) };

    ghost remaining = { item_count (λ selected. selected) };

    /// The next selected module, or `None` after the last one.
    fn next(&mut self) -> Option<&'a ModVer> {
        let (first, behind) = first_selected(self.main, self.rest)?;
        self.rest = behind;
        Some(first)
    }
}

impl<'a> Selection<'a> {
    /// Those of these vertices that are selected. The vertices must be in ascending order.
    pub(crate) fn among(main: &'a ModPath, vertices: &'a [ModVer]) -> Selection<'a>
        ensures { result ≡ greatest_of main.now vertices.now }
    {
        Selection {
            main,
            rest: vertices,
        }
    }
}

/// The modules that are selected from a module graph (Go Modules Reference, "Minimal version selection"). Each path
/// but the main module's that an edge leads to comes once, at the greatest version that an edge leads to, in ascending
/// order of the bytes of the path. `ends` are the vertices that edges lead to, as `sorted_vertices` puts them in order.
///
/// It takes no memory, and two comparisons of paths for each vertex at most.
pub fn selected<'a>(main: &'a ModPath, ends: &'a [ModVer]) -> Selection<'a>
    requires { IsAscending pair_cmp ends.now }
    ensures { (edges : List Edge) → AreEnds ends.now (among edges)
        → AreSelected main.now (among edges) result }
{
    Selection::among(main, ends)
}
