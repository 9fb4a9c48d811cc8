//! The ranks of vertices: their places in ascending order.

ghost use Rattle.std.specs.Prelude.{◌≡◌, ◌↔◌, ◌<◌, ◌≤◌, ◌++◌, ◌∷◌, [], All, Contains, IfOk, OnOk, if◌then◌else◌, length, map, ℕ};
ghost use Rattle.std.specs.List.{IsDistinct};
ghost use Rattle.gm_name.specs.ModuleVersion.{ModuleVersion, module_at, pair_cmp, pair_eq};
ghost use Rattle.gm_graph_select.specs.declared.ranking.Numbered.{Numbered};
ghost use Rattle.gm_graph_select.specs.Order.{IsAscending};
ghost use Rattle.gm_graph_select.specs.Private.Marking.{HasMark};
ghost use Rattle.gm_graph_select.specs.Private.Ranking.{AreMarkedModules, IsMarkedModule, IsRanked};

use gm_name::ModVer;
use std::alloc::{AllocError, Global};

/// A vertex with its number. They are in the order of the vertices.
#[derive(Drop, PartialEq, Eq, PartialOrd, Ord)]
struct Numbered {
    /// The vertex.
    vertex: ModVer,
    /// Its number.
    number: u32,
}

/// Vertices in ascending order, and the rank of each.
#[derive(Drop)]
pub(crate) struct Ranking {
    /// The vertices, in ascending order.
    pub(crate) vertices: Vec<ModVer>,
    /// The rank of each module that is a vertex, by the module's number: its place in `vertices`. 0 for other modules.
    pub(crate) ranks: Vec<u32>,
}

/// Appends a module if it is marked.
fn push_marked(all: &mut Vec<Numbered>, is_marked: bool, next: Numbered) -> Result<(), AllocError>
    ensures { OnOk result (all.new.items ≡ (if is_marked then all.old.items ++ next ∷ [] else all.old.items)) }
{
    if is_marked {
        all.push(next)?;
    }
    Ok(())
}

/// The modules that are marked, each with its place in the list as its number.
fn with_numbers(
    alloc: Global,
    modules: Vec<ModVer>,
    is_vertex: &[bool],
) -> Result<Vec<Numbered>, AllocError>
    requires few { length modules.items ≤ 4294967295 }
    requires marks { length is_vertex.now ≡ length modules.items }
    ensures { IfOk result (λ all. AreMarkedModules modules.items is_vertex.now all.items) }
{
    let mut all = Vec::new(alloc);
    let mut number: u32 = 0;
    for vertex in modules {
        let is_marked = is_vertex[number as usize];
        push_marked(&mut all, is_marked, Numbered { vertex, number })?;
        number += 1;
    }
    Ok(all)
}

/// The vertices in the order of this list, and their ranks, among those of so many modules.
fn ranking_of(alloc: Global, all: Vec<Numbered>, modules: usize) -> Result<Ranking, AllocError>
    requires few { length all.items ≤ 4294967295 }
    requires within { All (λ one. one.number < modules) all.items }
    requires once { (a b : Numbered) → Contains all.items a → Contains all.items b → a.number ≡ b.number
        → a.vertex ≡ b.vertex }
    ensures vertices { IfOk result (λ ranking. ranking.vertices.items ≡ map (λ one. one.vertex) all.items) }
    ensures count { IfOk result (λ ranking. length ranking.ranks.items ≡ modules) }
    ensures ranks { IfOk result (λ ranking. All (IsRanked ranking.vertices.items ranking.ranks.items) all.items) }
{
    let mut vertices = Vec::with_capacity(alloc, all.len())?;
    let mut ranks = vec![in alloc; 0; modules]?;
    for next in all {
        ranks[next.number as usize] = vertices.len() as u32;
        vertices.push(next.vertex)?;
    }
    Ok(Ranking { vertices, ranks })
}

/// The modules that are vertices, in ascending order, and their ranks. For n vertices it takes n log n comparisons.
pub(crate) fn ranked(
    alloc: Global,
    modules: Vec<ModVer>,
    is_vertex: &[bool],
) -> Result<Ranking, AllocError>
    requires few { length modules.items ≤ 4294967295 }
    requires distinct { IsDistinct pair_eq modules.items }
    requires marks { length is_vertex.now ≡ length modules.items }
    ensures vertices { IfOk result (λ ranking. (x : ModuleVersion) → Contains ranking.vertices.items x
        ↔ IsMarkedModule modules.items is_vertex.now x) }
    ensures ascending { IfOk result (λ ranking. IsAscending pair_cmp ranking.vertices.items) }
    ensures count { IfOk result (λ ranking. length ranking.ranks.items ≡ length modules.items) }
    ensures ranks { IfOk result (λ ranking. (number : ℕ) → HasMark is_vertex.now number
        → IsRanked ranking.vertices.items ranking.ranks.items
        (record { vertex = module_at modules.items number; number = number })) }
{
    let mut all = with_numbers(alloc, modules, is_vertex)?;
    all.sort_unstable();
    ranking_of(alloc, all, is_vertex.len())
}
