//! The main module's requirements, and the worklist that loading starts with.

ghost use Rattle.std.specs.Prelude.{◌≡◌, [], IfOk, Err};
ghost use Rattle.gm_graph_cache.specs.Cached.{main_in, run_in, table_in};
ghost use Rattle.gm_file.specs.Main.{is_pruned_by, without_excluded};
ghost use Rattle.gm_graph_cache.specs.Refusals.{refused_in};
ghost use Rattle.gm_graph.specs.Private.Turns.{OverflowsWith, depth_by};
ghost use Rattle.gm_graph.specs.Private.Visiting.{IsFirstWorklist};

use crate::worklist::Worklist;
use gm_file::MainModule;
use gm_graph_cache::{Cache, Depth, LoadFault};
use std::alloc::Global;

/// The depth at which the requirements of the main file are opened.
fn first_depth(main: &MainModule) -> Depth
    ensures { result ≡ depth_by (is_pruned_by main.now.go) }
{
    if main.is_pruned() {
        Depth::Top
    } else {
        Depth::Deep
    }
}

/// The worklist that loading starts with: turns of the main module's requirements, without the excluded ones, at the
/// top, or at full depth if the main file is unpruned. `TooMany` is returned if the main file requires more than `MOST`
/// vertices.
pub(crate) fn first_worklist(
    alloc: Global,
    main: &MainModule,
    cache: &Cache<'_>,
) -> Result<Worklist, LoadFault>
    requires { main_in cache.now ≡ main.now }
    ensures first { IfOk result (IsFirstWorklist (run_in cache.now []) (table_in cache.now)) }
    ensures too_many { result ≡ Err LoadFault.TooMany
        → OverflowsWith [] (without_excluded main.now main.now.requirements) }
    ensures not_refused { refused_in result ≡ [] }
{
    let required = cache.first_requirements();
    let mut worklist = Worklist::new(alloc, required.module_count())?;
    worklist.add_all(required, first_depth(main))?;
    Ok(worklist)
}
