//! `graph`: the edges of the module graph.

ghost use Rattle.std.specs.Prelude.{◌≡◌};
ghost use Rattle.gomod_texts.specs.GraphQuery.{graph_text};
ghost use Rattle.gomod_texts.specs.Outcome.{OrNoMemory, ended_view, text_outcome};

use gm_file::MainModule;
use gm_graph::Loaded;
use gomod_texts::{Report, Text};
use std::alloc::Global;

/// `graph`: all edges.
pub(crate) fn graph_outcome<'r>(
    alloc: Global,
    main: &MainModule,
    loaded: Loaded,
) -> Result<Text, Report<'r>>
    ensures { OrNoMemory (λ outcome. outcome ≡ text_outcome (graph_text main.now.path loaded.edges))
        (ended_view result) }
{
    let main = main.path().copy(alloc)?;
    Ok(Text::edges(main, loaded))
}
