//! `chain`: the steps of a shortest chain of requirements.

ghost use Rattle.std.specs.Prelude.{◌≡◌, []};
ghost use Rattle.gomod_texts.specs.ChainQuery.{ShowsChain};
ghost use Rattle.gm_graph_select.specs.Graph.{among};
ghost use Rattle.gomod_texts.specs.Outcome.{OrNoMemory, ended_view};

use gm_file::MainModule;
use gm_graph::Loaded;
use gm_graph_select::ChainFault;
use gm_name::ModPath;
use gomod_texts::{Report, Text};
use std::alloc::Global;

/// `chain`: the steps, or a report if the path is not in the build list.
pub(crate) fn chain_outcome<'q>(
    alloc: Global,
    main: &MainModule,
    loaded: &Loaded,
    path: &'q ModPath,
) -> Result<Text, Report<'q>>
    requires no_fault { loaded.now.faults ≡ [] }
    requires main { loaded.now.main ≡ main.now.path }
    ensures { OrNoMemory (ShowsChain path.now main.now (among loaded.now.edges) loaded.now.rows)
        (ended_view result) }
{
    match loaded.chain(alloc, path) {
        Ok(steps) => {
            let main = main.path().copy(alloc)?;
            Ok(Text::steps(main, steps))
        }
        Err(ChainFault::NotListed) => Err(Report::NotListed(path)),
        Err(ChainFault::NoMemory) => Err(Report::NoMemory),
    }
}
