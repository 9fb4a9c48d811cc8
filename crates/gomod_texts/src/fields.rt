//! Fields that the lines of `graph` and of `chain` share, so that a module looks the same in both.

ghost use Rattle.std.specs.Prelude.{◌≡◌, ◌++◌};
ghost use Rattle.gm_graph_select.specs.EdgeList.{step_of_ref};
ghost use Rattle.gomod_texts.specs.LineParts.{step_text};

use gm_graph_select::Step;
use gm_name::{ModPath, ModVer};

/// The module of a step, or `None` for the main module.
pub(crate) fn vertex_of(step: &Step) -> Option<&ModVer>
    ensures { step_of_ref result ≡ step.now }
{
    match step {
        Step::Main => None,
        Step::Of(vertex) => Some(vertex),
    }
}

/// `PATH@VERSION` of a module in three pieces, or the main module's path and two empty ones.
pub(crate) fn step_pieces<'a>(
    main: &'a ModPath,
    other: Option<&'a ModVer>,
) -> (&'a str, &'a str, &'a str)
    ensures { result.0.now ++ (result.1.now ++ result.2.now) ≡ step_text main.now (step_of_ref other.entry) }
{
    match other {
        None => (main.as_str(), "", ""),
        Some(vertex) => (vertex.path().as_str(), "@", vertex.version().as_str()),
    }
}
