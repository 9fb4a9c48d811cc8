//! Edges of the module graph, and the steps that they leave.

ghost use Rattle.std.specs.Prelude.{◌≡◌, IfOk, Some, refl};
ghost use Rattle.std.specs.Cmp.{partial_equiv_from_equiv};
ghost use Rattle.gm_graph_select.specs.Graph.{step_cmp};
ghost use Rattle.gm_graph_select.specs.StepOrder.{step_eq, step_equiv, step_po, step_total};

use gm_name::ModVer;
use std::alloc::{AllocError, Global};
use std::cmp::Ordering;

/// A step of a chain: the main module, or a module path at a version. The main module is less than all others,
/// which are in the order of `ModVer`.
#[derive(Debug, Drop)]
pub enum Step {
    /// The main module.
    Main,
    /// A module path at a version.
    Of(ModVer),
}

impl Step {
    /// An equal step. The only refusal is `AllocError`, if memory runs out.
    pub fn copy(&self, alloc: Global) -> Result<Step, AllocError>
        ensures { IfOk result (λ step. step ≡ self.now) }
    {
        match self {
            Step::Main => Ok(Step::Main),
            Step::Of(vertex) => Ok(Step::Of(vertex.copy(alloc)?)),
        }
    }
}

impl PartialEq for Step {
    ghost eq = { step_eq };

    ghost laws = { partial_equiv_from_equiv step_equiv };

    /// Whether both are the main module or the same path and version.
    fn eq(&self, other: &Step) -> bool {
        self.cmp(other).is_eq()
    }
}

impl Eq for Step {
    ghost laws = { step_equiv };
}

impl PartialOrd for Step {
    ghost partial_cmp = { λ s t. Some (step_cmp s t) };

    ghost laws = { step_po };

    /// The order of `cmp`, which is total.
    fn partial_cmp(&self, other: &Step) -> Option<Ordering> {
        Some(self.cmp(other))
    }
}

impl Ord for Step {
    ghost cmp = { step_cmp };

    ghost total = { step_total };

    ghost matches_partial_cmp = { λ s t. refl };

    ghost matches_eq = { λ s t. refl };

    /// The main module is less than all others, which are in the order of `ModVer`.
    fn cmp(&self, other: &Step) -> Ordering {
        match self {
            Step::Main => match other {
                Step::Main => Ordering::Equal,
                Step::Of(_) => Ordering::Less,
            },
            Step::Of(vertex) => match other {
                Step::Main => Ordering::Greater,
                Step::Of(other) => vertex.cmp(other),
            },
        }
    }
}

/// An edge of the module graph: a step, and a vertex that its file requires.
#[derive(Drop, PartialEq, Eq)]
pub struct Edge {
    /// The step whose file has the requirement.
    pub from: Step,
    /// The module path and version that it requires.
    pub to: ModVer,
}
