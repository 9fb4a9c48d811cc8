//! The parts of a cache, once nothing more is asked of it.

ghost use Rattle.std.specs.Prelude.{◌≤◌, length};
ghost use Rattle.std.proofs.Props.{props};
ghost use Rattle.std.specs.List.{IsDistinct};
ghost use Rattle.gm_name.specs.ModuleVersion.{pair_eq};
ghost use Rattle.gm_name_table.specs.Listed.{AreModuleNumbers};
ghost use Rattle.gm_graph_files.specs.Places.{place_limit};
ghost use Rattle.gm_graph_files.specs.KeptFiles.{AreListsInOrder};
ghost use Rattle.gm_graph_files.specs.Private.Summaries.{order_is_fact};

use gm_graph_files::Kept;
use gm_name::ModVer;

/// The modules that have numbers, and the lists of requirements as parts of one list of numbers.
#[derive(Drop)]
pub struct CacheParts {
    /// The modules, each at the place that is its number.
    pub modules: Vec<ModVer>,
    /// The numbers of the requirements of the main file and of all that were read, one file after another.
    pub numbers: Vec<u32>,
    /// How many numbers at the front are requirements of the main file, without the excluded ones.
    pub first: usize,
    /// What was read of each file, or what is wrong with it.
    pub files: Vec<Kept>,
    ghost distinct: { IsDistinct pair_eq modules.items } by { Prim.hlevel props },
    ghost few: { length modules.items ≤ place_limit },
    ghost below: { AreModuleNumbers modules.items numbers.items },
    ghost in_order: { AreListsInOrder first files.items (length numbers.items) } by { Prim.hlevel order_is_fact },
}

impl CacheParts {
    ghost use Rattle.std.specs.Prelude.{◌≡◌};

    /// The modules, and the numbers of the requirements. What was read of the files is dropped.
    pub fn into_lists(self) -> (Vec<ModVer>, Vec<u32>)
        ensures modules { result.0 ≡ self.modules }
        ensures numbers { result.1 ≡ self.numbers }
    {
        (self.modules, self.numbers)
    }
}
