//! Lists that were followed: what is in them has turns at full depth.
//!
//! A list is known by the place of the file that has it. Both depths lead on at full depth, so one mark a list is enough,
//! whatever files and vertices have it.

ghost use Rattle.std.specs.Prelude.{◌≡◌, ◌⊎◌, ℕ, Contains, Err, OnOk, true};
ghost use Rattle.gm_name.specs.ModuleVersion.{ModuleVersion};
ghost use Rattle.gm_graph_cache.specs.Lent.{lent_modules, lent_table};
ghost use Rattle.gm_graph_files.specs.Turns.{turn};
ghost use Rattle.gm_graph.specs.Private.Turns.{AddsAll, OverflowsWith};
ghost use Rattle.gm_graph_files.specs.declared.depth.Depth.TheVariants.{Deep};
ghost use Rattle.gm_graph.specs.Private.Worklists.{IsWorklist, turns_of};

use crate::places::put_at;
use crate::worklist::{AddFault, Worklist};
use gm_graph_cache::{Depth, Lent};
use std::alloc::{AllocError, Global};

/// The files whose lists were followed.
#[derive(Drop)]
pub(crate) struct Followed {
    /// For each file, by its place in the cache, whether its list was followed. The last ones may be left out.
    files: Vec<bool>,
}

impl Followed {
    ghost use Rattle.gm_graph.specs.Private.Followed.{followed_at};

    /// No files.
    pub(crate) fn new(alloc: Global) -> Followed
        ensures { (file : ℕ) → followed_at result file ≡ true → ⊥ }
    {
        Followed {
            files: Vec::new(alloc),
        }
    }

    /// Whether the list of this file was followed.
    fn has(&self, file: u32) -> bool
        ensures { result ≡ followed_at self.now file }
    {
        match self.files.get(file as usize) {
            None => false,
            Some(followed) => *followed,
        }
    }

    /// Adds this file.
    fn add(&mut self, file: u32) -> Result<(), AllocError>
        ensures only { OnOk result ((other : ℕ) → followed_at self.new other ≡ true
            → (followed_at self.old other ≡ true) ⊎ (file ≡ other)) }
        ensures added { OnOk result (followed_at self.new file ≡ true) }
    {
        put_at(&mut self.files, file, false, true)
    }

    /// Adds a turn at full depth for each of these modules, which a file requires, unless its list was followed.
    pub(crate) fn follow(
        &mut self,
        worklist: &mut Worklist,
        file: u32,
        list: Lent<'_>,
    ) -> Result<(), AddFault>
        requires worklist { IsWorklist (lent_table list) worklist.old }
        requires followed { followed_at self.old file ≡ true → (y : ModuleVersion) → Contains (lent_modules list) y
            → Contains (turns_of (lent_table list) worklist.old) (turn y Deep) }
        ensures worklist { OnOk result (IsWorklist (lent_table list.entry) worklist.new) }
        ensures adds { OnOk result (AddsAll (turns_of (lent_table list.entry) worklist.old)
            (turns_of (lent_table list.entry) worklist.new) (lent_modules list.entry) Deep) }
        ensures files { OnOk result ((other : ℕ) → followed_at self.new other ≡ true
            → (followed_at self.old other ≡ true) ⊎ (file ≡ other)) }
        ensures added { OnOk result (followed_at self.new file ≡ true) }
        ensures once { followed_at self.old file ≡ true → worklist.new ≡ worklist.old }
        ensures too_many { result ≡ Err AddFault.TooMany
            → OverflowsWith (turns_of (lent_table list.entry) worklist.old) (lent_modules list.entry) }
    {
        if self.has(file) {
            return Ok(());
        }
        worklist.add_all(list, Depth::Deep)?;
        self.add(file)?;
        Ok(())
    }
}
