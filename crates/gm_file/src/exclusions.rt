//! The index of the excluded versions, for lookups in logarithmic time.

ghost use Rattle.std.specs.Prelude.{◌≡◌, ◌++◌, ◌∷◌, [], IfErr, OnOk};
ghost use Rattle.std.specs.List.{list_any};
ghost use Rattle.gm_name.specs.ModuleVersion.{pair_eq};
ghost use Rattle.gm_file.specs.Indexes.{IsSetOfLines};

use crate::fault::LineFault;
use gm_name::ModVer;
use std::alloc::Global;
use std::collections::BTreeSet;

/// The modules of the `exclude` lines, both as a list and as a set.
#[derive(Drop)]
pub(crate) struct Exclusions {
    /// The modules in the order of the lines, with duplicates.
    lines: Vec<ModVer>,
    /// The same modules, for lookups.
    set: BTreeSet<ModVer>,
}

impl Exclusions {
    /// The index of no lines.
    pub(crate) fn new(alloc: Global) -> Exclusions
        ensures lines { result.lines.items ≡ [] }
        ensures set { IsSetOfLines result }
    {
        Exclusions {
            lines: Vec::new(alloc),
            set: BTreeSet::new(alloc),
        }
    }

    /// Adds the module of the next line. The only refusal is `NoMemory`.
    pub(crate) fn add(&mut self, alloc: Global, pair: ModVer) -> Result<(), LineFault>
        requires { IsSetOfLines self.old }
        ensures lines { OnOk result (self.new.lines.items ≡ self.old.lines.items ++ pair ∷ []) }
        ensures set { OnOk result (IsSetOfLines self.new) }
        ensures memory { IfErr result (λ fault. fault ≡ LineFault.NoMemory) }
    {
        self.set.insert(pair.copy(alloc)?)?;
        self.lines.push(pair)?;
        Ok(())
    }

    /// The modules in the order of the lines, with duplicates.
    pub(crate) fn as_slice(&self) -> &[ModVer]
        ensures { result.now ≡ self.now.lines.items }
    {
        self.lines.as_slice()
    }

    /// Whether a line excludes this version of this path. Takes logarithmic time.
    pub(crate) fn contains(&self, pair: &ModVer) -> bool
        requires { IsSetOfLines self.now }
        ensures { result ≡ list_any (λ y. pair_eq y pair.now) self.now.lines.items }
    {
        self.set.contains(pair)
    }
}
