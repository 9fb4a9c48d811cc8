//! The table of distinct modules, in the order in which each was first put in.

ghost use Rattle.std.specs.Prelude.{ℕ, ◌≡◌, ◌<◌, ◌≤◌, ◌↔◌, [], IfOk, IfSome, IsTrue, Ok, OnErr, Some, length, slice_get};
ghost use Rattle.std.specs.List.{IsDistinct};
ghost use Rattle.gm_name.specs.ModuleVersion.{pair_eq};
ghost use Rattle.gm_name_table.specs.Pairs.{PairReading};
ghost use Rattle.gm_name_table.specs.Index.{pair_tag};
ghost use Rattle.gm_name_table.specs.Lists.{IsOneMoreAtMost};

use crate::index::{Index, pair_tag, texts_tag};
use crate::place::MOST_PLACES;
use gm_name::{ModVer, NoMemory};
use std::alloc::{AllocError, Global};
use std::marker::Model;

/// The distinct modules (paths at versions) that were put in, in the order in which each was first put in. A module's
/// number is its place in this list, and never changes. Contracts see the list.
#[derive(Drop)]
pub struct ModuleTable {
    /// The allocator of the list and the index.
    alloc: Global,
    /// The modules.
    modules: Vec<ModVer>,
    /// Where each of them stands.
    index: Index,
}

impl Model for ModuleTable {
    ghost use Rattle.std.specs.Prelude.{◌≤◌, List, length, ℕ};
    ghost use Rattle.gm_name_table.specs.Index.{IsIndexOf};

    ghost Value = { List (List ℕ × List ℕ) };

    ghost view = { λ a. a.modules.items };

    ghost invariant = { λ a. IsIndexOf a.index a.modules.items × (length a.modules.items ≤ 4294967295) };
}

/// Whether a module has these texts.
#[inline(always)]
fn is_pair_of(pair: &ModVer, path: &str, version: &str) -> bool
    ensures { IsTrue result → PairReading path.now version.now (Ok pair.now) }
{
    pair.path().as_str() == path && pair.version().as_str() == version
}

impl ModuleTable {
    /// The table of no modules. Allocates no memory.
    pub fn new(alloc: Global) -> ModuleTable
        ensures { result ≡ [] }
    {
        ModuleTable {
            alloc,
            modules: Vec::new(alloc),
            index: Index::new(alloc),
        }
    }

    /// How many modules there are.
    pub fn len(&self) -> usize
        ensures len { result ≡ length self.now }
        ensures distinct { IsDistinct pair_eq self.now }
    {
        self.modules.len()
    }

    /// The module with a number.
    pub fn at(&self, number: u32) -> &ModVer
        requires { number < length self.now }
        ensures module { slice_get self.now number ≡ Some result.now }
        ensures distinct { IsDistinct pair_eq self.now }
    {
        &self.modules[number as usize]
    }

    /// The number of the module with these texts, if it stands under its tag. No text is tested. Without an answer, the
    /// module may still be in the table. Allocates no memory.
    #[inline]
    pub(crate) fn find_texts(&self, path: &str, version: &str) -> Option<u32>
        ensures number { IfSome result (λ number. slice_get self.now number ≡ Some (path.now, version.now)) }
        ensures read { IfSome result (λ _. PairReading path.now version.now (Ok (path.now, version.now))) }
    {
        let number = self.index.first_with(texts_tag(path, version))?;
        let there = self.modules.get(number as usize)?;
        if is_pair_of(there, path, version) {
            Some(number)
        } else {
            None
        }
    }

    /// The number of a module: `None` exactly if it isn't in the table. Allocates no memory.
    pub fn find(&self, pair: &ModVer) -> Option<u32>
        ensures { (number : ℕ) → (result ≡ Some number) ↔ (slice_get self.now number ≡ Some pair.now) }
    {
        let first = self.index.first_with(pair_tag(pair));
        self.index.find(&self.modules, first, pair)
    }

    /// The number of a module, which is put in at the end if it isn't in the table. Its texts are shared, not copied.
    /// `NoMemory` only if memory runs out or all numbers are given (2^32 - 1 of them); the table is then as it was.
    pub fn number(&mut self, pair: &ModVer) -> Result<u32, NoMemory>
        ensures number { IfOk result (λ number. slice_get self.new number ≡ Some pair.now) }
        ensures found { (number : ℕ) → slice_get self.old number ≡ Some pair.now
            → (result ≡ Ok number) × (self.new ≡ self.old) }
        ensures only { IsOneMoreAtMost self.old self.new pair.now }
        ensures err { OnErr result (self.new ≡ self.old) }
    {
        let tag = pair_tag(pair);
        let first = self.index.first_with(tag);
        if let Some(number) = self.index.find(&self.modules, first, pair) {
            return Ok(number);
        }
        if self.modules.len() >= MOST_PLACES as usize {
            return Err(AllocError);
        }
        let copy = pair.copy(self.alloc)?;
        // Room comes first, so that the push after the index has changed can't fail.
        self.modules.reserve(1)?;
        self.index.add(self.alloc, &self.modules, tag, first, pair)?;
        let number = self.modules.len() as u32;
        self.modules.push(copy)?;
        Ok(number)
    }

    /// The modules in the order of their numbers, as a slice.
    pub(crate) fn modules(&self) -> &[ModVer]
        ensures { result.now ≡ self.now }
    {
        &self.modules
    }

    /// The modules in the order of their numbers.
    pub fn into_modules(self) -> Vec<ModVer>
        ensures list { result.items ≡ self }
        ensures distinct { IsDistinct pair_eq result.items }
        ensures few { length result.items ≤ 4294967295 }
    {
        self.modules
    }
}
