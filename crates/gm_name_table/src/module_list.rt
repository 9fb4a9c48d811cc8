//! A list of modules, of which many come more than once, by their numbers.

ghost use Rattle.std.specs.Prelude.{ℕ, ◌≡◌, ◌≤◌, ◌<◌, ◌↔◌, ◌∷◌, [], false, true, IfOk, Ok, OnErr, OnOk, Some, length, slice_get, take};
ghost use Rattle.std.specs.Iterator.{YieldsFirstRef, item_count};
ghost use Rattle.std.specs.List.{IsDistinct};
ghost use Rattle.gm_name.specs.ModuleVersion.{module_at, pair_eq};
ghost use Rattle.gm_name_table.specs.Pairs.{PairReading};
ghost use Rattle.gm_name_table.specs.Listed.{Appends, AreModuleNumbers, modules_of, modules_at, part};
ghost use Rattle.gm_name_table.specs.Lists.{IsOneMoreAtMost};

use crate::module_table::ModuleTable;
use gm_name::{ModVer, NoMemory};
use std::alloc::Global;
use std::marker::Model;

/// A list of modules (paths at versions). Each distinct module is kept once, also after the list was cut, and has a
/// number, which never changes; the list has the numbers. Contracts see both.
#[derive(Drop)]
pub struct ModuleList {
    /// The distinct modules.
    table: ModuleTable,
    /// The number of each module of the list.
    numbers: Vec<u32>,
}

impl Model for ModuleList {
    ghost use Rattle.gm_name_table.specs.Listed.{AreModuleNumbers, NumberedList};

    ghost Value = { NumberedList };

    ghost view = { λ a. record { modules = a.table; numbers = a.numbers.items } };

    ghost invariant = { λ a. AreModuleNumbers a.table a.numbers.items };
}

impl ModuleList {
    /// The empty list. Allocates no memory.
    pub fn new(alloc: Global) -> ModuleList
        ensures modules { result.modules ≡ [] }
        ensures numbers { result.numbers ≡ [] }
    {
        ModuleList {
            table: ModuleTable::new(alloc),
            numbers: Vec::new(alloc),
        }
    }

    /// How many modules the list has.
    pub fn len(&self) -> usize
        ensures len { result ≡ length self.now.numbers }
        ensures below { AreModuleNumbers self.now.modules self.now.numbers }
    {
        self.numbers.len()
    }

    /// How many distinct modules there are.
    pub fn module_count(&self) -> usize
        ensures count { result ≡ length self.now.modules }
        ensures distinct { IsDistinct pair_eq self.now.modules }
    {
        self.table.len()
    }

    /// The module with a number.
    pub fn module(&self, number: u32) -> &ModVer
        requires { number < length self.now.modules }
        ensures module { result.now ≡ module_at self.now.modules number }
        ensures distinct { IsDistinct pair_eq self.now.modules }
    {
        self.table.at(number)
    }

    /// The number of a module: `None` exactly if it has none. Allocates no memory.
    pub fn find(&self, pair: &ModVer) -> Option<u32>
        ensures { (number : ℕ) → (result ≡ Some number) ↔ (slice_get self.now.modules number ≡ Some pair.now) }
    {
        self.table.find(pair)
    }

    /// The number of a module, which gets one if it has none. The list stays as it is. The only refusal is `NoMemory`,
    /// after which the module has no number.
    pub fn number(&mut self, pair: &ModVer) -> Result<u32, NoMemory>
        ensures number { IfOk result (λ number. slice_get self.new.modules number ≡ Some pair.now) }
        ensures found { (number : ℕ) → slice_get self.old.modules number ≡ Some pair.now
            → (result ≡ Ok number) × (self.new ≡ self.old) }
        ensures only { IsOneMoreAtMost self.old.modules self.new.modules pair.now }
        ensures numbers { self.new.numbers ≡ self.old.numbers }
        ensures list { modules_of self.new ≡ modules_of self.old }
        ensures err { OnErr result (self.new ≡ self.old) }
    {
        self.table.number(pair)
    }

    /// Appends the module with these texts if it finds it among those put in before, and returns whether it did. It
    /// misses a few; `push` appends these without keeping them twice. No text is tested again. The only refusal is
    /// `NoMemory`, which leaves the list as it was.
    pub fn push_known(&mut self, path: &str, version: &str) -> Result<bool, NoMemory>
        ensures pushed { IfOk result (λ is_known. is_known ≡ true
            → Appends self.old self.new ((path.now, version.now) ∷ [])) }
        ensures read { IfOk result (λ is_known. is_known ≡ true
            → PairReading path.now version.now (Ok (path.now, version.now))) }
        ensures unknown { IfOk result (λ is_known. is_known ≡ false → self.new ≡ self.old) }
        ensures modules { self.new.modules ≡ self.old.modules }
        ensures err { OnErr result (self.new ≡ self.old) }
    {
        match self.table.find_texts(path, version) {
            Some(number) => {
                self.numbers.push(number)?;
                Ok(true)
            }
            None => Ok(false),
        }
    }

    /// Appends a module. The only refusal is `NoMemory`, which leaves the list as it was; the module may have a number
    /// then.
    pub fn push(&mut self, pair: &ModVer) -> Result<(), NoMemory>
        ensures ok { OnOk result (Appends self.old self.new (pair.now ∷ [])) }
        ensures only { IsOneMoreAtMost self.old.modules self.new.modules pair.now }
        ensures err { OnErr result (Appends self.old self.new []) }
    {
        let number = self.table.number(pair)?;
        self.numbers.push(number)?;
        Ok(())
    }

    /// Cuts the list to a length, unless it is shorter. Each module keeps its number.
    pub fn truncate(&mut self, len: usize)
        ensures modules { self.new.modules ≡ self.old.modules }
        ensures numbers { self.new.numbers ≡ take len self.old.numbers }
    {
        self.numbers.truncate(len);
    }

    /// The distinct modules, in the order of their numbers, and the number of each module of the list.
    pub fn into_parts(self) -> (Vec<ModVer>, Vec<u32>)
        ensures modules { result.0.items ≡ self.modules }
        ensures numbers { result.1.items ≡ self.numbers }
        ensures below { AreModuleNumbers result.0.items result.1.items }
        ensures distinct { IsDistinct pair_eq result.0.items }
        ensures few { length result.0.items ≤ 4294967295 }
    {
        let ModuleList { table, numbers } = self;
        (table.into_modules(), numbers)
    }

    /// The numbers of the modules from one place of the list to another.
    pub fn numbers(&self, start: usize, end: usize) -> &[u32]
        requires order { start ≤ end }
        requires within { end ≤ length self.now.numbers }
        ensures numbers { result.now ≡ part start end self.now.numbers }
        ensures below { AreModuleNumbers self.now.modules result.now }
        ensures modules { modules_at self.now.modules result.now ≡ part start end (modules_of self.now) }
    {
        &self.numbers[start..end]
    }

    /// The modules from one place to another.
    pub fn part(&self, start: usize, end: usize) -> Modules<'_>
        requires order { start ≤ end }
        requires within { end ≤ length self.now.numbers }
        ensures { result ≡ part start end (modules_of self.now) }
    {
        Modules {
            modules: self.table.modules(),
            numbers: &self.numbers[start..end],
        }
    }
}

/// Modules in order, which a clause sees as the list of the modules that are still to come. It takes no memory.
#[derive(Drop)]
pub struct Modules<'a> {
    /// Distinct modules, in the order of their numbers.
    modules: &'a [ModVer],
    /// The numbers of the modules that are still to come.
    numbers: &'a [u32],
}

impl<'a> Model for Modules<'a> {
    ghost use Rattle.std.specs.Prelude.{List, ℕ};
    ghost use Rattle.gm_name_table.specs.Listed.{AreModuleNumbers, modules_at};

    ghost Value = { List (List ℕ × List ℕ) };

    ghost view = { λ a. modules_at a.modules.now a.numbers.now };

    ghost invariant = { λ a. AreModuleNumbers a.modules.now a.numbers.now };
}

impl<'a> Iterator for Modules<'a> {
    /// A module of the list.
    type Item = &'a ModVer;

    ghost next_gives = { YieldsFirstRef (λ modules. modules) };

    ghost remaining = { item_count (λ modules. modules) };

    /// The next module, or `None` after the last one.
    #[inline(always)]
    fn next(&mut self) -> Option<&'a ModVer> {
        let (first, others) = self.numbers.split_first()?;
        self.numbers = others;
        Some(&self.modules[*first as usize])
    }
}

impl<'a> Modules<'a> {
    /// No modules.
    pub fn none() -> Modules<'a>
        ensures { result ≡ [] }
    {
        Modules {
            modules: &[],
            numbers: &[],
        }
    }

    /// How many modules are still to come.
    pub fn len(&self) -> usize
        ensures { result ≡ length self.now }
    {
        self.numbers.len()
    }
}
