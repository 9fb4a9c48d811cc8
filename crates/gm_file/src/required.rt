//! The requirements of a file while it is read: a list of their own, or the end of a list of modules.

ghost use Rattle.std.specs.Prelude.{◌≡◌, ◌++◌, ◌∷◌, [], None, Ok, Some, IfOk, OnOk, false, true};
ghost use Rattle.gm_name_table.specs.Pairs.{PairReading};
ghost use Rattle.gm_name_table.specs.Listed.{Appends, NumberedList};
ghost use Rattle.gm_file.specs.Faults.{pair_kinds};
ghost use Rattle.gm_file.specs.Private.Reading.{KeepsNames, IsPartRead};

use crate::fault::{DirectiveKind, LineFault};
use crate::part::pair_of_texts;
use gm_name::{ModVer, NoMemory};
use gm_name_table::{KnownNames, ModuleList};
use std::marker::Model;
use std::mem;
use std::snapshot::Snapshot;

/// Where requirements go.
#[derive(Drop)]
enum Destination {
    /// A list of their own.
    Own(Vec<ModVer>),
    /// The end of a list of modules, which was `before`.
    End {
        list: ModuleList,
        before: Snapshot<ModuleList>,
    },
}

/// The requirements of the lines that have been read, in order.
#[derive(Drop)]
pub(crate) struct Required {
    /// Where they are.
    place: Destination,
}

impl Model for Required {
    ghost use Rattle.gm_file.specs.Private.Requirements.{IsGrownList, Requirements, items_in};

    ghost Value = { Requirements };

    ghost view = { λ r. items_in r.place };

    ghost invariant = { λ r. IsGrownList r.place };
}

impl Required {
    /// Requirements in a list of their own.
    pub(crate) fn own(pairs: Vec<ModVer>) -> Required
        ensures before { result.before ≡ None }
        ensures items { result.items ≡ pairs.items }
    {
        Required {
            place: Destination::Own(pairs),
        }
    }

    /// No requirements so far, to go to the end of a list of modules.
    pub(crate) fn at_end(list: ModuleList) -> Required
        ensures before { result.before ≡ Some list }
        ensures items { result.items ≡ [] }
    {
        let before = Snapshot::of(&list);
        Required {
            place: Destination::End { list, before },
        }
    }

    /// Adds a requirement.
    pub(crate) fn push(&mut self, pair: ModVer) -> Result<(), NoMemory>
        ensures before { self.new.before ≡ self.old.before }
        ensures items { OnOk result (self.new.items ≡ self.old.items ++ pair ∷ []) }
    {
        match &mut self.place {
            Destination::Own(pairs) => Ok(pairs.push(pair)?),
            Destination::End { list, .. } => list.push(&pair),
        }
    }

    /// Adds the requirement that two texts spell, if the list of modules had it before, and reports whether it had.
    fn push_known(&mut self, path: &str, version: &str) -> Result<bool, NoMemory>
        ensures before { self.new.before ≡ self.old.before }
        ensures items { IfOk result (λ is_known. is_known ≡ true
            → self.new.items ≡ self.old.items ++ (path.now, version.now) ∷ []) }
        ensures read { IfOk result (λ is_known. is_known ≡ true
            → PairReading path.now version.now (Ok (path.now, version.now))) }
        ensures unknown { IfOk result (λ is_known. is_known ≡ false → self.new.items ≡ self.old.items) }
    {
        match &mut self.place {
            Destination::Own(_) => Ok(false),
            Destination::End { list, .. } => Ok(list.push_known(path, version)?),
        }
    }

    /// Adds the requirement that two texts spell. The texts are refused as by `pair_of_texts`.
    pub(crate) fn read(
        &mut self,
        names: &mut KnownNames,
        path: &str,
        version: &str,
    ) -> Result<(), LineFault>
        ensures kept { KeepsNames names.old names.new }
        ensures before { self.new.before ≡ self.old.before }
        ensures items { OnOk result (self.new.items ≡ self.old.items ++ (path.now, version.now) ∷ []) }
        ensures read { IsPartRead (λ _. (path.now, version.now)) DirectiveKind.WrongArguments pair_kinds
            (Some (path.now, version.now)) result }
    {
        if self.push_known(path, version)? {
            return Ok(());
        }
        let pair = pair_of_texts(names, path, version)?;
        self.push(pair)?;
        Ok(())
    }

    /// The requirements, which are in a list of their own.
    pub(crate) fn into_pairs(self) -> Vec<ModVer>
        requires { self.before ≡ None }
        ensures { result.items ≡ self.items }
    {
        match self.place {
            Destination::Own(pairs) => pairs,
            Destination::End { .. } => unreachable!(),
        }
    }

    /// Puts the list of modules, with the requirements at its end, instead of this one. This one stays if the
    /// requirements are in a list of their own, which is dropped.
    pub(crate) fn give_back(self, modules: &mut ModuleList)
        ensures { (before : NumberedList) → self.before ≡ Some before → Appends before modules.new self.items }
    {
        match self.place {
            Destination::Own(_) => (),
            Destination::End { list, .. } => {
                let _before = mem::replace(modules, list);
            }
        }
    }
}
