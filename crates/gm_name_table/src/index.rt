//! The index of a list of modules: where each of them stands.

ghost use Rattle.std.specs.Prelude.{◌≡◌, ◌<◌, ◌↔◌, ◌++◌, ◌∷◌, [], IfSome, IsTrue, None, OnErr, OnOk, Some, length, slice_get};
ghost use Rattle.gm_name_table.specs.TagIndex.{place_under};
ghost use Rattle.gm_name_table.specs.Index.{IsIndexOf, pair_tag};
ghost use Rattle.gm_name_table.specs.Private.Lists.{IsAbsent};

use crate::tag_index::TagIndex;
use gm_name::{ModVer, NoMemory, fingerprint, tag_of};
use std::alloc::Global;
use std::collections::BTreeMap;

/// Where each of some modules stands in their list. Modules made up to have equal tags cost what they cost in an
/// ordered map.
#[derive(Drop)]
pub(crate) struct Index {
    /// The place of the first module with each tag.
    first: TagIndex,
    /// The places of the others, whose tag an earlier module has.
    others: BTreeMap<ModVer, u32>,
}

/// The tag of a module.
#[tactic(auto, unfolding(crate::specs::Index::pair_tag))]
pub(crate) fn pair_tag(pair: &ModVer) -> u32
    ensures { result ≡ pair_tag pair.now }
{
    tag_of(pair.fingerprint())
}

/// The tag of the module with these texts, if there is one.
#[inline(always)]
pub(crate) fn texts_tag(path: &str, version: &str) -> u32 {
    tag_of(fingerprint(fingerprint(0, path), version))
}

/// Whether this module stands there.
fn stands_at(pairs: &[ModVer], place: u32, pair: &ModVer) -> bool
    ensures { IsTrue result ↔ (slice_get pairs.now place ≡ Some pair.now) }
{
    match pairs.get(place as usize) {
        Some(there) => *there == *pair,
        None => false,
    }
}

impl Index {
    /// The index of no modules. Allocates no memory.
    #[tactic(auto, using(crate::proofs::Lists::no_pairs))]
    pub(crate) fn new(alloc: Global) -> Index
        ensures { IsIndexOf result [] }
    {
        Index {
            first: TagIndex::new(alloc),
            others: BTreeMap::new(alloc),
        }
    }

    /// The place of the first module with this tag, if there is one. Allocates no memory.
    #[inline(always)]
    pub(crate) fn first_with(&self, tag: u32) -> Option<u32>
        ensures { result ≡ place_under self.now.first tag }
    {
        self.first.get(tag)
    }

    /// Where a module stands in the list, or `None` if it doesn't. `first` is the place of the first module with its
    /// tag. Allocates no memory.
    pub(crate) fn find(&self, pairs: &[ModVer], first: Option<u32>, pair: &ModVer) -> Option<u32>
        requires indexed { IsIndexOf self.now pairs.now }
        requires first { first ≡ place_under self.now.first (pair_tag pair.now) }
        ensures some { IfSome result (λ number. slice_get pairs.now number ≡ Some pair.now) }
        ensures none { result ≡ None → IsAbsent pairs.now pair.now }
    {
        let place = first?;
        if stands_at(pairs, place, pair) {
            Some(place)
        } else {
            self.others.get(pair).copied()
        }
    }

    /// Notes the place of a module with this tag that isn't in the list and is put at its end next. `first` is the
    /// place of the first module with the tag. Fails only when memory runs out; then the index is still that of the
    /// list.
    pub(crate) fn add(
        &mut self,
        alloc: Global,
        pairs: &[ModVer],
        tag: u32,
        first: Option<u32>,
        pair: &ModVer,
    ) -> Result<(), NoMemory>
        requires few { length pairs.now < 4294967295 }
        requires indexed { IsIndexOf self.old pairs.now }
        requires tag { tag ≡ pair_tag pair.now }
        requires first { first ≡ place_under self.old.first tag }
        requires absent { IsAbsent pairs.now pair.now }
        ensures ok { OnOk result (IsIndexOf self.new (pairs.now ++ pair.now ∷ [])) }
        ensures err { OnErr result (IsIndexOf self.new pairs.now) }
    {
        let number = pairs.len() as u32;
        match first {
            None => {
                self.first.put(tag, number)?;
                Ok(())
            }
            Some(_) => {
                self.others.insert(pair.copy(alloc)?, number)?;
                Ok(())
            }
        }
    }
}
