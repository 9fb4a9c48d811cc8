//! Names of one kind that are kept to be found again by their fingerprints.

ghost use Rattle.std.specs.Prelude.{◌≡◌, ◌<◌, ℕ, Some, length};
ghost use Rattle.gm_name_table.specs.TagIndex.{place_under};
ghost use Rattle.gm_name_table.specs.Private.Tags.{ArePlacesBelow};

use crate::tag_index::TagIndex;
use std::alloc::{AllocError, Global};

/// Names under the tags of their fingerprints, at most one under each.
#[derive(Drop)]
pub(crate) struct KeptNames<T> {
    /// The place of the name under each tag.
    places: TagIndex,
    /// The names, in the order in which their tags came first.
    names: Vec<T>,
    ghost placed: { ArePlacesBelow places (length names.items) },
}

impl<T: Drop> KeptNames<T> {
    ghost use Rattle.std.specs.Prelude.{◌+◌, OnErr, OnOk, None};
    ghost use Rattle.std.specs.Option.{option_copied};
    ghost use Rattle.gm_name_table.specs.KeptNames.{count_of};
    ghost use Rattle.gm_name_table.specs.Private.KeptNames.{Keeps, name_under};

    /// No names. Allocates no memory before the first one.
    pub(crate) fn new(alloc: Global) -> KeptNames<T>
        ensures none { (t : ℕ) → name_under result t ≡ None }
        ensures count { count_of result ≡ 0 }
    {
        KeptNames {
            places: TagIndex::new(alloc),
            names: Vec::new(alloc),
        }
    }

    /// The name under a tag, or `None` if there is none. Allocates no memory.
    pub(crate) fn get(&self, tag: u32) -> Option<&T>
        ensures { option_copied result ≡ name_under self.now tag }
    {
        self.names.get(self.places.get(tag)? as usize)
    }

    /// How many names are kept.
    pub(crate) fn count(&self) -> usize
        ensures { result ≡ count_of self.now }
    {
        self.names.len()
    }

    /// Keeps a name under a tag. Another one there is dropped. The only refusal is `AllocError`, if memory runs out,
    /// which leaves all as it was.
    pub(crate) fn keep(&mut self, tag: u32, name: T) -> Result<(), AllocError>
        requires { count_of self.old < 4294967295 }
        ensures keeps { OnOk result (Keeps self.old self.new tag name) }
        ensures more { OnOk result (name_under self.old tag ≡ None → count_of self.new ≡ count_of self.old + 1) }
        ensures replaced { OnOk result ((other : T) → name_under self.old tag ≡ Some other
            → count_of self.new ≡ count_of self.old) }
        ensures err { OnErr result ((t : ℕ) → name_under self.new t ≡ name_under self.old t) }
        ensures err_count { OnErr result (count_of self.new ≡ count_of self.old) }
    {
        match self.places.get(tag) {
            Some(place) => {
                self.names[place as usize] = name;
                Ok(())
            }
            None => self.keep_new(tag, name),
        }
    }

    /// Keeps a name under a tag that has none.
    fn keep_new(&mut self, tag: u32, name: T) -> Result<(), AllocError>
        requires few { count_of self.old < 4294967295 }
        requires free { place_under self.old.places tag ≡ None }
        ensures keeps { OnOk result (Keeps self.old self.new tag name) }
        ensures count { OnOk result (count_of self.new ≡ count_of self.old + 1) }
        ensures err { OnErr result ((t : ℕ) → name_under self.new t ≡ name_under self.old t) }
        ensures err_count { OnErr result (count_of self.new ≡ count_of self.old) }
    {
        // Room comes first, so that the push after the places have changed can't fail.
        self.names.reserve(1)?;
        self.places.put(tag, self.names.len() as u32)?;
        self.names.push(name)?;
        Ok(())
    }
}
