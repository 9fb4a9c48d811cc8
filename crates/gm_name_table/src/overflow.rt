//! The places of tags that found their bucket full.

ghost use Rattle.std.specs.Prelude.{◌≡◌, ℕ, None, OnErr, OnOk, Some};
ghost use Rattle.std.specs.BTreeMap as map;
ghost use Rattle.std.specs.Ordering.{nat_cmp};
ghost use Rattle.gm_name_table.specs.Buckets.{PutsIn};
ghost use Rattle.gm_name_table.specs.Private.TagMarks.{IsMarked};

use crate::tag_marks::TagMarks;
use std::alloc::{AllocError, Global};
use std::collections::BTreeMap;

/// Places under tags in an ordered map.
#[derive(Drop)]
pub(crate) struct Overflow {
    /// The places.
    places: BTreeMap<u32, u32>,
    /// Marks at the tags of the places, so that most tags that have none are known so without a search.
    marks: TagMarks,
    ghost marked: { (tag : ℕ) (place : ℕ) → map.get nat_cmp places tag ≡ Some place → IsMarked marks tag },
}

impl Overflow {
    ghost use Rattle.gm_name_table.specs.Overflow.{place_over};

    /// No places. Allocates no memory.
    pub(crate) fn new(alloc: Global) -> Overflow
        ensures { (t : ℕ) → place_over result t ≡ None }
    {
        Overflow {
            places: BTreeMap::new(alloc),
            marks: TagMarks::new(alloc),
        }
    }

    /// The place under a tag, or `None` if there is none. Allocates no memory.
    // Seldom needed, and not inlined, so that a look-up in a bucket is short.
    #[cold]
    #[inline(never)]
    pub(crate) fn get(&self, tag: u32) -> Option<u32>
        ensures { result ≡ place_over self.now tag }
    {
        if self.marks.has(tag) {
            self.places.get(&tag).copied()
        } else {
            None
        }
    }

    /// Puts a place under a tag. The only refusal is `AllocError`, if memory runs out, which leaves all places as they
    /// were.
    pub(crate) fn add(&mut self, tag: u32, place: u32) -> Result<(), AllocError>
        ensures added { OnOk result (PutsIn place_over self.old self.new tag place) }
        ensures err { OnErr result ((t : ℕ) → place_over self.new t ≡ place_over self.old t) }
    {
        self.marks.add(tag)?;
        self.places.insert(tag, place)?;
        Ok(())
    }
}
