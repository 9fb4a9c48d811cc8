//! An index: places under tags, such as where the name with a fingerprint stands in a list.
//!
//! A look-up in one ordered map of ten thousand numbers compares twenty of them, most in parts of memory that were not
//! used lately. Here a tag chooses a bucket, which has room for eight places and lies in one piece; there are more
//! buckets as places are added. What finds its bucket full goes to an ordered map: with up to three places for each
//! bucket, some two of a thousand. So tags that were made up to choose one bucket cost what they cost in an ordered
//! map, and nobody can make the index slow.

ghost use Rattle.std.specs.Prelude.{◌≡◌, ◌≤◌, ◌<◌, ◌*◌, ℕ, IfOk, None, OnErr, OnOk, length};
ghost use Rattle.gm_name_table.specs.Buckets.{PutsIn};
ghost use Rattle.gm_name_table.specs.Slots.{place_in_buckets};

use crate::bucket::{Bucket, bucket_of};
use crate::overflow::Overflow;
use std::alloc::{AllocError, Global};

/// How many buckets there are from the first place on.
const FIRST: usize = 64;

/// Up to how many buckets their number may be doubled, since a tag of 32 bits chooses among them.
const MOST: usize = 2_147_483_648;

/// Places under tags of 32 bits that are spread evenly, such as those that `tag_of` gives: at most one under each tag.
/// A place is a number below `MOST_PLACES`.
#[derive(Drop)]
pub struct TagIndex {
    /// The allocator of the buckets.
    alloc: Global,
    /// The buckets: none before the first place.
    buckets: Vec<Bucket>,
    /// How many places the buckets have. It decides when there are more of them.
    count: usize,
    /// The places that found their bucket full.
    overflow: Overflow,
    ghost few: { length buckets.items ≤ 4294967296 },
}

/// So many buckets, all empty.
fn empty_buckets(alloc: Global, many: usize) -> Result<Vec<Bucket>, AllocError>
    ensures len { IfOk result (λ buckets. length buckets.items ≡ many) }
    ensures none { IfOk result (λ buckets. (t : ℕ) → place_in_buckets buckets.items t ≡ None) }
{
    Ok(vec![in alloc; Bucket::new(); many]?)
}

/// Twice as many buckets with the same places.
fn doubled(alloc: Global, buckets: &[Bucket]) -> Result<Vec<Bucket>, AllocError>
    requires { length buckets.now ≤ 2147483648 }
    ensures len { IfOk result (λ doubled. length doubled.items ≡ length buckets.now * 2) }
    ensures same { IfOk result (λ doubled. (t : ℕ)
        → place_in_buckets doubled.items t ≡ place_in_buckets buckets.now t) }
{
    let many = buckets.len() * 2;
    let mut doubled = Vec::with_capacity(alloc, many)?;
    for bucket in 0..many {
        doubled.push(buckets[bucket / 2].part(bucket, many))?;
    }
    Ok(doubled)
}

impl TagIndex {
    ghost use Rattle.gm_name_table.specs.TagIndex.{HasSame, place_under};

    /// No places. Allocates no memory before the first one.
    pub fn new(alloc: Global) -> TagIndex
        ensures { (t : ℕ) → place_under result t ≡ None }
    {
        TagIndex {
            alloc,
            buckets: Vec::new(alloc),
            count: 0,
            overflow: Overflow::new(alloc),
        }
    }

    /// The place in the bucket of a tag.
    fn held(&self, tag: u32) -> Option<u32>
        ensures { result ≡ place_in_buckets self.now.buckets.items tag }
    {
        let bucket = bucket_of(tag, self.buckets.len());
        self.buckets.get(bucket)?.get(tag)
    }

    /// The place under a tag, or `None` if there is none. Allocates no memory.
    #[inline(always)]
    pub fn get(&self, tag: u32) -> Option<u32>
        ensures { result ≡ place_under self.now tag }
    {
        match self.held(tag) {
            Some(place) => Some(place),
            None => self.overflow.get(tag),
        }
    }

    /// Makes the first buckets, or twice as many if there are three places for each. The only refusal is `AllocError`,
    /// if memory runs out. What the index holds stays in any case.
    fn make_room(&mut self) -> Result<(), AllocError>
        ensures some { OnOk result (0 < length self.new.buckets.items) }
        ensures same { HasSame self.old self.new }
    {
        let many = self.buckets.len();
        if many == 0 {
            self.buckets = empty_buckets(self.alloc, FIRST)?;
        } else if self.count / 3 >= many && many <= MOST {
            self.buckets = doubled(self.alloc, &self.buckets)?;
        }
        Ok(())
    }

    /// Puts a place under a tag that has none. The only refusal is `AllocError`, if memory runs out, which leaves all
    /// places as they were.
    pub fn put(&mut self, tag: u32, place: u32) -> Result<(), AllocError>
        requires free { place_under self.old tag ≡ None }
        requires place { place < 4294967295 }
        ensures put { OnOk result (PutsIn place_under self.old self.new tag place) }
        ensures err { OnErr result (HasSame self.old self.new) }
    {
        self.make_room()?;
        let chosen = bucket_of(tag, self.buckets.len());
        if self.buckets[chosen].put(tag, place) {
            self.count = self.count.saturating_add(1);
            return Ok(());
        }
        self.overflow.add(tag, place)?;
        Ok(())
    }
}
