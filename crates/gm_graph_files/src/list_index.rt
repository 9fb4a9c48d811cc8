//! Files with the same requirements, so that a list that comes again is kept once.
//!
//! Many names may lead to one file: a main file can replace each version of a module by another spelling of one folder,
//! and a proxy's folder can have links. Each name is asked for, and its file read. If each kept its list, the lists could
//! take memory in proportion to the square of what the main file and the files have.
//!
//! A list is looked up by a tag of its numbers, and compared in full. What finds its tag taken by another list goes to an
//! ordered map, so lists that were made up to have one tag are found, too.

ghost use Rattle.std.specs.Prelude.{◌≡◌, ◌≢◌, ◌≤◌, ◌<◌, ℕ, IfOk, IfSome, List, None, OnOk, Some, length};
ghost use Rattle.gm_name_table.specs.Listed.{modules_of};
ghost use Rattle.gm_graph_files.specs.Places.{place_limit};
ghost use Rattle.gm_graph_files.specs.NotedLists.{NotesAll, list_tag, place_for};
ghost use Rattle.gm_graph_files.specs.Private.KeptLists.{numbers_from};
ghost use Rattle.gm_graph_files.specs.KeptLists.{own_lists};
ghost use Rattle.gm_graph_files.specs.Private.Summaries.{AreWithinList, IsSameList};

use crate::summary::{Kept, KeptList};
use gm_name::NoMemory;
use gm_name_table::{ModuleList, TagIndex};
use std::alloc::Global;
use std::collections::BTreeMap;

/// Lists with fewer modules are kept each for itself: to look one up would cost more than it takes.
const SHORT: usize = 8;

/// What the tag is multiplied by after each number, so that tags are spread evenly: 2^32 divided by the golden ratio.
const SPREAD: u32 = 0x9E37_79B1;

/// A tag of the numbers of a list.
fn tag_of(numbers: &[u32]) -> u32
    ensures { result ≡ list_tag 0 numbers.now }
{
    let mut tag: u32 = 0;
    for number in numbers {
        tag = (tag.rotate_left(5) ^ *number).wrapping_mul(SPREAD);
    }
    tag
}

/// The own list of the file at a place, if it has the modules with these numbers.
fn list_at(modules: &ModuleList, files: &[Kept], place: u32, numbers: &[u32]) -> Option<KeptList>
    requires { AreWithinList (modules_of modules.now) files.now }
    ensures same { IfSome result (IsSameList modules.now files.now numbers.now) }
    ensures none { result ≡ None → 8 ≤ length numbers.now
        → own_lists modules.now.numbers files.now place ≢ numbers.now }
{
    match files.get(place as usize)? {
        Kept::Valid(summary) if summary.list.same_as.is_none() => {
            let span = summary.list.span;
            if modules.numbers(span.start, span.end) != numbers {
                return None;
            }
            Some(KeptList {
                span,
                same_as: Some(place),
            })
        }
        _ => None,
    }
}

/// The places of the files whose own lists were kept. They are guesses, which `find` tests: after a refusal a place may
/// be that of another file, or of none, until the list comes again.
#[derive(Drop)]
pub struct ListIndex {
    /// The allocator of the lists whose tag is taken.
    alloc: Global,
    /// The place of a file under the tag of its list.
    by_tag: TagIndex,
    /// The places of the files whose list has the tag of another.
    others: BTreeMap<Vec<u32>, u32>,
}

impl ListIndex {
    /// No lists. Allocates no memory before the first one.
    pub fn new(alloc: Global) -> ListIndex
        ensures { (list : List ℕ) → place_for result list ≡ None }
    {
        ListIndex {
            alloc,
            by_tag: TagIndex::new(alloc),
            others: BTreeMap::new(alloc),
        }
    }

    /// The place that is noted for a list with this tag.
    fn noted(&self, tag: u32, list: &[u32]) -> Option<u32>
        requires { tag ≡ list_tag 0 list.now }
        ensures { result ≡ place_for self.now list.now }
    {
        match self.others.get(list) {
            Some(place) => Some(*place),
            None => self.by_tag.get(tag),
        }
    }

    /// The file whose own list has the modules with these numbers, eight or more. `noted` is noted for them.
    fn find_noted(
        &self,
        modules: &ModuleList,
        files: &[Kept],
        noted: Option<u32>,
        list: &[u32],
    ) -> Option<KeptList>
        requires within { AreWithinList (modules_of modules.now) files.now }
        requires long { 8 ≤ length list.now }
        requires noted { noted ≡ place_for self.now list.now }
        requires notes { NotesAll self.now (own_lists modules.now.numbers files.now) }
        ensures same { IfSome result (IsSameList modules.now files.now list.now) }
        ensures none { result ≡ None → (place : ℕ) → own_lists modules.now.numbers files.now place ≢ list.now }
    {
        list_at(modules, files, noted?, list)
    }

    /// Notes a place for a list with this tag, for which `noted` is noted: under the tag if nothing is, otherwise beside
    /// it. The only refusal is `NoMemory`.
    fn note(
        &mut self,
        tag: u32,
        noted: Option<u32>,
        list: &[u32],
        place: u32,
    ) -> Result<(), NoMemory>
        requires place { place < place_limit }
        requires tag { tag ≡ list_tag 0 list.now }
        requires noted { noted ≡ place_for self.old list.now }
        ensures notes { OnOk result (place_for self.new list.now ≡ Some place) }
        ensures others { (lists : ℕ → List ℕ) → ((place : ℕ) → lists place ≢ list.now)
            → NotesAll self.old lists → NotesAll self.new lists }
        ensures beside { noted ≡ None → self.new.others ≡ self.old.others }
    {
        match noted {
            None => self.by_tag.put(tag, place)?,
            Some(_) => {
                self.others
                    .insert(Vec::from_slice(self.alloc, list)?, place)?;
            }
        }
        Ok(())
    }

    /// The file that has the modules from a place of the list on as its own list, unless they are few. If there is none,
    /// the next file is noted for them. The only refusal is `NoMemory`.
    pub(crate) fn find(
        &mut self,
        modules: &ModuleList,
        files: &[Kept],
        start: usize,
    ) -> Result<Option<KeptList>, NoMemory>
        requires few { length files.now < place_limit }
        requires within { AreWithinList (modules_of modules.now) files.now }
        requires start { start ≤ length modules.now.numbers }
        requires notes { NotesAll self.old (own_lists modules.now.numbers files.now) }
        ensures same { IfOk result (λ found. IfSome found
            (IsSameList modules.now files.now (numbers_from start modules.now))) }
        ensures finds { IfOk result (λ found. found ≡ None → 8 ≤ length (numbers_from start modules.now)
            → (place : ℕ) → own_lists modules.now.numbers files.now place ≢ numbers_from start modules.now) }
        ensures next { IfOk result (λ found. found ≡ None → 8 ≤ length (numbers_from start modules.now)
            → place_for self.new (numbers_from start modules.now) ≡ Some (length files.now)) }
        ensures notes { NotesAll self.new (own_lists modules.now.numbers files.now) }
    {
        let numbers = modules.numbers(start, modules.len());
        if numbers.len() < SHORT {
            return Ok(None);
        }
        let tag = tag_of(numbers);
        let noted = self.noted(tag, numbers);
        if let Some(same) = self.find_noted(modules, files, noted, numbers) {
            return Ok(Some(same));
        }
        self.note(tag, noted, numbers, files.len() as u32)?;
        Ok(None)
    }
}
