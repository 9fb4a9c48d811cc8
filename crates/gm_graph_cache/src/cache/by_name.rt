//! The calls of the cache for those who name modules and files.
//!
//! Loading gives each module a number once, and asks by that. These calls look up the number. Only `known` gives one to
//! a module that has none.

ghost use Rattle.std.specs.Prelude.{◌≡◌, ◌≤◌, ◌+◌, ◌++◌, ◌<◌, IfOk, List, OnErr, OnOk, Err, length};
ghost use Rattle.std.specs.Option.{option_map};
ghost use Rattle.gm_store_parts.specs.Asked.{Name, Reply, name_of};
ghost use Rattle.gm_store_parts.specs.States.{HasServed};
ghost use Rattle.gm_graph_cache.specs.Asking.{AsksFor, StillLacks};
ghost use Rattle.gm_graph_cache.specs.Lent.{lent_modules};
ghost use Rattle.gm_graph_files.specs.Places.{place_limit};
ghost use Rattle.gm_graph_files.specs.Reading.{file_of};
ghost use Rattle.gm_graph_cache.specs.Refusals.{refused_in};
ghost use Rattle.gm_graph_files.specs.Turns.{turn};

use crate::cache::Cache;
use crate::cache::lent::Lent;
use crate::cache::load_fault::LoadFault;
use crate::cache::naming::file_name;
use crate::cache::visit::Verdict;
use gm_graph_files::{Class, Depth};
use gm_name::{ModVer, NoMemory};
use gm_store::{Asks, FileName};

/// What is known of a vertex.
#[derive(Drop)]
pub enum Known {
    /// The vertex has this fault.
    Fault(Class),
    /// The vertex has no fault, and its file has this name.
    Sound(FileName),
}

impl<'a> Cache<'a> {
    ghost use Rattle.std.specs.Borrow.{sem};
    ghost use Rattle.gm_graph_cache.specs.Cached.{AreRequirements, HasSoundFile, HoldsSame, IsKnownAs, Knows, KnowsLender, LendsNamed, LentSame, file_count, file_known, main_in, run_in, table_in, module_numbered};
    ghost use Rattle.gm_graph_cache.specs.Private.Cached.{IsLender, IsPlaceFor};
    ghost use Rattle.gm_graph_cache.specs.FileTable.{place_of};
    ghost use Rattle.gm_graph_cache.specs.Sayings.{KeepsSayings};

    /// Makes the file of a vertex known, and says whether the vertex has a fault, and otherwise the name of its file. The
    /// store is asked for that file unless it is known already, or comes from a proxy and its path isn't fetchable.
    /// At most 2^32 - 2 files may be known before; each call makes at most one more known.
    ///
    /// `NoMemory` is returned if memory runs out; the store may then hold an answer that the cache doesn't.
    /// `Device` is returned exactly if the store's device fails in this request. `TooMany` is never returned. After
    /// any refusal the cache holds the same; more modules may have numbers.
    pub fn known<F: Asks>(&mut self, files: &mut F, vertex: &ModVer) -> Result<Known, LoadFault>
        requires knows { Knows self.old (F.state files.old).asked }
        requires few { file_count self.old < place_limit }
        ensures count { file_count self.new ≤ file_count self.old + 1 }
        ensures knows { OnOk result (Knows self.new (F.state files.new).asked) }
        ensures known { IfOk result (IsKnownAs (run_in self.new (F.state files.new).asked) vertex.now) }
        ensures lender { IfOk result (λ known. KnowsLender self.new vertex.now (file_known known)) }
        ensures lent { LentSame self.old self.new }
        ensures stays { KeepsSayings (run_in self.old (F.state files.old).asked)
            (run_in self.new (F.state files.new).asked) }
        ensures err { OnErr result (HoldsSame self.old self.new) }
        ensures asks { AsksFor (main_in self.old) (F.state files.old) (F.state files.new) vertex.now }
        ensures not_too_many { result ≡ Err LoadFault.TooMany → ⊥ }
        ensures device { (name : FileName) → result ≡ Err (LoadFault.Device name)
            → StillLacks (main_in self.old) (F.state files.old) (F.state files.new) vertex.now (name_of name) }
        ensures refused { (F.state files.new).refused ≡ (F.state files.old).refused ++ refused_in result }
        ensures served { HasServed (F.may_answer files.old) (F.may_answer files.new)
            (F.state files.old) (F.state files.new) }
    {
        let number = self.modules.number(vertex)?;
        let name = file_name(self.alloc, self.main, vertex)?;
        match self.known_at(files, number) {
            Ok(place) => Ok(self.known_by(number, place, name)),
            Err(fault) => Err(LoadFault::of_request(fault, Some(name))),
        }
    }

    /// What is known of the vertex with a number, whose file has this name, and is kept at this place. There is no place
    /// if the file comes from a proxy and its path isn't fetchable.
    fn known_by(&self, number: u32, place: Option<u32>, name: FileName) -> Known
        requires vertex { number < length (table_in self.now) }
        requires place { IsPlaceFor self.now (module_numbered self.now number) place }
        requires name { name_of name ≡ file_of (main_in self.now) (module_numbered self.now number) }
        ensures { (pairs : List (Name × Reply)) → Knows self.now pairs
            → IsKnownAs (run_in self.now pairs) (module_numbered self.now number) result }
    {
        match self.verdict(number, Depth::Deep, place) {
            Verdict::Fault(class) => Known::Fault(class),
            Verdict::Sound { .. } => Known::Sound(name),
        }
    }

    /// The place of the file with this name, which is that of a vertex without a fault.
    fn place_named(&self, vertex: &ModVer, name: &FileName) -> Option<u32>
        ensures { (pairs : List (Name × Reply)) → Knows self.now pairs
            → HasSoundFile (run_in self.now pairs) vertex.now (name_of name.now)
            → result ≡ place_of self.now.files (name_of name.now) }
    {
        match self.modules.find(vertex) {
            Some(number) => self.files.place_of(name, number),
            // A module's own file is kept by its number, so this is the file of a replacement.
            None => self.files.replacing_place(name),
        }
    }

    /// The place of the file that has the list of the file with this name, which is that of a vertex, or `None` if the
    /// vertex has a fault.
    fn lender(&self, vertex: &ModVer, name: Option<&FileName>) -> Option<u32>
        requires { KnowsLender self.now vertex.now (option_map (λ n. name_of n.now) name) }
        ensures { (pairs : List (Name × Reply)) → Knows self.now pairs
            → IsLender self.now (run_in self.now pairs) vertex.now result }
    {
        let place = self.place_named(vertex, name?)?;
        Some(self.files.list_place(place))
    }

    /// Returns the requirements of a vertex, without the excluded ones, and appends the vertex and the depth to the
    /// list of turns. Nothing else changes. For a vertex with a fault `name` is `None`, and there are no requirements;
    /// for any other vertex it is the name of its file, as `known` gives it. The only refusal is `NoMemory`, after which
    /// the cache has the same turns; none comes, since the list of turns takes no memory.
    pub fn lend(
        &mut self,
        vertex: &ModVer,
        depth: Depth,
        name: Option<&FileName>,
    ) -> Result<Lent<'_>, NoMemory>
        requires { KnowsLender self.old vertex.now (option_map (λ n. name_of n.now) name) }
        ensures lent { IfOk result (λ lent. (pairs : List (Name × Reply)) → Knows self.old pairs
            → AreRequirements (run_in self.old pairs) vertex.now (lent_modules lent)) }
        ensures* after { sem 𝓛 (LendsNamed self.entry (turn vertex.now depth) result) }
    {
        let place = self.lender(vertex, name);
        let turns = self.turns.with(vertex, &depth);
        Ok(self.lend_at(place, turns))
    }
}
