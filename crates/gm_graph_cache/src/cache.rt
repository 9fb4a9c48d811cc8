//! The cache that asks a store for modules' files, and keeps what they say, or their faults. The modules in the folder
//! have its parts.
//!
//! A vertex of the module graph is a module path at a version. Which file a vertex has depends on the main module's
//! file: a `replace` may put a folder or another module in its place. That file is asked of a store, checked
//! against a go.sum if there is one, and read as a dependency's file. The result is either a fault of one of the
//! classes of `Class`, or the file's requirements less those that the main file excludes.
//!
//! For example, with `replace example.com/a v1.2.0 => ../a` in the main file, the vertex `example.com/a v1.2.0` is
//! read from the folder `../a`, and no go.sum applies to it. Without the `replace` its file is the one that a proxy
//! has for that version; if the proxy has none, the vertex's fault is `Missing`.
//!
//! The cache exists so that each file is asked for and parsed once, however many vertices and turns need it. The test of
//! the declared path depends on the vertex, not on the file alone, and is therefore repeated for each vertex.

pub(crate) mod by_name;
pub(crate) mod file_table;
pub(crate) mod lent;
pub(crate) mod load_fault;
pub(crate) mod lookup;
pub(crate) mod naming;
pub(crate) mod parts;
pub(crate) mod paths;
pub(crate) mod visit;

ghost use Rattle.std.specs.Prelude.{◌≡◌, ◌<◌, ◌++◌, ◌∷◌, [], List, IfOk, IfSome, OnOk, IsSome, MatchResult, None, Err, Ok, length, slice_get};
ghost use Rattle.std.proofs.Props.{props};
ghost use Rattle.std.specs.Option.{option_and_then, option_copied};
ghost use Rattle.gm_name_table.specs.Listed.{modules_of};
ghost use Rattle.gm_store_parts.specs.declared.files.FileName.{FileName};
ghost use Rattle.gm_store_parts.specs.States.{AddsAnswer};
ghost use Rattle.gm_store_parts.specs.Requests.{refused_for};
ghost use Rattle.gm_store_parts.specs.Asked.{Name, Reply, answer_in, name_of};
ghost use Rattle.gm_file.specs.Main.{without_excluded};
ghost use Rattle.gm_graph_cache.specs.Asking.{AsksOne, IsAskableFile, IsLoadFaultOf};
ghost use Rattle.gm_graph_cache.specs.Held.{IsKeptReading};
ghost use Rattle.gm_graph_files.specs.Reading.{file_of};
ghost use Rattle.gm_graph_files.specs.Places.{place_limit};
ghost use Rattle.gm_graph_cache.specs.Private.Held.{IsConsistent};
ghost use Rattle.gm_graph_files.specs.KeptLists.{AreKeptOnce, own_lists};
ghost use Rattle.gm_graph_files.specs.NotedLists.{NotesAll};
ghost use Rattle.gm_graph_cache.specs.Lent.{lent_modules};
ghost use Rattle.gm_graph_files.specs.Summaries.{at_span, summary_reading};
ghost use Rattle.gm_graph_files.specs.KeptFiles.{AreListsInOrder, IsKeptIn, span_found};
ghost use Rattle.gm_graph_files.specs.Private.Summaries.{kept_is_fact, order_is_fact};

use crate::cache::file_table::FileTable;
use crate::cache::lent::Lent;
use crate::cache::load_fault::LoadFault;
use crate::cache::lookup::Lookup;
use crate::cache::naming::{file_name, is_askable};
use crate::cache::parts::CacheParts;
use crate::cache::paths::is_right_path;
use crate::cache::visit::{Verdict, Visit};
use gm_file::MainModule;
use gm_graph_files::{Class, Depth, Kept, ListIndex, ListSpan, kept_of, read_answer};
use gm_name::{ModVer, NoMemory};
use gm_name_table::{KnownNames, ModuleList};
use gm_store::{Answer, AskFault, Asks, FileName};
use gm_store_parts::History;
use gm_store_sums::SumTable;
use std::alloc::Global;

/// What was read of the files that a store was asked for, and the turns whose requirements were requested. Only the
/// cache reads a store's answers, and it reads each of them once, at the time of asking. The test of the declared
/// path is made for each vertex.
#[derive(Drop)]
pub struct Cache<'a> {
    /// The allocator of all that the cache holds.
    alloc: Global,
    /// The main module's file.
    main: &'a MainModule,
    /// The go.sum, if there is one.
    sums: Option<&'a SumTable<'a>>,
    /// The paths and versions that the files share.
    names: KnownNames,
    /// The requirements of the main file and of all that were read, one file after another. All modules have numbers.
    modules: ModuleList,
    /// How many modules at the front of the list are requirements of the main file, without the excluded ones.
    first: usize,
    /// What was read of each file, or what is wrong with it.
    files: FileTable,
    /// The lists of these files, so that equal ones are kept once.
    lists: ListIndex,
    /// The vertices whose requirements were requested, each with the depth, in order. Only proofs read these turns: the
    /// list of turns in memory is the worklist.
    turns: History<ModVer, Depth>,
    /// The name of the file of the last request that was refused.
    failed: Option<FileName>,
    ghost consistent: { IsConsistent main.now (option_copied sums) first modules files } by { Prim.hlevel (props, order_is_fact, kept_is_fact) },
    ghost notes: { NotesAll lists (own_lists modules.numbers files.files.items) } by { Prim.hlevel props },
}

/// Appends the modules that the main file requires, without the excluded ones, and learns the paths that it requires.
fn add_first(
    main: &MainModule,
    names: &mut KnownNames,
    modules: &mut ModuleList,
) -> Result<(), NoMemory>
    ensures { OnOk result (modules_of modules.new
        ≡ modules_of modules.old ++ without_excluded main.now main.now.requirements) }
{
    for y in main.requirements() {
        names.learn(y.path())?;
        if !main.excluded(y) {
            modules.push(y)?;
        }
    }
    Ok(())
}

impl<'a> Cache<'a> {
    ghost use Rattle.std.specs.Borrow.{sem};
    ghost use Rattle.std.specs.List.{IsDistinct};
    ghost use Rattle.gm_name.specs.ModuleVersion.{pair_eq};
    ghost use Rattle.gm_graph_cache.specs.Cached.{HasTurns, HoldsSame, Knows, LentSame, file_count, main_in, run_in, sums_in, table_in, turns_in, turns_held, ArePartsOf, Follows, HasFailedOn, HoldsAfterBorrow, module_numbered};
    ghost use Rattle.gm_graph_cache.specs.Private.Cached.{IsLookup, IsPlaceFor, MakesKnown};
    ghost use Rattle.gm_graph_cache.specs.Lent.{lent_table};
    ghost use Rattle.gm_graph_cache.specs.declared.cache.Cache.{Cache};
    ghost use Rattle.gm_graph_cache.specs.Visits.{HasVisited, IsVisit};
    ghost use Rattle.gm_graph_cache.specs.Private.CacheVisits.{IsVerdict};

    /// A cache for a main file, without files. If there is a go.sum, the files that come from proxies are checked
    /// against it. The only refusal is `NoMemory`.
    ///
    /// The paths that the main file requires are known from the start, since many files name them.
    pub fn new(
        alloc: Global,
        main: &'a MainModule,
        sums: Option<&'a SumTable<'a>>,
    ) -> Result<Cache<'a>, NoMemory>
        ensures main { IfOk result (λ cache. main_in cache ≡ main.entry.now) }
        ensures sums { IfOk result (λ cache. sums_in cache ≡ option_copied sums.entry) }
        ensures knows { IfOk result (λ cache. Knows cache []) }
        ensures turns { IfOk result (λ cache. turns_in cache ≡ []) }
        ensures files { IfOk result (λ cache. file_count cache ≡ 0) }
    {
        let files = FileTable::new(alloc, main)?;
        let mut names = KnownNames::new(alloc, usize::MAX);
        let mut modules = ModuleList::new(alloc);
        add_first(main, &mut names, &mut modules)?;
        let first = modules.len();
        Ok(Cache {
            alloc,
            main,
            sums,
            names,
            modules,
            first,
            files,
            lists: ListIndex::new(alloc),
            turns: History::new(),
            failed: None,
        })
    }

    /// Asks for the file of a name that was not asked for, and reads it. The cache holds the same in any case; more modules
    /// may have numbers.
    fn read_file<F: Asks>(&mut self, files: &mut F, name: &FileName) -> Result<Kept, AskFault>
        requires fresh { answer_in (F.state files.old).asked (name_of name.now) ≡ None }
        requires few { file_count self.old < place_limit }
        ensures reading { IfOk result (λ kept. (reply : Reply)
            × AddsAnswer (F.state files.old) (F.state files.new) (name_of name.now) reply
            × IsKeptReading (main_in self.old) (sums_in self.old) (name_of name.now) reply
            (summary_reading (modules_of self.new.modules) kept)) }
        ensures listed { IfOk result (IsKeptIn (modules_of self.new.modules) self.old.files.files.items) }
        ensures order { IfOk result (λ kept. AreListsInOrder self.new.first (self.new.files.files.items ++ kept ∷ [])
            (length self.new.modules.numbers)) }
        ensures next { IfOk result (λ kept. NotesAll self.new.lists (own_lists self.new.modules.numbers
            (self.old.files.files.items ++ kept ∷ []))) }
        ensures holds { HoldsSame self.old self.new }
        ensures lent { LentSame self.old self.new }
        ensures files { self.new.files ≡ self.old.files }
        ensures asks { AsksOne (λ n. n ≡ name_of name.now) (F.may_answer files.old) (F.may_answer files.new)
            (F.state files.old) (F.state files.new) (refused_for (name_of name.now) result) }
    {
        files.ask(name)?;
        let start = self.modules.len();
        let read = read_answer(
            self.alloc,
            &mut self.names,
            &mut self.modules,
            self.sums,
            name,
            files.last(),
        )?;
        let kept = kept_of(
            self.alloc,
            &mut self.lists,
            &mut self.modules,
            self.main,
            self.files.files(),
            read,
            start,
        )?;
        Ok(kept)
    }

    /// The requirements of the main file, without the excluded ones.
    pub fn first_requirements(&self) -> Lent<'_>
        ensures modules { lent_modules result
            ≡ without_excluded (main_in self.now) (main_in self.now).requirements }
        ensures table { lent_table result ≡ table_in self.now }
    {
        let span = ListSpan {
            start: 0,
            end: self.first,
        };
        Lent::at(&self.modules, span)
    }

    /// What is known of the file of the vertex with a number, without asking. The only refusal is `NoMemory`.
    fn look_up(&self, number: u32) -> Result<Lookup, NoMemory>
        requires { number < length (table_in self.now) }
        ensures { IfOk result (IsLookup self.now (module_numbered self.now number)) }
    {
        if let Some(place) = self.files.noted_place(number) {
            return Ok(Lookup::Noted(place));
        }
        let name = file_name(self.alloc, self.main, self.modules.module(number))?;
        if !is_askable(&name) {
            return Ok(Lookup::NotFetchable);
        }
        match self.files.replacing_place(&name) {
            Some(place) => Ok(Lookup::Replacing(place)),
            None => Ok(Lookup::New(name)),
        }
    }

    /// Asks for the file with this name, which is that of the vertex with a number, and of which nothing is kept. Keeps
    /// what it says, and returns its place. Refusals are those of `known_at`.
    fn read_new<F: Asks>(
        &mut self,
        files: &mut F,
        number: u32,
        name: FileName,
    ) -> Result<Option<u32>, AskFault>
        requires knows { Knows self.old (F.state files.old).asked }
        requires vertex { number < length (table_in self.old) }
        requires few { file_count self.old < place_limit }
        requires new { IsLookup self.old (module_numbered self.old number) (Lookup.New name) }
        ensures { MakesKnown self.old self.new number (F.may_answer files.old) (F.may_answer files.new)
            (F.state files.old) (F.state files.new) result }
    {
        match self.read_file(files, &name) {
            Ok(kept) => Ok(Some(self.files.add(&name, number, kept)?)),
            Err(fault) => {
                self.failed = Some(name);
                Err(fault)
            }
        }
    }

    /// Makes the file of the vertex with a number known, and returns its place, or `None` if it comes from a proxy and
    /// its path isn't fetchable. The store is asked for the file unless it is known already.
    ///
    /// `NoMemory` is returned if memory runs out; the store may then hold an answer that the cache doesn't.
    /// `Device` is returned exactly if the store's device fails in this request; the cache then has the file's name.
    /// After any refusal the cache holds the same; more modules may have numbers.
    fn known_at<F: Asks>(&mut self, files: &mut F, number: u32) -> Result<Option<u32>, AskFault>
        requires knows { Knows self.old (F.state files.old).asked }
        requires vertex { number < length (table_in self.old) }
        requires few { file_count self.old < place_limit }
        ensures { MakesKnown self.old self.new number (F.may_answer files.old) (F.may_answer files.new)
            (F.state files.old) (F.state files.new) result }
    {
        let found = self.look_up(number)?;
        match found {
            Lookup::Noted(place) => Ok(Some(place)),
            Lookup::NotFetchable => Ok(None),
            Lookup::Replacing(place) => {
                self.files.note(number, place)?;
                Ok(Some(place))
            }
            Lookup::New(name) => self.read_new(files, number, name),
        }
    }

    /// What the cache says of the vertex with a number, whose file is kept at this place, at this depth. There is no place
    /// if the file comes from a proxy and its path isn't fetchable.
    fn verdict(&self, number: u32, depth: Depth, place: Option<u32>) -> Verdict
        requires vertex { number < length (table_in self.now) }
        requires place { IsPlaceFor self.now (module_numbered self.now number) place }
        ensures { (pairs : List (Name × Reply)) → Knows self.now pairs
            → IsVerdict self.now (run_in self.now pairs) (module_numbered self.now number) depth result }
    {
        let Some(file) = place else {
            return Verdict::Fault(Class::NotFetchable);
        };
        match self.files.at(file) {
            Kept::Faulty(class) => Verdict::Fault(*class),
            Kept::Valid(summary) => {
                if is_right_path(self.main, self.modules.module(number), &summary.file) {
                    Verdict::Sound {
                        file: self.files.list_place(file),
                        leads: summary.leads_on(depth),
                    }
                } else {
                    Verdict::Fault(Class::WrongPath)
                }
            }
        }
    }

    /// Lends what the file at a place requires, without the excluded ones, and takes this list of turns. For a vertex with
    /// a fault there is no place, and nothing is required.
    ///
    /// All that is lent of a vertex is lent here, and no other call changes the list of turns. The call takes the number of
    /// a place, since a vertex itself may have none.
    pub(crate) fn lend_at(&mut self, place: Option<u32>, turns: History<ModVer, Depth>) -> Lent<'_>
        requires place { IfSome place (λ place. place < file_count self.old) }
        ensures modules { lent_modules result ≡ at_span (modules_of self.old.modules)
            (span_found (option_and_then (slice_get self.old.files.files.items) place)) }
        ensures table { lent_table result ≡ table_in self.old }
        ensures* after { sem 𝓛 (HoldsAfterBorrow self.entry (λ end. HasTurns self.entry.now end (turns_held turns))) }
    {
        let span = self.files.span_of(place);
        self.turns = turns;
        Lent::at(&self.modules, span)
    }

    /// Visits the vertex with a number: makes its file known, appends the vertex and the depth to the list of turns, and
    /// returns the vertex's fault or what it requires. The store is asked for the file unless it is known already, or
    /// comes from a proxy and its path isn't fetchable.
    ///
    /// `NoMemory` is returned if memory runs out; the store may then hold an answer that the cache doesn't.
    /// `Device` is returned exactly if the store's device fails in this request; `load_fault` then gives the file's
    /// name. After any refusal the list of turns is the same.
    pub fn visit<F: Asks>(
        &mut self,
        files: &mut F,
        number: u32,
        depth: Depth,
    ) -> Result<Visit<'_>, AskFault>
        requires knows { Knows self.old (F.state files.old).asked }
        requires vertex { number < length (table_in self.old) }
        requires few { file_count self.old < place_limit }
        ensures lends { IfOk result (λ visit. (mid : Cache)
            × Follows self.old (F.state files.old).asked mid (F.state files.new).asked × IsDistinct pair_eq (table_in mid)
            × IsVisit mid (run_in mid (F.state files.new).asked) (module_numbered mid number) depth visit) }
        ensures asks { AsksOne (IsAskableFile (main_in self.old) (module_numbered self.old number))
            (F.may_answer files.old) (F.may_answer files.new) (F.state files.old) (F.state files.new)
            (refused_for (file_of (main_in self.old) (module_numbered self.old number)) result) }
        ensures* after { sem 𝓛 (HoldsAfterBorrow self.entry (λ end. MatchResult result
            (λ visit. HasVisited self.entry.now (F.state files.old).asked end (F.state files.new).asked number depth
            visit)
            (λ fault. (turns_in end ≡ turns_in self.entry.now)
            × (fault ≡ AskFault.Device
            → HasFailedOn end (file_of (main_in self.entry.now) (module_numbered self.entry.now number)))))) }
    {
        let place = self.known_at(files, number)?;
        // This is read first, since a reference that one branch alone borrows is not covered by the borrow checker.
        let verdict = self.verdict(number, depth, place);
        let turns = self.turns.with(self.modules.module(number), &depth);
        let list = self.lend_at(verdict.file(), turns);
        Ok(Visit::of(verdict, list))
    }

    /// Why loading stops after this fault of a request. The name of the file is given once.
    pub fn load_fault(&mut self, fault: AskFault) -> LoadFault
        requires { fault ≡ AskFault.Device → IsSome self.old.failed }
        ensures fault { IsLoadFaultOf fault self.old.failed result }
        ensures holds { HoldsSame self.old self.new }
        ensures lent { LentSame self.old self.new }
        ensures count { file_count self.new ≡ file_count self.old }
    {
        let failed = self.failed.take();
        LoadFault::of_request(fault, failed)
    }

    /// The modules that have numbers, and the lists of requirements. The rest of the cache is dropped.
    pub fn into_parts(self) -> CacheParts
        ensures parts { ArePartsOf self.entry result }
        ensures once { AreKeptOnce (own_lists result.numbers.items result.files.items) }
    {
        let Cache {
            modules,
            first,
            files,
            ..
        } = self;
        let (modules, numbers) = modules.into_parts();
        CacheParts {
            modules,
            numbers,
            first,
            files: files.into_files(),
        }
    }
}
