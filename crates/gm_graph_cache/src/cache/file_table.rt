//! What is kept of the files that were read.
//!
//! A module's file is found by the module's number once its place is noted for that, without a search. Until then a file
//! that a replacement names is found by its name: a folder is no module, and two modules may have one replacement.

ghost use Rattle.std.specs.Prelude.{◌≡◌, ◌<◌, ◌≤◌, ℕ, Some, length};
ghost use Rattle.gm_graph_cache.specs.FileNames.{place_among, places_named};
ghost use Rattle.gm_graph_files.specs.Places.{place_limit};
ghost use Rattle.gm_store_parts.specs.Asked.{Name};

use crate::cache::naming::right_name;
use gm_file::MainModule;
use gm_graph_files::{Kept, ListSpan};
use gm_name::NoMemory;
use gm_name_table::OptionalPlace;
use gm_store::FileName;
use gm_store_parts::History;
use std::alloc::Global;
use std::collections::BTreeMap;

/// What is kept of the files that were read.
#[derive(Drop)]
pub(crate) struct FileTable {
    /// What is kept of each file, in the order in which they were read.
    files: Vec<Kept>,
    /// Their names, with their places in `files`. Only proofs read them: a file is found by the number of its module, or
    /// as that of a replacement.
    names: History<FileName, u32>,
    /// For each module, by its number, the place of its file in `files`, if it is noted. The last ones may be left out.
    places: Vec<OptionalPlace>,
    /// The names of the files of all replacements, with their places in `files`, if any.
    replacing: BTreeMap<FileName, OptionalPlace>,
    ghost few: { length files.items ≤ place_limit },
    ghost within: { (name : Name) (place : ℕ) → place_among (places_named names) name ≡ Some place
        → place < length files.items },
}

impl FileTable {
    ghost use Rattle.std.specs.Prelude.{if◌then◌else◌, [], IfOk, IfSome, List, None, OnErr, OnOk, slice_get, unwrap_or};
    ghost use Rattle.std.specs.Option.{option_and_then, option_map, option_or};
    ghost use Rattle.gm_store_parts.specs.Asked.{name_of, same_name};
    ghost use Rattle.gm_graph_cache.specs.FileTable.{kept_at};
    ghost use Rattle.gm_graph_cache.specs.Private.FileTable.{Adds, KeepsNoted, KeepsOthers, NotesFiles, NotesFor, ReachesAtMost, place_noted, replacing_place};
    ghost use Rattle.gm_name.specs.ModuleVersion.{ModuleVersion};
    ghost use Rattle.gm_graph_files.specs.KeptFiles.{span_found};
    ghost use Rattle.gm_graph_files.specs.Private.Summaries.{list_place};

    /// No files, for a main file with these replacements. The only refusal is `NoMemory`.
    pub(crate) fn new(alloc: Global, main: &MainModule) -> Result<FileTable, NoMemory>
        ensures none { IfOk result (λ files. (name : Name) → kept_at files name ≡ None) }
        ensures files { IfOk result (λ files. files.files.items ≡ []) }
        ensures places { IfOk result (λ files. length files.places.items ≡ 0) }
        ensures notes { IfOk result (λ files. (modules : List ModuleVersion)
            → NotesFiles main.now modules files) }
    {
        let mut replacing = BTreeMap::new(alloc);
        for replace in main.replaces() {
            replacing.insert(right_name(alloc, &replace.right)?, OptionalPlace::none())?;
        }
        let names = History::new();
        let places = Vec::new(alloc);
        Ok(FileTable {
            files: Vec::new(alloc),
            names,
            places,
            replacing,
        })
    }

    /// The place that is noted for the module with a number, if any.
    pub(crate) fn noted_place(&self, number: u32) -> Option<u32>
        ensures { result ≡ place_noted self.now number }
    {
        match self.places.get(number as usize) {
            None => None,
            Some(place) => place.get(),
        }
    }

    /// The place of the file of a replacement, if the name is that of one and something is kept of it.
    pub(crate) fn replacing_place(&self, name: &FileName) -> Option<u32>
        ensures { result ≡ unwrap_or (replacing_place self.now (name_of name.now)) None }
    {
        match self.replacing.get(name) {
            None => None,
            Some(place) => place.get(),
        }
    }

    /// The place of the file of a name, which is that of the module with this number: the one noted for the module, or
    /// that of a replacement's file. There is none if nothing is kept of the file.
    pub(crate) fn place_of(&self, name: &FileName, number: u32) -> Option<u32>
        ensures { result ≡ option_or (place_noted self.now number)
            (unwrap_or (replacing_place self.now (name_of name.now)) None) }
    {
        match self.noted_place(number) {
            None => self.replacing_place(name),
            Some(place) => Some(place),
        }
    }

    /// What is kept of the file at a place.
    pub(crate) fn at(&self, place: u32) -> &Kept
        requires { place < length self.now.files.items }
        ensures { slice_get self.now.files.items place ≡ Some result.now }
    {
        &self.files[place as usize]
    }

    /// Where the requirements of the file at a place are, without the excluded ones: nowhere if there is no place or
    /// the file has a fault.
    pub(crate) fn span_of(&self, place: Option<u32>) -> ListSpan
        requires { IfSome place (λ place. place < length self.now.files.items) }
        ensures { result ≡ span_found (option_and_then (slice_get self.now.files.items) place) }
    {
        match place {
            None => ListSpan::nowhere(),
            Some(place) => self.at(place).span(),
        }
    }

    /// The place of the file that has the list of the file at a place: this, or that of an earlier file.
    pub(crate) fn list_place(&self, place: u32) -> u32
        ensures { result ≡ list_place self.now.files.items place }
    {
        match self.files.get(place as usize) {
            Some(kept) => kept.same_list().unwrap_or(place),
            None => place,
        }
    }

    /// What is kept of each file, in the order in which they were read.
    pub(crate) fn files(&self) -> &[Kept]
        ensures { result.now ≡ self.now.files.items }
    {
        &self.files
    }

    /// What is kept of each file, in the order in which they were read. The rest is dropped.
    pub(crate) fn into_files(self) -> Vec<Kept>
        ensures { result ≡ self.files }
    {
        self.files
    }

    /// Lengthens the list of places, so that it has one for this number. The only refusal is `NoMemory`.
    fn reach(&mut self, number: u32) -> Result<(), NoMemory>
        ensures reaches { OnOk result (number < length self.new.places.items) }
        ensures noted { KeepsNoted self.old self.new }
        ensures others { KeepsOthers self.old self.new }
        ensures within { ReachesAtMost number self.old self.new }
    {
        let number = number as usize;
        if number < self.places.len() {
            return Ok(());
        }
        self.places.resize(number + 1, OptionalPlace::none())?;
        Ok(())
    }

    /// Notes a place for a number that the list of places has.
    fn set(&mut self, number: u32, place: u32)
        requires number { number < length self.old.places.items }
        requires place { place < place_limit }
        ensures notes { NotesFor self.old self.new number place }
        ensures others { KeepsOthers self.old self.new }
        ensures count { length self.new.places.items ≡ length self.old.places.items }
    {
        self.places[number as usize] = OptionalPlace::some(place);
    }

    /// Notes the place of the file of the module with a number. The only refusal is `NoMemory`, after which no place was
    /// noted.
    pub(crate) fn note(&mut self, number: u32, place: u32) -> Result<(), NoMemory>
        requires { place < place_limit }
        ensures notes { OnOk result (NotesFor self.old self.new number place) }
        ensures err { OnErr result (KeepsNoted self.old self.new) }
        ensures others { KeepsOthers self.old self.new }
        ensures within { ReachesAtMost number self.old self.new }
    {
        self.reach(number)?;
        self.set(number, place);
        Ok(())
    }

    /// Notes the place of the file of a replacement, if the name is that of one.
    fn put_replacing(&mut self, name: &FileName, place: u32)
        requires { place < place_limit }
        ensures puts { (other : Name) → replacing_place self.new other ≡ (if same_name other (name_of name.now)
            then option_map (λ _. Some place) (replacing_place self.old other) else replacing_place self.old other) }
        ensures files { self.new.files ≡ self.old.files }
        ensures names { self.new.names.items ≡ self.old.names.items }
        ensures places { self.new.places ≡ self.old.places }
    {
        if let Some(noted) = self.replacing.get_mut(name) {
            *noted = OptionalPlace::some(place);
        }
    }

    /// Keeps what was read of the file of a name, which is that of the module with this number, and returns its place.
    ///
    /// The only refusal is `NoMemory`, after which nothing more is kept. What is kept of other files stays in any case.
    pub(crate) fn add(&mut self, name: &FileName, number: u32, kept: Kept) -> Result<u32, NoMemory>
        requires few { length self.old.files.items < place_limit }
        ensures adds { IfOk result (Adds self.old self.new (name_of name.now) number kept) }
        ensures others { OnErr result (KeepsOthers self.old self.new) }
        ensures err { OnErr result (KeepsNoted self.old self.new) }
        ensures within { ReachesAtMost number self.old self.new }
    {
        self.reach(number)?;
        let place = self.files.len() as u32;
        self.files.push(kept)?;
        self.set(number, place);
        self.put_replacing(name, place);
        self.names = self.names.with(name, &place);
        Ok(place)
    }
}
