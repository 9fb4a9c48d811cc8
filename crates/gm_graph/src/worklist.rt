//! The worklist, by the numbers of the modules.
//!
//! A vertex may be found at the top and later at full depth, and must then be visited again. The worklist therefore
//! holds turns, each of a vertex and a depth, and each vertex has a mark for each depth, so that each turn comes once.

ghost use Rattle.std.specs.Prelude.{◌≡◌, ◌<◌, ◌≤◌, ◌+◌, ◌||◌, ◌++◌, ◌∷◌, [], Err, IfOk, List, OnOk, get_or, if◌then◌else◌, length};
ghost use Rattle.std.specs.List.{IsDistinct};
ghost use Rattle.gm_name.specs.ModuleVersion.{ModuleVersion, module_at, pair_eq};
ghost use Rattle.gm_graph_cache.specs.Lent.{lent_modules, lent_table};
ghost use Rattle.gm_graph.specs.Private.Marks.{no_marks};
ghost use Rattle.gm_graph.specs.Private.Turns.{AddsAll, OverflowsWith};
ghost use Rattle.gm_graph.specs.WorklistFaults.{load_fault_of};
ghost use Rattle.gm_graph.specs.declared.worklist.AddFault.TheVariants as add;

use crate::marks::Marks;
use crate::places::put_at;
use gm_graph_cache::{Depth, Lent, LoadFault};
use std::alloc::{AllocError, Global};

/// The most vertices that are opened. Loading a larger graph is refused with `TooMany`.
const MOST: usize = 65_536;

/// Why a turn was not added.
#[derive(Drop)]
pub(crate) enum AddFault {
    /// Memory ran out.
    NoMemory,
    /// `MOST` vertices have turns already.
    TooMany,
}

impl From<AllocError> for AddFault {
    ghost from_gives = { λ _ fault. fault ≡ add.NoMemory };

    /// A failed allocation is `NoMemory`.
    fn from(_error: AllocError) -> AddFault {
        AddFault::NoMemory
    }
}

impl From<AddFault> for LoadFault {
    ghost from_gives = { λ add load. load ≡ load_fault_of add };

    /// Why loading stops when a turn is not added.
    fn from(fault: AddFault) -> LoadFault {
        match fault {
            AddFault::NoMemory => LoadFault::NoMemory,
            AddFault::TooMany => LoadFault::TooMany,
        }
    }
}

/// How many vertices have a turn after a vertex with these marks gets one more.
fn opened_with(opened: usize, marks: Marks) -> usize
    requires { opened ≤ 65536 }
    ensures { result ≡ (if marks.top || marks.deep then opened else opened + 1) }
{
    if marks.has_any() {
        return opened;
    }
    opened + 1
}

/// A turn, by the number of its vertex.
#[derive(Clone, Copy)]
pub(crate) struct NumberedTurn {
    /// The number of the vertex.
    pub(crate) number: u32,
    /// How far its requirements are followed.
    pub(crate) depth: Depth,
}

/// Appends a turn.
fn push_turn(turns: &mut Vec<NumberedTurn>, one: NumberedTurn) -> Result<(), AllocError>
    ensures { OnOk result (turns.new.items ≡ turns.old.items ++ one ∷ []) }
{
    turns.push(one)?;
    Ok(())
}

/// The worklist.
#[derive(Drop)]
pub(crate) struct Worklist {
    /// For each module, by its number, the depths at which it has turns. The last ones may be left out.
    marks: Vec<Marks>,
    /// The turns, in the order in which they were found.
    pub(crate) turns: Vec<NumberedTurn>,
    /// How many vertices have a turn.
    opened: usize,
    ghost few: { opened ≤ 65536 },
}

impl Worklist {
    ghost use Rattle.gm_graph.specs.Private.Worklists.{IsWorklist, turns_of};

    /// No turns, with room for the marks of so many modules.
    pub(crate) fn new(alloc: Global, count: usize) -> Result<Worklist, AllocError>
        ensures worklist { IfOk result (λ worklist. (modules : List ModuleVersion) → IsDistinct pair_eq modules
            → IsWorklist modules worklist) }
        ensures turns { IfOk result (λ worklist. worklist.turns.items ≡ []) }
    {
        Ok(Worklist {
            marks: Vec::with_capacity(alloc, count)?,
            turns: Vec::new(alloc),
            opened: 0,
        })
    }

    /// The turns. The rest is dropped.
    pub(crate) fn into_turns(self) -> Vec<NumberedTurn>
        ensures { result ≡ self.turns }
    {
        self.turns
    }

    /// The marks of the vertex with a number.
    fn marks_of(&self, number: u32) -> Marks
        ensures { result ≡ get_or self.now.marks.items number no_marks }
    {
        match self.marks.get(number as usize) {
            None => Marks::none(),
            Some(marks) => *marks,
        }
    }

    /// Adds a turn, unless the worklist has it. `TooMany` is returned if the vertex has no turn and `MOST` others have
    /// one.
    fn add(&mut self, number: u32, depth: Depth) -> Result<(), AddFault>
        ensures worklist { (modules : List ModuleVersion) → IsWorklist modules self.old → number < length modules
            → OnOk result (IsWorklist modules self.new) }
        ensures adds { (modules : List ModuleVersion) → IsWorklist modules self.old → number < length modules
            → OnOk result (AddsAll (turns_of modules self.old) (turns_of modules self.new)
            (module_at modules number ∷ []) depth) }
        ensures too_many { result ≡ Err AddFault.TooMany → (modules : List ModuleVersion) → IsWorklist modules self.old
            → number < length modules → OverflowsWith (turns_of modules self.old) (module_at modules number ∷ []) }
    {
        let marks = self.marks_of(number);
        if marks.has(depth) {
            return Ok(());
        }
        let opened = opened_with(self.opened, marks);
        if opened > MOST {
            return Err(AddFault::TooMany);
        }
        put_at(&mut self.marks, number, Marks::none(), marks.with(depth))?;
        self.opened = opened;
        push_turn(&mut self.turns, NumberedTurn { number, depth })?;
        Ok(())
    }

    /// Adds a turn for each of these modules.
    pub(crate) fn add_all(&mut self, list: Lent<'_>, depth: Depth) -> Result<(), AddFault>
        requires { IsWorklist (lent_table list) self.old }
        ensures worklist { OnOk result (IsWorklist (lent_table list.entry) self.new) }
        ensures adds { OnOk result (AddsAll (turns_of (lent_table list.entry) self.old)
            (turns_of (lent_table list.entry) self.new) (lent_modules list.entry) depth) }
        ensures too_many { result ≡ Err AddFault.TooMany
            → OverflowsWith (turns_of (lent_table list.entry) self.old) (lent_modules list.entry) }
    {
        for number in list.numbers() {
            self.add(*number, depth)?;
        }
        Ok(())
    }
}
