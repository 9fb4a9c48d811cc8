//! What visits found of vertices, by the numbers of the modules.

ghost use Rattle.std.specs.Prelude.{◌≡◌, ◌≢◌, ◌++◌, ◌∷◌, [], ℕ, None, OnOk, Some};

use crate::places::put_at;
use gm_graph_cache::Class;
use std::alloc::{AllocError, Global};

/// The fault of the vertex with a number.
#[derive(Clone, Copy)]
pub(crate) struct NumberedFault {
    /// The number of the vertex.
    pub(crate) number: u32,
    /// What is wrong with its file.
    pub(crate) class: Class,
}

/// What visits found: the places of lists, and faults.
#[derive(Drop)]
pub(crate) struct Findings {
    /// For each module, by its number, the place of the file that has its list, if it was visited and has no fault. The
    /// last ones may be left out.
    pub(crate) places: Vec<Option<u32>>,
    /// The faults of the visited vertices that have one. That of a vertex that was visited twice comes twice.
    pub(crate) faults: Vec<NumberedFault>,
}

impl Findings {
    ghost use Rattle.gm_graph.specs.Private.Findings.{place_at};

    /// Nothing.
    pub(crate) fn new(alloc: Global) -> Findings
        ensures places { result.places.items ≡ [] }
        ensures faults { result.faults.items ≡ [] }
    {
        Findings {
            places: Vec::new(alloc),
            faults: Vec::new(alloc),
        }
    }

    /// Notes that the vertex with a number has no fault, and the place of the file that has its list.
    pub(crate) fn record_file(&mut self, number: u32, file: u32) -> Result<(), AllocError>
        ensures put { OnOk result (place_at self.new.places.items number ≡ Some file) }
        ensures others { OnOk result ((n : ℕ) → n ≢ number
            → place_at self.new.places.items n ≡ place_at self.old.places.items n) }
        ensures faults { self.new.faults ≡ self.old.faults }
    {
        put_at(&mut self.places, number, None, Some(file))
    }

    /// Notes the fault of the vertex with a number.
    pub(crate) fn note_fault(&mut self, number: u32, class: Class) -> Result<(), AllocError>
        ensures put { OnOk result (self.new.faults.items
            ≡ self.old.faults.items ++ record { number = number; class = class } ∷ []) }
        ensures places { self.new.places ≡ self.old.places }
    {
        self.faults.push(NumberedFault { number, class })?;
        Ok(())
    }
}
