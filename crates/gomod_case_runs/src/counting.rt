//! How many runs are made.

use std::cell::Cell;

/// The number of runs so far: each command over real files, each over a store in memory, and each call counts as one.
#[derive(Drop)]
pub struct Count {
    runs: Cell<usize>,
}

impl Count {
    /// No run so far.
    pub fn new() -> Count {
        Count { runs: Cell::new(0) }
    }

    /// Counts a run.
    pub fn add(&self) {
        self.runs.set(self.runs.get().saturating_add(1));
    }

    /// The number of runs so far.
    pub fn runs(&self) -> usize {
        self.runs.get()
    }
}
