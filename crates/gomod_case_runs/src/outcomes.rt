//! The results of commands.

use gm_store::MemorySink;
use std::alloc::{AllocError, Global};

/// The status of a command for which an output, a file or memory failed.
pub const DEVICE: u8 = 3;

/// What a command wrote, and its status.
#[derive(Drop)]
pub struct Outcome {
    /// Standard output.
    pub out: MemorySink,
    /// Standard error.
    pub report: MemorySink,
    /// The exit status.
    pub status: u8,
}

impl Outcome {
    /// Whether two commands had the same result.
    pub fn is_same(&self, other: &Outcome) -> bool {
        self.out.bytes() == other.out.bytes()
            && self.report.bytes() == other.report.bytes()
            && self.status == other.status
    }

    /// Whether the command wrote nothing, reported this and ended with status 3.
    pub fn is_failure(&self, report: &str) -> bool {
        self.out.bytes().is_empty()
            && self.report.bytes() == report.as_bytes()
            && self.status == DEVICE
    }
}

/// How many bytes the outputs of a command take.
#[derive(Clone, Copy)]
pub struct Room {
    /// Those of standard output.
    pub out: usize,
    /// Those of standard error.
    pub report: usize,
}

impl Room {
    /// Outputs with room for exactly these texts.
    pub fn sinks(&self, alloc: Global) -> Result<(MemorySink, MemorySink), AllocError> {
        let out = MemorySink::new(alloc, self.out)?;
        let report = MemorySink::new(alloc, self.report)?;
        Ok((out, report))
    }
}
