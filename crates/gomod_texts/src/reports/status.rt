//! The status of a run.

ghost use Rattle.std.specs.Prelude.{◌≡◌};
ghost use Rattle.gomod_texts.specs.Outcome.{code_of};

/// How a run ends.
#[derive(Clone, Copy)]
pub enum Status {
    /// The text is printed (0).
    Done,
    /// The command has no result for this input, and the report says why (1).
    Fault,
    /// Memory ran out, or the store's device or an output failed (3).
    Device,
}

impl Status {
    /// The exit status of the process: 0, 1 or 3. Status 2, for usage errors, is never the end of a run.
    pub fn code(self) -> u8
        ensures { result ≡ code_of self }
    {
        match self {
            Status::Done => 0,
            Status::Fault => 1,
            Status::Device => 3,
        }
    }
}
