//! How the program ends.

ghost use Rattle.std.specs.Prelude.{◌≡◌};
ghost use Rattle.gomod_run.specs.Program.{ending_code};

use gomod_texts::Status;

/// How the program ends: as a run does, or with a usage error.
#[derive(Clone, Copy)]
pub enum Ending {
    /// A run, help or the version.
    Run(Status),
    /// A usage error, which is reported (2).
    Usage,
}

impl Ending {
    /// The exit status of the process: 0, 1, 2 or 3.
    pub fn code(self) -> u8
        ensures { result ≡ ending_code self }
    {
        match self {
            Ending::Run(status) => status.code(),
            Ending::Usage => 2,
        }
    }
}
