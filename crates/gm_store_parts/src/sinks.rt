//! Sinks: the trait of everything that output is written to. The modules in the folder have the two sinks.
//!
//! Contracts about output refer to the bytes that were written and to the failures. The writers of the standard
//! library don't count failures, so sinks wrap them.

pub(crate) mod memory;
pub(crate) mod writer;

ghost use Rattle.std.specs.Prelude.{◌≡◌, MatchResult, OnOk, OnErr};
ghost use Rattle.std.specs.Io.KnownBytes.{Appends, Keeps};
ghost use Rattle.gm_store_parts.specs.Taken.{AppendsSome, HasCause, TakesPrefix, TakesWhatFits, WritesWhatFits};

use thiserror::Error;

/// A write failed.
#[derive(Clone, Copy, Debug, PartialEq, Eq, Error)]
#[error("cannot write")]
pub struct WriteFault;

/// A sink takes bytes, in order. It may take them in pieces, and it may have limited room.
pub trait Sink {
    ghost use Rattle.gm_store_parts.specs.Taken.{SinkState};

    /// The bytes taken so far and how many more it takes, if these are known, and how often it has failed. The count
    /// saturates at the greatest `u64`.
    ghost state: { Self → SinkState };

    /// Takes a prefix of a piece, and returns its length in bytes. That is at least one, unless the piece is
    /// empty.
    ///
    /// `WriteFault` is returned if the sink fails or is full. It leaves the bytes taken unchanged and is counted.
    fn write(&mut self, piece: &[u8]) -> Result<usize, WriteFault>
        ensures takes { MatchResult result (TakesPrefix (state self.old).taken (state self.new).taken piece.now)
            (λ _. Keeps (state self.old).taken (state self.new).taken) }
        ensures fits { TakesWhatFits (state self.old).room (state self.new).room piece.now result }
        ensures cause { HasCause (state self.old).faults (state self.new).faults result };

    /// How often it has failed. The count saturates at the greatest `u64`.
    fn faults(&self) -> u64
        ensures { result ≡ (state self.now).faults };
}

/// Writes a whole piece, with as many writes as needed.
///
/// `WriteFault` is returned at the first write that fails; the sink has then taken a prefix of the piece.
pub fn write_all<S: Sink>(sink: &mut S, piece: &[u8]) -> Result<(), WriteFault>
    ensures whole { OnOk result (Appends (S.state sink.old).taken (S.state sink.new).taken piece.now) }
    ensures part { OnErr result (AppendsSome (S.state sink.old).taken (S.state sink.new).taken piece.now) }
    ensures fits { WritesWhatFits (S.state sink.old).room (S.state sink.new).room
        (S.state sink.old).taken (S.state sink.new).taken piece.now result }
    ensures cause { HasCause (S.state sink.old).faults (S.state sink.new).faults result }
{
    let mut at = 0;
    'pieces: while at < piece.len() {
        let count = sink.write(&piece[at..])?;
        at += count;
    }
    Ok(())
}
