//! A sink over a writer of the standard library: standard output, a file or a pipe.

ghost use Rattle.std.specs.Prelude.{◌≡◌};

use crate::sinks::{Sink, WriteFault};
use std::io::Write;

/// A sink over a writer. Its bytes are known if the writer's contents are. Those of a file, a pipe or a terminal
/// aren't.
#[derive(Drop)]
pub struct StdSink<W: Write> {
    /// The writer.
    writer: W,
    /// How often a write has failed. The count saturates.
    faults: u64,
}

impl<W: Write> StdSink<W> {
    ghost use Rattle.gm_store_parts.specs.Written.{failures_of, writer_of};

    /// A sink over a writer. No failure is counted yet.
    pub fn new(writer: W) -> StdSink<W>
        ensures writer { writer_of result ≡ writer }
        ensures faults { failures_of result ≡ 0 }
    {
        StdSink { writer, faults: 0 }
    }
}

impl<W: Write> Sink for StdSink<W> {
    ghost use Rattle.std.specs.Prelude.{None};
    ghost use Rattle.gm_store_parts.specs.Written.{failures_of, writer_of};

    ghost state = { λ sink. record {
      taken = W.contents (writer_of sink);
      room = None;
      faults = failures_of sink;
    } };

    // A write that takes no byte of a non-empty piece is a failure, so `write_all` can't loop forever. An
    // interrupted write is a failure too.
    fn write(&mut self, piece: &[u8]) -> Result<usize, WriteFault> {
        if piece.is_empty() {
            return Ok(0);
        }
        match self.writer.write(piece) {
            Ok(count) if count > 0 => Ok(count),
            _ => {
                self.faults = self.faults.saturating_add(1);
                Err(WriteFault)
            }
        }
    }

    fn faults(&self) -> u64 {
        self.faults
    }
}
