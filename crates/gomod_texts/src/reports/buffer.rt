//! Lines on their way to a sink. They wait in a buffer of fixed size, so that many short lines take few writes and no
//! memory.

ghost use Rattle.std.specs.Prelude.{◌≡◌, ◌≤◌, ◌++◌, ◌-◌, ◌^◌, [], OnOk, length, min};
ghost use Rattle.std.specs.List.{flat_map};
ghost use Rattle.gomod_texts.specs.Private.Giving.{IsGiven, IsEnded};
ghost use Rattle.gomod_texts.specs.LineParts.{line};

use arrayvec::ArrayString;
use gm_store::{Sink, WriteFault, write_all};
use std::marker::Model;

/// How many bytes wait at most. Nearly every line is shorter.
const ROOM: usize = 16_384;

/// Lines that have not been written yet.
#[derive(Drop)]
pub(crate) struct LineBuffer {
    /// Their text.
    text: ArrayString<ROOM>,
}

impl Model for LineBuffer {
    ghost use Rattle.std.specs.Prelude.{List, ℕ};

    ghost Value = { List ℕ };

    ghost view = { λ buffer. buffer.text.bytes };
}

impl LineBuffer {
    /// No lines.
    pub(crate) fn new() -> LineBuffer
        ensures { result ≡ [] }
    {
        LineBuffer {
            text: ArrayString::new(),
        }
    }

    /// Gives a line: these pieces and then a line feed. If it fits the buffer, it reaches the sink in one write with
    /// all of its bytes.
    ///
    /// Where it is called, the number of pieces is known, so that their loops are unrolled.
    #[inline(always)]
    pub(crate) fn give_line<R: Sink>(
        &mut self,
        sink: &mut R,
        pieces: &[&str],
    ) -> Result<(), WriteFault>
        ensures { IsGiven (R.state sink.old) self.old (R.state sink.new) self.new
            (line (flat_map (λ piece. piece.now) pieces.now)) result }
    {
        let size = length_of(pieces);
        if self.text.remaining_capacity() < size {
            self.end(sink)?;
        }
        if self.text.remaining_capacity() < size {
            return self.give_long(sink, pieces);
        }
        push_line(&mut self.text, pieces);
        Ok(())
    }

    /// Gives a line that doesn't fit the buffer, piece by piece.
    fn give_long<R: Sink>(&mut self, sink: &mut R, pieces: &[&str]) -> Result<(), WriteFault>
        ensures { IsGiven (R.state sink.old) self.old (R.state sink.new) self.new
            (line (flat_map (λ piece. piece.now) pieces.now)) result }
    {
        'pieces: for piece in pieces {
            self.give(sink, piece)?;
        }
        self.give(sink, "\n")
    }

    /// Gives a piece of a line.
    fn give<R: Sink>(&mut self, sink: &mut R, piece: &str) -> Result<(), WriteFault>
        ensures { IsGiven (R.state sink.old) self.old (R.state sink.new) self.new piece.now result }
    {
        if self.text.try_push_str(piece).is_ok() {
            return Ok(());
        }
        self.end(sink)?;
        write_all(sink, piece.as_bytes())
    }

    /// Writes what waits.
    pub(crate) fn end<R: Sink>(&mut self, sink: &mut R) -> Result<(), WriteFault>
        ensures ended { IsEnded (R.state sink.old) self.old (R.state sink.new) result }
        ensures empty { OnOk result (self.new ≡ []) }
    {
        write_all(sink, self.text.as_str().as_bytes())?;
        self.text.clear();
        Ok(())
    }
}

/// Appends a line of these pieces, for which there must be room. No sink is looked at between two pieces, so that a
/// line of many short ones takes little time.
#[inline(always)]
fn push_line(text: &mut ArrayString<ROOM>, pieces: &[&str])
    requires { length (text.old.bytes ++ line (flat_map (λ piece. piece.now) pieces.now)) ≤ 16384 }
    ensures { text.new.bytes ≡ text.old.bytes ++ line (flat_map (λ piece. piece.now) pieces.now) }
{
    'pieces: for piece in pieces {
        let _fits = text.try_push_str(piece);
    }
    let _fits = text.try_push_str("\n");
}

/// How many bytes a line of these pieces has, with its line feed. Saturates.
#[inline(always)]
fn length_of(pieces: &[&str]) -> usize
    ensures { result ≡ min (length (line (flat_map (λ piece. piece.now) pieces.now))) (2 ^ 64 - 1) }
{
    let mut total = 1_usize;
    for piece in pieces {
        total = total.saturating_add(piece.len());
    }
    total
}
