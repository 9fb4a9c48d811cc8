//! A sink in memory of limited size.
//!
//! Tests use it to see what was written, and to make writes fail after a chosen number of bytes.

ghost use Rattle.std.specs.Prelude.{◌≡◌, ◌≤◌, [], IfOk, vec_len};
ghost use Rattle.std.specs.Vec.{vec_capacity};

use crate::sinks::{Sink, WriteFault};
use gm_name::NoMemory;
use std::alloc::Global;

/// A sink in memory. Its memory is reserved at the start, so a write never runs out of memory. It fails only when
/// it is full.
#[derive(Drop)]
pub struct MemorySink {
    /// The bytes taken so far.
    bytes: Vec<u8>,
    /// How many bytes it takes in all.
    room: usize,
    /// How often a write has failed. The count saturates.
    faults: u64,
    ghost fits: { vec_len bytes ≤ room },
    ghost reserved: { room ≤ vec_capacity bytes },
}

impl MemorySink {
    ghost use Rattle.gm_store_parts.specs.Held.{faults_in, held_in, room_in};

    /// An empty sink that takes `room` bytes in all. The only refusal is `NoMemory`.
    pub fn new(alloc: Global, room: usize) -> Result<MemorySink, NoMemory>
        ensures empty { IfOk result (λ sink. held_in sink ≡ []) }
        ensures room { IfOk result (λ sink. room_in sink ≡ room) }
        ensures faults { IfOk result (λ sink. faults_in sink ≡ 0) }
    {
        Ok(MemorySink {
            bytes: Vec::with_capacity(alloc, room)?,
            room,
            faults: 0,
        })
    }

    /// The bytes taken so far, in order.
    pub fn bytes(&self) -> &[u8]
        ensures { result.now ≡ held_in self.now }
    {
        &self.bytes
    }
}

impl Sink for MemorySink {
    ghost use Rattle.gm_store_parts.specs.Held.{memory_sink_state};

    ghost state = { memory_sink_state };

    fn write(&mut self, piece: &[u8]) -> Result<usize, WriteFault> {
        let count = (self.room - self.bytes.len()).min(piece.len());
        if count == 0 && !piece.is_empty() {
            self.faults = self.faults.saturating_add(1);
            return Err(WriteFault);
        }
        let Ok(()) = self.bytes.extend_from_slice(&piece[..count]) else {
            unreachable!();
        };
        Ok(count)
    }

    fn faults(&self) -> u64 {
        self.faults
    }
}
