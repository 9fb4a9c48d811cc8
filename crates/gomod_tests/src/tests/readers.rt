//! Readers that give few bytes per call, or that have more bytes than are read.

use super::{OUT_OF_MEMORY, assert_same};
use gm_store::{LIMIT, read_limited};
use std::alloc::Global;
use std::io;
use std::io::Read;
use std::process::Abort;

/// A reader over bytes in memory. It gives at most `step` bytes per call.
#[derive(Drop)]
struct LimitedReader<'a> {
    /// The bytes that are left to read.
    bytes: &'a [u8],
    /// The most bytes that one call gives.
    step: usize,
}

impl Read for LimitedReader<'_> {
    /// Gives the next bytes.
    fn read(&mut self, piece: &mut [u8]) -> io::Result<usize> {
        let count = piece.len().min(self.bytes.len()).min(self.step);
        let (front, rest) = self.bytes.split_at(count);
        piece[..count].copy_from_slice(front);
        self.bytes = rest;
        Ok(count)
    }
}

/// As a number of bytes per call: without limit.
const ANY: usize = usize::MAX;

/// This many bytes `x`, followed by six others.
fn long_file(rt: &impl Abort, alloc: Global, length: usize) -> Vec<u8> {
    let mut bytes = vec![in alloc; b'x'; length].expect(rt, OUT_OF_MEMORY);
    bytes.extend_from_slice(b"abcdef").expect(rt, OUT_OF_MEMORY);
    bytes
}

/// Reads bytes, at most `step` of them per call. Says whether these were the first ones, how many they were,
/// and how many the reader has left.
fn read_front(rt: &impl Abort, alloc: Global, bytes: &[u8], step: usize) -> (bool, usize, usize) {
    let mut reader = LimitedReader { bytes, step };
    let read = read_limited(alloc, &mut reader).expect(rt, OUT_OF_MEMORY);
    let is_front = bytes.starts_with(&read) && bytes.ends_with(reader.bytes);
    (is_front, read.len(), reader.bytes.len())
}

/// The lengths of files, how many bytes a call gives, and how many bytes are read.
const LENGTHS: &'static [(usize, usize, usize)] = &[
    (0, ANY, 0),
    (1, 1, 1),
    (1_000, 1, 1_000),
    (100_000, 50_000, 100_000),
    (LIMIT, ANY, LIMIT),
    (LIMIT + 1, ANY, LIMIT + 1),
    (LIMIT + 6, ANY, LIMIT + 1),
    (LIMIT + 6, 4_099, LIMIT + 1),
];

/// Reads the first `length` of these bytes, and compares what is read with the first `taken` of them.
fn read_part(
    rt: &impl Abort,
    alloc: Global,
    bytes: &[u8],
    length: usize,
    step: usize,
    taken: usize,
) {
    let (part, _) = bytes
        .split_at_checked(length)
        .expect(rt, "the file is long enough");
    let got = read_front(rt, alloc, part, step);
    let wanted = (true, taken, length.saturating_sub(taken));
    assert_same(rt, format_args!("{length} bytes by {step}"), &got, &wanted);
}

#[test]
fn reads_up_to_the_limit_and_leaves_the_rest(rt: HostRuntime) {
    let bytes = long_file(&rt, rt.alloc(), LIMIT);
    for (length, step, taken) in LENGTHS {
        read_part(&rt, rt.alloc(), &bytes, *length, *step, *taken);
    }
}
