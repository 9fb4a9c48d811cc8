//! Buffers for lookups in a file system.
//!
//! A store keeps them from one request to the next, so a request allocates only what the store keeps of it.

use std::alloc::Global;

/// The buffers that lookups share. What they hold between lookups has no meaning.
#[derive(Drop)]
pub struct Buffers {
    /// The path of the file that is looked up.
    pub(crate) path: String,
    /// The bytes of one read.
    pub(crate) piece: Vec<u8>,
}

impl Buffers {
    /// Empty buffers. No memory is allocated before the first lookup.
    pub(crate) fn new(alloc: Global) -> Buffers {
        Buffers {
            path: String::new(alloc),
            piece: Vec::new(alloc),
        }
    }
}
