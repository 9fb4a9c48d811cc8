//! The GOPROXY fallback: a store that looks up each request in several folders in turn.

pub(crate) mod in_memory;
pub(crate) mod on_disk;
pub(crate) mod store;
mod walk;
