//! Versions of a module: those that a list file names, and the latest of them.

pub(crate) mod latest;
pub(crate) mod list;
