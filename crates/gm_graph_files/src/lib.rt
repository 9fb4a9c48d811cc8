//! What the go.mod files of dependencies say, or what is wrong with them, and what is kept of them.
//!
//! A store's answer is read by `read_answer`, and `kept_of` makes what is kept of the file. The requirements of all files
//! are in one list of modules, and equal lists are kept once. Which files are asked for, and when, is the cache's
//! business, above this crate: gm_graph_cache.
#![tactic(auto)]

mod class;
mod depth;
mod keeping;
mod list_index;
mod reading;
mod summary;

pub use crate::class::Class;
pub use crate::depth::{Depth, Turn};
pub use crate::keeping::kept_of;
pub use crate::list_index::ListIndex;
pub use crate::reading::{FileReading, ListedReading, read_answer};
pub use crate::summary::{Kept, KeptList, ListSpan, Summary};
