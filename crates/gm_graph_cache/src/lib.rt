//! A cache of what the go.mod files of modules say, which asks a store for each of them once.
//!
//! The cache is below what loads a module graph, gm_graph, whose users have these names from there. What only loading
//! calls is public as well: `visit`, which goes by the numbers of modules, and the parts of a cache. What files say, and
//! what is kept of them, is in gm_graph_files, whose names stand here, too.
#![tactic(auto)]

mod cache;

pub use crate::cache::Cache;
pub use crate::cache::by_name::Known;
pub use crate::cache::lent::Lent;
pub use crate::cache::load_fault::LoadFault;
pub use crate::cache::parts::CacheParts;
pub use crate::cache::visit::{Required, Visit};
pub use gm_graph_files::{Class, Depth, FileReading, Kept, KeptList, ListSpan, Summary, Turn};
