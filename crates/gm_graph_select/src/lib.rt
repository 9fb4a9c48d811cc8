//! What follows from a module graph's edges: the build list and shortest chains of requirements.
//!
//! The rules are those of the Go Modules Reference ("Minimal version selection",
//! <https://go.dev/ref/mod#minimal-version-selection>).
//!
//! An edge leads from the main module, or from a module path at a version, to a module path at a version that it
//! requires. Minimal version selection takes, for each path, the greatest version that any edge leads to. The chain
//! to a selected version explains why it is in the list: each of its steps requires the next, and no chain is
//! shorter.
//!
//! For example, let the main module require `a v1.0.0` and `b v1.0.0`, and let `b v1.0.0` require `a v1.1.0`. The
//! build list is then the main module, `a v1.1.0` and `b v1.0.0`, and the chain to `a` is the main module, `b
//! v1.0.0`, `a v1.1.0`.
//!
//! This crate reads no files: it works on lists of edges and vertices, whatever they come from.
#![tactic(auto)]

mod adjacency;
mod chaining;
mod edge_list;
mod graph;
pub mod laws;
mod marking;
mod number_lists;
mod numbering;
mod ranking;
mod row;
mod searching;
mod selecting;
mod sorting;
mod step;

pub use crate::adjacency::Source;
pub use crate::chaining::ChainFault;
pub use crate::edge_list::{EdgeRef, Edges};
pub use crate::graph::Graph;
pub use crate::number_lists::Span;
pub use crate::row::{NotListed, Row, Rows, rest_after};
pub use crate::selecting::{Selection, selected};
pub use crate::sorting::{is_ascending, sorted, sorted_vertices};
pub use crate::step::{Edge, Step};
