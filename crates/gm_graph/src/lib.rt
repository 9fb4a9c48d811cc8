//! Loading the module graph of a main module from a store of go.mod files.
//!
//! The rules are those of the Go Modules Reference ("Minimal version selection" and "Module graph pruning",
//! <https://go.dev/ref/mod#graph-pruning>).
//!
//! Loading starts from the main module's requirements and follows requirements from file to file. How far it goes
//! depends on pruning. If the main file is below go 1.17, all requirements are followed. Otherwise the requirements
//! of a directly required module are followed only if that module's file is below go 1.17, and from there on all
//! requirements are followed. The requirements of every module that is read become edges of the graph, and the
//! build list follows from the edges.
//!
//! For example, let a main file with go 1.21 require `a v1.0.0`, whose file has go 1.20 and requires `b v1.0.0`.
//! The file of `a` is read, so there is an edge to `b`, and `b` is in the build list. The file of `b` is not read.
//! If the file of `a` had go 1.16, the file of `b` would be read too, and so would those of all its dependencies.
//!
//! Modules whose files are needed are called opened here. Exactly those of their files that may be asked for are asked
//! for, each once.
#![tactic(auto)]

mod fault;
mod findings;
mod followed;
mod gathering;
mod loaded;
mod loading;
mod marks;
mod places;
mod rows;
mod starting;
mod visiting;
mod worklist;

pub use crate::fault::Fault;
pub use crate::loaded::Loaded;
pub use crate::loading::{load, load_module};
pub use crate::rows::{Row, Rows};
pub use gm_graph_cache::{Cache, Class, Depth, FileReading, Known, Lent, LoadFault, Turn};
pub use gm_graph_select::{ChainFault, Edge, EdgeRef, Edges, NotListed, Step};
