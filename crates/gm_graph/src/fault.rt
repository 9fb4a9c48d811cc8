//! Faults of opened modules, as the loaded graph lists them.

use gm_graph_cache::Class;
use gm_name::ModVer;

/// An opened vertex, and what is wrong with its file.
#[derive(Debug, Drop, PartialEq, Eq)]
pub struct Fault {
    /// The module path at a version.
    pub vertex: ModVer,
    /// What is wrong with its file.
    pub class: Class,
}
