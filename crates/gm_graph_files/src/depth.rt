//! How far the requirements of a vertex are followed.
//!
//! A pruned main file needs less of the graph than an unpruned one (Go Modules Reference, "Module graph pruning"),
//! so each entry of the worklist carries a depth.

use gm_name::ModVer;

/// How far the requirements of a vertex are followed.
#[derive(Clone, Copy)]
pub enum Depth {
    /// The main file requires the vertex. Its requirements are followed only if its own file is unpruned.
    Top,
    /// All requirements of the vertex are followed.
    Deep,
}

/// A vertex whose requirements were requested, and the depth of that request.
#[derive(Drop)]
pub struct Turn {
    /// The module path at a version.
    pub vertex: ModVer,
    /// How far its requirements are followed.
    pub depth: Depth,
}
