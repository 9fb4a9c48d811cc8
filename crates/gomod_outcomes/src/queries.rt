//! What the commands `graph`, `list` and `chain` print, and what they report when they can't.
//!
//! All three start from the bytes of a main module's go.mod file, those of a go.sum if one is given, and a
//! store of other modules' files. They load the module graph, and each shows one view of it: `graph` its
//! edges, `list` the build list that minimal version selection chooses from it, `chain` a shortest path of
//! requirements that explains why a module is in that list. `answer` answers a query from start to end.
//!
//! For example, let `example.com/m` require `a.io` v1.0.0, which requires `b.io` v1.2.0. Then `graph` prints
//! the lines `example.com/m a.io@v1.0.0` and `a.io@v1.0.0 b.io@v1.2.0`. `list` prints the lines
//! `example.com/m`, `a.io v1.0.0` and `b.io v1.2.0`. `chain` for `b.io` prints `example.com/m`, `a.io@v1.0.0`
//! and `b.io@v1.2.0`. If the file of `a.io` is missing, nothing is printed, and the report is
//! `a.io@v1.0.0: Missing`.

pub(crate) mod answering;
pub(crate) mod chain;
pub(crate) mod graph;
pub(crate) mod list;
pub(crate) mod query;
