//! The hash of a go.mod, and the hashes that a go.sum lists.
//!
//! A go.sum records a hash for each file that a build depends on, so that a changed file is noticed. Its line
//! for a go.mod has three fields: the module's path, its version with `/go.mod`, and the hash. This is the line
//! for a go.mod whose text is the line `module example.com/a`:
//!
//! ```text
//! example.com/a v1.0.0/go.mod h1:NeOsx/KTizj35klXP3wYh3O0751aAtYrRoX+a6YAye8=
//! ```
//!
//! `mod_hash` computes the hash of a go.mod. A `SumTable` is what a go.sum says about hashes, and
//! `SumTable::check` compares a hash with it.
#![tactic(auto)]

mod hashing;
mod sum_lines;
mod sum_table;

pub use crate::hashing::mod_hash;
pub use crate::sum_table::{MAX_BYTES, Sum, SumFault, SumTable};
pub use gm_name::NoMemory;
