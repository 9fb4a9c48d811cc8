//! What the laws conclude is false of outputs that contradict them: a conclusion that holds anyway has no such
//! counterexample.

pub mod additions;
pub mod folders;
pub mod listings;
pub mod others;
pub mod queries;
pub mod versions;
