//! What can be relied on across `graph`, `list` and `chain`. gomod_outcomes makes what they print.

pub mod laws;
