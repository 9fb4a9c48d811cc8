//! Hints: what is said of a word of a command line that no command takes.
//!
//! A hint is a fixed text, which says what to type in the form of gomod. `hint_for` finds it in two tables by the
//! word's name, by its form, or by a name that is near to it.
#![tactic(auto)]

mod hints;
mod word;

pub use crate::hints::hint_for;
pub use crate::word::{begins_with_dash, has_text, without_dash};
