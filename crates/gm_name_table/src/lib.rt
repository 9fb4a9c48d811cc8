//! Look-ups of names: an index of places, names that are known, and tables of modules.
//!
//! Names in a list are found by the tags of their fingerprints (`TagIndex`), and names that were read before are shared
//! (`KnownNames`). Code that looks up many modules refers to each by its number: its place in the list of distinct
//! modules, in the order in which they were first put in. A number never changes, and numbers compare faster than
//! names.
#![tactic(auto)]

mod bucket;
mod index;
mod kept_names;
mod known_names;
mod module_list;
mod module_table;
mod overflow;
mod place;
mod tag_index;
mod tag_marks;

pub use crate::known_names::{KnownNames, PairFault};
pub use crate::module_list::{ModuleList, Modules};
pub use crate::module_table::ModuleTable;
pub use crate::place::{MOST_PLACES, OptionalPlace};
pub use crate::tag_index::TagIndex;
