//! Versions of Go modules and their order, and the escaped form of names.
//!
//! A version is `v` and a version of SemVer 2.0.0. It is read into a text of its own, or borrows the text of a list.
//! Proxies and caches store modules in folders whose names are escaped: each upper-case letter is written as `!` and its
//! lower-case form.
//!
//! The crate is below gm_name, which has module paths and what versions fit them, and whose users have these names from
//! there. What only gm_name calls is public as well: the parts of a version, `NameText` and `read_number`.
#![tactic(auto)]

mod borrowed_version;
mod escaping;
mod name_text;
mod number;
mod pre_release;
mod version;

pub use crate::borrowed_version::BorrowedVersion;
pub use crate::escaping::{EscapeFault, escape, push_escaped, unescape};
pub use crate::name_text::NameText;
pub use crate::number::{has_only_digits, is_decimal, read_number};
pub use crate::version::{ModVersion, VersionFault};
