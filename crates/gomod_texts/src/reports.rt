//! How a command ends: with a text, or with a report of what is wrong.
//!
//! A command returns `Result<Text, Report>`: a text to print, or a `Report`, which is one value for whatever keeps a
//! command from printing, from a fault of the main file to a store whose device failed. The faults of the libraries
//! below become reports by `From`, so that `?` passes them on. `Report::write` writes a report to a sink, and
//! `Report::status` is the status that a run ends with. Neither takes memory, so a report can be written even if memory
//! ran out.
//!
//! A fault reads alike whichever command reports it. For example, a store without the go.mod of `a.io` v1.0.0 is
//! reported as `a.io@v1.0.0: Missing`, and `Fault` is the status.

pub(crate) mod buffer;
pub(crate) mod from_faults;
pub(crate) mod lines;
pub(crate) mod report;
pub(crate) mod status;
