//! Tests of what no worked example of a command can show.
//!
//! They are of a store that fails once, what a reader leaves unread, which files a store opens and which failures it
//! counts, and the functions of the libraries over values that the tests make themselves.
//!
//! A worked example runs a whole command, and such an event can't be arranged from outside. So these tests
//! call the libraries directly, with readers and file systems of their own. For example, `readers` gives
//! `read_limited` a reader that has more bytes than it reads.
#![tactic(auto)]

#[cfg(test)]
mod tests;
