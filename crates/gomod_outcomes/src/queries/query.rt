//! The questions that can be asked about a module graph, one for each command.

use gm_name::ModPath;

/// A question about a module graph.
#[derive(Clone, Copy)]
pub enum Query<'a> {
    /// The edges of the graph.
    Graph,
    /// The build list. With a path, only the rows after the row of that path. With a limit, at most that many
    /// of these rows. A limit of 0 gives no rows.
    List(Option<&'a ModPath>, Option<u32>),
    /// A shortest chain of requirements from the main module to the build list's entry for this path.
    Chain(&'a ModPath),
}
