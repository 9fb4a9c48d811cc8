//! The edges of the module graph as lines, as `go mod graph` prints them.

ghost use Rattle.gm_graph_select.specs.EdgeList.{edge_of_ref};
ghost use Rattle.gomod_texts.specs.GraphQuery.{edge_line, graph_text};
ghost use Rattle.gomod_texts.specs.Private.Giving.{IsGiven};
ghost use Rattle.gomod_texts.specs.Taking.{Took};

use crate::fields::step_pieces;
use crate::reports::buffer::LineBuffer;
use gm_graph_select::{EdgeRef, Edges};
use gm_name::ModPath;
use gm_store::{Sink, WriteFault};

/// Gives the line of an edge: the module that requires, a space, and the module that is required.
fn give_edge<O: Sink>(
    buffer: &mut LineBuffer,
    sink: &mut O,
    main: &ModPath,
    edge: EdgeRef<'_>,
) -> Result<(), WriteFault>
    ensures { IsGiven (O.state sink.old) buffer.old (O.state sink.new) buffer.new
        (edge_line main.now (edge_of_ref edge.entry)) result }
{
    let (path, at, version) = step_pieces(main, edge.from);
    let to = edge.to;
    buffer.give_line(
        sink,
        &[
            path,
            at,
            version,
            " ",
            to.path().as_str(),
            "@",
            to.version().as_str(),
        ],
    )
}

/// Writes the edges as `go mod graph` prints them (Go Modules Reference, "go mod graph"): one per line, in the given
/// order, as two fields separated by a space. A field is `PATH@VERSION`, or for the main module its path `main`. It
/// takes no memory.
pub(crate) fn write_edges<O: Sink>(
    sink: &mut O,
    main: &ModPath,
    edges: Edges<'_>,
) -> Result<(), WriteFault>
    ensures { Took (O.state sink.old) (O.state sink.new) (graph_text main.now edges.entry) result }
{
    let mut buffer = LineBuffer::new();
    'edges: for edge in edges {
        give_edge(&mut buffer, sink, main, edge)?;
    }
    buffer.end(sink)
}
