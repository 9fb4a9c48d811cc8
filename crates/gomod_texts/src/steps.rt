//! The steps of a chain as lines. A line has one field of the line of an edge.

ghost use Rattle.gomod_texts.specs.ChainQuery.{chain_text, step_line};
ghost use Rattle.gomod_texts.specs.Private.Giving.{IsGiven};
ghost use Rattle.gomod_texts.specs.Taking.{Took};

use crate::fields::{step_pieces, vertex_of};
use crate::reports::buffer::LineBuffer;
use gm_graph_select::Step;
use gm_name::ModPath;
use gm_store::{Sink, WriteFault};

/// Gives the line of a step.
fn give_step<O: Sink>(
    buffer: &mut LineBuffer,
    sink: &mut O,
    main: &ModPath,
    step: &Step,
) -> Result<(), WriteFault>
    ensures { IsGiven (O.state sink.old) buffer.old (O.state sink.new) buffer.new
        (step_line main.now step.now) result }
{
    let (path, at, version) = step_pieces(main, vertex_of(step));
    buffer.give_line(sink, &[path, at, version])
}

/// Writes the steps of a chain, one per line, in the given order. Each is written as a field of a line of
/// `write_edges`. It takes no memory.
pub(crate) fn write_steps<O: Sink>(
    sink: &mut O,
    main: &ModPath,
    steps: &[Step],
) -> Result<(), WriteFault>
    ensures { Took (O.state sink.old) (O.state sink.new) (chain_text main.now steps.now) result }
{
    let mut buffer = LineBuffer::new();
    'steps: for step in steps {
        give_step(&mut buffer, sink, main, step)?;
    }
    buffer.end(sink)
}
