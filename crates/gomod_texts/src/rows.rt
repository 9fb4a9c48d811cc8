//! Rows of the build list as lines, as `go list -m all` prints them. These differ from the lines of edges: a space comes
//! before the version, and the replacement follows.

ghost use Rattle.std.specs.Prelude.{◌≡◌, ◌≤◌, ◌++◌, List, drop, length, take};
ghost use Rattle.gm_file.specs.Views.{right_view};
ghost use Rattle.gm_graph.specs.Entries.{Entry, entries_of_rows, entry_of_row};
ghost use Rattle.gomod_texts.specs.ListQuery.{entry_line, up_to, list_text, module_text, replacement_text};
ghost use Rattle.gomod_texts.specs.Private.Giving.{IsGiven};
ghost use Rattle.gomod_texts.specs.Taking.{Took};

use crate::reports::buffer::LineBuffer;
use gm_file::Right;
use gm_graph::Row;
use gm_graph_select::Step;
use gm_name::ModPath;
use gm_store::{Sink, WriteFault};

/// The path of the main module, or `PATH VERSION` of another module, in three pieces.
fn module_pieces<'a>(main: &'a ModPath, step: &'a Step) -> (&'a str, &'a str, &'a str)
    ensures { result.0.now ++ (result.1.now ++ result.2.now) ≡ module_text main.now step.now }
{
    match step {
        Step::Main => (main.as_str(), "", ""),
        Step::Of(vertex) => (vertex.path().as_str(), " ", vertex.version().as_str()),
    }
}

/// The right side of a replacement, `FOLDER` or `PATH VERSION`, in three pieces.
fn right_pieces(right: &Right) -> (&str, &str, &str)
    ensures { result.0.now ++ (result.1.now ++ result.2.now) ≡ replacement_text (right_view right.now) }
{
    match right {
        Right::Folder(text) => (text.as_str(), "", ""),
        Right::Module(path, version) => (path.as_str(), " ", version.as_str()),
    }
}

/// Gives the line of a row. Few rows have a replacement, and each piece costs time, even if it is empty.
fn give_row<O: Sink>(
    buffer: &mut LineBuffer,
    sink: &mut O,
    main: &ModPath,
    row: &Row,
) -> Result<(), WriteFault>
    ensures { IsGiven (O.state sink.old) buffer.old (O.state sink.new) buffer.new
        (entry_line main.now (entry_of_row row.now)) result }
{
    let (path, space, version) = module_pieces(main, &row.step);
    match &row.right {
        None => buffer.give_line(sink, &[path, space, version]),
        Some(right) => {
            let (other, gap, number) = right_pieces(right);
            buffer.give_line(sink, &[path, space, version, " => ", other, gap, number])
        }
    }
}

/// Writes the rows as `go list -m all` prints them (Go Modules Reference, "go list -m"): one per line, in the given
/// order. The main module is written as its path `main`, another module as `PATH VERSION`. If it is replaced, ` => `
/// and `NEWPATH NEWVERSION` or the text of the folder follow. It takes no memory.
pub(crate) fn write_rows<O: Sink>(
    sink: &mut O,
    main: &ModPath,
    rows: &[Row],
) -> Result<(), WriteFault>
    ensures { Took (O.state sink.old) (O.state sink.new) (list_text main.now (entries_of_rows rows.now)) result }
{
    let mut buffer = LineBuffer::new();
    'rows: for row in rows {
        give_row(&mut buffer, sink, main, row)?;
    }
    buffer.end(sink)
}

/// How many rows there are up to a limit, if there is one.
fn count_within(count: usize, limit: Option<u32>) -> usize
    ensures within { result ≤ count }
    ensures rows { (rows : List Entry) → length rows ≡ count → take result rows ≡ up_to limit rows }
{
    match limit {
        None => count,
        Some(limit) => count.min(limit as usize),
    }
}

/// The rows but the first `from` of them, and of these the first `limit`, or all if there is no limit.
pub(crate) fn part_of(rows: &[Row], from: usize, limit: Option<u32>) -> &[Row]
    ensures { entries_of_rows result.now ≡ up_to limit (drop from (entries_of_rows rows.now)) }
{
    if rows.len() < from {
        return &[];
    }
    let rest = &rows[from..];
    &rest[..count_within(rest.len(), limit)]
}
