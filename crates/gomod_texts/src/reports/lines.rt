//! The lines of reports. The words for faults come from the types of the faults, so a report always names a fault as
//! the library does.

ghost use Rattle.std.specs.Prelude.{◌++◌, codes};
ghost use Rattle.std.specs.List.{flat_map};
ghost use Rattle.gm_store_parts.specs.Asked.{name_of};
ghost use Rattle.gomod_texts.specs.LineParts.{line, vertex_text};
ghost use Rattle.gomod_texts.specs.Taking.{Took};
ghost use Rattle.gomod_texts.specs.Reports.{cannot_read_line, device_line, fault_line, faults_text, list_line, numbered_line};
ghost use Rattle.gomod_texts.specs.Outcome.{report_text};
ghost use Rattle.gomod_texts.specs.Private.Giving.{IsGiven};

use crate::reports::buffer::LineBuffer;
use crate::reports::report::Report;
use gm_graph::{Class, Fault};
use gm_name::{ModPath, ModVersion};
use gm_store::{FileName, Sink, WriteFault};

impl<'a> Report<'a> {
    /// Writes the report to a sink, up to the first failure of the sink. It takes no memory. Whole lines are written,
    /// as many at once as 16,384 bytes hold; a longer line is written in pieces.
    pub fn write<R: Sink>(&self, sink: &mut R) -> Result<(), WriteFault>
        ensures { Took (R.state sink.old) (R.state sink.new) (report_text self.now) result }
    {
        match self {
            Report::NoMemory => write_line(sink, &["gomod: no memory"]),
            Report::Main { line, kind } => write_numbered(sink, "go.mod:", *line, kind.word()),
            Report::Sums(line) => write_numbered(sink, "go.sum:", *line, "BadSum"),
            Report::LongSums => write_line(sink, &["go.sum:0: TooMany"]),
            Report::TooMany => write_line(sink, &["gomod: TooMany"]),
            Report::Device(name) => write_device(sink, name),
            Report::Faults(faults) => write_faults(sink, faults.as_slice()),
            Report::NotListed(path) => write_about_path(sink, path, "NotListed"),
            Report::Operation { number, refusal } => {
                write_numbered(sink, "edit ", *number, refusal.word())
            }
            Report::List(path, class) => write_about_path(sink, path, class.word()),
            Report::File(path, version, class) => write_fault(sink, path, version, *class),
            Report::Unreadable(name) => write_unreadable(sink, name),
        }
    }
}

/// Writes a line to a sink: these pieces and then a line feed. It takes no memory.
pub fn write_line<R: Sink>(sink: &mut R, pieces: &[&str]) -> Result<(), WriteFault>
    ensures { Took (R.state sink.old) (R.state sink.new)
        (line (flat_map (λ piece. piece.now) pieces.now)) result }
{
    let mut buffer = LineBuffer::new();
    buffer.give_line(sink, pieces)?;
    buffer.end(sink)
}

/// Writes the prefix, the number, `: ` and the word.
fn write_numbered<R: Sink>(
    sink: &mut R,
    prefix: &str,
    number: usize,
    word: &str,
) -> Result<(), WriteFault>
    ensures { Took (R.state sink.old) (R.state sink.new) (numbered_line prefix.now number word.now) result }
{
    let mut digits = itoa::Buffer::new();
    write_line(sink, &[prefix, digits.format(number), ": ", word])
}

/// Writes `PATH: WORD`.
fn write_about_path<R: Sink>(sink: &mut R, path: &ModPath, word: &str) -> Result<(), WriteFault>
    ensures { Took (R.state sink.old) (R.state sink.new) (list_line path.now word.now) result }
{
    write_line(sink, &[path.as_str(), ": ", word])
}

/// Writes `gomod: cannot read NAME`.
fn write_unreadable<R: Sink>(sink: &mut R, name: &str) -> Result<(), WriteFault>
    ensures { Took (R.state sink.old) (R.state sink.new) (cannot_read_line name.now) result }
{
    write_line(sink, &["gomod: cannot read ", name])
}

/// Writes `gomod: device at` and then `PATH@VERSION`, `FOLDER` or `PATH list`.
fn write_device<R: Sink>(sink: &mut R, name: &FileName) -> Result<(), WriteFault>
    ensures { Took (R.state sink.old) (R.state sink.new) (device_line (name_of name.now)) result }
{
    let device = "gomod: device at ";
    match name {
        FileName::Mod(path, version) => {
            write_line(sink, &[device, path.as_str(), "@", version.as_str()])
        }
        FileName::Folder(text) => write_line(sink, &[device, text.as_str()]),
        FileName::List(path) => write_line(sink, &[device, path.as_str(), " list"]),
    }
}

/// Writes the line of a module with a fault.
fn write_fault<R: Sink>(
    sink: &mut R,
    path: &ModPath,
    version: &ModVersion,
    class: Class,
) -> Result<(), WriteFault>
    ensures { Took (R.state sink.old) (R.state sink.new) (fault_line (path.now, version.now) class) result }
{
    let mut buffer = LineBuffer::new();
    give_fault(&mut buffer, sink, path, version, class)?;
    buffer.end(sink)
}

/// Writes the lines of modules with faults, in the given order.
fn write_faults<R: Sink>(sink: &mut R, faults: &[Fault]) -> Result<(), WriteFault>
    ensures { Took (R.state sink.old) (R.state sink.new) (faults_text faults.now) result }
{
    let mut buffer = LineBuffer::new();
    'faults: for fault in faults {
        let vertex = &fault.vertex;
        give_fault(
            &mut buffer,
            sink,
            vertex.path(),
            vertex.version(),
            fault.class,
        )?;
    }
    buffer.end(sink)
}

/// Gives the line of a module with a fault: `PATH@VERSION: CLASS`, or `PATH@VERSION: Malformed LINE KIND`.
fn give_fault<R: Sink>(
    buffer: &mut LineBuffer,
    sink: &mut R,
    path: &ModPath,
    version: &ModVersion,
    class: Class,
) -> Result<(), WriteFault>
    ensures { IsGiven (R.state sink.old) buffer.old (R.state sink.new) buffer.new
        (fault_line (path.now, version.now) class) result }
{
    match class {
        Class::Malformed { line, kind } => {
            let mut digits = itoa::Buffer::new();
            give_malformed(
                buffer,
                sink,
                path,
                version,
                digits.format(line),
                kind.word(),
            )
        }
        _ => give_class(buffer, sink, path, version, class.word()),
    }
}

/// Gives `PATH@VERSION: Malformed NUMBER WORD`.
fn give_malformed<R: Sink>(
    buffer: &mut LineBuffer,
    sink: &mut R,
    path: &ModPath,
    version: &ModVersion,
    number: &str,
    word: &str,
) -> Result<(), WriteFault>
    ensures { IsGiven (R.state sink.old) buffer.old (R.state sink.new) buffer.new
        (line (vertex_text (path.now, version.now) ++ codes ": "
        ++ (codes "Malformed " ++ number.now ++ codes " " ++ word.now))) result }
{
    buffer.give_line(
        sink,
        &[
            path.as_str(),
            "@",
            version.as_str(),
            ": Malformed ",
            number,
            " ",
            word,
        ],
    )
}

/// Gives `PATH@VERSION: WORD`.
fn give_class<R: Sink>(
    buffer: &mut LineBuffer,
    sink: &mut R,
    path: &ModPath,
    version: &ModVersion,
    word: &str,
) -> Result<(), WriteFault>
    ensures { IsGiven (R.state sink.old) buffer.old (R.state sink.new) buffer.new
        (line (vertex_text (path.now, version.now) ++ codes ": " ++ word.now)) result }
{
    buffer.give_line(sink, &[path.as_str(), "@", version.as_str(), ": ", word])
}
