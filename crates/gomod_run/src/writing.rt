//! Writing what a command ends with. All writing is in this file, so that the status after a failed sink is settled in
//! one place.

ghost use Rattle.gm_store_parts.specs.Taken.{SinkState};
ghost use Rattle.gomod_texts.specs.Outcome.{code_of, ended_view, report_outcome, text_outcome};
ghost use Rattle.gomod_run.specs.Written.{IsWritten};

use gm_store::Sink;
use gomod_texts::{Report, Status, Text, write_whole};

/// Writes a text to the output, and returns the status of the run: `Done`, or `Device` if the sink fails.
pub(crate) fn write_text<O: Sink>(out: &mut O, text: &str) -> Status
    ensures { (report : SinkState) → IsWritten (text_outcome text.now)
        (O.state out.old) (O.state out.new) report report
        (code_of result) }
{
    match write_whole(out, text) {
        Ok(()) => Status::Done,
        Err(_) => Status::Device,
    }
}

/// Writes a text to the output, likewise. It takes no memory.
pub(crate) fn write_lines<O: Sink>(out: &mut O, text: &Text) -> Status
    ensures { (report : SinkState) → IsWritten (text_outcome text.now)
        (O.state out.old) (O.state out.new) report report
        (code_of result) }
{
    match text.write(out) {
        Ok(()) => Status::Done,
        Err(_) => Status::Device,
    }
}

/// Writes a report, and returns the status of the run: that of the report, or `Device` if the sink fails. It takes no
/// memory.
pub(crate) fn write_report<R: Sink>(report: &mut R, told: &Report<'_>) -> Status
    ensures { (out : SinkState) → IsWritten (report_outcome told.now)
        out out (R.state report.old) (R.state report.new)
        (code_of result) }
{
    match told.write(report) {
        Ok(()) => told.status(),
        Err(_) => Status::Device,
    }
}

/// Writes what a command ends with: a text to `out` or a report to `report`. Returns the status of the run.
pub(crate) fn write_outcome<O: Sink, R: Sink>(
    ended: Result<Text, Report<'_>>,
    out: &mut O,
    report: &mut R,
) -> Status
    ensures { IsWritten (ended_view ended.entry)
        (O.state out.old) (O.state out.new) (R.state report.old) (R.state report.new)
        (code_of result) }
{
    match ended {
        Ok(text) => write_lines(out, &text),
        Err(told) => write_report(report, &told),
    }
}
