//! Running a command whose words have been read: over proxy folders, or over a store in memory if the arguments name
//! none.

ghost use Rattle.std.specs.Prelude.{◌≡◌, IfErr, IfOk, None, Some};
ghost use Rattle.std.specs.Option.{option_map};
ghost use Rattle.std.specs.String.{string_bytes};
ghost use Rattle.gomod_texts.specs.Outcome.{code_of, report_outcome};
ghost use Rattle.gomod_run.specs.Program.{CommandEnds};
ghost use Rattle.gm_store_parts.specs.Taken.{SinkState};
ghost use Rattle.gomod_run.specs.Written.{EndsAsStated, IsWritten};
ghost use Rattle.gomod_run.specs.Private.Stopped.{EndsOrStops};

use crate::inputs::read_inputs;
use crate::running::run;
use crate::stores::{folders_of, memory_of, store_folder};
use crate::writing::write_report;
use gm_store::{FileSystem, ProxyList, Sink, StandardInput};
use gomod_texts::{Report, Status};
use gomod_words::{Command, Places};
use std::alloc::Global;

/// Runs a command over proxy folders. If something can't be read, nothing is written.
fn over_folders<
    'a,
    S: StandardInput + FileSystem + Copy + Drop + Alloc<A = Global>,
    O: Sink,
    R: Sink,
>(
    rt: &S,
    command: &Command,
    places: &'a Places,
    folders: ProxyList,
    out: &mut O,
    report: &mut R,
) -> Result<Status, Report<'a>>
    ensures { EndsOrStops (CommandEnds (S.may_open rt.now) (S.may_take rt.now) command.now
        (string_bytes places.now.main) (option_map string_bytes places.now.sums) (Some folders))
        (O.state out.old) (O.state out.new) (R.state report.old) (R.state report.new) result }
{
    let read = read_inputs(rt, command, places)?;
    let folder = store_folder(rt.alloc(), command, places.main.as_str())?;
    let mut files = folders_of(rt, folder, folders);
    let alloc = rt.alloc();
    let main = read.main();
    let sums = read.sums();
    Ok(run(alloc, command, main, sums, &mut files, out, report))
}

/// Runs a command over a store in memory. If something can't be read, nothing is written.
fn over_memory<'a, S: StandardInput + FileSystem + Alloc<A = Global>, O: Sink, R: Sink>(
    rt: &S,
    command: &Command,
    places: &'a Places,
    out: &mut O,
    report: &mut R,
) -> Result<Status, Report<'a>>
    ensures { EndsOrStops (CommandEnds (S.may_open rt.now) (S.may_take rt.now) command.now
        (string_bytes places.now.main) (option_map string_bytes places.now.sums) None)
        (O.state out.old) (O.state out.new) (R.state report.old) (R.state report.new) result }
{
    let read = read_inputs(rt, command, places)?;
    let mut files = memory_of(rt, command)?;
    let alloc = rt.alloc();
    let main = read.main();
    let sums = read.sums();
    Ok(run(alloc, command, main, sums, &mut files, out, report))
}

/// The status of a command that was run; or, if something could not be read, that of its report, which is written.
fn ended<R: Sink>(served: Result<Status, Report<'_>>, report: &mut R) -> Status
    ensures status { IfOk served.entry (λ status. result ≡ status) }
    ensures no_report { IfOk served.entry (λ _. R.state report.new ≡ R.state report.old) }
    ensures written { IfErr served.entry (λ told. (out : SinkState) → IsWritten (report_outcome told)
        out out (R.state report.old) (R.state report.new)
        (code_of result)) }
{
    match served {
        Ok(status) => status,
        Err(told) => write_report(report, &told),
    }
}

/// Reads what a command works on and runs it, or reports what can't be read.
pub(crate) fn run_command<
    S: StandardInput + FileSystem + Copy + Drop + Alloc<A = Global>,
    O: Sink,
    R: Sink,
>(rt: &S, command: &Command, mut places: Places, out: &mut O, report: &mut R) -> Status
    ensures { EndsAsStated (CommandEnds (S.may_open rt.now) (S.may_take rt.now) command.now
        (string_bytes places.main) (option_map string_bytes places.sums) places.proxy)
        (O.state out.old) (O.state out.new) (R.state report.old) (R.state report.new)
        (code_of result) }
{
    let proxy = places.proxy.take();
    match proxy {
        Some(folders) => {
            let served = over_folders(rt, command, &places, folders, out, report);
            ended(served, report)
        }
        None => {
            let served = over_memory(rt, command, &places, out, report);
            ended(served, report)
        }
    }
}
