//! `list`: all rows of the build list, those after a path, or a part of them.

ghost use Rattle.std.specs.Prelude.{◌≡◌, ◌<◌, ◌^◌, [], IfErr, IfOk, Option, ℕ, drop, length};
ghost use Rattle.std.specs.Option.{option_copied};
ghost use Rattle.gomod_texts.specs.ListQuery.{up_to, list_text, PrintsRows};
ghost use Rattle.gomod_texts.specs.Outcome.{OrNoMemory, ended_view, report_outcome, text_outcome};

use gm_file::MainModule;
use gm_graph::{Loaded, Rows};
use gm_name::ModPath;
use gomod_texts::{Report, Text};
use std::alloc::Global;

/// How many rows there are.
fn count_of(rows: Rows<'_>) -> usize
    requires { length rows < 2 ^ 64 }
    ensures { result ≡ length rows.entry }
{
    let mut count = 0;
    'rows: for _row in rows {
        count += 1;
    }
    count
}

/// How many rows come before those to print: none, or those up to the row of a path. A path that is not in the build
/// list is reported.
fn first_row<'q>(
    main: &MainModule,
    loaded: &Loaded,
    after: Option<&'q ModPath>,
) -> Result<usize, Report<'q>>
    requires no_fault { loaded.now.faults ≡ [] }
    requires main { loaded.now.main ≡ main.now.path }
    ensures printed { IfOk result (λ from. (limit : Option ℕ)
        → PrintsRows main.now loaded.now.rows (option_copied after.entry) limit
        (text_outcome (list_text main.now.path (up_to limit (drop from loaded.now.rows))))) }
    ensures told { IfErr result (λ told. (limit : Option ℕ)
        → PrintsRows main.now loaded.now.rows (option_copied after.entry) limit (report_outcome told)) }
{
    let Some(path) = after else {
        return Ok(0);
    };
    match loaded.rest_after(path) {
        Ok(rest) => Ok(loaded.build_list().len() - count_of(rest)),
        Err(_) => Err(Report::NotListed(path)),
    }
}

/// `list`: all rows, or those after the row of a path, and of these the first `limit`, or all if there is no limit. A
/// path that is not in the build list is reported.
pub(crate) fn list_outcome<'q>(
    alloc: Global,
    main: &MainModule,
    loaded: Loaded,
    after: Option<&'q ModPath>,
    limit: Option<u32>,
) -> Result<Text, Report<'q>>
    requires no_fault { loaded.faults ≡ [] }
    requires main { loaded.main ≡ main.now.path }
    ensures { OrNoMemory (PrintsRows main.now loaded.rows (option_copied after.entry) limit)
        (ended_view result) }
{
    let from = first_row(main, &loaded, after)?;
    let main = main.path().copy(alloc)?;
    Ok(Text::rows(main, loaded, from, limit))
}
