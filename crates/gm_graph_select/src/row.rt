//! Rows of the build list, and the rest of it after a row.
//!
//! The list can be printed in pages. A page starts after the last path of the page before, so each run can print
//! one page without any state.

ghost use Rattle.std.specs.Prelude.{◌≡◌, IfNone, IfOk, IfSome, OnErr};
ghost use Rattle.std.specs.Iterator.{YieldsFirstRef, item_count};
ghost use Rattle.gm_graph_select.specs.BuildList.{IsAt, HasEntryFor, IsRestAfter, entries_in, path_of};

use crate::step::Step;
use gm_name::ModPath;
use std::marker::Model;
use thiserror::Error;

/// A row of the build list: the main module or the selected version of a path, with its replacement, which may be of
/// any type.
#[derive(Debug, Drop, PartialEq, Eq)]
pub struct Row<R> {
    /// The main module, or a path at its selected version.
    pub step: Step,
    /// The right-hand side of the `replace` directive that applies to it, if there is one.
    pub right: Option<R>,
}

/// The path is not in the build list.
#[derive(Clone, Copy, Debug, PartialEq, Eq, Error)]
#[error("not in the build list")]
pub struct NotListed;

/// An iterator over rows, in order. It takes no memory. A clause sees it as the list of the rows that are still to
/// come.
#[derive(Drop)]
pub struct Rows<'a, R> {
    /// The rows that are still to come.
    rest: &'a [Row<R>],
}

impl<'a, R> Model for Rows<'a, R> {
    ghost use Rattle.std.specs.Prelude.{List};
    ghost use Rattle.gm_graph_select.specs.declared.row.Row.{Row};

    ghost Value = { List (Row R) };

    ghost view = { λ rows. rows.rest.now };
}

impl<'a, R> Iterator for Rows<'a, R> {
    /// A row of the list.
    type Item = &'a Row<R>;

    ghost next_gives = { YieldsFirstRef (λ rows. rows) };

    ghost remaining = { item_count (λ rows. rows) };

    /// The next row, or `None` after the last one.
    fn next(&mut self) -> Option<&'a Row<R>> {
        let (first, others) = self.rest.split_first()?;
        self.rest = others;
        Some(first)
    }
}

impl<'a, R> Rows<'a, R> {
    /// All rows of a list.
    pub fn all(rows: &'a [Row<R>]) -> Rows<'a, R>
        ensures { result ≡ rows.now }
    {
        Rows { rest: rows }
    }
}

/// The path of a step.
fn path_of<'a>(main: &'a ModPath, step: &'a Step) -> &'a ModPath
    ensures { result.now ≡ path_of main.now step.now }
{
    match step {
        Step::Main => main,
        Step::Of(vertex) => vertex.path(),
    }
}

/// The first row of a path, and the rows after it.
pub(crate) fn row_at<'a, R>(
    main: &ModPath,
    rows: &'a [Row<R>],
    path: &ModPath,
) -> Option<(&'a Row<R>, Rows<'a, R>)>
    ensures some { IfSome result (λ found.
        IsAt main.now (entries_in rows.now) path.now
        (found.0.now.step, found.0.now.right) (entries_in found.1)) }
    ensures none { IfNone result (¬ (HasEntryFor main.now (entries_in rows.now) path.now)) }
{
    let mut rest = Rows::all(rows);
    'rows: while let Some(row) = rest.next() {
        if *path_of(main, &row.step) == *path {
            return Some((row, rest));
        }
    }
    None
}

/// The rows after the row of a path, where `main` is the main module's path. After the main module these are all
/// rows but the first.
///
/// `NotListed` is returned exactly if no row has the path. The call takes no memory, and looks at each row at most
/// once.
pub fn rest_after<'a, R>(
    main: &ModPath,
    rows: &'a [Row<R>],
    path: &ModPath,
) -> Result<Rows<'a, R>, NotListed>
    ensures rest { IfOk result (λ left.
        IsRestAfter main.now (entries_in rows.now) path.now (entries_in left)) }
    ensures not_listed { OnErr result (¬ (HasEntryFor main.now (entries_in rows.now) path.now)) }
{
    match row_at(main, rows, path) {
        Some((_, rest)) => Ok(rest),
        None => Err(NotListed),
    }
}
