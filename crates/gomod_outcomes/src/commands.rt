//! What each command ends with, over bytes that have been read and a store.

ghost use Rattle.std.specs.Prelude.{◌≡◌, []};
ghost use Rattle.std.specs.Option.{option_map};
ghost use Rattle.std.specs.Str.{IsUtf8};
ghost use Rattle.gomod_texts.specs.Outcome.{ended_view};
ghost use Rattle.gomod_outcomes.specs.Private.Ended.{outcome_view};
ghost use Rattle.gomod_outcomes.specs.Runs.{ComesTo};

use crate::edit::edit_outcome;
use crate::fmt::fmt_outcome;
use crate::queries::answering::answer;
use crate::queries::query::Query;
use crate::versions::versions_outcome;
use gm_store::Asks;
use gomod_texts::{Report, Text};
use gomod_words::Command;
use std::alloc::Global;

/// A text that was made, or a report.
fn whole<'c>(ended: Result<String, Report<'c>>) -> Result<Text, Report<'c>>
    ensures same { ended_view result ≡ outcome_view ended.entry }
    ensures utf8 { IsUtf8 (ended_view result).text }
{
    match ended {
        Ok(text) => Ok(Text::whole(text)),
        Err(told) => Err(told),
    }
}

/// What a command ends with over the bytes of the main file, those of a go.sum if one is given, and a store that has
/// not been asked yet: a text or a report. `run` of gomod_run writes it, and its doc comment says which report comes
/// when, and which of them `gomod: no memory` may replace. The store is asked only for files that are needed, each at
/// most once.
pub fn outcome<'c, F: Asks>(
    alloc: Global,
    command: &'c Command,
    main: &[u8],
    sums: Option<&[u8]>,
    files: &mut F,
) -> Result<Text, Report<'c>>
    requires { (F.state files.old).asked ≡ [] }
    ensures comes { ComesTo command.now main.now (option_map (λ sums. sums.now) sums.entry)
        (F.may_answer files.old) (F.may_answer files.new) (F.state files.old) (F.state files.new)
        (ended_view result) }
    ensures utf8 { IsUtf8 (ended_view result).text }
{
    match command {
        Command::Versions { path, all } => whole(versions_outcome(alloc, path, *all, files)),
        Command::Fmt => whole(fmt_outcome(alloc, main)),
        Command::Edit(operations) => whole(edit_outcome(alloc, operations.as_slice(), main)),
        Command::Graph => answer(alloc, Query::Graph, main, sums, files),
        Command::List { after, limit } => {
            answer(
                alloc,
                Query::List(after.as_ref(), *limit),
                main,
                sums,
                files,
            )
        }
        Command::Chain(path) => answer(alloc, Query::Chain(path), main, sums, files),
    }
}
