//! The words of a command line, read. Every usage error reads the same, whether the parser finds it or this crate: what
//! is wrong, a hint, the usage line, and how to get help.

ghost use Rattle.std.specs.Prelude.{IfErr, IfOk};
ghost use Rattle.clap.specs.Words.{subcommand_rows_of};
ghost use Rattle.gomod_hints.specs.Hints.{texts_of};
ghost use Rattle.gomod_words.specs.Private.Usage.{IsEntriesFault, IsFaultIn, IsParserFault, IsReadOf};
ghost use Rattle.gomod_words.specs.Usage.{AskFor, IsFaultOf, IsMeant, ShowsLine, ShowsUsage, entered};

use crate::command::gomod_command;
use crate::dashed::{dashed_in, first_with_dash};
use crate::query::{BAD_VALUE, read_chain, read_graph, read_list};
use crate::refusal::{message_in, subject_in};
use crate::table::{CommandName, command_named};
use crate::usage::{
    Command, Places, Read, UsageFault, dashed, incomplete, line, read_edit, read_fmt,
    read_versions, version,
};
use clap::ArgMatches;
use clap::error::ErrorKind;
use std::alloc::Global;

/// Reads the words of a command line, the first of which is the program's name. Gives the command and the
/// files and folders that it works on.
///
/// The refusals:
///
/// - `Help` if help is asked for, by `help` as the first word, or by `-h` or `--help`, including after a
///   command. It holds the help text.
/// - `Version` if the version is asked for, by `-V` or `--version` as the first word. It holds the line that says
///   it, and the kit that the program is proved with.
/// - `Line` if the words do not match any command, or a command has too few or too many words. It holds the
///   parser's message, at most one tip, and the usage line of the command that the words name, first or after
///   `help`, or otherwise that of the program. It also comes if the value of `--limit` is not one or more ASCII
///   digits that form a number from 1 to 4,294,967,295. Without a word after the program's name it holds the help.
///   It comes before anything else if the first word after `edit` that begins with a dash and is more than that is
///   an operation after one dash or two.
/// - `BadPath` if all of that is valid, but PATH of `versions` or `chain`, or the value of `--after` of
///   `list`, is not a module path. It holds that text.
/// - `BadProxy` if all of that is valid, but the value of `--proxy` has an empty piece between its `,` and
///   `|`, or a piece that is `direct` or `off`. It holds that value.
/// - `NoMemory` if memory runs out, which can happen instead of any result.
///
/// `versions` prints all versions if `--retracted` is given or `--proxy` is not. `graph`, `list` and `chain`
/// require `--proxy`. Their main file is that of `--mod`, or `go.mod` by default, and their go.sum is that of
/// `--sum`, or none.
pub fn read_words<'a>(alloc: Global, words: &'a [&'a str]) -> Result<(Command, Places), UsageFault>
    ensures read { IfOk result (λ read. AskFor (texts_of words.entry.now) read.0 read.1) }
    ensures fault { IfErr result (IsFaultOf (texts_of words.entry.now)) }
{
    if let Some(operation) = dashed_in(words) {
        return Err(dashed(alloc, operation, first_with_dash(words), words));
    }
    let command = gomod_command(alloc)?;
    match command.try_get_matches_from(words) {
        Ok(matches) => read_shown(alloc, &matches, words),
        Err(error) => Err(fault_of(alloc, &error, words)),
    }
}

/// The fault that a parser's error on these words stands for. The error must be turned into text here, so memory can
/// run out. Without a word after the program's name the text is the help.
#[tactic(auto, using(crate::proofs::UsageLines::shows_usage))]
fn fault_of(alloc: Global, error: &clap::Error, words: &[&str]) -> UsageFault
    ensures fault { IsParserFault error.now result }
    ensures usage { ShowsUsage (texts_of words.now) result }
{
    let kind = error.kind();
    if matches!(kind, ErrorKind::OutOfMemory) {
        return UsageFault::NoMemory;
    }
    if matches!(kind, ErrorKind::DisplayVersion) {
        return version(alloc);
    }
    let Ok(text) = error.to_string(alloc) else {
        return UsageFault::NoMemory;
    };
    if matches!(kind, ErrorKind::DisplayHelp) {
        UsageFault::Help(text)
    } else if words.len() < 2 {
        UsageFault::Line(text)
    } else {
        let message = message_in(kind, text.as_str(), words);
        line(alloc, message, subject_in(kind, message, words), words)
    }
}

/// What the matches of a parse mean. A usage error shows all that one of these words must.
#[tactic(auto, using(crate::proofs::UsageLines::line_fault))]
fn read_shown(alloc: Global, matches: &ArgMatches, words: &[&str]) -> Read
    ensures read { IfOk result (λ read. IsMeant (entered (subcommand_rows_of matches.now)) read.0 read.1) }
    ensures fault { IfErr result (IsEntriesFault (entered (subcommand_rows_of matches.now))) }
    ensures usage { IfErr result (ShowsLine (texts_of words.now)) }
{
    match read_matches(alloc, matches) {
        Ok(read) => Ok(read),
        Err(UsageFault::Line(message)) => Err(line(
            alloc,
            message.as_str(),
            subject_of(message.as_str()),
            words,
        )),
        Err(UsageFault::BadPath(text)) => Err(UsageFault::BadPath(text)),
        Err(UsageFault::BadProxy(text)) => Err(UsageFault::BadProxy(text)),
        Err(_) => Err(UsageFault::NoMemory),
    }
}

/// What this message is about, which the matches of a parse gave.
fn subject_of(message: &str) -> Option<&'static str> {
    message.starts_with(BAD_VALUE).then_some("--limit")
}

/// What the matches of a parse mean. A fault with a message has that alone, here and below.
fn read_matches(alloc: Global, matches: &ArgMatches) -> Read
    ensures read { IfOk result (λ read. IsMeant (entered (subcommand_rows_of matches.now)) read.0 read.1) }
    ensures fault { IfErr result (IsEntriesFault (entered (subcommand_rows_of matches.now))) }
{
    let Some((name, found)) = matches.subcommand() else {
        return Err(incomplete(alloc));
    };
    match command_named(name) {
        Some(command) => read_command(alloc, command, found),
        None => Err(incomplete(alloc)),
    }
}

/// What the words of this command mean.
fn read_command(alloc: Global, command: CommandName, found: &ArgMatches) -> Read
    ensures read { IfOk result (IsReadOf command found.now) }
    ensures fault { IfErr result (IsFaultIn command found.now) }
{
    match command {
        CommandName::Fmt => read_fmt(alloc, found),
        CommandName::Edit => read_edit(alloc, found),
        CommandName::Versions => read_versions(alloc, found),
        CommandName::Graph => read_graph(alloc, found),
        CommandName::List => read_list(alloc, found),
        CommandName::Chain => read_chain(alloc, found),
    }
}
