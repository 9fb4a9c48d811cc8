//! Reading the files that a command works on: the main file, then the go.sum if one is named. Either may be standard
//! input, whose name is `-`.

ghost use Rattle.std.specs.Prelude.{◌≡◌, IfErr, IfOk, MatchResult, None, Ok, Option, Some, false};
ghost use Rattle.std.specs.Option.{option_map};
ghost use Rattle.std.specs.String.{string_bytes};
ghost use Rattle.gm_store_parts.specs.Openings.{MayRead};
ghost use Rattle.gm_store_parts.specs.declared.fallback.proxy_list.ProxyList.{ProxyList};
ghost use Rattle.gomod_texts.specs.Outcome.{OrNoMemory, report_outcome};
ghost use Rattle.gomod_run.specs.Program.{FileGives, IsInput, CommandEnds, IsUnread, bytes_read, main_input, sums_input, versions_path};
ghost use Rattle.gomod_outcomes.specs.Runs.{is_query};

use gm_name::ModPath;
use gm_store::{FileSystem, ReadFault, StandardInput, read_file, read_input};
use gomod_texts::Report;
use gomod_words::{Command, Places};
use std::alloc::Global;

/// The name of standard input as a FILE.
pub(crate) const STANDARD_INPUT: &str = "-";

/// The bytes of the files that a command works on, besides those that it asks its store for.
#[derive(Drop)]
pub(crate) struct Inputs {
    /// The main file, if the command reads one.
    main: Option<Vec<u8>>,
    /// The go.sum, if the command reads one.
    sums: Option<Vec<u8>>,
}

impl Inputs {
    /// The bytes of the main file; none if the command reads none.
    pub(crate) fn main(&self) -> &[u8]
        ensures { result.now ≡ bytes_read self.now.main }
    {
        match &self.main {
            Some(main) => main.as_slice(),
            None => &[],
        }
    }

    /// The bytes of the go.sum, if the command reads one.
    pub(crate) fn sums(&self) -> Option<&[u8]>
        ensures { option_map (λ sums. sums.now) result ≡ option_map (λ sums. sums.items) self.now.sums }
    {
        match &self.sums {
            Some(sums) => Some(sums.as_slice()),
            None => None,
        }
    }
}

/// The path of the module whose versions a command lists, or `None` if it is not `versions`.
pub(crate) fn versions_path(command: &Command) -> Option<&ModPath>
    ensures { option_map (λ path. path.now) result ≡ versions_path command.now }
{
    match command {
        Command::Versions { path, .. } => Some(path),
        Command::Fmt => None,
        Command::Edit(_) => None,
        Command::Graph => None,
        Command::List { .. } => None,
        Command::Chain(_) => None,
    }
}

/// Whether a command is a query on a module graph, which may read a go.sum.
fn is_query(command: &Command) -> bool
    ensures { result ≡ is_query command.now }
{
    match command {
        Command::Graph => true,
        Command::List { .. } => true,
        Command::Chain(_) => true,
        Command::Fmt => false,
        Command::Edit(_) => false,
        Command::Versions { .. } => false,
    }
}

/// The name of the main file: `versions` has none.
fn main_name<'a>(command: &Command, places: &'a Places) -> Option<&'a str>
    ensures { option_map (λ name. name.now) result ≡ main_input command.now (string_bytes places.now.main) }
{
    match versions_path(command) {
        Some(_) => None,
        None => Some(places.main.as_str()),
    }
}

/// The name of the go.sum, if the command reads one and one is named.
fn sums_name<'a>(command: &Command, places: &'a Places) -> Option<&'a str>
    ensures { option_map (λ name. name.now) result
        ≡ sums_input command.now (option_map string_bytes places.now.sums) }
{
    if !is_query(command) {
        return None;
    }
    match &places.sums {
        Some(name) => Some(name.as_str()),
        None => None,
    }
}

/// The bytes of a FILE: of standard input if it is `-`, otherwise of the file with this name.
fn read_bytes<S: StandardInput + FileSystem + Alloc<A = Global>>(
    rt: &S,
    name: &str,
) -> Result<Vec<u8>, ReadFault>
    ensures { MayRead (FileGives (S.may_open rt.now) (S.may_take rt.now) name.now) result }
{
    match name {
        STANDARD_INPUT => read_input(rt, rt.alloc()),
        _ => read_file(rt, rt.alloc(), name),
    }
}

/// The bytes of a FILE, or the report that it can't be read.
pub(crate) fn read_named<'a, S: StandardInput + FileSystem + Alloc<A = Global>>(
    rt: &S,
    name: &'a str,
) -> Result<Vec<u8>, Report<'a>>
    ensures { MatchResult result
        (λ bytes. MayRead (FileGives (S.may_open rt.now) (S.may_take rt.now) name.now) (Ok bytes))
        (λ told. OrNoMemory (IsUnread (FileGives (S.may_open rt.now) (S.may_take rt.now)) (Some name.now))
        (report_outcome told)) }
{
    match read_bytes(rt, name) {
        Ok(bytes) => Ok(bytes),
        Err(ReadFault::NoMemory) => Err(Report::NoMemory),
        Err(ReadFault::Device) => Err(Report::Unreadable(name)),
    }
}

/// The bytes of a FILE if one is named, or the report that it can't be read.
fn read_optional<'a, S: StandardInput + FileSystem + Alloc<A = Global>>(
    rt: &S,
    name: Option<&'a str>,
) -> Result<Option<Vec<u8>>, Report<'a>>
    ensures { MatchResult result
        (IsInput (FileGives (S.may_open rt.now) (S.may_take rt.now)) (option_map (λ name. name.now) name.entry))
        (λ told. OrNoMemory (IsUnread (FileGives (S.may_open rt.now) (S.may_take rt.now))
        (option_map (λ name. name.now) name.entry)) (report_outcome told)) }
{
    match name {
        Some(name) => Ok(Some(read_named(rt, name)?)),
        None => Ok(None),
    }
}

/// The files that a command works on: the main file, then the go.sum. The first that can't be read is reported.
pub(crate) fn read_inputs<'a, S: StandardInput + FileSystem + Alloc<A = Global>>(
    rt: &S,
    command: &Command,
    places: &'a Places,
) -> Result<Inputs, Report<'a>>
    ensures main { IfOk result (λ inputs. IsInput (FileGives (S.may_open rt.now) (S.may_take rt.now))
        (main_input command.now (string_bytes places.now.main)) inputs.main) }
    ensures sums { IfOk result (λ inputs. IsInput (FileGives (S.may_open rt.now) (S.may_take rt.now))
        (sums_input command.now (option_map string_bytes places.now.sums)) inputs.sums) }
    ensures no_sums { IfOk result (λ inputs. is_query command.now ≡ false
        → option_map (λ sums. sums.items) inputs.sums ≡ None) }
    ensures unread { (proxy : Option ProxyList) → IfErr result (λ told.
        OrNoMemory (CommandEnds (S.may_open rt.now) (S.may_take rt.now) command.now (string_bytes places.now.main)
        (option_map string_bytes places.now.sums) proxy) (report_outcome told)) }
{
    let main = read_optional(rt, main_name(command, places))?;
    let sums = read_optional(rt, sums_name(command, places))?;
    Ok(Inputs { main, sums })
}
