//! What the words of a command line may ask for, and the faults of words that ask for nothing.

ghost use Rattle.std.specs.Prelude.{◌≡◌, ◌++◌, IfErr, IfOk, None, OnOk, Some, codes, encode_utf8_all, map, true};
ghost use Rattle.std.specs.Option.{option_copied, option_map};
ghost use Rattle.clap.specs.Words.{all_of};
ghost use Rattle.std.specs.Char.Escape.{escape_ascii};
ghost use Rattle.std.specs.String.{string_bytes};
ghost use Rattle.gomod_words.specs.Usage.{HasHintOf, HasNoTip, IsBadPath, IsBadProxy, IsLineOn, IsOneFile, IsProxy, IsVersionLine, ShowsLine, dashed_message, given, has_value, is_line_or_memory, shown_bytes, texts_in, unreadable_text, usage_text};
ghost use Rattle.gomod_hints.specs.Hints.{texts_of};
ghost use Rattle.gomod_words.specs.Private.Usage.{IsFaultIn, IsFaultWith, IsLineOf, IsReadOf, entries, none};
ghost use Rattle.gomod_words.specs.Table.{argument_name};
ghost use Rattle.gm_name.specs.Path.{IsPath};
ghost use Rattle.gomod_words.specs.declared.usage.UsageFault.TheVariants.{NoMemory};

use crate::help::{GOMOD_USAGE, TRY_HELP, VERSION};
use crate::refusal::{TIP, is_within};
use crate::table::{Argument, CommandName, argument_row, takes_operations, usage_of};
use clap::ArgMatches;
use gm_name::{ModPath, PathFault};
use gm_store::{ProxyFault, ProxyList};
use gomod_hints::hint_for;
use std::alloc::{AllocError, Global};
use thiserror::Error;

/// What a command line asks for, or its fault.
pub(crate) type Read = Result<(Command, Places), UsageFault>;

/// What the program is asked to do.
#[derive(Drop)]
pub enum Command {
    /// `fmt FILE`: print the layout of a go.mod file.
    Fmt,
    /// `edit FILE OP..`: apply the operations that these texts describe to a go.mod file, in their order, and
    /// print the layout of the result. When the command comes from a command line, there is at least one.
    Edit(Vec<String>),
    /// `versions PATH`: print the versions of a module in ascending order.
    Versions {
        /// The path of the module.
        path: ModPath,
        /// Whether to print also the versions that the go.mod file of the latest version retracts.
        all: bool,
    },
    /// `graph`: print the edges of the module graph.
    Graph,
    /// `list`: print the build list.
    List {
        /// Print only the rows after the row of this path, or all rows if `None`.
        after: Option<ModPath>,
        /// Print at most this many rows, or all if `None`. At least 1 when the command comes from a command
        /// line.
        limit: Option<u32>,
    },
    /// `chain PATH`: print a shortest chain of requirements to the build list's entry for a path.
    Chain(ModPath),
}

/// The files and folders that the words name.
#[derive(Drop)]
pub struct Places {
    /// The name of the main file: `go.mod` unless the words name another.
    pub main: String,
    /// The proxy folders, or `None` if the words name none.
    pub proxy: Option<ProxyList>,
    /// The name of the go.sum, or `None` if the words name none.
    pub sums: Option<String>,
}

/// Why words don't ask for anything that the program does.
#[derive(Debug, Drop, Error)]
pub enum UsageFault {
    /// Memory ran out.
    #[error("no memory")]
    NoMemory,
    /// Help was asked for. This is its text.
    #[error("{0}")]
    Help(String),
    /// The version was asked for. This is the line that says it.
    #[error("{0}")]
    Version(String),
    /// The words are not a valid command line. This text says what is wrong with them. If there are no words but the
    /// program's name, it is the help of the program.
    #[error("{0}")]
    Line(String),
    /// This word is not a module path, and one is required in its position.
    #[error("bad path {0}")]
    BadPath(String),
    /// This value of `--proxy` is not a valid list of folders.
    #[error("bad proxy {0}")]
    BadProxy(String),
}

/// The refusal to allocate, as a fault, so that `?` can pass it on.
impl From<AllocError> for UsageFault {
    ghost from_gives = { λ _ fault. fault ≡ NoMemory };

    /// `NoMemory`, the only thing that the error can mean.
    fn from(_error: AllocError) -> UsageFault {
        UsageFault::NoMemory
    }
}

/// The answer to words that ask for the version.
pub(crate) fn version(alloc: Global) -> UsageFault
    ensures { IsVersionLine result }
{
    match format!(in alloc; "gomod {VERSION}\n") {
        Ok(line) => UsageFault::Version(line),
        Err(_) => UsageFault::NoMemory,
    }
}

/// The fault with this message, unless memory ran out.
pub(crate) fn refused(message: Result<String, AllocError>) -> UsageFault
    ensures { is_line_or_memory result ≡ true }
{
    match message {
        Ok(message) => UsageFault::Line(message),
        Err(_) => UsageFault::NoMemory,
    }
}

/// What is wrong with words without a command, or without an argument that must be given. The parser accepts none of
/// those, but its types can't say so.
pub(crate) fn incomplete(alloc: Global) -> UsageFault
    ensures { is_line_or_memory result ≡ true }
{
    refused(String::from_str(alloc, "error: an argument is missing"))
}

/// The first value of an argument, or `None` if the argument is not given.
pub(crate) fn value_of<'a>(found: &ArgMatches<'a>, argument: Argument) -> Option<&'a str>
    ensures { option_copied result ≡ given argument (entries found.now) }
{
    found.get_str(argument_row(argument).name)
}

/// All values of an argument, or `None` if the argument is not given.
fn values_of<'a, 'f>(found: &'f ArgMatches<'a>, argument: Argument) -> Option<&'f [&'a str]>
    ensures { option_map (λ words. map (λ word. word.now) words.now) result
        ≡ all_of (argument_name argument) (entries found.now) }
{
    found.get_strs(argument_row(argument).name)
}

/// Whether the first value of an argument is this text. That of a flag is `true` or `false`.
pub(crate) fn has_value(found: &ArgMatches, argument: Argument, text: &str) -> bool
    ensures { result ≡ has_value argument text.now (entries found.now) }
{
    match value_of(found, argument) {
        Some(value) => value == text,
        None => false,
    }
}

/// The module path that a word is. An invalid path is refused with `BadPath`.
pub(crate) fn read_path(alloc: Global, text: &str) -> Result<ModPath, UsageFault>
    ensures path { IfOk result (λ path. (path ≡ text.now) × IsPath text.now) }
    ensures fault { IfErr result (IsFaultWith ⊥ (IsBadPath (Some text.now)) none) }
{
    match ModPath::parse(alloc, text) {
        Ok(path) => Ok(path),
        Err(PathFault::BadPath) => Err(UsageFault::BadPath(String::from_str(alloc, text)?)),
        Err(PathFault::NoMemory) => Err(UsageFault::NoMemory),
    }
}

/// The proxy folders that `--proxy` names, or `None` if the option is not given. An invalid value is refused
/// with `BadProxy`.
pub(crate) fn proxy_given(
    alloc: Global,
    found: &ArgMatches,
) -> Result<Option<ProxyList>, UsageFault>
    ensures proxy { IfOk result (IsProxy (given Argument.Proxy (entries found.now))) }
    ensures fault { IfErr result (IsFaultWith ⊥ none (IsBadProxy (given Argument.Proxy (entries found.now)))) }
{
    let Some(value) = value_of(found, Argument::Proxy) else {
        return Ok(None);
    };
    match ProxyList::read(alloc, value) {
        Ok(list) => Ok(Some(list)),
        Err(ProxyFault::BadProxy) => Err(UsageFault::BadProxy(String::from_str(alloc, value)?)),
        Err(ProxyFault::NoMemory) => Err(UsageFault::NoMemory),
    }
}

/// PATH, which must be given. An invalid path is refused with `BadPath`.
pub(crate) fn path_given(alloc: Global, found: &ArgMatches) -> Result<ModPath, UsageFault>
    ensures path { IfOk result (λ path. (given Argument.Path (entries found.now) ≡ Some path) × IsPath path) }
    ensures fault { IfErr result (IsFaultWith (given Argument.Path (entries found.now) ≡ None)
        (IsBadPath (given Argument.Path (entries found.now))) none) }
{
    match value_of(found, Argument::Path) {
        Some(text) => read_path(alloc, text),
        None => Err(incomplete(alloc)),
    }
}

/// The place of a command over the file alone that this argument names.
fn file_given(alloc: Global, found: &ArgMatches, argument: Argument) -> Result<Places, UsageFault>
    ensures places { IfOk result (λ places. IsOneFile (given argument (entries found.now)) places
        × (places.proxy ≡ None)) }
    ensures fault { IfErr result (IsFaultWith (given argument (entries found.now) ≡ None) none none) }
{
    let Some(file) = value_of(found, argument) else {
        return Err(incomplete(alloc));
    };
    Ok(Places {
        main: String::from_str(alloc, file)?,
        proxy: None,
        sums: None,
    })
}

/// What the words of `fmt` stand for.
pub(crate) fn read_fmt(alloc: Global, found: &ArgMatches) -> Read
    ensures read { IfOk result (IsReadOf CommandName.Fmt found.now) }
    ensures fault { IfErr result (IsFaultIn CommandName.Fmt found.now) }
{
    let places = file_given(alloc, found, Argument::FmtFile)?;
    Ok((Command::Fmt, places))
}

/// Copies the words into texts that outlive the command line.
fn copied(alloc: Global, words: &[&str]) -> Result<Vec<String>, AllocError>
    ensures { IfOk result (λ texts. texts_in texts ≡ map (λ word. word.now) words.now) }
{
    let mut texts = Vec::new(alloc);
    for word in words {
        texts.push(String::from_str(alloc, word)?)?;
    }
    Ok(texts)
}

/// What the words of `edit` stand for. The operations are not parsed here.
pub(crate) fn read_edit(alloc: Global, found: &ArgMatches) -> Read
    ensures read { IfOk result (IsReadOf CommandName.Edit found.now) }
    ensures fault { IfErr result (IsFaultIn CommandName.Edit found.now) }
{
    let Some(operations) = values_of(found, Argument::Operations) else {
        return Err(incomplete(alloc));
    };
    let operations = copied(alloc, operations)?;
    let places = file_given(alloc, found, Argument::EditFile)?;
    Ok((Command::Edit(operations), places))
}

/// What the words of `versions` stand for. Without `--proxy` all versions are asked for: there is no file that
/// could retract any.
pub(crate) fn read_versions(alloc: Global, found: &ArgMatches) -> Read
    ensures read { IfOk result (IsReadOf CommandName.Versions found.now) }
    ensures fault { IfErr result (IsFaultIn CommandName.Versions found.now) }
{
    let path = path_given(alloc, found)?;
    let proxy = proxy_given(alloc, found)?;
    let all = has_value(found, Argument::Retracted, "true") || proxy.is_none();
    let places = Places {
        main: String::from_str(alloc, "go.mod")?,
        proxy,
        sums: None,
    };
    Ok((Command::Versions { path, all }, places))
}

/// The usage error of a word that is not UTF-8, which it shows with its bytes escaped.
pub(crate) fn unreadable(alloc: Global, word: &[u8]) -> UsageFault
    ensures { IsLineOf (unreadable_text word.now) result }
{
    match unreadable_message(alloc, word) {
        Ok(message) => usage_error(alloc, message.as_str(), GOMOD_USAGE),
        Err(_) => UsageFault::NoMemory,
    }
}

/// What is wrong with a word that is not UTF-8.
fn unreadable_message(alloc: Global, word: &[u8]) -> Result<String, AllocError>
    ensures { IfOk result (λ message. string_bytes message
        ≡ codes "error: the word '" ++ shown_bytes word.now ++ codes "' is not UTF-8") }
{
    let shown = shown(alloc, word)?;
    let message = format!(in alloc; "error: the word '{shown}' is not UTF-8")?;
    Ok(message)
}

/// The bytes as they are shown if they are not UTF-8.
fn shown(alloc: Global, bytes: &[u8]) -> Result<String, AllocError>
    ensures { IfOk result (λ text. string_bytes text ≡ shown_bytes bytes.now) }
{
    let mut text = String::new(alloc);
    for byte in bytes {
        push_shown(&mut text, *byte)?;
    }
    Ok(text)
}

/// Appends a byte: itself if it prints, and otherwise its code, such as `\xe9`.
fn push_shown(text: &mut String, byte: u8) -> Result<(), AllocError>
    ensures { OnOk result (string_bytes text.new ≡ string_bytes text.old ++ encode_utf8_all (escape_ascii byte)) }
{
    let mut rest = byte.escape_ascii();
    'escape: while let Some(code) = rest.next() {
        text.push(char::from(code))?;
    }
    Ok(())
}

/// The usage error of an operation that was written with a dash in front, as this word among these.
pub(crate) fn dashed(
    alloc: Global,
    operation: &str,
    word: Option<&str>,
    words: &[&str],
) -> UsageFault
    ensures { IsLineOn (texts_of words.now) (dashed_message operation.now) result }
{
    match format!(in alloc; "error: operations have no dash: {operation}") {
        Ok(message) => hinted(alloc, message.as_str(), word, words),
        Err(_) => UsageFault::NoMemory,
    }
}

/// The usage error of these words with this message, without a tip of the parser's, and what it is about.
pub(crate) fn line(alloc: Global, message: &str, about: Option<&str>, words: &[&str]) -> UsageFault
    ensures kind { is_line_or_memory result ≡ true }
    ensures usage { ShowsLine (texts_of words.now) result }
{
    hinted(alloc, without_tip(message, words), about, words)
}

/// The message up to its first tip, unless a word has what a tip begins with.
fn without_tip<'t>(message: &'t str, words: &[&str]) -> &'t str
    ensures { HasNoTip (texts_of words.now) result.now }
{
    if is_within(TIP, words) {
        return message;
    }
    match message.split_once(TIP) {
        Some((front, _)) => front,
        None => message,
    }
}

/// The usage error of these words with this message: after it the hint on what it is about, and the usage line.
fn hinted(alloc: Global, message: &str, about: Option<&str>, words: &[&str]) -> UsageFault
    ensures kind { is_line_or_memory result ≡ true }
    ensures text { IsLineOn (texts_of words.now) message.now result }
{
    match with_hint(alloc, message, about, words) {
        Ok(message) => usage_error(alloc, message.as_str(), usage_of(words)),
        Err(_) => UsageFault::NoMemory,
    }
}

/// The message, and after it the hint on what it is about.
fn with_hint(
    alloc: Global,
    message: &str,
    about: Option<&str>,
    words: &[&str],
) -> Result<String, AllocError>
    ensures { IfOk result (λ text. HasHintOf (texts_of words.now) message.now (string_bytes text)) }
{
    let hint = hint_for(alloc, takes_operations(words), about, words)?;
    match hint {
        Some(hint) => {
            let text = format!(in alloc; "{message}{TIP}{hint}")?;
            Ok(text)
        }
        None => Ok(String::from_str(alloc, message)?),
    }
}

/// A usage error: what is wrong, the usage line, and how to get help.
fn usage_error(alloc: Global, message: &str, usage: &str) -> UsageFault
    ensures kind { is_line_or_memory result ≡ true }
    ensures text { IsLineOf (usage_text message.now usage.now) result }
{
    match format!(in alloc; "{message}\n\nUsage: {usage}{TRY_HELP}") {
        Ok(text) => UsageFault::Line(text),
        Err(_) => UsageFault::NoMemory,
    }
}
