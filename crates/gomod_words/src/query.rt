//! The meaning of the words of `graph`, `list` and `chain`. The three share the options that say where the
//! module graph comes from, so these are read in one place.

ghost use Rattle.std.specs.Prelude.{◌≡◌, IfErr, IfOk, IfSome, None, codes, false, option_map, true, unwrap_or};
ghost use Rattle.std.specs.Option.{option_and_then};
ghost use Rattle.std.specs.String.{string_bytes};
ghost use Rattle.gm_name.specs.Path.{IsPath};
ghost use Rattle.gomod_words.specs.Limits.{limit_of};
ghost use Rattle.gomod_words.specs.Usage.{ArePlaces, IsBadPath, IsBadProxy, IsProxy, given, has_limit, is_input_twice};
ghost use Rattle.gomod_words.specs.Private.Usage.{IsFaultIn, IsFaultWith, IsReadOf, LacksPlaces, entries, none};

use crate::table::{Argument, CommandName};
use crate::usage::{
    Command, Places, Read, UsageFault, has_value, incomplete, path_given, proxy_given, read_path,
    refused, value_of,
};
use clap::ArgMatches;
use gm_name::{ModPath, has_only_digits};
use gm_store::ProxyList;
use std::alloc::{AllocError, Global};

/// The number of rows that a text stands for, or `None` if it is not one or more ASCII digits that form a
/// number from 1 to 4,294,967,295.
pub(crate) fn limit_in(text: &str) -> Option<u32>
    ensures { result ≡ limit_of text.now }
{
    // `parse` also accepts a sign, which a limit must not have.
    if !has_only_digits(text.as_bytes()) {
        return None;
    }
    match text.parse::<u32>() {
        Ok(number) => { if number > 0 { Some(number) } else { None } }
        Err(_) => None,
    }
}

/// How the message on an invalid value of `--limit` begins.
pub(crate) const BAD_VALUE: &str = "error: invalid value '";

/// The number of rows that `--limit` asks for, or `None` if the option is not given. An invalid number is
/// refused with `Line`.
fn limit_given(alloc: Global, found: &ArgMatches) -> Result<Option<u32>, UsageFault>
    ensures limit { IfOk result (λ limit. (has_limit (given Argument.Limit (entries found.now)) ≡ true)
        × (option_and_then limit_of (given Argument.Limit (entries found.now)) ≡ limit)) }
    ensures fault { IfErr result
        (IsFaultWith (has_limit (given Argument.Limit (entries found.now)) ≡ false) none none) }
{
    let Some(text) = value_of(found, Argument::Limit) else {
        return Ok(None);
    };
    match limit_in(text) {
        Some(limit) => Ok(Some(limit)),
        None => Err(refused(format!(in alloc;
            "{BAD_VALUE}{text}' for '--limit <N>': not a number from 1 to 4294967295"
        ))),
    }
}

/// The path that `--after` names, or `None` if the option is not given. An invalid path is refused with
/// `BadPath`.
fn after_given(alloc: Global, found: &ArgMatches) -> Result<Option<ModPath>, UsageFault>
    ensures after { IfOk result (λ after. (given Argument.After (entries found.now) ≡ after)
        × IfSome after IsPath) }
    ensures fault { IfErr result (IsFaultWith ⊥ (IsBadPath (given Argument.After (entries found.now))) none) }
{
    match value_of(found, Argument::After) {
        Some(text) => Ok(Some(read_path(alloc, text)?)),
        None => Ok(None),
    }
}

/// The name of the main file: that of `--mod`, or `go.mod`.
fn main_given(alloc: Global, found: &ArgMatches) -> Result<String, AllocError>
    ensures { IfOk result (λ main. string_bytes main
        ≡ unwrap_or (given Argument.Mod (entries found.now)) (codes "go.mod")) }
{
    String::from_str(alloc, value_of(found, Argument::Mod).unwrap_or("go.mod"))
}

/// The name of the go.sum, or `None` if `--sum` is not given.
fn sums_given(alloc: Global, found: &ArgMatches) -> Result<Option<String>, AllocError>
    ensures { IfOk result (λ sums. option_map string_bytes sums
        ≡ given Argument.Sum (entries found.now)) }
{
    match value_of(found, Argument::Sum) {
        Some(name) => Ok(Some(String::from_str(alloc, name)?)),
        None => Ok(None),
    }
}

/// Whether standard input is named twice, as the main file and as the go.sum.
fn is_input_twice(found: &ArgMatches) -> bool
    ensures { result ≡ is_input_twice (entries found.now) }
{
    has_value(found, Argument::Mod, "-") && has_value(found, Argument::Sum, "-")
}

/// The files and folders of a command over a module graph. That there are no folders is refused with `Line`, and so is,
/// after what is wrong with them, that standard input is both files.
fn read_places(alloc: Global, found: &ArgMatches) -> Result<Places, UsageFault>
    ensures places { IfOk result (λ places. IsProxy (given Argument.Proxy (entries found.now)) places.proxy
        × ArePlaces (entries found.now) places) }
    ensures fault { IfErr result (IsFaultWith (LacksPlaces (entries found.now)) none
        (IsBadProxy (given Argument.Proxy (entries found.now)))) }
{
    let proxy = proxy_given(alloc, found)?;
    if proxy.is_none() {
        return Err(incomplete(alloc));
    }
    if is_input_twice(found) {
        return Err(refused(String::from_str(
            alloc,
            "error: standard input can't be both --mod and --sum",
        )));
    }
    let main = main_given(alloc, found)?;
    let sums = sums_given(alloc, found)?;
    Ok(Places { main, proxy, sums })
}

/// What the words of `graph` stand for.
pub(crate) fn read_graph(alloc: Global, found: &ArgMatches) -> Read
    ensures read { IfOk result (IsReadOf CommandName.Graph found.now) }
    ensures fault { IfErr result (IsFaultIn CommandName.Graph found.now) }
{
    let places = read_places(alloc, found)?;
    Ok((Command::Graph, places))
}

/// What the words of `list` stand for. `--limit` is checked first, then `--after`,
/// then `--proxy`.
pub(crate) fn read_list(alloc: Global, found: &ArgMatches) -> Read
    ensures read { IfOk result (IsReadOf CommandName.List found.now) }
    ensures fault { IfErr result (IsFaultIn CommandName.List found.now) }
{
    let limit = limit_given(alloc, found)?;
    let after = after_given(alloc, found)?;
    let places = read_places(alloc, found)?;
    Ok((Command::List { after, limit }, places))
}

/// What the words of `chain` stand for. PATH is checked first, then `--proxy`.
pub(crate) fn read_chain(alloc: Global, found: &ArgMatches) -> Read
    ensures read { IfOk result (IsReadOf CommandName.Chain found.now) }
    ensures fault { IfErr result (IsFaultIn CommandName.Chain found.now) }
{
    let path = path_given(alloc, found)?;
    let places = read_places(alloc, found)?;
    Ok((Command::Chain(path), places))
}
