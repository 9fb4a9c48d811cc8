//! The tables of hints: what is said of words that a command does not take. A hint is a fixed text. It says what to
//! type in the form of gomod, and repeats no word of the command line.

ghost use Rattle.std.specs.Prelude.{◌≡◌, IfOk, IfSome, true};
ghost use Rattle.std.specs.List.{Contains};
ghost use Rattle.std.specs.String.{string_bytes};
ghost use Rattle.gomod_hints.specs.Private.Hints.{rows_in};
ghost use Rattle.gomod_hints.specs.Hints.{Advises, HasName, HasSaid, HasSaidIn, IsAlike, IsForm, IsHintFor, IsHintOf, hints, key_of, name_before, other_hints, split_names, texts_of, without_second_dash};

use crate::word::{begins_with_dash, has_text, without_dash};
use std::alloc::{AllocError, Global};
use strsim::osa_distance;

/// What words do with the module cache after them, and where that is.
macro_rules! over_cache {
    ($words:literal, $does:literal) => {
        concat!(
            "'",
            $words,
            " ~/go/pkg/mod/cache/download' ",
            $does,
            "\n       that is go's usual module cache; any folder with a GOPROXY server's layout will do"
        )
    };
}

/// How an operation is written, and what else there is to it.
macro_rules! operation {
    ($operation:literal $(, $more:literal)?) => {
        concat!("an operation is one word after FILE: 'gomod edit go.mod ", $operation, "'" $(, $more)?)
    };
}

/// The rows for the commands and options of gomod: the names that each is for, and what is said. A name is a word up to
/// its first `=`, with one dash for two. One that ends with `=` is an operation's, for `edit` and in the place of a
/// command. One with `*` is a form. Of rows with one name the first counts, of both tables.
const HINTS: [(&str, &str); 21] = [
    (
        "fmt format gofmt cat parse",
        "'gomod fmt go.mod' prints the file, formatted",
    ),
    (
        "edit set modify change",
        "'gomod edit go.mod require=PATH@VERSION' prints the changed file\n       'gomod edit --help' lists the operations",
    ),
    (
        "graph tree -tree -graph",
        over_cache!("gomod graph --proxy", "prints the module graph"),
    ),
    (
        "list ls lst all deps dependencies modules requirements build-list resolve freeze -deps -list",
        over_cache!("gomod list --proxy", "lists all modules"),
    ),
    (
        "chain why explain reason path show info view -why -invert -from -to",
        over_cache!("gomod chain PATH --proxy", "prints why a module is listed"),
    ),
    (
        "versions list-versions latest search -versions -latest",
        over_cache!(
            "gomod versions PATH --proxy",
            "lists those there, with --retracted all"
        ),
    ),
    (
        "-a -all",
        "list prints all modules, and versions with --retracted all versions",
    ),
    (
        "-proxy -p -goproxy -cache -modcache -proxy-dir -gomodcache -offline proxy goproxy cache",
        over_cache!(
            "--proxy",
            "after graph, list, chain or versions has the go.mod files"
        ),
    ),
    (
        "-mod -vendor",
        "'--mod FILE' after graph, list or chain names the main file\n       go's -mod=mod and -mod=vendor have no form here",
    ),
    (
        "-modfile",
        "'--mod FILE' after graph, list or chain names the main file\n       its replace folders begin at the folder of FILE, and with go's -modfile at the module's root",
    ),
    (
        "-sum -sums -gosum -verify sum",
        "'--sum go.sum' checks the go.mod files that graph, list and chain read",
    ),
    (
        "-after -skip",
        "'--after PATH' makes list begin after the row of that module",
    ),
    (
        "-limit -n -1 -5 -10 -max -count -top -head -first",
        "'--limit N' makes list print at most N rows; without it there is no limit",
    ),
    (
        "-m",
        "'gomod list --proxy DIR', without -m, is like 'go list -m all',\n       and 'gomod versions PATH --proxy DIR' like 'go list -m -versions PATH'",
    ),
    (
        "-C -dir -cwd -chdir -root -workdir",
        "gomod works in the current folder: 'cd DIR' first",
    ),
    (
        "-w -write -in-place -i -force",
        "gomod changes no file: add '> go.mod.new && mv go.mod.new go.mod' to fmt or edit",
    ),
    (
        "-print -fmt -stdout -dry-run print",
        "fmt and edit print the file, formatted, and change none: 'gomod fmt go.mod'",
    ),
    (
        "check diff lint validate -d -diff -check -l",
        "'gomod fmt go.mod | diff go.mod -' shows what is not formatted; list and graph check more",
    ),
    (
        "-o -output -out",
        "output goes to standard output: '> NEW' at the end writes it to a new file",
    ),
    (
        "- -stdin",
        "'gomod fmt -', 'gomod edit - OP', '--mod -' and '--sum -' read standard input,\n       and so does 'gomod versions PATH' without --proxy",
    ),
    (
        "-json -format -f -csv -yaml -cyclonedx -dot -svg json metadata sbom licenses vuln dot graphviz",
        "gomod prints rows: docs/use/RECIPES.md makes JSON, a picture, and CycloneDX for other tools of them\n       'go mod edit -json' prints one go.mod file as JSON",
    ),
];

/// The rows for operations, for what gomod does not have, and, last, for the forms of words.
const OTHER_HINTS: [(&str, &str); 34] = [
    ("-go=", operation!("go=VERSION")),
    ("module= -module=", operation!("module=PATH")),
    (
        "require= add= -require=",
        operation!("require=PATH@VERSION"),
    ),
    (
        "droprequire= remove= rm= uninstall= drop= -droprequire=",
        operation!("droprequire=PATH"),
    ),
    ("exclude= -exclude=", operation!("exclude=PATH@VERSION")),
    (
        "dropexclude= -dropexclude=",
        operation!("dropexclude=PATH@VERSION"),
    ),
    (
        "replace= -replace=",
        operation!(
            "replace=PATH=../FOLDER",
            "\n       'replace=PATH=PATH@VERSION' replaces a module by another one"
        ),
    ),
    ("dropreplace= -dropreplace=", operation!("dropreplace=PATH")),
    ("retract= -retract=", operation!("retract=VERSION")),
    (
        "dropretract= -dropretract=",
        operation!("dropretract=VERSION"),
    ),
    (
        "-toolchain= -godebug= -tool= -ignore= -dropgodebug= -droptool= -dropignore= toolchain= godebug=",
        "gomod edit has no such operation, but 'go mod edit' of newer versions has",
    ),
    (
        "tidy",
        "gomod has no 'tidy': 'go mod tidy' needs packages, which gomod doesn't read",
    ),
    (
        "download fetch",
        "gomod uses no network: 'go mod download' fills the module cache",
    ),
    (
        "get",
        "gomod uses no network: that is for 'go get'\n       'gomod edit go.mod require=PATH@VERSION' prints the changed file",
    ),
    (
        "-u -update -upgrade -outdated update upgrade outdated",
        "gomod uses no network: 'go list -m -u all' and 'go get -u' find newer versions",
    ),
    (
        "init vendor",
        "gomod changes no file: 'go mod init' and 'go mod vendor' do",
    ),
    (
        "verify",
        "'go mod verify' checks the module cache,\n       and 'gomod list --sum go.sum --proxy DIR' the go.mod files that it reads",
    ),
    (
        "build run test vet install generate clean doc env tool work fix bug telemetry -tags -test -find -export",
        "gomod reads module files alone, no packages: that is for the go command",
    ),
    (
        "go gomod",
        "a command of gomod comes first, as in 'gomod fmt go.mod'",
    ),
    (
        "mod",
        "commands have no 'mod' in front, and operations no dash:\n       'gomod graph --proxy DIR', 'gomod edit go.mod go=VERSION'",
    ),
    (
        "version -version -V",
        "'gomod --version' prints the version, 'gomod versions PATH --proxy DIR' those of a module",
    ),
    (
        "-v",
        "gomod is never verbose, and 'gomod --version' prints the version",
    ),
    (
        "help commands usage",
        "'gomod --help' lists the commands, and 'gomod list --help' explains one",
    ),
    (
        "man -man manual completion",
        "the man page, and completions for bash, zsh and fish, are in share/",
    ),
    (
        "-x -vv -q -quiet -verbose",
        "gomod prints its result or its errors, and nothing else",
    ),
    (
        "-e",
        "errors of all files are always printed, the first of each, and then no result",
    ),
    (
        "-retracted -retract",
        "'--retracted' makes versions list those that are retracted, too",
    ),
    (
        "-module -package -path",
        "PATH needs no option: 'gomod chain PATH --proxy DIR', 'gomod versions PATH --proxy DIR'",
    ),
    (
        "-go -compat",
        "the go version is that of the main file: 'gomod edit go.mod go=VERSION' prints it with another",
    ),
    (
        "-direct -indirect -depth",
        "graph begins with the main file's requirements; that file marks indirect ones",
    ),
    (
        "*.mod* -file -manifest-path -main -input -in -gomod",
        "fmt and edit take one FILE: 'gomod fmt go.mod'\n       graph, list and chain have '--mod FILE' for another main file",
    ),
    (
        "*://*",
        "PATH is as in a module line, and DIR a folder: neither has 'https://' in front",
    ),
    (
        "*@*",
        "chain and versions take PATH without a version: 'gomod versions PATH --proxy DIR'\n       'gomod edit go.mod require=PATH@VERSION' requires a version",
    ),
    (
        "*.* */*",
        "chain and versions take one PATH, graph and list none, and a folder has '--proxy' in front:\n       'gomod chain PATH --proxy ~/go/pkg/mod/cache/download'",
    ),
];

/// What the tables say of the word that an error is about, if they do. Operations are aside if the command takes none.
pub fn hint_for(
    alloc: Global,
    takes_operations: bool,
    about: Option<&str>,
    words: &[&str],
) -> Result<Option<&'static str>, AllocError>
    ensures { Advises (IsHintOf takes_operations (texts_of words.now)) result }
{
    match word_about(about, words) {
        Some(word) => hint_on(alloc, takes_operations, word),
        None => Ok(None),
    }
}

/// The word that an error on this name is about: after `mod` it is the next one if that is a command of go alone.
fn word_about<'a>(about: Option<&str>, words: &[&'a str]) -> Option<&'a str>
    ensures { IfSome result (λ word. Contains (texts_of words.now) word.now) }
{
    let name = about?;
    match words {
        [
            _,
            "mod",
            next @ ("download" | "init" | "tidy" | "vendor" | "verify" | "why"),
            ..
        ] => first_named(next, words),
        _ => first_named(name, words),
    }
}

/// The first of these words before `--` that is this, or an option that begins so: the parser names `-m` for
/// `-mod=mod`.
fn first_named<'a>(name: &str, words: &[&'a str]) -> Option<&'a str>
    ensures { IfSome result (λ word. Contains (texts_of words.now) word.now) }
{
    for word in words {
        if *word == "--" {
            return None;
        }
        if *word == name || begins_with_dash(name) && word.starts_with(name) {
            return Some(*word);
        }
    }
    None
}

/// What the tables say of a word: by its key, by its form, or else by a name that is near to the key.
fn hint_on(
    alloc: Global,
    takes_operations: bool,
    word: &str,
) -> Result<Option<&'static str>, AllocError>
    ensures { Advises (IsHintFor takes_operations word.now) result }
{
    let key = key_of(alloc, word)?;
    let said = tables_say(alloc, takes_operations, false, key.as_str())?;
    if said.is_some() {
        return Ok(said);
    }
    match form_of(word) {
        Some(form) => tables_say(alloc, takes_operations, false, form),
        None => tables_say(alloc, takes_operations, true, key.as_str()),
    }
}

/// The key of a word: what stands before its first `=`, with one dash for two, in lowercase unless it is one letter.
fn key_of(alloc: Global, word: &str) -> Result<String, AllocError>
    ensures { IfOk result (λ key. string_bytes key ≡ key_of word.now) }
{
    let key = without_second_dash(name_before(word));
    if without_dash(key).len() < 2 {
        Ok(String::from_str(alloc, key)?)
    } else {
        Ok(key.to_ascii_lowercase(alloc)?)
    }
}

/// The word with one dash in the place of two, unless it is no more than that.
fn without_second_dash(word: &str) -> &str
    ensures { result.now ≡ without_second_dash word.now }
{
    let rest = without_dash(word);
    if begins_with_dash(word) && begins_with_dash(rest) {
        rest
    } else {
        word
    }
}

/// What stands before the first `=`.
fn name_before(word: &str) -> &str
    ensures { result.now ≡ name_before word.now }
{
    match word.split_once('=') {
        Some((name, _)) => name,
        None => word,
    }
}

/// The name that the table has words of the form of this one by.
fn form_of(word: &str) -> Option<&'static str>
    ensures { IfSome result (λ form. IsForm word.now form.now) }
{
    if begins_with_dash(word) {
        None
    } else if has_text(word, ".mod") {
        Some("*.mod*")
    } else if has_text(word, "://") {
        Some("*://*")
    } else if has_text(word, "@") {
        Some("*@*")
    } else if has_text(word, ".") {
        Some("*.*")
    } else if has_text(word, "/") {
        Some("*/*")
    } else {
        None
    }
}

/// The rows of a table.
type Rows = &'static [(&'static str, &'static str)];

/// The rows of the first table.
fn rows() -> Rows
    ensures { rows_in result.now ≡ hints }
{
    &HINTS
}

/// Those of the other one.
fn other_rows() -> Rows
    ensures { rows_in result.now ≡ other_hints }
{
    &OTHER_HINTS
}

/// What the first row says that has this key, or a name that is near to it.
fn tables_say(
    alloc: Global,
    takes_operations: bool,
    is_near: bool,
    key: &str,
) -> Result<Option<&'static str>, AllocError>
    ensures { Advises (HasSaid takes_operations is_near key.now) result }
{
    let said = rows_say(alloc, rows(), takes_operations, is_near, key)?;
    if said.is_some() {
        return Ok(said);
    }
    rows_say(alloc, other_rows(), takes_operations, is_near, key)
}

/// What the first of these rows says that has this key, or a name near to it.
fn rows_say(
    alloc: Global,
    rows: Rows,
    takes_operations: bool,
    is_near: bool,
    key: &str,
) -> Result<Option<&'static str>, AllocError>
    ensures { Advises (HasSaidIn (rows_in rows.now) takes_operations is_near key.now) result }
{
    for (names, text) in rows {
        let is = is_named(alloc, names, takes_operations, is_near, key)?;
        if is {
            return Ok(Some(*text));
        }
    }
    Ok(None)
}

/// Whether one of these names is this key, or near to it. Those of operations are aside unless the command takes any.
fn is_named(
    alloc: Global,
    names: &str,
    takes_operations: bool,
    is_near: bool,
    key: &str,
) -> Result<bool, AllocError>
    ensures { IfOk result
        (λ is. is ≡ true → HasName (split_names names.now) takes_operations is_near key.now) }
{
    for name in names.split(' ') {
        let plain = name_before(name);
        if takes_operations || plain == name {
            let is = is_alike(alloc, is_near, key, plain)?;
            if is {
                return Ok(true);
            }
        }
    }
    Ok(false)
}

/// Whether a name is this key, or is near to it: both have four letters or more, and differ by one letter, or by two
/// neighbours that are swapped.
fn is_alike(alloc: Global, is_near: bool, key: &str, name: &str) -> Result<bool, AllocError>
    ensures { IfOk result (λ is. is ≡ true → IsAlike is_near key.now name.now) }
{
    if !is_near {
        return Ok(key == name);
    }
    // No name has more than 16 bytes.
    if key.len() > 16
        || begins_with_dash(key) != begins_with_dash(name)
        || without_dash(key).len() < 4
        || without_dash(name).len() < 4
    {
        return Ok(false);
    }
    Ok(osa_distance(alloc, key, name)? < 2)
}
