//! The table of commands and options: what each is called, the texts of its help, and the arguments that it takes.
//! Operations are named in the crate gm_operation.

ghost use Rattle.std.specs.Prelude.{◌≡◌};
ghost use Rattle.gomod_hints.specs.Hints.{texts_of};
ghost use Rattle.gomod_words.specs.Private.Made.{rule_in};
ghost use Rattle.gomod_words.specs.Table.{arguments_in, command_named, name_in, rule_for, usage_for};
ghost use Rattle.gomod_words.specs.Usage.{command_in, is_edit, takes_operations, usage_line, usage_of};

use crate::help::{self, Help};

/// A command of the program.
#[derive(Clone, Copy)]
pub(crate) enum CommandName {
    /// `fmt`.
    Fmt,
    /// `edit`.
    Edit,
    /// `graph`.
    Graph,
    /// `list`.
    List,
    /// `chain`.
    Chain,
    /// `versions`.
    Versions,
}

/// Every command, in the order of help.
pub(crate) const COMMANDS: [CommandName; 6] = [
    CommandName::Fmt,
    CommandName::Edit,
    CommandName::Graph,
    CommandName::List,
    CommandName::Chain,
    CommandName::Versions,
];

/// The name of `fmt`.
const FMT: &str = "fmt";

/// The name of `edit`.
pub(crate) const EDIT: &str = "edit";

/// The name of `graph`.
const GRAPH: &str = "graph";

/// The name of `list`.
const LIST: &str = "list";

/// The name of `chain`.
const CHAIN: &str = "chain";

/// The name of `versions`.
const VERSIONS: &str = "versions";

/// The command with this name.
#[tactic(auto, unfolding(crate::specs::Table::command_named))]
pub(crate) fn command_named(name: &str) -> Option<CommandName>
    ensures { result ≡ command_named name.now }
{
    match name {
        FMT => Some(CommandName::Fmt),
        EDIT => Some(CommandName::Edit),
        GRAPH => Some(CommandName::Graph),
        LIST => Some(CommandName::List),
        CHAIN => Some(CommandName::Chain),
        VERSIONS => Some(CommandName::Versions),
        _ => None,
    }
}

/// The command that the words of a command line name first. The first word is the program's name.
#[tactic(auto, unfolding(crate::specs::Usage::command_in))]
pub(crate) fn command_in(words: &[&str]) -> Option<CommandName>
    ensures { result ≡ command_in (texts_of words.now) }
{
    match words {
        [_, name, ..] => command_named(name),
        _ => None,
    }
}

/// Whether operations may stand in these words: after `edit`, and in the place of a command.
pub(crate) fn takes_operations(words: &[&str]) -> bool
    ensures { result ≡ takes_operations (texts_of words.now) }
{
    match command_in(words) {
        Some(command) => command.is_edit(),
        None => true,
    }
}

impl CommandName {
    /// Whether it is `edit`.
    fn is_edit(self) -> bool
        ensures { result ≡ is_edit self }
    {
        match self {
            CommandName::Edit => true,
            CommandName::Fmt
            | CommandName::Graph
            | CommandName::List
            | CommandName::Chain
            | CommandName::Versions => false,
        }
    }
}

/// An argument of a command.
#[derive(Clone, Copy)]
pub(crate) enum Argument {
    /// FILE of `fmt`.
    FmtFile,
    /// FILE of `edit`.
    EditFile,
    /// OP of `edit`.
    Operations,
    /// PATH.
    Path,
    /// `--proxy DIR`, which may be left out.
    Proxy,
    /// `--proxy DIR`, which must be given.
    RequiredProxy,
    /// `--mod FILE`.
    Mod,
    /// `--sum FILE`.
    Sum,
    /// `--after PATH`.
    After,
    /// `--limit N`.
    Limit,
    /// `--retracted`.
    Retracted,
}

/// How an argument is written.
#[derive(Clone, Copy)]
pub(crate) enum Form {
    /// A word.
    Operand,
    /// One word or more.
    Operands,
    /// `--NAME VALUE`.
    Option,
    /// `--NAME VALUE`, which has this value if it is left out.
    Default(&'static str),
    /// `--NAME`.
    Flag,
}

/// What the parser is told of an argument.
#[derive(Clone, Copy)]
pub(crate) struct ArgumentRow {
    /// The name that it is read back by, and that an option or a flag is written with.
    pub(crate) name: &'static str,
    /// How it is written.
    pub(crate) form: Form,
    /// Whether it must be given.
    pub(crate) is_required: bool,
    /// What help shows in the place of its value. A flag has none.
    pub(crate) shown: &'static str,
    /// What help says of it.
    pub(crate) help: Help,
}

/// What the parser is told of a command.
#[derive(Clone, Copy)]
pub(crate) struct CommandRow {
    /// Its name.
    pub(crate) name: &'static str,
    /// What help says that it does.
    pub(crate) about: Help,
    /// Its usage line.
    pub(crate) usage: &'static str,
    /// What its help ends with.
    pub(crate) end: Help,
    /// The arguments that it takes.
    pub(crate) arguments: &'static [Argument],
}

/// The row of an argument, which must be given or may be left out.
macro_rules! row {
    ($name:literal, $form:expr, $is_required:literal, $shown:literal, $help:expr) => {
        ArgumentRow {
            name: $name,
            form: $form,
            is_required: $is_required,
            shown: $shown,
            help: $help,
        }
    };
}

/// What the parser is told of each argument, in the order of `Argument`.
static ARGUMENT_ROWS: [ArgumentRow; 11] = [
    row!("file", Form::Operand, true, "FILE", help::FMT_FILE),
    row!("file", Form::Operand, true, "FILE", help::EDIT_FILE),
    row!("op", Form::Operands, true, "OP", help::OPERATION),
    row!("path", Form::Operand, true, "PATH", help::PATH),
    row!("proxy", Form::Option, false, "DIR", help::PROXY),
    row!("proxy", Form::Option, true, "DIR", help::PROXY),
    row!("mod", Form::Default("go.mod"), false, "FILE", help::MOD),
    row!("sum", Form::Option, false, "FILE", help::SUM),
    row!("after", Form::Option, false, "PATH", help::AFTER),
    row!("limit", Form::Option, false, "N", help::LIMIT),
    row!("retracted", Form::Flag, false, "", help::RETRACTED),
];

/// What the parser is told of an argument.
pub(crate) fn argument_row(argument: Argument) -> &'static ArgumentRow
    ensures { rule_in result.now ≡ rule_for argument }
{
    &ARGUMENT_ROWS[argument as usize]
}

/// The row of a command.
macro_rules! command {
    ($name:expr, $usage:literal, $about:expr, $end:expr; $($argument:ident)*) => {
        CommandRow {
            name: $name,
            about: $about,
            usage: $usage,
            end: $end,
            arguments: &[$(Argument::$argument),*],
        }
    };
}

/// What the parser is told of a command.
pub(crate) fn command_row(command: CommandName) -> CommandRow
    ensures name { result.name.now ≡ name_in command }
    ensures usage { result.usage.now ≡ usage_for command }
    ensures arguments { result.arguments.now ≡ arguments_in command }
{
    match command {
        CommandName::Fmt =>
            command!(FMT, "gomod fmt <FILE>", help::FMT_ABOUT, help::FMT_END; FmtFile),
        CommandName::Edit => command!(
            EDIT, "gomod edit <FILE> <OP>...", help::EDIT_ABOUT, help::EDIT_END; EditFile Operations),
        CommandName::Graph => command!(GRAPH, "gomod graph [OPTIONS] --proxy <DIR>[,DIR|DIR..]",
            help::GRAPH_ABOUT, help::GRAPH_END; RequiredProxy Mod Sum),
        CommandName::List => command!(LIST, "gomod list [OPTIONS] --proxy <DIR>[,DIR|DIR..]",
            help::LIST_ABOUT, help::LIST_END; RequiredProxy Mod Sum After Limit),
        CommandName::Chain =>
            command!(CHAIN, "gomod chain [OPTIONS] --proxy <DIR>[,DIR|DIR..] <PATH>",
            help::CHAIN_ABOUT, help::CHAIN_END; RequiredProxy Mod Sum Path),
        CommandName::Versions => command!(VERSIONS, "gomod versions [OPTIONS] <PATH>",
            help::VERSIONS_ABOUT, help::VERSIONS_END; Path Proxy Retracted),
    }
}

/// The usage line of the words of a command line: that of the command that they name, first or after `help`, or that
/// of the program if they name none. The first word is the program's name.
pub(crate) fn usage_of(words: &[&str]) -> &'static str
    ensures { result.now ≡ usage_of (texts_of words.now) }
{
    match words {
        [_, first, second, ..] => usage_line(if *first == "help" { *second } else { *first }),
        [_, first] => usage_line(*first),
        _ => help::GOMOD_USAGE,
    }
}

/// The usage line of the command with this name, or that of the program if there is no such command.
fn usage_line(name: &str) -> &'static str
    ensures { result.now ≡ usage_line name.now }
{
    match command_named(name) {
        Some(command) => command_row(command).usage,
        None => help::GOMOD_USAGE,
    }
}
