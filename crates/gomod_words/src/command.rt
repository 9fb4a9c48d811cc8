//! The commands of the program, in the form that the parser of command lines expects, from the table of them.

ghost use Rattle.std.specs.Prelude.{◌≡◌, IfOk, map};
ghost use Rattle.clap.specs.Simple.{app_of, new_app};
ghost use Rattle.clap.specs.Words.{rule_of};
ghost use Rattle.gomod_words.specs.Private.Made.{IsMade, rule_in};
ghost use Rattle.gomod_words.specs.Table.{app_in, bare_gomod, gomod_app, rule_for, with_rules_for};

use crate::help;
use crate::table::{
    Argument, ArgumentRow, COMMANDS, CommandName, CommandRow, Form, argument_row, command_row,
};
use clap::{Arg, ArgAction, Command};
use std::alloc::{AllocError, Global};

/// An argument, in the form that the parser expects.
fn argument<'a>(alloc: Global, row: &ArgumentRow) -> Arg<'a>
    ensures { rule_of result ≡ rule_in row.now }
{
    let argument = Arg::new(alloc, row.name)
        .required(row.is_required)
        .help(row.help.short)
        .long_help(row.help.long);
    match row.form {
        Form::Operand => argument.value_name(row.shown),
        Form::Operands => argument.value_name(row.shown).num_args(1..),
        Form::Option => argument.value_name(row.shown).long(row.name),
        Form::Default(value) => argument
            .value_name(row.shown)
            .long(row.name)
            .default_value(value),
        Form::Flag => argument.long(row.name).action(ArgAction::SetTrue),
    }
}

/// These arguments, in the form that the parser expects.
fn arguments<'a>(alloc: Global, arguments: &[Argument]) -> Result<Vec<Arg<'a>>, AllocError>
    ensures { IfOk result (λ made. map rule_of made.items ≡ map rule_for arguments.now) }
{
    let mut made = Vec::new(alloc);
    for each in arguments {
        made.push(argument(alloc, argument_row(*each)))?;
    }
    Ok(made)
}

/// A command with its arguments and the texts of its help, in the form that the parser expects.
fn command<'a>(alloc: Global, row: &CommandRow) -> Result<Command<'a>, AllocError>
    ensures { IsMade (with_rules_for (new_app row.now.name.now) row.now.arguments.now) result }
{
    let arguments = arguments(alloc, row.arguments)?;
    Command::new(alloc, row.name)
        .about(row.about.short)
        .long_about(row.about.long)
        .override_usage(row.usage)
        .after_help(row.end.short)
        .after_long_help(row.end.long)
        .args(arguments)
}

/// These commands, in the form that the parser expects.
fn commands<'a>(alloc: Global, names: &[CommandName]) -> Result<Vec<Command<'a>>, AllocError>
    ensures { IfOk result (λ made. map app_of made.items ≡ map app_in names.now) }
{
    let mut made = Vec::new(alloc);
    for name in names {
        made.push(command(alloc, &command_row(*name))?)?;
    }
    Ok(made)
}

/// The program, `gomod`, without its commands.
fn bare_gomod<'a>(alloc: Global) -> Command<'a>
    ensures { app_of result ≡ bare_gomod }
{
    Command::new(alloc, "gomod")
        .about("Work with Go module files, without a network")
        .version(help::VERSION)
        .override_usage(help::GOMOD_USAGE)
        .after_help(help::GOMOD_END)
        .subcommand_required(true)
        .arg_required_else_help(true)
}

/// The whole program: `gomod`, followed by one of its commands.
pub(crate) fn gomod_command<'a>(alloc: Global) -> Result<Command<'a>, AllocError>
    ensures { IsMade gomod_app result }
{
    let commands = commands(alloc, &COMMANDS)?;
    bare_gomod(alloc).subcommands(commands)
}
