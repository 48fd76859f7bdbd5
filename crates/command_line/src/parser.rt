//! The parser of the command line, from the rows of the commands.
ghost use Rattle.std.specs.Prelude.{IfOk};
ghost use Rattle.clap.specs.Words.{App, with_subcommand};
ghost use Rattle.command_line.specs.CommandLine.{IsCommand, IsPlainArg, command_app, latchsym_app};
ghost use Rattle.command_line.specs.CommandLine.{row_of, top_app};

use crate::rows::{Argument, ArgumentKind, arguments_of};
use clap::{Arg, ArgAction, Command};
use std::alloc::{AllocError, Global};

/// The version that `--version` prints.
const VERSION: &str = "1.3.0";

/// What the help ends with.
const STATUSES: &str = "\
ADDR and N are numbers: decimal, or hexadecimal after 0x.

Status 0: done. 1: an error; or `run` found a wrong answer, `check` no usable symbol, or `address`
no symbol. 2: an error in the command line.";

/// What the help says of each command.
const ANNOTATE: &str = "Copy a log, adding the symbol after each address";

const LOOKUP: &str = "Say which module and symbol hold an address";

const ADDRESS: &str = "Say where the symbols of a name are, and how long they are";

const CHECK: &str = "Say what is wrong with listings, and how many of their lines are usable";

const RECORD: &str = "Write the history of a boot, from the events of its modules";

const TRACE: &str = "Play the steps of a trace, and write what its lookups found";

const RUN: &str = "Run concurrent loads and lookups from a script";

/// The command line of the program.
pub fn latchsym_command<'a>(alloc: Global) -> Result<Command<'a>, AllocError>
    ensures { IfOk result (IsCommand latchsym_app) }
{
    let command = top_command(alloc);
    let command = with_subcommand(alloc, command, "annotate", ANNOTATE)?;
    let command = with_subcommand(alloc, command, "lookup", LOOKUP)?;
    let command = with_subcommand(alloc, command, "address", ADDRESS)?;
    let command = with_subcommand(alloc, command, "check", CHECK)?;
    let command = with_subcommand(alloc, command, "record", RECORD)?;
    let command = with_subcommand(alloc, command, "trace", TRACE)?;
    with_subcommand(alloc, command, "run", RUN)
}

/// The command without its subcommands.
fn top_command<'a>(alloc: Global) -> Command<'a>
    ensures { IsCommand top_app result }
{
    Command::new(alloc, "latchsym")
        .about("Says which symbol and which module of a Linux kernel hold an address")
        .after_help(STATUSES)
        .version(VERSION)
        .subcommand_required(true)
}

/// The command with the subcommand of this name, which the help describes so.
fn with_subcommand<'a>(
    alloc: Global,
    command: Command<'a>,
    name: &'a str,
    about: &'a str,
) -> Result<Command<'a>, AllocError>
    ensures { (app : App) → IsCommand app command.entry
        → IfOk result (IsCommand (with_subcommand app (command_app name.entry.now).top)) }
{
    command.subcommand(subcommand(alloc, name, about)?)
}

/// The subcommand of this name, with the arguments of its rows.
fn subcommand<'a>(alloc: Global, name: &'a str, about: &'a str) -> Result<Command<'a>, AllocError>
    ensures { IfOk result (IsCommand (command_app name.entry.now)) }
{
    let mut command = Command::new(alloc, name).about(about);
    for row in arguments_of(name) {
        command = command.arg(argument_of(alloc, row))?;
    }
    Ok(command)
}

/// The argument that a row is for the parser.
fn argument_of<'a>(alloc: Global, row: &Argument) -> Arg<'a>
    ensures { IsPlainArg (row_of row.now).rule result }
{
    let argument = Arg::new(alloc, row.name)
        .value_names(row.values)
        .help(row.help)
        .required(row.is_required);
    match row.kind {
        ArgumentKind::Flag => argument.long(row.name).action(ArgAction::SetTrue),
        ArgumentKind::Valued => argument.long(row.name),
        ArgumentKind::Operand => argument,
        ArgumentKind::Operands => argument.num_args(1..),
    }
}
