//! The command line, as clap reads it.

use crate::forms::{Form, Operand, forms};
use clap::{Arg, ArgAction, Command};
use std::alloc::{AllocError, Global};

/// The program's name.
pub const NAME: &str = "scmi";

/// The names of flags and options. `BINARY` asks to read an input as bytes, and `OFFSET`, `SIZE`
/// and `STRIDE` say which of a dump's bytes are areas; `SAVE` names the file into which a session
/// is saved.
pub const HELP: &str = "help";

pub const VERSION: &str = "version";

pub const JSON: &str = "json";

pub const TAP: &str = "tap";

pub const PROTOCOLS: &str = "protocols";

pub const REFUSALS: &str = "refusals";

pub const RESTARTS: &str = "restarts";

pub const MERMAID: &str = "mermaid";

pub const BINARY: &str = "binary";

pub const OFFSET: &str = "offset";

pub const SIZE: &str = "size";

pub const STRIDE: &str = "stride";

pub const SAVE: &str = "save";

/// The names of the words after a task.
pub const FIRST: &str = "first";

pub const SECOND: &str = "second";

const HELP_FLAG: Operand = Operand::Letter(HELP, 'h');

/// The program's command, whose words are those after its name.
///
/// Its flags for help and the version are declared as any flag: clap's own end in an error, whose
/// text no contract states.
pub fn program<'a>(alloc: Global) -> Result<Command<'a>, AllocError> {
    let flags = [HELP_FLAG, Operand::Letter(VERSION, 'V')];
    let mut command = with_operands(alloc, bare(alloc), &flags)?;
    for form in forms() {
        command = command.subcommand(task_command(alloc, form)?)?;
    }
    Ok(command)
}

/// The command without its flags and its tasks.
fn bare<'a>(alloc: Global) -> Command<'a> {
    Command::new(alloc, NAME)
        .no_binary_name(true)
        .disable_help_flag(true)
        .disable_help_subcommand(true)
        .subcommand_value_name("COMMAND")
}

/// The subcommand of a task.
fn task_command<'a>(alloc: Global, form: &Form) -> Result<Command<'a>, AllocError> {
    let command = Command::new(alloc, form.word).override_usage(form.usage);
    let command = with_operands(alloc, command, &[HELP_FLAG])?;
    with_operands(alloc, command, form.operands)
}

/// A command after which these may follow.
fn with_operands<'a>(
    alloc: Global,
    command: Command<'a>,
    operands: &[Operand],
) -> Result<Command<'a>, AllocError> {
    let mut args = Vec::new(alloc);
    for operand in operands {
        args.push(operand_arg(alloc, *operand))?;
    }
    command.args(args)
}

/// What may follow a command's word, as clap reads it.
fn operand_arg<'a>(alloc: Global, operand: Operand) -> Arg<'a> {
    match operand {
        Operand::Word(name) => Arg::new(alloc, name),
        Operand::Value(name, value) => Arg::new(alloc, name).long(name).value_name(value),
        Operand::Flag(name) => flag(alloc, name),
        Operand::Letter(name, letter) => flag(alloc, name).short(letter),
    }
}

/// A flag of this name.
fn flag<'a>(alloc: Global, name: &'a str) -> Arg<'a> {
    Arg::new(alloc, name).long(name).action(ArgAction::SetTrue)
}
