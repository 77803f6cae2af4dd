//! The command line that `clap` is told of.

ghost use Rattle.std.specs.Prelude.{◌≡◌, List, map, IfOk};
ghost use Rattle.clap.specs.Simple.{app_of};
ghost use Rattle.tigertopo_words.specs.Commands.{program, command_line, with_commands};
ghost use Rattle.tigertopo_words.specs.Keeping.{OnMade, row_given, told_of, row_told, rule_told, argument_told};
ghost use Rattle.tigertopo_words.specs.declared.table.Argument.{Argument};
ghost use Rattle.tigertopo_words.specs.declared.table.Row.{Row};

use crate::help::{ABOUT, EXAMPLES, example_of};
use crate::table::{Argument, Kind, Row, rows};
use clap::{Arg, ArgAction, Command};
use std::alloc::{AllocError, Global};

// The version, and the line of the kit that the program is proved with.
const VERSION: &str = "0.5.1, proved with rattle-kit-13f logic dac8208d650f15bf";

/// The program with its commands.
pub fn command<'a>(alloc: Global) -> Result<Command<'a>, AllocError>
    ensures { IfOk result (λ command. app_of command ≡ command_line) }
{
    match commands_of(alloc, rows()) {
        Ok(commands) => with_commands(program(alloc), commands),
        Err(error) => Err(error),
    }
}

// These commands.
fn commands_of<'a>(alloc: Global, rows: &[Row]) -> Result<Vec<Command<'a>>, AllocError>
    ensures { IfOk result (λ commands. map told_of commands.items ≡ map row_told rows.now) }
{
    let mut commands = Vec::new(alloc);
    for row in rows {
        match subcommand(alloc, row) {
            Ok(command) => commands.push(command)?,
            Err(error) => return Err(error),
        }
    }
    Ok(commands)
}

// The program with these commands more, where memory was had for it.
fn with_commands<'a>(
    program: Result<Command<'a>, AllocError>,
    commands: Vec<Command<'a>>,
) -> Result<Command<'a>, AllocError>
    ensures { (rows : List Row) → map told_of commands.entry.items ≡ map row_told rows
        → IfOk result (λ whole. OnMade program.entry (λ p. app_of whole ≡ with_commands (app_of p) (map row_given rows))) }
{
    match program {
        Ok(program) => program.subcommands(commands),
        Err(error) => Err(error),
    }
}

fn program<'a>(alloc: Global) -> Result<Command<'a>, AllocError>
    ensures { IfOk result (λ command. app_of command ≡ program) }
{
    Command::new(alloc, "tigertopo")
        .about(ABOUT)
        .version(VERSION)
        .after_help(EXAMPLES)
        .no_binary_name(true)
        .subcommand_required(true)
        .bin_name("tigertopo")
}

/// The command of the program that has this row.
pub fn subcommand<'a>(alloc: Global, row: &Row) -> Result<Command<'a>, AllocError>
    ensures { IfOk result (λ command. told_of command ≡ row_told row.now) }
{
    match args_of(alloc, row.arguments) {
        Ok(args) => command_with(alloc, row, args),
        Err(error) => Err(error),
    }
}

// The command that has this row, with its arguments.
fn command_with<'a>(alloc: Global, row: &Row, args: Vec<Arg<'a>>) -> Result<Command<'a>, AllocError>
    requires { map rule_told args.items ≡ map argument_told row.now.arguments.now }
    ensures { IfOk result (λ command. told_of command ≡ row_told row.now) }
{
    let command = Command::new(alloc, row.name)
        .about(row.about)
        .after_help(example_of(&row.named));
    command.args(args)
}

// The arguments, as clap is told of them.
fn args_of<'a>(alloc: Global, arguments: &[Argument]) -> Result<Vec<Arg<'a>>, AllocError>
    ensures { IfOk result (λ args. map rule_told args.items ≡ map argument_told arguments.now) }
{
    let mut args = Vec::new(alloc);
    for argument in arguments {
        args.push(arg_of(alloc, argument))?;
    }
    Ok(args)
}

// The argument, as clap is told of it.
fn arg_of<'a>(alloc: Global, argument: &Argument) -> Arg<'a>
    ensures { rule_told result ≡ argument_told argument.now }
{
    let name = argument.name;
    let arg = Arg::new(alloc, name).help(argument.help);
    match argument.kind {
        Kind::Switch => arg.long(name).action(ArgAction::SetTrue),
        Kind::Value(word) => arg.long(name).value_name(word.shown()),
        Kind::Needed(word) => arg.long(name).value_name(word.shown()).required(true),
        Kind::Placed(word) => arg.value_name(word.shown()).required(true),
        Kind::Several(word) => arg
            .value_name(word.shown())
            .required(true)
            .num_args(1..)
            .action(ArgAction::Append),
    }
}
