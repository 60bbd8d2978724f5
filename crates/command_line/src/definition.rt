// The definition of the command line, as `clap` takes it.
ghost use Rattle.std.specs.Prelude.{◌≡◌, ◌++◌, ◌∷◌, [], List, IfOk, codes};
ghost use Rattle.clap.specs.Words.{App, Rule, Text, app_of, with_subcommand};
ghost use Rattle.command_line.specs.Application.{bare_program, command, program_with};
ghost use Rattle.command_line.specs.Application.{IsArgument, IsCommandOf};
ghost use Rattle.command_line.specs.Application.{flag, number, positional};
ghost use Rattle.command_line.specs.Application.{positional_number, ranged};
ghost use Rattle.command_line.specs.Application.{bounds_rules, eps_rec_rule, eps_rule};
ghost use Rattle.command_line.specs.Application.{build_rules, index_rules, workers_rule};
ghost use Rattle.command_line.specs.Application.{query_rules, relax_rules, points_rules};
ghost use Rattle.command_line.specs.Application.{batch_rules, mix_rules, replay_rules};
ghost use Rattle.command_line.specs.Application.{check_rules, drill_rules};
ghost use Rattle.command_line.specs.Application.{find_rules, hints_rules};
ghost use Rattle.command_line.specs.Commands.{application, hint_commands, index_commands};
ghost use Rattle.command_line.specs.Commands.{script_commands, shapes_of};
ghost use Rattle.exact_cross.specs.declared.TheConstants.{MAX_EPSILON};

use crate::request::MAX_BATCH;
use clap::{Arg, ArgAction, Command, value_parser};
use exact_cross::MAX_EPSILON;
use options::{
    MAX_BITS, MAX_DRAWN, MAX_LEVELS, MAX_PIECES, MAX_READERS, MAX_SEED, MAX_SENDERS, MAX_WORKERS,
};
use std::alloc::{AllocError, Global};

/// The program and its commands.
pub fn application<'a>(alloc: Global) -> Result<Command<'a>, AllocError>
    ensures { IfOk result (λ program. app_of program ≡ application) }
{
    let program = added(with_hint_commands(alloc)?, drill_command(alloc))?;
    let program = added(program, index_command(alloc, "save"))?;
    added(program, check_command(alloc))
}

/// The program with its commands over an index, over points, over a map and over hints.
fn with_hint_commands<'a>(alloc: Global) -> Result<Command<'a>, AllocError>
    ensures { IfOk result (λ program. app_of program
        ≡ program_with (shapes_of (index_commands ++ script_commands ++ hint_commands))) }
{
    let program = added(with_script_commands(alloc)?, hints_command(alloc))?;
    added(program, find_command(alloc))
}

/// The program with its commands over an index, over points and over a map.
fn with_script_commands<'a>(alloc: Global) -> Result<Command<'a>, AllocError>
    ensures { IfOk result (λ program. app_of program
        ≡ program_with (shapes_of (index_commands ++ script_commands))) }
{
    let program = added(with_index_commands(alloc)?, points_command(alloc, "box"))?;
    let program = added(program, points_command(alloc, "near"))?;
    let program = added(program, replay_command(alloc, "replay"))?;
    added(program, mix_command(alloc))
}

/// The program with its commands over the index of a key file.
fn with_index_commands<'a>(alloc: Global) -> Result<Command<'a>, AllocError>
    ensures { IfOk result (λ program. app_of program ≡ program_with (shapes_of index_commands)) }
{
    let program = added(bare_program(alloc), index_command(alloc, "build"))?;
    let program = added(program, index_command(alloc, "explain"))?;
    let program = added(program, query_command(alloc))?;
    added(program, relax_command(alloc))
}

/// The program with a command more. A command that wasn't made is handed in too, so that a step of
/// `application` holds nothing that is dropped where memory isn't found.
fn added<'a>(
    program: Command<'a>,
    made: Result<Command<'a>, AllocError>,
) -> Result<Command<'a>, AllocError>
    ensures { (before : App) (name : Text) (rules : List Rule) → app_of program.entry ≡ before
        → IfOk made.entry (IsCommandOf name rules)
        → IfOk result (λ more. app_of more ≡ with_subcommand before (command name rules)) }
{
    program.subcommand(made?)
}

/// The program before its commands.
fn bare_program<'a>(alloc: Global) -> Command<'a>
    ensures { app_of result ≡ bare_program }
{
    Command::new(alloc, "pgmtool")
        .disable_help_flag(true)
        .disable_help_subcommand(true)
        .disable_version_flag(true)
        .subcommand_required(true)
}

/// A command over the index of a key file.
fn index_command<'a>(alloc: Global, name: &'a str) -> Result<Command<'a>, AllocError>
    ensures { IfOk result (IsCommandOf name.entry.now build_rules) }
{
    with(counted_command(alloc, name), flag(alloc, "narrow"))
}

/// A command over the index of a key file, without its flag.
fn counted_command<'a>(alloc: Global, name: &'a str) -> Result<Command<'a>, AllocError>
    ensures { IfOk result (IsCommandOf name.entry.now index_rules) }
{
    let command = with(new_command(alloc, name), positional(alloc, "FILE"));
    with_bounds(alloc, command)
}

fn query_command<'a>(alloc: Global) -> Result<Command<'a>, AllocError>
    ensures { IfOk result (IsCommandOf (codes "query") query_rules) }
{
    let command = with(index_command(alloc, "query"), positional(alloc, "SCRIPT"));
    let command = with(command, flag(alloc, "windows"));
    with(command, number(alloc, "buckets", 0, MAX_BITS, "0"))
}

fn relax_command<'a>(alloc: Global) -> Result<Command<'a>, AllocError>
    ensures { IfOk result (IsCommandOf (codes "relax") relax_rules) }
{
    let command = with(index_command(alloc, "relax"), positional(alloc, "SCRIPT"));
    with(command, number(alloc, "pieces", 1, MAX_PIECES, "4"))
}

/// A command over a file of points.
fn points_command<'a>(alloc: Global, name: &'a str) -> Result<Command<'a>, AllocError>
    ensures { IfOk result (IsCommandOf name.entry.now points_rules) }
{
    let command = with(new_command(alloc, name), positional(alloc, "FILE"));
    let command = with(command, positional(alloc, "SCRIPT"));
    with(command, number(alloc, "dims", 2, 4, "2"))
}

/// A command over a script of updates and questions.
fn replay_command<'a>(alloc: Global, name: &'a str) -> Result<Command<'a>, AllocError>
    ensures { IfOk result (IsCommandOf name.entry.now replay_rules) }
{
    let readers = number(alloc, "readers", 0, MAX_READERS, "0");
    with(with(batch_command(alloc, name), readers), workers(alloc))
}

/// A command over a script of updates and questions, without readers and workers.
fn batch_command<'a>(alloc: Global, name: &'a str) -> Result<Command<'a>, AllocError>
    ensures { IfOk result (IsCommandOf name.entry.now batch_rules) }
{
    let command = with(new_command(alloc, name), positional(alloc, "SCRIPT"));
    let command = with(command, number(alloc, "levels", 1, MAX_LEVELS, "20"));
    with(command, number(alloc, "batch", 1, MAX_BATCH, "16"))
}

fn mix_command<'a>(alloc: Global) -> Result<Command<'a>, AllocError>
    ensures { IfOk result (IsCommandOf (codes "mix") mix_rules) }
{
    let senders = number(alloc, "senders", 1, MAX_SENDERS, "2");
    with(replay_command(alloc, "mix"), senders)
}

fn drill_command<'a>(alloc: Global) -> Result<Command<'a>, AllocError>
    ensures { IfOk result (IsCommandOf (codes "drill") drill_rules) }
{
    let command = with(
        new_command(alloc, "drill"),
        positional_number(alloc, "N", 1, MAX_DRAWN),
    );
    let command = with(command, positional_number(alloc, "SEED", 0, MAX_SEED));
    with_bounds(alloc, command)
}

/// A command over a key file and a saved index.
fn check_command<'a>(alloc: Global) -> Result<Command<'a>, AllocError>
    ensures { IfOk result (IsCommandOf (codes "check") check_rules) }
{
    let command = with(new_command(alloc, "check"), positional(alloc, "FILE"));
    let command = with(command, positional(alloc, "INDEX"));
    with(command, flag(alloc, "narrow"))
}

/// A command that makes hints of a key file.
fn hints_command<'a>(alloc: Global) -> Result<Command<'a>, AllocError>
    ensures { IfOk result (IsCommandOf (codes "hints") hints_rules) }
{
    let command = with(new_command(alloc, "hints"), positional(alloc, "FILE"));
    let command = with(command, number(alloc, "eps", 0, MAX_EPSILON, "32"));
    with(command, flag(alloc, "narrow"))
}

/// A command over a key file, a file of hints and a script of questions.
fn find_command<'a>(alloc: Global) -> Result<Command<'a>, AllocError>
    ensures { IfOk result (IsCommandOf (codes "find") find_rules) }
{
    let command = with(new_command(alloc, "find"), positional(alloc, "FILE"));
    let command = with(command, positional(alloc, "HINTS"));
    let command = with(command, positional(alloc, "SCRIPT"));
    with(command, flag(alloc, "narrow"))
}

/// A command without arguments.
fn new_command<'a>(alloc: Global, name: &'a str) -> Result<Command<'a>, AllocError>
    ensures { IfOk result (IsCommandOf name.entry.now []) }
{
    Ok(Command::new(alloc, name))
}

/// A command with an argument more, behind its others. One that wasn't made is handed in too, as to
/// [`added`].
fn with<'a>(
    command: Result<Command<'a>, AllocError>,
    argument: Arg<'a>,
) -> Result<Command<'a>, AllocError>
    ensures { (name : Text) (rules : List Rule) (rule : Rule)
        → IfOk command.entry (IsCommandOf name rules) → IsArgument rule argument.entry
        → IfOk result (IsCommandOf name (rules ++ rule ∷ [])) }
{
    command?.arg(argument)
}

/// A command with the options of how an index is built.
fn with_bounds<'a>(
    alloc: Global,
    command: Result<Command<'a>, AllocError>,
) -> Result<Command<'a>, AllocError>
    ensures { (name : Text) (rules : List Rule) → IfOk command.entry (IsCommandOf name rules)
        → IfOk result (IsCommandOf name (rules ++ bounds_rules)) }
{
    let command = with(with(command, eps(alloc)), eps_rec(alloc));
    with(command, workers(alloc))
}

/// `--eps N`, the error bound of level 0.
fn eps<'a>(alloc: Global) -> Arg<'a>
    ensures { IsArgument eps_rule result }
{
    number(alloc, "eps", 0, MAX_EPSILON, "64")
}

/// `--rec N`, that of the levels above.
fn eps_rec<'a>(alloc: Global) -> Arg<'a>
    ensures { IsArgument eps_rec_rule result }
{
    number(alloc, "rec", 0, MAX_EPSILON, "4")
}

/// `--workers N`.
fn workers<'a>(alloc: Global) -> Arg<'a>
    ensures { IsArgument workers_rule result }
{
    number(alloc, "workers", 1, MAX_WORKERS, "4")
}

/// A number that has to be given, from `least` to `most`.
fn positional_number<'a>(alloc: Global, name: &'a str, least: u32, most: u32) -> Arg<'a>
    ensures { IsArgument (positional_number name.entry.now least most) result }
{
    ranged(alloc, name, least, most).required(true)
}

/// A name that has to be given.
fn positional<'a>(alloc: Global, name: &'a str) -> Arg<'a>
    ensures { IsArgument (positional name.entry.now) result }
{
    Arg::new(alloc, name).required(true)
}

/// `--NAME N`, with N from `least` to `most`, and `default` where it isn't given.
fn number<'a>(alloc: Global, name: &'a str, least: u32, most: u32, default: &'a str) -> Arg<'a>
    ensures { IsArgument (number name.entry.now least most default.entry.now) result }
{
    ranged(alloc, name, least, most)
        .long(name)
        .default_value(default)
}

/// A number from `least` to `most`.
fn ranged<'a>(alloc: Global, name: &'a str, least: u32, most: u32) -> Arg<'a>
    ensures { IsArgument (ranged name.entry.now least most) result }
{
    Arg::new(alloc, name).value_parser(value_parser!(u32).range(i64::from(least)..=i64::from(most)))
}

/// `--NAME`, given or not.
fn flag<'a>(alloc: Global, name: &'a str) -> Arg<'a>
    ensures { IsArgument (flag name.entry.now) result }
{
    Arg::new(alloc, name).long(name).action(ArgAction::SetTrue)
}
