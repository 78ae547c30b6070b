//! The command line as a value.
//! Called by `given_by`, `refused_below`, check and list; version and help texts may change, rows may not.
ghost use Rattle.std.specs.Prelude.{◌≡◌, IfOk, false, true, map};
ghost use Rattle.clap.specs.Words.{rule_of, new_rule, app_of, shape_of, with_subcommand};
ghost use Rattle.run_request.specs.Cli.{cli, top_shape, app_of_shape};
ghost use Rattle.run_request.specs.OptionRow.{rule_of_row, shape_of_row, defaults_of, app_with_rules, with_all};

use crate::options::{OptionRow, OptionUse, SubcommandRow, main_rows, subcommand_rows};
use clap::{Arg, ArgAction, Command};
use std::alloc::{AllocError, Global};

static VERSION: &str = "0.20.2";

/// What is below the options in the program's help.
static AFTER_HELP: &str = "\
A first run, in the folder of the project:
  cargo metadata --format-version 1 > metadata.json
  cargo deny --metadata-path metadata.json check licenses

The options above stand before the command: `check licenses --workspace` is refused.

Status:
  0  no finding is an error, or what was asked for was written
  4  a finding is an error, a verdict that `verify` read is not right, or a bill changed
  1  the run was refused: a line on standard error says why
  2  the words were refused

A request for another command than `sample` is not carried
  without --metadata-path;
  where `check` names another check than licenses, or none;
  with --format sarif, --target, check --graph or check --audit-compatible-output;
  with a `/` or a `#` in a spec of --exclude, or of the policy's `exclude`.

The commands `init` and `fetch` are no part of this program.";

/// The whole command line. Behind the program's name it takes what is behind the `deny` of `cargo deny`.
pub fn command<'a>(alloc: Global) -> Result<Command<'a>, AllocError>
    ensures { IfOk result (λ command. app_of command ≡ cli) }
{
    let command = top_command(alloc)?;
    with_subcommands(alloc, command, subcommand_rows())
}

/// The command line without its subcommands.
fn top_command<'a>(alloc: Global) -> Result<Command<'a>, AllocError>
    ensures { IfOk result (λ command. app_of command ≡ app_of_shape top_shape) }
{
    let command = Command::new(alloc, "cargo-deny")
        .version(VERSION)
        .about("Checks the licences of a project's crates against a policy")
        .after_help(AFTER_HELP)
        .subcommand_required(true);
    let command = with_rows(alloc, command, main_rows())?;
    Ok(command)
}

fn with_subcommands<'a>(
    alloc: Global,
    command: Command<'a>,
    rows: &'static [SubcommandRow],
) -> Result<Command<'a>, AllocError>
    ensures { IfOk result (λ r. app_of r ≡ with_all (map shape_of_row rows.now) (app_of command.entry)) }
{
    let mut command = command;
    'rows: for row in rows {
        command = with_row(alloc, command, row)?;
    }
    Ok(command)
}

/// A command with the subcommand of a row behind those that it has.
fn with_row<'a>(
    alloc: Global,
    command: Command<'a>,
    row: &'static SubcommandRow,
) -> Result<Command<'a>, AllocError>
    ensures { IfOk result (λ r. app_of r ≡ with_subcommand (app_of command.entry) (shape_of_row row.now)) }
{
    match command_of_row(alloc, row) {
        Ok(below) => add_subcommand(command, below),
        Err(error) => {
            let_go(command);
            Err(error)
        }
    }
}

/// Lets a command go.
fn let_go(_command: Command<'_>) {}

fn add_subcommand<'a>(command: Command<'a>, below: Command<'a>) -> Result<Command<'a>, AllocError>
    requires { (app_of below).top.is_plain ≡ true }
    ensures { IfOk result (λ r. app_of r ≡ with_subcommand (app_of command.entry) (shape_of below.entry)) }
{
    command.subcommand(below)
}

/// The subcommand of a row by itself.
#[tactic(auto, using(crate::proofs::SubcommandLemmas::grown_new))]
pub(crate) fn command_of_row<'a>(
    alloc: Global,
    row: &'static SubcommandRow,
) -> Result<Command<'a>, AllocError>
    ensures { IfOk result (λ command. app_of command ≡ app_of_shape (shape_of_row row.now)) }
{
    let command = Command::new(alloc, row.name).about(row.about);
    with_rows(alloc, command, row.rows)
}

/// The subcommand of a row by itself, whose usage has the program's name in front.
pub(crate) fn subcommand_alone<'a>(
    alloc: Global,
    row: &'static SubcommandRow,
) -> Result<Command<'a>, AllocError> {
    let name = row.name;
    let called = format!(in alloc; "cargo-deny {name}")?;
    let command = command_of_row(alloc, row)?;
    command.bin_name(called.as_str())
}

fn with_rows<'a>(
    alloc: Global,
    command: Command<'a>,
    rows: &'static [OptionRow],
) -> Result<Command<'a>, AllocError>
    ensures { IfOk result (λ r. app_of r ≡ app_with_rules (map rule_of_row rows.now) (app_of command.entry)) }
{
    let mut command = command;
    'rows: for row in rows {
        command = command.arg(arg_of(alloc, row))?;
    }
    Ok(command)
}

/// The argument of a row.
fn arg_of<'a>(alloc: Global, row: &'static OptionRow) -> Arg<'a>
    ensures rule { rule_of result ≡ rule_of_row row.now }
    ensures local { result.global ≡ false }
{
    let arg = defaulted(alloc, row);
    match row.kind {
        OptionUse::One => arg
            .long(row.name)
            .value_name(row.value)
            .action(ArgAction::Set),
        OptionUse::Once => arg
            .long(row.name)
            .value_name(row.value)
            .action(ArgAction::Set)
            .required(true),
        OptionUse::Many => arg
            .long(row.name)
            .value_name(row.value)
            .action(ArgAction::Append),
        OptionUse::Flag => arg.long(row.name).action(ArgAction::SetTrue),
        OptionUse::Words => arg.value_name(row.value).action(ArgAction::Append),
        OptionUse::Word => arg
            .value_name(row.value)
            .action(ArgAction::Set)
            .required(true),
    }
}

/// What each kind of argument has: its letter and its default.
fn defaulted<'a>(alloc: Global, row: &'static OptionRow) -> Arg<'a>
    ensures rule { rule_of result ≡ record (new_rule row.now.name.now) {
      short = row.now.letter;
      defaults = defaults_of row.now.default;
    } }
    ensures local { result.global ≡ false }
{
    let arg = lettered(alloc, row);
    match row.default {
        Some(value) => arg.default_value(value),
        None => arg,
    }
}

fn lettered<'a>(alloc: Global, row: &'static OptionRow) -> Arg<'a>
    ensures rule { rule_of result ≡ record (new_rule row.now.name.now) { short = row.now.letter } }
    ensures local { result.global ≡ false }
{
    let arg = Arg::new(alloc, row.name).help(row.help);
    match row.letter {
        Some(letter) => arg.short(letter),
        None => arg,
    }
}
