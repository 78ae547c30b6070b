//! What the words of a command line are answered with.
//! Called by `answer_words` of deny_run; texts and the order in which the paths are read may change.
ghost use Rattle.std.specs.Prelude.{◌≡◌, ◌≢◌, IfOk, IfErr, map};
ghost use Rattle.clap.specs.Words.{HasKind, app_of, fault_of, found_of, kind_of, rows_of, subcommand_rows_of};
ghost use Rattle.run_request.specs.Cli.{cli};
ghost use Rattle.run_request.specs.Request.{gate_words};
ghost use Rattle.run_request.specs.Given.{AnswersHelp, AnswersMistake, AnswersRequest, HasMatches, HasSize, IsAsked};
ghost use Rattle.run_request.specs.Given.{IsCommandAsked, IsGiven, IsGivenFor, IsErrorAnswer, IsUsage, texts};
ghost use Rattle.run_request.specs.declared.error.ArgsError.TheVariants.{Memory};

use crate::command::{command, subcommand_alone};
use crate::context::{KrateContext, path_at};
use crate::error::ArgsError;
use crate::message;
use crate::options::{OptionRow, SubcommandRow, main_rows};
use crate::request::{Request, Subcommand, log_context, row_below, subcommand_asked};
use crate::words::gate_words;
use clap::error::{Error, ErrorKind};
use clap::{ArgMatches, Command};
use deny_text::Text;
use std::alloc::{AllocError, Global};

/// What words are answered with.
#[derive(Drop)]
pub enum CliAnswer {
    /// They ask for a run.
    Asked(Request),
    /// They ask for help or the version: this text is for standard output.
    Shown(Text),
    /// They are refused: this text is for standard error.
    Usage(Text),
}

/// The answer to words, of which the first is the program's name. A second word `deny` is dropped, since
/// `cargo deny` passes it on. Relative paths are joined to `cwd`, but for that of the policy.
pub fn read(alloc: Global, words: &[String], cwd: &str) -> Result<CliAnswer, AllocError>
    ensures given { IfOk result (IsGiven (texts words.now) cwd.now) }
    ensures request { IfOk result (AnswersRequest (gate_words (texts words.now)) cwd.now) }
    // The command is the one that the words name, with their values.
    ensures command { IfOk result (IsCommandAsked (gate_words (texts words.now)) cwd.now) }
    // A sample has at most 20,000 crates.
    ensures size { IfOk result HasSize }
    ensures help { IfOk result (AnswersHelp (gate_words (texts words.now))) }
    ensures mistake { IfOk result (AnswersMistake (gate_words (texts words.now)) cwd.now) }
{
    let kept = gate_words(alloc, words)?;
    given_for(alloc, kept.as_slice(), cwd)
}

fn given_for(alloc: Global, words: &[&str], cwd: &str) -> Result<CliAnswer, AllocError>
    ensures given { IfOk result (IsGivenFor (map (λ word. word.now) words.now) cwd.now) }
    ensures request { IfOk result (AnswersRequest (map (λ word. word.now) words.now) cwd.now) }
    ensures command { IfOk result (IsCommandAsked (map (λ word. word.now) words.now) cwd.now) }
    ensures size { IfOk result HasSize }
    ensures help { IfOk result (AnswersHelp (map (λ word. word.now) words.now)) }
    ensures mistake { IfOk result (AnswersMistake (map (λ word. word.now) words.now) cwd.now) }
{
    given_by(alloc, words, cwd)
}

fn given_by(alloc: Global, words: &[&str], cwd: &str) -> Result<CliAnswer, AllocError>
    ensures { IfOk result (IsGivenFor (map (λ word. word.now) words.now) cwd.now) }
{
    let mut command = command(alloc)?;
    given_with(alloc, &mut command, words, cwd)
}

/// The answer to words of a command line.
fn given_with<'a>(
    alloc: Global,
    command: &mut Command<'a>,
    words: &'a [&'a str],
    cwd: &str,
) -> Result<CliAnswer, AllocError>
    requires { app_of command.old ≡ cli }
    ensures { IfOk result (IsGivenFor (map (λ word. word.now) words.entry.now) cwd.now) }
{
    match matches_of(command, words) {
        Ok(matches) => asked_by(alloc, command, matches, cwd),
        Err(error) => told_by(alloc, error),
    }
}

/// The matches of words, where the command line takes them.
fn matches_of<'a>(command: &mut Command<'a>, words: &'a [&'a str]) -> Result<ArgMatches<'a>, Error>
    requires { app_of command.old ≡ cli }
    ensures ok { IfOk result (HasMatches (map (λ word. word.now) words.entry.now)) }
    ensures err { IfErr result (HasKind (fault_of cli (map (λ word. word.now) words.entry.now))) }
{
    command.try_get_matches_from_mut(words)
}

/// The answer to an error, which is let go.
fn told_by(alloc: Global, error: Error) -> Result<CliAnswer, AllocError>
    ensures { IfOk result (IsErrorAnswer (kind_of error)) }
{
    told(alloc, &error)
}

/// The answer to an error: help and the version are shown, and mistakes refused.
fn told(alloc: Global, error: &Error) -> Result<CliAnswer, AllocError>
    ensures { IfOk result (IsErrorAnswer (kind_of error.now)) }
{
    match error.kind() {
        ErrorKind::OutOfMemory => Err(AllocError),
        ErrorKind::DisplayHelp | ErrorKind::DisplayVersion => {
            let text = format!(in alloc; "{error}")?;
            Ok(CliAnswer::Shown(Text::from(text)))
        }
        _ => {
            let text = format!(in alloc; "{error}")?;
            Ok(CliAnswer::Usage(Text::from(text)))
        }
    }
}

/// The request that matches ask for, or the refusal of a value. The matches are let go.
fn asked_by(
    alloc: Global,
    command: &mut Command<'_>,
    matches: ArgMatches<'_>,
    cwd: &str,
) -> Result<CliAnswer, AllocError>
    ensures { IfOk result
        (IsAsked (rows_of (found_of matches.entry)) (subcommand_rows_of matches.entry) cwd.now) }
{
    asked(alloc, command, &matches, cwd)
}

/// The request that matches ask for, or the refusal of a value.
fn asked(
    alloc: Global,
    command: &mut Command<'_>,
    matches: &ArgMatches<'_>,
    cwd: &str,
) -> Result<CliAnswer, AllocError>
    ensures { IfOk result
        (IsAsked (rows_of (found_of matches.now)) (subcommand_rows_of matches.now) cwd.now) }
{
    match log_context(alloc, matches) {
        Err(error) => refused(alloc, command, main_rows(), error),
        Ok(log_ctx) => match subcommand_asked(alloc, matches, cwd) {
            Err(error) => match row_below(matches) {
                Some(row) => refused_below(alloc, row, error),
                None => refused(alloc, command, main_rows(), error),
            },
            Ok(subcommand) => {
                let manifest_path = path_at(alloc, matches, "manifest-path", cwd)?;
                let catalog = path_at(alloc, matches, "catalog", cwd)?;
                let store = path_at(alloc, matches, "store", cwd)?;
                let krate_ctx = KrateContext::from_matches(alloc, matches, cwd)?;
                Ok(CliAnswer::Asked(Request {
                    log_ctx,
                    manifest_path,
                    catalog,
                    store,
                    krate_ctx,
                    command: subcommand,
                }))
            }
        },
    }
}

/// The refusal of a value behind a subcommand, with the usage of that.
fn refused_below(
    alloc: Global,
    row: &'static SubcommandRow,
    error: ArgsError,
) -> Result<CliAnswer, AllocError>
    ensures memory { IfOk result (λ _. error ≢ Memory) }
    ensures usage { IfOk result IsUsage }
{
    let mut command = subcommand_alone(alloc, row)?;
    refused(alloc, &mut command, row.rows, error)
}

/// The refusal of a value among these options.
fn refused(
    alloc: Global,
    command: &mut Command<'_>,
    rows: &[OptionRow],
    error: ArgsError,
) -> Result<CliAnswer, AllocError>
    ensures memory { IfOk result (λ _. error ≢ Memory) }
    ensures usage { IfOk result IsUsage }
{
    let message = match error {
        ArgsError::BadValue { option, value } => {
            message::bad_value(alloc, rows, option.as_str(), value.as_str())?
        }
        ArgsError::DepthWithHide => message::depth_with_hide(alloc)?,
        ArgsError::Memory => return Err(AllocError),
    };
    let error = command.error(ErrorKind::InvalidValue, message.as_str())?;
    let text = format!(in alloc; "{error}")?;
    Ok(CliAnswer::Usage(Text::from(text)))
}
