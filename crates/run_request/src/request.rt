//! What the matches of a command line ask for.
//! Called by `asked` of read; names may be compared in any order, and `row_below` has no clause at all.
ghost use Rattle.std.specs.Prelude.{◌≡◌};
ghost use Rattle.clap.specs.Words.{found_of, rows_of, subcommand_rows_of};
ghost use Rattle.run_request.specs.Reading.{AnswersArgs};
ghost use Rattle.run_request.specs.Request.{bill_of, log_context_of, sample_of, verify_of, why_of};
ghost use Rattle.run_request.specs.Request.{subcommand_named, subcommand_asked};

use crate::bill::BillArgs;
use crate::context::{KrateContext, path_at};
use crate::error::ArgsError;
use crate::number::SampleSize;
use crate::options::{SubcommandRow, subcommand_rows};
use crate::rows::{copied_words, read_first};
use crate::{check, list};
use clap::ArgMatches;
use deny_text::{PathBuf, Texts};
use diag_core::LevelFilter;
use diag_print::{Color, Format, LogContext};
use std::alloc::Global;

/// A subcommand, and what it is asked for.
#[derive(Drop)]
pub enum Subcommand {
    Check(check::CheckArgs),
    List(list::ListArgs),
    /// A check of so many crates that are made up, from 1 to 20,000.
    Sample(u32),
    /// The verdicts are to be written.
    Record,
    /// The verdicts in the file at this path, joined to the working folder, are to be verified.
    Verify(PathBuf),
    /// A bill of the crates is to be written, or compared with one.
    Bill(BillArgs),
    /// The licences that the crates are used under are to be written, with their texts.
    Notice,
    /// What the verdicts on the crates that these words name rest on is to be written.
    Why(Texts),
}

/// What the words of a command line ask for.
#[derive(Drop)]
pub struct Request {
    pub log_ctx: LogContext,
    /// The manifest that is given, joined to the working folder.
    pub manifest_path: Option<PathBuf>,
    /// A file of licence names in place of the built-in ones, joined to the working folder.
    pub catalog: Option<PathBuf>,
    /// A folder of licence texts in place of the built-in ones, joined to the working folder.
    pub store: Option<PathBuf>,
    pub krate_ctx: KrateContext,
    pub command: Subcommand,
}

pub(crate) fn log_context(alloc: Global, matches: &ArgMatches<'_>) -> Result<LogContext, ArgsError>
    ensures { AnswersArgs (log_context_of (rows_of (found_of matches.now))) result }
{
    let log_level: Option<LevelFilter> = read_first(alloc, matches, "log-level")?;
    let format: Option<Format> = read_first(alloc, matches, "format")?;
    let color: Option<Color> = read_first(alloc, matches, "color")?;
    Ok(LogContext {
        format: format.unwrap_or(Format::Human),
        color: color.unwrap_or(Color::Auto),
        log_level: log_level.unwrap_or(LevelFilter::Warn),
    })
}

/// The subcommand that was used.
pub(crate) fn row_below(matches: &ArgMatches<'_>) -> Option<&'static SubcommandRow> {
    let name = matches.subcommand_name()?;
    subcommand_rows().iter().find(|row| row.name == name)
}

pub(crate) fn subcommand_asked(
    alloc: Global,
    matches: &ArgMatches<'_>,
    cwd: &str,
) -> Result<Subcommand, ArgsError>
    ensures { AnswersArgs (subcommand_asked (subcommand_rows_of matches.now) cwd.now) result }
{
    match matches.subcommand() {
        Some((name, below)) => subcommand_named(alloc, name, below, cwd),
        None => Err(ArgsError::bad_value(alloc, "COMMAND", "")),
    }
}

fn subcommand_named(
    alloc: Global,
    name: &str,
    below: &ArgMatches<'_>,
    cwd: &str,
) -> Result<Subcommand, ArgsError>
    ensures { AnswersArgs (subcommand_named name.now (rows_of (found_of below.now)) cwd.now) result }
{
    if name == "check" {
        let args = check::CheckArgs::parse(alloc, below)?;
        Ok(Subcommand::Check(args))
    } else if name == "list" {
        let args = list::ListArgs::parse(alloc, below)?;
        Ok(Subcommand::List(args))
    } else if name == "record" {
        Ok(Subcommand::Record)
    } else if name == "verify" {
        let path = path_at(alloc, below, "FILE", cwd)?;
        verify_of(alloc, path)
    } else if name == "bill" {
        let against = path_at(alloc, below, "against", cwd)?;
        bill_of(alloc, below, against)
    } else if name == "notice" {
        Ok(Subcommand::Notice)
    } else if name == "why" {
        why_of(alloc, below)
    } else if name == "sample" {
        let size: Option<SampleSize> = read_first(alloc, below, "N")?;
        sample_of(alloc, size)
    } else {
        Err(ArgsError::bad_value(alloc, "COMMAND", name))
    }
}

fn verify_of(alloc: Global, path: Option<PathBuf>) -> Result<Subcommand, ArgsError>
    ensures { AnswersArgs (verify_of path) result }
{
    match path {
        Some(path) => Ok(Subcommand::Verify(path)),
        None => Err(ArgsError::bad_value(alloc, "FILE", "")),
    }
}

fn bill_of(
    alloc: Global,
    below: &ArgMatches<'_>,
    against: Option<PathBuf>,
) -> Result<Subcommand, ArgsError>
    ensures { AnswersArgs (bill_of (rows_of (found_of below.now)) against) result }
{
    let args = BillArgs::parse(alloc, below, against)?;
    Ok(Subcommand::Bill(args))
}

fn why_of(alloc: Global, below: &ArgMatches<'_>) -> Result<Subcommand, ArgsError>
    ensures { AnswersArgs (why_of (rows_of (found_of below.now))) result }
{
    let words = copied_words(alloc, below, "CRATE")?;
    Ok(Subcommand::Why(words))
}

fn sample_of(alloc: Global, size: Option<SampleSize>) -> Result<Subcommand, ArgsError>
    ensures { AnswersArgs (sample_of size) result }
{
    match size {
        Some(size) => Ok(Subcommand::Sample(size.0)),
        None => Err(ArgsError::bad_value(alloc, "N", "")),
    }
}
