//! The options of `list`.
//! Called by `subcommand_named`; the way to the hundredths is free, the order of the values is in a clause.
ghost use Rattle.std.specs.Prelude.{◌≡◌, IfOk};
ghost use Rattle.clap.specs.Words.{app_of, found_of, rows_of};
ghost use Rattle.run_request.specs.Cli.{app_of_shape, list_shape};
ghost use Rattle.run_request.specs.Reading.{AnswersArgs};
ghost use Rattle.run_request.specs.Args.{list_args_of, hundredths_in};

use crate::command::command_of_row;
use crate::error::ArgsError;
use crate::number::Threshold;
use crate::options::list_row;
use crate::output::{Layout, OutputFormat};
use crate::rows::read_first;
use clap::{ArgMatches, Command};
use std::alloc::{AllocError, Global};

/// What `list` is asked for.
#[derive(Clone, Copy, Debug, PartialEq, Eq)]
pub struct ListArgs {
    /// The least score at which a text is taken for a licence, in hundredths.
    pub threshold: i64,
    pub format: OutputFormat,
    pub layout: Layout,
}

impl ListArgs {
    /// The subcommand `list`.
    pub fn cmd<'a>(alloc: Global) -> Result<Command<'a>, AllocError>
        ensures { IfOk result (λ command. app_of command ≡ app_of_shape list_shape) }
    {
        command_of_row(alloc, list_row())
    }

    /// What the matches of `list` ask for. The first refusal is reported, in the order of the options.
    pub fn parse(alloc: Global, matches: &ArgMatches<'_>) -> Result<ListArgs, ArgsError>
        ensures { AnswersArgs (list_args_of (rows_of (found_of matches.now))) result }
    {
        let threshold: Option<Threshold> = read_first(alloc, matches, "threshold")?;
        let format: Option<OutputFormat> = read_first(alloc, matches, "format")?;
        let layout: Option<Layout> = read_first(alloc, matches, "layout")?;
        Ok(ListArgs {
            threshold: hundredths(threshold) as i64,
            format: format.unwrap_or(OutputFormat::Human),
            layout: layout.unwrap_or(Layout::License),
        })
    }
}

fn hundredths(threshold: Option<Threshold>) -> u8
    ensures { result ≡ hundredths_in threshold }
{
    match threshold {
        Some(threshold) => threshold.0,
        None => 80,
    }
}
