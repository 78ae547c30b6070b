//! The options of `check`.
//! Called by `subcommand_named`; the flags and the graph's path may be read anywhere, no clause orders them.
ghost use Rattle.std.specs.Prelude.{◌≡◌, IfOk};
ghost use Rattle.clap.specs.Words.{app_of, found_of, rows_of};
ghost use Rattle.run_request.specs.Cli.{app_of_shape, check_shape};
ghost use Rattle.run_request.specs.Reading.{AnswersArgs};
ghost use Rattle.run_request.specs.Args.{check_args_of, lint_levels_of};

use crate::command::command_of_row;
use crate::error::ArgsError;
use crate::level::{CodeOrLevel, LintLevels, WhichCheck, WhichChecks};
use crate::options::check_row;
use crate::rows::{copied_path, is_set, read_all, read_first};
use clap::{ArgMatches, Command};
use deny_text::PathBuf;
use std::alloc::{AllocError, Global};

/// What `check` is asked for.
#[derive(Drop)]
pub struct CheckArgs {
    /// A folder for graphs, as it was written.
    pub graph: Option<PathBuf>,
    pub hide_inclusion_graph: bool,
    pub audit_compatible_output: bool,
    pub show_stats: bool,
    pub lint_levels: LintLevels,
    pub feature_depth: Option<u32>,
    pub which: WhichChecks,
}

impl CheckArgs {
    /// The subcommand `check`.
    pub fn cmd<'a>(alloc: Global) -> Result<Command<'a>, AllocError>
        ensures { IfOk result (λ command. app_of command ≡ app_of_shape check_shape) }
    {
        command_of_row(alloc, check_row())
    }

    /// What the matches of `check` ask for. The first refusal is reported, in the order of the options, and a
    /// depth beside hidden graphs behind all values.
    pub fn parse(alloc: Global, matches: &ArgMatches<'_>) -> Result<CheckArgs, ArgsError>
        ensures { AnswersArgs (check_args_of (rows_of (found_of matches.now))) result }
    {
        let lint_levels = lint_levels(alloc, matches)?;
        let feature_depth: Option<u32> = read_first(alloc, matches, "feature-depth")?;
        let which = read_all(alloc, matches, "WHICH")?;
        let hide_inclusion_graph = is_set(matches, "hide-inclusion-graph");
        if feature_depth.is_some() && hide_inclusion_graph {
            return Err(ArgsError::DepthWithHide);
        }
        let graph = copied_path(alloc, matches, "graph")?;
        Ok(CheckArgs {
            graph,
            hide_inclusion_graph,
            audit_compatible_output: is_set(matches, "audit-compatible-output"),
            show_stats: is_set(matches, "show-stats"),
            lint_levels,
            feature_depth,
            which,
        })
    }
}

/// What the words say of codes and levels.
fn lint_levels(alloc: Global, matches: &ArgMatches<'_>) -> Result<LintLevels, ArgsError>
    ensures { AnswersArgs (lint_levels_of (rows_of (found_of matches.now))) result }
{
    let warn = read_all(alloc, matches, "warn")?;
    let allow = read_all(alloc, matches, "allow")?;
    let deny = read_all(alloc, matches, "deny")?;
    Ok(LintLevels { warn, allow, deny })
}
