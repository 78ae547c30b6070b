//! The checks that ran.
ghost use Rattle.std.specs.Prelude.{◌≡◌, ◌≤◌, ◌++◌, length, IfOk, OnOk};
ghost use Rattle.diag_stats.specs.Checks.{check_word, checks_of, stats_where_run, status_word};

use crate::stats::{AllStats, Stats};
use deny_text::ListOf;
use diag_core::Check;
use std::alloc::{AllocError, Global};

/// A check that ran, and its statistics.
#[derive(Clone, Copy, Debug, PartialEq, Eq)]
pub struct CheckStats {
    pub check: Check,
    pub stats: Stats,
}

/// Checks that ran, in order.
pub type CheckList = ListOf<CheckStats>;

/// The name of a check.
pub(crate) fn check_word(check: Check) -> &'static str
    ensures word { result.now ≡ check_word check }
    ensures few { length result.now ≤ 10 }
{
    match check {
        Check::Advisories => "advisories",
        Check::Bans => "bans",
        Check::Licenses => "licenses",
        Check::Sources => "sources",
    }
}

/// How a check went, in a word.
pub(crate) fn status_word(stats: Stats) -> &'static str
    ensures word { result.now ≡ status_word stats }
    ensures few { length result.now ≤ 6 }
{
    if stats.errors > 0 { "FAILED" } else { "ok" }
}

/// Appends a check, where it ran.
fn push_ran(checks: &mut CheckList, check: Check, stats: Option<Stats>) -> Result<(), AllocError>
    ensures { OnOk result (checks.new ≡ checks.old ++ stats_where_run check stats) }
{
    if let Some(stats) = stats {
        checks.push(CheckStats { check, stats })?;
    }
    Ok(())
}

/// The checks that ran, in the order of their names.
pub(crate) fn checks_of(alloc: Global, stats: &AllStats) -> Result<CheckList, AllocError>
    ensures { IfOk result (λ checks. checks ≡ checks_of stats.now) }
{
    let mut checks = CheckList::new(alloc);
    push_ran(&mut checks, Check::Advisories, stats.advisories)?;
    push_ran(&mut checks, Check::Bans, stats.bans)?;
    push_ran(&mut checks, Check::Licenses, stats.licenses)?;
    push_ran(&mut checks, Check::Sources, stats.sources)?;
    Ok(checks)
}
