//! The summary for a program.
ghost use Rattle.std.specs.Prelude.{◌≡◌, ◌++◌, ◌∷◌, [], OnOk, decimal, string_bytes};
ghost use Rattle.json.specs.Token.{key, string, number};
ghost use Rattle.diag_print.specs.JsonTokens.{Adds, data_tokens};
ghost use Rattle.diag_stats.specs.Json.{checks_data, check_tokens, json_text, stats_data, summary_data};

use crate::checks::{CheckStats, check_word};
use crate::stats::Stats;
use json::Writer;
use std::alloc::{AllocError, Global};

/// A member that is a number.
fn write_count(out: &mut Writer, name: &str, count: u64) -> Result<(), AllocError>
    ensures { OnOk result (Adds out.old out.new (key name.now ∷ number (decimal count) ∷ [])) }
{
    out.key(name)?;
    out.u64(count)
}

/// The numbers of findings.
fn write_stats(out: &mut Writer, stats: Stats) -> Result<(), AllocError>
    ensures { OnOk result (Adds out.old out.new (data_tokens (stats_data stats))) }
{
    out.begin_object()?;
    write_count(out, "errors", stats.errors)?;
    write_count(out, "helps", stats.helps)?;
    write_count(out, "notes", stats.notes)?;
    write_count(out, "warnings", stats.warnings)?;
    out.end_object()
}

/// A member for a check.
fn write_check(out: &mut Writer, check: CheckStats) -> Result<(), AllocError>
    ensures { OnOk result (Adds out.old out.new (check_tokens check)) }
{
    out.key(check_word(check.check))?;
    write_stats(out, check.stats)
}

/// A member for each check.
fn write_checks(out: &mut Writer, checks: &[CheckStats]) -> Result<(), AllocError>
    ensures { OnOk result (Adds out.old out.new (data_tokens (checks_data checks.now))) }
{
    out.begin_object()?;
    'checks: for check in checks {
        write_check(out, *check)?;
    }
    out.end_object()
}

/// The whole object.
fn write_summary(out: &mut Writer, checks: &[CheckStats]) -> Result<(), AllocError>
    ensures { OnOk result (Adds out.old out.new (data_tokens (summary_data checks.now))) }
{
    out.begin_object()?;
    out.key("fields")?;
    write_checks(out, checks)?;
    out.key("type")?;
    out.string("summary")?;
    out.end_object()
}

/// Appends the text of the object, and a line feed.
pub(crate) fn push_json(
    out: &mut String,
    alloc: Global,
    checks: &[CheckStats],
) -> Result<(), AllocError>
    ensures { OnOk result (string_bytes out.new ≡ string_bytes out.old ++ json_text checks.now) }
{
    let mut writer = Writer::new(Vec::new(alloc));
    write_summary(&mut writer, checks)?;
    let line = unsafe { String::from_utf8_unchecked(writer.into_inner()) };
    out.push_str(line.as_str())?;
    out.push_str("\n")
}
