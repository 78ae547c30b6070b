//! Crates of which there can be no notice.
ghost use Rattle.std.specs.Prelude.{◌≡◌, find, position};
ghost use Rattle.std.specs.Option.{option_copied};
ghost use Rattle.check_notice.specs.Notice as spec;

use check_core::CrateReport;
use check_core::evaluate::Verdict;

/// Whether a crate is rejected, or has no licence.
fn is_unaccepted(verdict: &Verdict) -> bool
    ensures { result ≡ spec.is_unaccepted verdict.now }
{
    match verdict {
        Verdict::Rejected { .. } | Verdict::Unlicensed => true,
        Verdict::Accepted { .. } | Verdict::Skipped => false,
    }
}

/// The place of the first report with such a verdict.
fn first_place(reports: &[CrateReport]) -> Option<usize>
    ensures { result ≡ position spec.is_against reports.now }
{
    reports
        .iter()
        .position(|report| is_unaccepted(&report.verdict))
}

/// The first crate that is rejected, or has no licence.
pub fn first_unaccepted(reports: &[CrateReport]) -> Option<&CrateReport>
    ensures { option_copied result ≡ find spec.is_against reports.now }
{
    let place = first_place(reports)?;
    reports.get(place)
}
