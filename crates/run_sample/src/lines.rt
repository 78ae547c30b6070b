//! What is printed of the sample.
//! Called by `write_lines` of `command`; the three counts may be made in one walk, their order may not change.
ghost use Rattle.std.specs.Prelude.{◌≡◌, ◌++◌, string_bytes, IfOk, OnOk};
ghost use Rattle.std.specs.Prelude.{count_by};
ghost use Rattle.run_sample.specs.Lines.{count_line, is_accepted, is_rejected, is_unlicensed, sample_lines};

use run_check::CrateReport;
use run_check::report::Verdict;
use std::alloc::{AllocError, Global};

fn is_accepted(krate: &CrateReport) -> bool
    ensures { result ≡ is_accepted krate.now.verdict }
{
    matches!(&krate.verdict, Verdict::Accepted { .. })
}

fn is_rejected(krate: &CrateReport) -> bool
    ensures { result ≡ is_rejected krate.now.verdict }
{
    matches!(&krate.verdict, Verdict::Rejected { .. })
}

fn is_unlicensed(krate: &CrateReport) -> bool
    ensures { result ≡ is_unlicensed krate.now.verdict }
{
    matches!(&krate.verdict, Verdict::Unlicensed)
}

fn accepted_in(crates: &[CrateReport]) -> usize
    ensures { result ≡ count_by (λ krate. is_accepted krate.verdict) crates.now }
{
    crates.iter().filter(|krate| is_accepted(krate)).count()
}

fn rejected_in(crates: &[CrateReport]) -> usize
    ensures { result ≡ count_by (λ krate. is_rejected krate.verdict) crates.now }
{
    crates.iter().filter(|krate| is_rejected(krate)).count()
}

fn unlicensed_in(crates: &[CrateReport]) -> usize
    ensures { result ≡ count_by (λ krate. is_unlicensed krate.verdict) crates.now }
{
    crates.iter().filter(|krate| is_unlicensed(krate)).count()
}

/// Appends a word, a number and a line feed.
fn push_count(out: &mut String, alloc: Global, word: &str, count: usize) -> Result<(), AllocError>
    ensures { OnOk result (string_bytes out.new ≡ string_bytes out.old ++ count_line word.now count) }
{
    let line = format!(in alloc; "{word}{count}\n")?;
    out.push_str(line.as_str())
}

/// How many crates of a sample there are, and how many are accepted, rejected and without a licence, in four
/// lines.
pub(crate) fn sample_lines(alloc: Global, crates: &[CrateReport]) -> Result<String, AllocError>
    ensures { IfOk result (λ lines. string_bytes lines ≡ sample_lines crates.now) }
{
    let mut lines = String::new(alloc);
    push_count(&mut lines, alloc, "crates ", crates.len())?;
    push_count(&mut lines, alloc, "accepted ", accepted_in(crates))?;
    push_count(&mut lines, alloc, "rejected ", rejected_in(crates))?;
    push_count(&mut lines, alloc, "unlicensed ", unlicensed_in(crates))?;
    Ok(lines)
}
