//! The bill of the crates of a report.
//! Called by `found_bill` of billing; the crates may be gone over in any order, no clause has it.
ghost use Rattle.std.specs.Prelude.{◌≡◌, IfOk, map, option_map};
ghost use Rattle.graph_core.specs.Krate.{record_of};
ghost use Rattle.graph_core.specs.selection.Listed.{record_behind};
ghost use Rattle.run_check.specs.Judged.{crates_judged};
ghost use Rattle.run_bill.specs.Bills as spec;
ghost use Rattle.run_bill.specs.Bills.{first_unfit, package_of, packages_of};
ghost use Rattle.run_bill.specs.Steps.{IsReportedBill};

use crate::billed::ReportedBill;
use crate::licences::{concluded, declared};
use check_bill::{Bill, BillPackage, BillPackages, TextForm};
use check_core::CrateReport;
use deny_text::Text;
use graph_core::Krate;
use run_check::JudgedCrates;
use run_found::Error;
use run_request::bill::BillArgs;
use std::alloc::{AllocError, Global};

/// The first of crates whose name is empty or has the end of a line.
fn first_unfit<'k>(krates: &[&'k Krate]) -> Option<&'k Krate>
    ensures { option_map record_behind result ≡ first_unfit (map record_behind krates.now) }
{
    'crates: for krate in krates {
        if !TextForm::Line.is_of(krate.name.as_str()) {
            return Some(*krate);
        }
    }
    None
}

fn version_text(alloc: Global, krate: &Krate) -> Result<Text, AllocError>
    ensures { IfOk result (λ text. text ≡ spec.version_text (record_of krate.now)) }
{
    let version = &krate.version;
    let text = format!(in alloc; "{version}")?;
    Ok(Text::from(text))
}

/// What a bill says of a crate, by the report on it.
fn packaged(alloc: Global, krate: &Krate, report: &CrateReport) -> Result<BillPackage, AllocError>
    ensures { IfOk result (λ told. told ≡ package_of (record_of krate.now) report.now) }
{
    let name = Text::copy(alloc, krate.name.as_str())?;
    let version = version_text(alloc, krate)?;
    let concluded = concluded(alloc, report)?;
    let declared = declared(alloc, report)?;
    Ok(BillPackage {
        name,
        version,
        concluded,
        declared,
    })
}

/// What a bill says of crates, each beside its report.
fn packages(
    alloc: Global,
    krates: &[&Krate],
    reports: &[CrateReport],
) -> Result<BillPackages, AllocError>
    ensures { IfOk result (λ packages. packages ≡ packages_of (map record_behind krates.now) reports.now) }
{
    let mut packages = BillPackages::new(alloc);
    'crates: for (krate, report) in krates.iter().zip(reports.iter()) {
        let told = packaged(alloc, krate, report)?;
        packages.push(told)?;
    }
    Ok(packages)
}

/// The bill that words ask for, with these packages.
fn bill_with(alloc: Global, words: &BillArgs, packages: BillPackages) -> Result<Bill, AllocError>
    ensures { IfOk result (λ bill. bill ≡ spec.bill_with words.now packages) }
{
    let name = Text::copy(alloc, words.name.as_str())?;
    let namespace = Text::copy(alloc, words.namespace.as_str())?;
    let created = Text::copy(alloc, words.created.as_str())?;
    Ok(Bill {
        name,
        namespace,
        created,
        packages,
    })
}

/// The bill of crates, each beside its report. It is refused where a name does not fit.
fn bill_of(
    alloc: Global,
    words: &BillArgs,
    krates: &[&Krate],
    reports: &[CrateReport],
) -> Result<Bill, Error>
    ensures { spec.IsBillOf words.now (map record_behind krates.now) reports.now result }
{
    if let Some(krate) = first_unfit(krates) {
        let id = Text::copy(alloc, krate.id.as_str())?;
        return Err(Error::BillText(id));
    }
    let packages = packages(alloc, krates, reports)?;
    let bill = bill_with(alloc, words, packages)?;
    Ok(bill)
}

/// The bill of the crates that were judged.
fn bill_of_judged(alloc: Global, words: &BillArgs, judged: &JudgedCrates) -> Result<Bill, Error>
    ensures { spec.IsBillOf words.now (crates_judged judged.now) judged.now.report.crates result }
{
    let krates = judged.checked(alloc)?;
    bill_of(alloc, words, krates.items(), judged.report.crates.items())
}

/// The bill of the crates that were judged, with the reads of each, which are let go.
pub(crate) fn reported_bill(
    alloc: Global,
    words: &BillArgs,
    judged: JudgedCrates,
) -> Result<ReportedBill, Error>
    ensures { IsReportedBill words.now (crates_judged judged) judged.report.crates result }
{
    let bill = bill_of_judged(alloc, words, &judged)?;
    let reads = judged.into_reads(alloc)?;
    Ok(ReportedBill { bill, reads })
}
