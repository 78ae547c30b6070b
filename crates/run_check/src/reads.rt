//! The reads of crates' files.
//! Called by the commands that rest on a check; room for all crates may be taken first, their order stays.
ghost use Rattle.std.specs.Prelude.{◌≡◌, IfOk};
ghost use Rattle.run_check.specs.Reads.{reads_told};

use crate::judged::JudgedCrates;
use crate::report::Report;
use check_core::{CrateReport, CrateReports};
use run_found::{CrateRead, CrateReads};
use std::alloc::{AllocError, Global};

/// The reads that reports list.
fn reads_of_reports(alloc: Global, reports: CrateReports) -> Result<CrateReads, AllocError>
    ensures { IfOk result (λ reads. reads ≡ reads_told reports) }
{
    let mut reads = CrateReads::new(alloc);
    'crates: for report in reports.into_vec() {
        let CrateReport { id, reads: own, .. } = report;
        reads.push(CrateRead { id, reads: own })?;
    }
    Ok(reads)
}

impl Report {
    /// The reads of each crate, without all else that a report has.
    pub fn into_reads(self, alloc: Global) -> Result<CrateReads, AllocError>
        ensures { IfOk result (λ reads. reads ≡ reads_told self.crates) }
    {
        let Report { crates, .. } = self;
        reads_of_reports(alloc, crates)
    }
}

impl JudgedCrates {
    /// The reads of each crate that was checked, without all else.
    pub fn into_reads(self, alloc: Global) -> Result<CrateReads, AllocError>
        ensures { IfOk result (λ reads. reads ≡ reads_told self.report.crates) }
    {
        let JudgedCrates { report, .. } = self;
        report.into_reads(alloc)
    }
}
