//! What a run comes to.
//! Made by answer and run, read by deny_gate and tests; fields and variants may be in any order.

use run_bill::BilledCrates;
use run_check::Report;
use run_found::{CrateReads, Error};
use run_notice::NoticedCrates;
use run_record::VerifiedCrates;
use run_request::Request;

/// How a run ended.
#[derive(Drop)]
pub enum RunEnd {
    /// The crates were checked.
    Checked(Report),
    /// The licences of the crates were listed; the reads of each are reported.
    Listed(CrateReads),
    /// The crates of the sample were checked.
    Sampled(Report),
    /// The verdicts on the crates were written; the reads of each crate are reported.
    Recorded(CrateReads),
    /// It was reported whether the verdicts of a file are right, with the reads by which the crates' licences
    /// were settled.
    Verified(VerifiedCrates),
    /// A bill of the crates was written, or it was told whether one has changed.
    Billed(BilledCrates),
    /// The licences that the crates are used under were written, with their texts.
    Noticed(NoticedCrates),
    /// It was told what the verdicts on crates rest on; the reads of each checked crate are reported.
    Told(CrateReads),
    /// Help or the version was written.
    Shown,
    /// The words are none that are taken.
    Usage,
    /// There is no report.
    Refused(Error),
}

/// What a run comes to.
#[derive(Drop)]
pub struct Outcome {
    /// The exit status of the program: 0 after a report in which nothing is an error, after a verdict file that is
    /// right, after a bill that has not changed, after a listing, a sample, a verdict file, a bill, a notice or what
    /// verdicts rest on that was written, after help and after the version; 4 after a report in which something is an
    /// error, after a verdict file that is not right, and after a bill that has changed; 2 after words that are not
    /// taken; 1 after a refusal.
    pub status: u8,
    /// What the words ask for, where they were taken and ask for something; in a refusal too.
    pub request: Option<Request>,
    pub ended: RunEnd,
}
