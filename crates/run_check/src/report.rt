//! What a check answers.
//! Made by `report_of` of command, read by deny_run, run_record and run_sample; fields may be in any order.
pub use check_core::evaluate::Verdict;
pub use check_core::{CrateReport, CrateReports};
use diag_core::{Files, Packs};
pub use diag_stats::{AllStats, Stats};
use policy_core::ValidConfig;

/// The report of a check.
#[derive(Drop)]
pub struct Report {
    pub stats: AllStats,
    /// The policy that the crates were judged by; its lists are in order.
    pub policy: ValidConfig,
    /// One verdict for each crate that was checked, in the order of their ids.
    pub crates: CrateReports,
    /// What was found, at the levels that are asked for: a pack for each crate, in the same order, and then one
    /// about the policy.
    pub findings: Packs,
    /// The files that findings point into.
    pub files: Files,
}
