//! What a bill of crates comes to.
//! Made by packages, comparing and billing, read by deny_run; the fields may be in any order.
use check_bill::Bill;
use run_found::CrateReads;

/// The bill of crates, and the reads by which their licences were settled.
#[derive(Drop)]
pub(crate) struct ReportedBill {
    pub(crate) bill: Bill,
    pub(crate) reads: CrateReads,
}

/// What a run for a bill tells, with the reads by which the crates' licences were settled.
#[derive(Drop)]
pub struct BilledCrates {
    /// Where a bill was compared with: whether nothing but the moment has changed. Else it is true.
    pub same: bool,
    pub reads: CrateReads,
}
