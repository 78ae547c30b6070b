//! What verifying comes to.
//! Made by `verify_text` of verifying, read by deny_run; the fields may be in any order.
pub use check_verify::{NoReason, VerifyAnswer};
use run_found::CrateReads;

/// Whether a record is right, and the reads by which the crates' licences were settled.
#[derive(Drop)]
pub struct VerifiedCrates {
    pub answer: VerifyAnswer,
    pub reads: CrateReads,
}
