//! What a notice of crates comes to.
//! Made by making, read by deny_run; the fields may be in any order.
use check_notice::Notice;
use run_found::CrateReads;

/// The notice of crates, and what was read for it.
#[derive(Drop)]
pub struct NoticedCrates {
    pub notice: Notice,
    /// The reads by which the crates' licences were settled.
    pub reads: CrateReads,
    /// The reads that were made behind these for the texts that the crates come with.
    pub own: CrateReads,
}
