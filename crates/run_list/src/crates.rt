//! What is listed of crates.
//! Called by `listing_found` of `command`; crates and reads may be made in one walk, only memory is refused.
ghost use Rattle.std.specs.Prelude.{◌≡◌, All, IfErr, IfOk, map};
ghost use Rattle.graph_core.specs.Metadata.{AreRising};
ghost use Rattle.run_found.specs.Reads.{reads_gathered};
ghost use Rattle.run_list_text.specs.Listed.{listed_of};

use gather_core::Summary;
use run_found::{CrateReads, Error, reads_of_licenses};
use run_list_text::{ListedCrates, listed_crates};
use std::alloc::Global;

/// What is listed of crates, and their reads.
#[derive(Drop)]
pub struct CrateListing {
    pub crates: ListedCrates,
    pub reads: CrateReads,
}

/// What is listed of the crates of a summary, and their reads.
pub(crate) fn listing_of(alloc: Global, summary: Summary<'_>) -> Result<CrateListing, Error>
    ensures crates { IfOk result (λ listing. listing.crates ≡ map listed_of summary.entry.nfos) }
    ensures reads { IfOk result (λ listing. listing.reads ≡ reads_gathered summary.entry.nfos) }
    ensures ordered { IfOk result (λ listing. All (λ listed. AreRising listed.licenses) listing.crates) }
    ensures memory { IfErr result (λ error. error ≡ Error.Memory) }
{
    let crates = listed_crates(alloc, summary.nfos.items())?;
    let reads = reads_of_licenses(alloc, summary.nfos)?;
    Ok(CrateListing { crates, reads })
}
