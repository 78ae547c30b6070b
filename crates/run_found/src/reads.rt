//! What commands answer of the reads of crates.
//! Called by `run_list` and `run_record`; room for all crates may be taken first, their order is in a clause.
ghost use Rattle.std.specs.Prelude.{◌≡◌, IfOk};
ghost use Rattle.run_found.specs.Reads.{read_gathered, reads_gathered};

use deny_text::{ListOf, Text};
use gather_core::{KrateLicense, KrateLicenses};
use std::alloc::{AllocError, Global};
use tree_core::Reads;

/// The reads of the files of one crate.
#[derive(Drop)]
pub struct CrateRead {
    /// The package id, as cargo writes it.
    pub id: Text,
    /// The reads, in the order of the calls.
    pub reads: Reads,
}

/// The reads of crates, in the order of the crates' ids.
pub type CrateReads = ListOf<CrateRead>;

/// The reads by which the licence of a crate was settled.
fn read_of_license(alloc: Global, license: KrateLicense<'_>) -> Result<CrateRead, AllocError>
    ensures { IfOk result (λ read. read ≡ read_gathered license.entry) }
{
    let KrateLicense { krate, reads, .. } = license;
    let id = Text::copy(alloc, krate.id.as_str())?;
    Ok(CrateRead { id, reads })
}

/// The reads by which the licences of crates were settled, in order.
pub fn reads_of_licenses(
    alloc: Global,
    licenses: KrateLicenses<'_>,
) -> Result<CrateReads, AllocError>
    ensures { IfOk result (λ reads. reads ≡ reads_gathered licenses.entry) }
{
    let mut reads = CrateReads::new(alloc);
    'crates: for license in licenses.into_vec() {
        let read = read_of_license(alloc, license)?;
        reads.push(read)?;
    }
    Ok(reads)
}
