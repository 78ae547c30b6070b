//! What was gathered.
use crate::findings::{Diags, LicenseInfo};
use deny_text::ListOf;
use diag_core::Notes;
use gather_license::KeptFiles;
use graph_core::Krate;
use policy_parts::spec::Places;
use tree_core::Reads;

/// The licence of a crate.
#[derive(Drop)]
pub struct KrateLicense<'k> {
    pub krate: &'k Krate,
    pub lic_info: LicenseInfo,
    /// What is noted of the licence files that the expression was made of.
    pub notes: Notes,
    /// What was found on the way.
    pub diags: Diags,
    /// The reads of the crate's files, in the order of the calls: behind all others, of the files that are
    /// looked at for the policy's exceptions.
    pub reads: Reads,
    /// The places, in the policy's list, of the exceptions that count for the crate.
    pub exceptions: Places,
    /// What is kept of the licence files among the reads, in their order; nothing where it is not asked for.
    pub kept: KeptFiles,
}

/// Licences of crates.
pub type KrateLicenses<'k> = ListOf<KrateLicense<'k>>;

/// The licences of the crates that are selected, in the order of their ids.
#[derive(Drop)]
pub struct Summary<'k> {
    pub nfos: KrateLicenses<'k>,
}
