//! The licence texts that crates come with.
//! Called by `made_of` of making; crates may be told apart by their places, their order is in a clause.
ghost use Rattle.std.specs.Prelude.{◌≡◌, IfOk, OnErr, map};
ghost use Rattle.graph_core.specs.selection.Listed.{record_behind};
ghost use Rattle.run_found.specs.Hearing.{seen_between};
ghost use Rattle.run_notice.specs.Own.{HaveOwnTexts, IsOwnCut, read_kept};

use deny_text::{ListOf, Text};
use gather_license::{OwnTexts, own_texts};
use graph_core::Krate;
use run_found::{CrateRead, CrateReads};
use std::alloc::{AllocError, Global};
use tree_core::Tree;

/// The texts that a crate comes with.
#[derive(Drop)]
pub(crate) struct CrateTexts {
    /// The package id, as cargo writes it.
    pub(crate) id: Text,
    pub(crate) own: OwnTexts,
}

/// The texts of crates, in the order of these.
pub(crate) type CrateTextsList = ListOf<CrateTexts>;

/// The licence texts that crates come with, one crate after another.
pub(crate) fn own_of_crates<T: Tree>(
    alloc: Global,
    krates: &[&Krate],
    tree: &mut T,
) -> Result<CrateTextsList, AllocError>
    // over any tree, by the answers to each crate's own reads, which are all the calls, crate after crate
    ensures own { IfOk result (HaveOwnTexts (map record_behind krates.now)
        (seen_between T.content T.fault_count T.trace tree.old tree.new)) }
    ensures cut { OnErr result (IsOwnCut (map record_behind krates.now)
        (seen_between T.content T.fault_count T.trace tree.old tree.new)) }
{
    let mut texts = CrateTextsList::new(alloc);
    'crates: for krate in krates {
        let id = Text::copy(alloc, krate.id.as_str())?;
        let own = own_texts(alloc, krate, tree)?;
        texts.push(CrateTexts { id, own })?;
    }
    Ok(texts)
}

/// The reads for the texts of crates.
pub(crate) fn reads_of_own(alloc: Global, texts: CrateTextsList) -> Result<CrateReads, AllocError>
    ensures { IfOk result (λ reads. reads ≡ map read_kept texts) }
{
    let mut reads = CrateReads::new(alloc);
    'crates: for one in texts.into_vec() {
        let CrateTexts { id, own } = one;
        let OwnTexts { reads: own, .. } = own;
        reads.push(CrateRead { id, reads: own })?;
    }
    Ok(reads)
}
