//! A crate's own licence texts.
ghost use Rattle.std.specs.Prelude.{◌≡◌, ◌++◌, IfOk, OnErr, OnOk};
ghost use Rattle.std.specs.List.{filter_map};
ghost use Rattle.std.specs.Option.{option_to_list};
ghost use Rattle.tree_core.specs.file_reads.Views.{heard_file};
ghost use Rattle.graph_core.specs.Krate.{record_of};
ghost use Rattle.gather_license.specs.files.Calls.{StarvesAmong};
ghost use Rattle.gather_license.specs.OwnTexts.{HasOwnTexts, own_records_of, text_in};
ghost use Rattle.gather_license.specs.Priority.{folder_of};

use crate::files::{LicensePack, PackFileData};
use crate::settle::look;
use deny_text::{ListOf, PathBuf, Text};
use graph_core::Krate;
use std::alloc::{AllocError, Global};
use tree_core::{Reads, Tree};

/// A licence file that is a text.
#[derive(Drop)]
pub struct OwnText {
    /// The path from the crate's folder.
    pub path: PathBuf,
    /// The text in its normal form.
    pub text: Text,
}

/// Texts in the order of their paths.
pub type OwnTextItems = ListOf<OwnText>;

/// The texts that a crate comes with, and what was read for them.
#[derive(Drop)]
pub struct OwnTexts {
    pub texts: OwnTextItems,
    /// The reads, in the order of the calls.
    pub reads: Reads,
}

/// Appends a file, where it is a text.
#[tactic(auto, using(crate::proofs::OwnTextLemmas::no_text))]
fn push_text(
    alloc: Global,
    texts: &mut OwnTextItems,
    path: &PathBuf,
    kept: &PackFileData,
) -> Result<(), AllocError>
    ensures { OnOk result (texts.new ≡ texts.old ++ option_to_list (text_in (path.now, heard_file kept.now))) }
{
    match kept {
        Ok(text) => {
            let path = PathBuf::copy(alloc, path.as_path())?;
            let text = Text::copy(alloc, text.as_str())?;
            texts.push(OwnText { path, text })
        }
        Err(_) => Ok(()),
    }
}

/// The texts among the files of a pack.
#[tactic(auto, using(crate::proofs::OwnTextLemmas::one_more_text))]
fn texts_in(alloc: Global, pack: &LicensePack) -> Result<OwnTextItems, AllocError>
    ensures { IfOk result (λ texts. texts ≡ filter_map text_in pack.now.files) }
{
    let mut texts = OwnTextItems::new(alloc);
    let mut rest = pack.iter();
    'files: while let Some((path, kept)) = rest.next() {
        push_text(alloc, &mut texts, path, kept)?;
    }
    Ok(texts)
}

/// The texts that a crate comes with: its folder is listed, and the licence files that are found there are read, each
/// by one call. A file that is no text, or whose read fails, gives none, and refuses nothing.
pub fn own_texts<T: Tree>(
    alloc: Global,
    krate: &Krate,
    tree: &mut T,
) -> Result<OwnTexts, AllocError>
    // over any tree, by the answers to these reads, which are all the calls
    ensures own { IfOk result (HasOwnTexts (T.content tree.old) (T.content tree.new) (T.fault_count tree.old)
        (T.fault_count tree.new) (T.trace tree.old) (T.trace tree.new)
        (record_of krate.now)) }
    ensures no_memory { OnErr result (StarvesAmong (T.content tree.old) (T.content tree.new) (T.fault_count tree.old)
        (T.fault_count tree.new) (T.trace tree.old) (T.trace tree.new)
        (folder_of (record_of krate.now)) (own_records_of (record_of krate.now))) }
{
    let looked = look(alloc, tree, krate, &[])?;
    let texts = texts_in(alloc, &looked.pack)?;
    Ok(OwnTexts {
        texts,
        reads: looked.pack.into_reads(),
    })
}
