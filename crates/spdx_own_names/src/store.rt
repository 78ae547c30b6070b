//! Reading a folder of licence texts.
ghost use Rattle.std.specs.Prelude.{◌≡◌, ◌≤◌, ◌∷◌, [], map, IfOk, IfErr, option_copied};
ghost use Rattle.tree_core.specs.Answer.{listed_entry};
ghost use Rattle.tree_core.specs.Hearing.{MadeSome};
ghost use Rattle.tree_core.specs.texts.Cause.{ReadCounts};
ghost use Rattle.spdx_own_names.specs.Folder.{AreTextsRead, IsStoreRead, ReadsOn, before_end, fault_of};
ghost use Rattle.spdx_own_names.specs.Folder.{license_of, one_text, store_cause, text_file, texts_of};

use crate::error::{StoreError, StoreFault};
use deny_text::Text;
use deny_text::path::join;
use spdx_terms::catalog::{LicenseStore, StoreText, StoreTexts};
use std::alloc::{AllocError, Global};
use tree_core::texts::{ReadFault, read_file_text};
use tree_core::{Entry, Tree, TreeError};

/// What is before an end.
#[tactic(auto, using(crate::proofs::WordLemmas::strips_end))]
fn before_end<'t>(name: &'t str, end: &str) -> Option<&'t str>
    ensures { option_copied result ≡ before_end end.now name.now }
{
    name.strip_suffix(end)
}

/// The licence that a file's name tells: what is before `.txt`.
fn license_of(name: &str) -> Option<&str>
    ensures { option_copied result ≡ license_of name.now }
{
    before_end(name, ".txt")
}

/// Why a listed file has no text.
fn fault_of(alloc: Global, file: &str, fault: ReadFault) -> Result<StoreFault, AllocError>
    ensures { IfOk result (λ told. told ≡ fault_of file.now fault) }
{
    match fault {
        ReadFault::Failed { before, after } => Ok(StoreFault::Failed { before, after }),
        ReadFault::Absent | ReadFault::Folder => Ok(StoreFault::Absent),
        ReadFault::NotUtf8 { .. } => {
            let name = Text::copy(alloc, file)?;
            Ok(StoreFault::NotUtf8 { name })
        }
    }
}

/// The text of a licence, by the read of its file in a folder.
fn read_text<T: Tree>(
    alloc: Global,
    tree: &mut T,
    dir: &str,
    file: &str,
    license: &str,
    before: u64,
) -> Result<StoreText, StoreError>
    requires { before ≤ T.fault_count tree.old }
    ensures read { AreTextsRead before (T.fault_count tree.new) (T.trace tree.old) (T.trace tree.new) dir.now
        (text_file file.now license.now ∷ []) (one_text result) }
    ensures made { MadeSome (T.content tree.old) (T.content tree.new) (T.fault_count tree.old)
        (T.fault_count tree.new) (T.trace tree.old) (T.trace tree.new) }
    ensures counts { IfErr result (λ error.
        ReadCounts before (T.fault_count tree.old) (T.fault_count tree.new) (store_cause error)) }
{
    let path = join(alloc, dir, file)?;
    match read_file_text(alloc, tree, path.as_path(), before)? {
        Ok(body) => {
            let name = Text::copy(alloc, license)?;
            Ok(StoreText { name, body })
        }
        Err(fault) => {
            let told = fault_of(alloc, file, fault)?;
            Err(StoreError::Fault(told))
        }
    }
}

/// The texts and that of an entry, where it is one.
fn with_entry<T: Tree>(
    alloc: Global,
    tree: &mut T,
    dir: &str,
    entry: &Entry,
    before: u64,
    texts: StoreTexts,
) -> Result<StoreTexts, StoreError>
    requires { before ≤ T.fault_count tree.old }
    ensures read { ReadsOn before (T.fault_count tree.new) (T.trace tree.old) (T.trace tree.new) dir.now
        (texts_of (listed_entry entry.now ∷ [])) texts result }
    ensures made { MadeSome (T.content tree.old) (T.content tree.new) (T.fault_count tree.old)
        (T.fault_count tree.new) (T.trace tree.old) (T.trace tree.new) }
    ensures counts { IfErr result (λ error.
        ReadCounts before (T.fault_count tree.old) (T.fault_count tree.new) (store_cause error)) }
{
    if !entry.is_file {
        return Ok(texts);
    }
    let file = entry.name.as_str();
    let Some(license) = license_of(file) else {
        return Ok(texts);
    };
    let text = read_text(alloc, tree, dir, file, license, before)?;
    let mut texts = texts;
    texts.push(text)?;
    Ok(texts)
}

/// The texts among the entries of a folder.
fn read_texts<T: Tree>(
    alloc: Global,
    tree: &mut T,
    dir: &str,
    entries: &[Entry],
    before: u64,
) -> Result<StoreTexts, StoreError>
    requires { before ≤ T.fault_count tree.old }
    ensures read { AreTextsRead before (T.fault_count tree.new) (T.trace tree.old) (T.trace tree.new) dir.now
        (texts_of (map listed_entry entries.now)) result }
    ensures made { MadeSome (T.content tree.old) (T.content tree.new) (T.fault_count tree.old)
        (T.fault_count tree.new) (T.trace tree.old) (T.trace tree.new) }
    ensures counts { IfErr result (λ error.
        ReadCounts before (T.fault_count tree.old) (T.fault_count tree.new) (store_cause error)) }
{
    let mut texts = StoreTexts::new(alloc);
    'entries: for entry in entries {
        texts = with_entry(alloc, tree, dir, entry, before, texts)?;
    }
    Ok(texts)
}

/// The texts of a folder: the files whose names end `.txt`, each of the licence whose name is before that.
fn list_texts<T: Tree>(
    alloc: Global,
    tree: &mut T,
    dir: &str,
    before: u64,
) -> Result<StoreTexts, StoreError>
    requires { before ≤ T.fault_count tree.old }
    ensures read { IsStoreRead before (T.fault_count tree.new) (T.trace tree.old) (T.trace tree.new) dir.now
        result }
    ensures made { MadeSome (T.content tree.old) (T.content tree.new) (T.fault_count tree.old)
        (T.fault_count tree.new) (T.trace tree.old) (T.trace tree.new) }
    ensures counts { IfErr result (λ error.
        ReadCounts before (T.fault_count tree.old) (T.fault_count tree.new) (store_cause error)) }
{
    match tree.list(alloc, dir) {
        Ok(entries) => read_texts(alloc, tree, dir, entries.items(), before),
        Err(TreeError::Absent) => Err(StoreError::Fault(StoreFault::Absent)),
        Err(TreeError::WrongKind) => Err(StoreError::Fault(StoreFault::NotFolder)),
        Err(TreeError::Failed) => Err(StoreError::Fault(StoreFault::Failed {
            before,
            after: tree.faults(),
        })),
        Err(TreeError::Memory) => Err(StoreError::Memory),
    }
}

/// The identifier over the texts of a folder: the files whose names end `.txt`, in the byte order of their
/// names, each of the licence whose name is before that end. The folder is listed once, and each text read
/// once.
///
/// It is refused where the folder or one of its texts can't be read, where a text is not UTF-8, and for want
/// of memory.
pub fn read_store<T: Tree>(
    alloc: Global,
    tree: &mut T,
    dir: &str,
) -> Result<LicenseStore, StoreError>
    ensures read { IsStoreRead (T.fault_count tree.old) (T.fault_count tree.new) (T.trace tree.old)
        (T.trace tree.new) dir.now result }
    ensures made { MadeSome (T.content tree.old) (T.content tree.new) (T.fault_count tree.old)
        (T.fault_count tree.new) (T.trace tree.old) (T.trace tree.new) }
    ensures counts { IfErr result (λ error. ReadCounts (T.fault_count tree.old) (T.fault_count tree.old)
        (T.fault_count tree.new) (store_cause error)) }
{
    let before = tree.faults();
    let texts = list_texts(alloc, tree, dir, before)?;
    let store = LicenseStore::new(alloc, texts)?;
    Ok(store)
}
