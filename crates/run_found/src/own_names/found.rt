//! The catalogue and the licence texts that a request asks for.
//! Called by `own_lists` of `run_command`; `?` may replace a `match`, catalogue before texts is in a clause.
ghost use Rattle.std.specs.Prelude.{◌≡◌, Some, IfErr};
ghost use Rattle.std.specs.Option.{option_copied};
ghost use Rattle.tree_core.specs.texts.Cause.{ReadCounts};
ghost use Rattle.run_found.specs.Error.{cause_of};
ghost use Rattle.run_found.specs.own_names.Found.{AnswersHeard, FindsLists, HasCatalog, HasTexts};
ghost use Rattle.run_found.specs.own_names.Found.{found_answer, listing_answer, lists_answer, texts_answer};
ghost use Rattle.run_found.specs.own_names.Given.{lists_asked, lists_given, texts_given};
ghost use Rattle.run_found.specs.own_names.Heard.{catalog_in};
ghost use Rattle.spdx_terms.specs.catalog.Catalog.{CatalogLists};
ghost use Rattle.run_found.specs.Hearing.{seen_between, HasMade};

use crate::Error;
use crate::own_names::lists::ChosenCatalog;
use crate::own_names::texts::ChosenIdentifier;
use deny_text::{Bytes, PathBuf};
use spdx_own_names::{FileCatalog, read_catalog, read_store};
use spdx_terms::catalog::{Catalog, Identifier, TextLookup};
use std::alloc::Global;
use tree_core::texts::ReadFault;
use tree_core::{Tree, TreeError};

/// What tells licences in a run.
#[derive(Drop)]
pub struct ListsFound<'g, C, I> {
    pub catalog: ChosenCatalog<'g, C>,
    pub identifier: ChosenIdentifier<'g, I>,
}

/// The catalogue that the bytes of a file define.
fn listing_of(alloc: Global, bytes: &Bytes) -> Result<FileCatalog, Error>
    ensures { AnswersHeard (Some (catalog_in bytes.now)) (listing_answer result) }
{
    match read_catalog(alloc, bytes.items()) {
        Ok(listing) => Ok(listing),
        Err(refused) => Err(Error::from(refused)),
    }
}

/// The catalogue of the file at a path.
fn catalog_at<T: Tree>(alloc: Global, tree: &mut T, path: &str) -> Result<FileCatalog, Error>
    // whatever lists would count without the file
    ensures read { (given : CatalogLists) → HasCatalog given (Some path.now)
        (T.fault_count tree.old) (T.fault_count tree.new) (T.trace tree.old) (T.trace tree.new)
        (listing_answer result) }
    ensures made { HasMade (seen_between T.content T.fault_count T.trace tree.old tree.new) }
    ensures counts { IfErr result (λ error. ReadCounts (T.fault_count tree.old)
        (T.fault_count tree.old) (T.fault_count tree.new) (cause_of error)) }
{
    let before = tree.faults();
    match tree.read(alloc, path) {
        Ok(bytes) => listing_of(alloc, &bytes),
        Err(TreeError::Absent) => Err(Error::CatalogRead(ReadFault::Absent)),
        Err(TreeError::WrongKind) => Err(Error::CatalogRead(ReadFault::Folder)),
        Err(TreeError::Failed) => Err(Error::CatalogRead(ReadFault::Failed {
            before,
            after: tree.faults(),
        })),
        Err(TreeError::Memory) => Err(Error::Memory),
    }
}

/// The catalogue of a run: that of a file where a path is given, else the one that was handed in.
fn lists_at<'c, T: Tree, C: Catalog>(
    alloc: Global,
    tree: &mut T,
    path: Option<&PathBuf>,
    catalog: &'c C,
) -> Result<ChosenCatalog<'c, C>, Error>
    ensures read { HasCatalog (C.lists catalog.now) (option_copied path.entry)
        (T.fault_count tree.old) (T.fault_count tree.new) (T.trace tree.old) (T.trace tree.new)
        (lists_answer C.lists result) }
    ensures made { HasMade (seen_between T.content T.fault_count T.trace tree.old tree.new) }
    ensures counts { IfErr result (λ error. ReadCounts (T.fault_count tree.old)
        (T.fault_count tree.old) (T.fault_count tree.new) (cause_of error)) }
{
    match path {
        None => Ok(ChosenCatalog::Given(catalog)),
        Some(path) => match catalog_at(alloc, tree, path.as_path()) {
            Ok(listing) => Ok(ChosenCatalog::Own(listing)),
            Err(error) => Err(error),
        },
    }
}

/// The identifier of a run: the one over the texts of a folder where a path is given, else the one that was
/// handed in.
fn texts_at<'i, T: Tree, I: Identifier + TextLookup>(
    alloc: Global,
    tree: &mut T,
    path: Option<&PathBuf>,
    identifier: &'i I,
) -> Result<ChosenIdentifier<'i, I>, Error>
    ensures read { HasTexts (texts_given (I.match_of identifier.now) (I.text_of identifier.now))
        (option_copied path.entry)
        (T.fault_count tree.old) (T.fault_count tree.new) (T.trace tree.old) (T.trace tree.new)
        (texts_answer I.match_of I.text_of result) }
    ensures made { HasMade (seen_between T.content T.fault_count T.trace tree.old tree.new) }
    ensures counts { IfErr result (λ error. ReadCounts (T.fault_count tree.old)
        (T.fault_count tree.old) (T.fault_count tree.new) (cause_of error)) }
{
    match path {
        None => Ok(ChosenIdentifier::Given(identifier)),
        Some(path) => match read_store(alloc, tree, path.as_path()) {
            Ok(store) => Ok(ChosenIdentifier::Own(store)),
            Err(refused) => Err(Error::from(refused)),
        },
    }
}

/// The catalogue and the identifier of a run: each is an organisation's own where a path is given, else the one
/// that was handed in. The catalogue's file is read first, and then the folder of texts.
///
/// It is refused where the file is not read or has a fault, where the folder or one of its texts is not read,
/// and for want of memory; a failed call carries the tree's counts of faults when this call began and behind it.
pub fn lists_found<'g, T: Tree, C: Catalog, I: Identifier + TextLookup>(
    alloc: Global,
    tree: &mut T,
    catalog_path: Option<&PathBuf>,
    store_path: Option<&PathBuf>,
    catalog: &'g C,
    identifier: &'g I,
) -> Result<ListsFound<'g, C, I>, Error>
    // By what was read: the calls that were due were made, and no other; each refusal is the first one, by
    // its cause.
    ensures found { FindsLists
        (lists_given (C.lists catalog.now) (texts_given (I.match_of identifier.now) (I.text_of identifier.now)))
        (lists_asked (option_copied catalog_path.entry) (option_copied store_path.entry))
        (seen_between T.content T.fault_count T.trace tree.old tree.new)
        (found_answer C.lists I.match_of I.text_of result) }
    ensures made { HasMade (seen_between T.content T.fault_count T.trace tree.old tree.new) }
    ensures counts { IfErr result (λ error. ReadCounts (T.fault_count tree.old)
        (T.fault_count tree.old) (T.fault_count tree.new) (cause_of error)) }
{
    match lists_at(alloc, tree, catalog_path, catalog) {
        Ok(lists) => match texts_at(alloc, tree, store_path, identifier) {
            Ok(texts) => Ok(ListsFound {
                catalog: lists,
                identifier: texts,
            }),
            Err(error) => Err(error),
        },
        Err(error) => Err(error),
    }
}
