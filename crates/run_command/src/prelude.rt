//! What comes before a command.
//! Called by check and commands of `deny_run`; `?` may replace a `match`, the order of the steps may not.
ghost use Rattle.std.specs.Prelude.{◌≡◌, Some, Err, IfErr};
ghost use Rattle.tree_core.specs.texts.Cause.{ReadCounts};
ghost use Rattle.graph_workspace.specs.declared.error.UnsupportedPart.{UnsupportedPart};
ghost use Rattle.run_found.specs.Error.{cause_of};
ghost use Rattle.run_found.specs.Hearing.{seen_between};
ghost use Rattle.run_found.specs.own_names.Found.{FindsLists, found_answer};
ghost use Rattle.run_found.specs.own_names.Given.{lists_asked, lists_given, texts_given};
ghost use Rattle.run_command.specs.Given.{CommandOptions, command_asked};
ghost use Rattle.run_command.specs.Prelude.{ComesTo};

use crate::manifest::look_at_manifest;
use graph_workspace::UnsupportedPart;
use run_found::Error;
use run_found::own_names::{ListsFound, lists_found};
use run_request::Request;
use spdx_core::{Catalog, Identifier, TextLookup};
use std::alloc::Global;
use tree_core::Tree;

/// The catalogue and the identifier of a request: an organisation's own, where it names them, in place of those that
/// are handed in.
fn own_lists<'g, T: Tree, C: Catalog, I: Identifier + TextLookup>(
    alloc: Global,
    tree: &mut T,
    request: &Request,
    catalog: &'g C,
    identifier: &'g I,
) -> Result<ListsFound<'g, C, I>, Error>
    ensures found { FindsLists
        (lists_given (C.lists catalog.now) (texts_given (I.match_of identifier.now) (I.text_of identifier.now)))
        (lists_asked request.now.catalog request.now.store)
        (seen_between T.content T.fault_count T.trace tree.old tree.new)
        (found_answer C.lists I.match_of I.text_of result) }
    ensures counts { IfErr result (λ error. ReadCounts (T.fault_count tree.old)
        (T.fault_count tree.old) (T.fault_count tree.new) (cause_of error)) }
{
    let catalog_path = request.catalog.as_ref();
    let store_path = request.store.as_ref();
    lists_found(alloc, tree, catalog_path, store_path, catalog, identifier)
}

/// What comes before a command: it is refused where a part of the request is not carried; the manifest is looked at;
/// and then an organisation's own names and texts are read, where some are asked for. Those that the command goes by
/// are answered.
pub fn lists_of_request<'g, T: Tree, C: Catalog, I: Identifier + TextLookup>(
    alloc: Global,
    tree: &mut T,
    request: &Request,
    unsupported: Option<UnsupportedPart>,
    catalog: &'g C,
    identifier: &'g I,
) -> Result<ListsFound<'g, C, I>, Error>
    // whatever else the command is given
    ensures comes { (options : CommandOptions) → options.unsupported ≡ unsupported → ComesTo
        (command_asked (C.lists catalog.now) (I.match_of identifier.now) (I.text_of identifier.now) request.now options)
        (seen_between T.content T.fault_count T.trace tree.old tree.new)
        (found_answer C.lists I.match_of I.text_of result) }
    ensures counts { IfErr result (λ error. ReadCounts
        (T.fault_count tree.old) (T.fault_count tree.old) (T.fault_count tree.new) (cause_of error)) }
{
    match unsupported {
        Some(what) => Err(Error::NotCarried(what)),
        None => match look_at_manifest(alloc, tree, request.krate_ctx.manifest_path.as_path()) {
            Err(error) => Err(error),
            Ok(()) => match own_lists(alloc, tree, request, catalog, identifier) {
                Err(error) => Err(error),
                Ok(found) => Ok(found),
            },
        },
    }
}
