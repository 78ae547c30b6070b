//! What is printed behind a refusal.
//! Called by `tell_end` of `deny_gate`; help may be written in pieces once all of it is made.
ghost use Rattle.std.specs.Prelude.{◌≤◌};
ghost use Rattle.refusal_help.specs.Help.{help_of};
ghost use Rattle.refusal_help.specs.Told.{LinesWritten, TellsHelp, told_between};
ghost use Rattle.run_found.specs.Hearing.{seen_between, HasMade};

use crate::again::{Again, heard_again};
use crate::help::help_of;
use run_found::Error;
use run_request::Request;
use std::alloc::Global;
use tree_core::{Sink, Tree, write_all};

/// Writes the lines of help. A sink that refuses them has a prefix of them, and where memory is wanting
/// nothing is written.
fn write_help<E: Sink>(alloc: Global, err: &mut E, request: &Request, again: &Again, error: &Error)
    ensures later { E.fault_count err.old ≤ E.fault_count err.new }
    ensures written { LinesWritten (E.written err.old) (E.written err.new)
        (E.fault_count err.old) (E.fault_count err.new) (help_of request.now again.now error.now) }
{
    if let Ok(text) = help_of(alloc, request, again, error) {
        let _ = write_all(err, text.as_bytes());
    }
}

/// Writes the lines of help behind the line of a refusal. For a policy's path and text the tree is asked once
/// more.
pub fn tell_help<T: Tree, E: Sink>(
    alloc: Global,
    tree: &mut T,
    err: &mut E,
    request: &Request,
    error: &Error,
)
    ensures told { TellsHelp request.now error.now
        (told_between (T.trace tree.old) (T.trace tree.new) (E.written err.old) (E.written err.new)
        (E.fault_count err.old) (E.fault_count err.new)) }
    ensures made { HasMade (seen_between T.content T.fault_count T.trace tree.old tree.new) }
    ensures later { E.fault_count err.old ≤ E.fault_count err.new }
{
    let again = heard_again(alloc, tree, &request.krate_ctx, error);
    write_help(alloc, err, request, &again, error);
}
