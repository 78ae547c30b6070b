//! What is printed behind a run.
//! Called by `run_told` of `lib`; the request may be looked at before `is_whole`, both have to hold.
ghost use Rattle.std.specs.Prelude.{◌≡◌, ◌≤◌};
ghost use Rattle.refusal_help.specs.Told.{told_between};
ghost use Rattle.deny_gate.specs.Behind as behind;
ghost use Rattle.deny_gate.specs.Behind.{TellsBehind, TellsEnd};
ghost use Rattle.run_found.specs.Hearing.{seen_between, HasMade};

use deny_run::{Outcome, RunEnd};
use refusal_help::tell_help;
use run_request::Request;
use std::alloc::Global;
use tree_core::{Sink, Tree};

/// Whether standard error took all that a run wrote to it, by its counts of faults before the run and behind it.
pub(crate) fn is_whole(before: u64, after: u64) -> bool
    ensures { result ≡ behind.is_whole before after }
{
    before == after && after < u64::MAX
}

/// The help of a refusal.
fn tell_end<T: Tree, E: Sink>(
    alloc: Global,
    request: &Request,
    ended: &RunEnd,
    tree: &mut T,
    err: &mut E,
)
    ensures told { TellsEnd request.now
        (told_between (T.trace tree.old) (T.trace tree.new) (E.written err.old) (E.written err.new)
        (E.fault_count err.old) (E.fault_count err.new))
        ended.now }
    ensures made { HasMade (seen_between T.content T.fault_count T.trace tree.old tree.new) }
    ensures later { E.fault_count err.old ≤ E.fault_count err.new }
{
    if let RunEnd::Refused(error) = ended {
        tell_help(alloc, tree, err, request, error);
    }
}

/// What is printed behind a run: the help of its refusal, where standard error took the line of that.
pub(crate) fn tell_behind<T: Tree, E: Sink>(
    alloc: Global,
    outcome: &Outcome,
    is_whole: bool,
    tree: &mut T,
    err: &mut E,
)
    ensures told { TellsBehind is_whole outcome.now.request
        (told_between (T.trace tree.old) (T.trace tree.new) (E.written err.old) (E.written err.new)
        (E.fault_count err.old) (E.fault_count err.new))
        outcome.now.ended }
    ensures made { HasMade (seen_between T.content T.fault_count T.trace tree.old tree.new) }
    ensures later { E.fault_count err.old ≤ E.fault_count err.new }
{
    if !is_whole {
        return;
    }
    if let Some(request) = &outcome.request {
        tell_end(alloc, request, &outcome.ended, tree, err);
    }
}
