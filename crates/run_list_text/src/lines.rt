//! Lines that are written to a sink, one for each item.
//! Called by `listing`; `ROOM` and the moments of writing may change, clauses have the whole text alone.
ghost use Rattle.std.specs.Prelude.{◌≡◌, ◌≤◌, ℕ, All, List, [], ◌++◌, IfErr, OnErr, OnOk};
ghost use Rattle.std.specs.List.{flat_map};
ghost use Rattle.deny_text.specs.Fronts.{StandsInFront};
ghost use Rattle.tree_core.specs.Faults.{Gained, GainedPrefix};
ghost use Rattle.run_list_text.specs.Written.{HasReasonSince, LeavesPending};

use std::alloc::{AllocError, Global};
use tree_core::{Sink, SinkFailed, write_all};

/// Why a listing was not written.
#[derive(Clone, Copy, Debug, PartialEq, Eq)]
pub enum ListError {
    /// The sink refused a write. The numbers are its counts of faults, at the start of the call and once the
    /// write had failed.
    WriteFault { before: u64, after: u64 },
    Memory,
}

impl From<AllocError> for ListError {
    ghost use Rattle.run_list_text.specs.declared.lines.ListError.TheVariants.{Memory};

    ghost from_gives = { λ _ error. error ≡ Memory };

    fn from(_error: AllocError) -> ListError {
        ListError::Memory
    }
}

/// What is written of each of some items.
pub(crate) trait Lines<T> {
    /// The line of an item.
    ghost line: { Self → T → List ℕ };

    /// What is asked of an item.
    ghost fits: { Self → T → Type 0 };

    /// Appends the line of an item. Where memory is wanted what was written stays, in front of what was added.
    fn push(&self, out: &mut Vec<u8>, alloc: Global, item: &T) -> Result<(), AllocError>
        requires { fits self.now item.now }
        ensures ok { OnOk result (out.new.items ≡ out.old.items ++ line self.now item.now) }
        ensures front { StandsInFront out.old.items out.new.items };
}

/// How many bytes are gathered before they are written.
const ROOM: usize = 65_536;

/// Writes what is pending. `begun` is the sink's count of faults when the writing of all began.
fn flush<S: Sink>(pending: &mut Vec<u8>, sink: &mut S, begun: u64) -> Result<(), ListError>
    requires { begun ≤ S.fault_count sink.old }
    ensures ok { OnOk result (Gained (S.written sink.old) (S.written sink.new) pending.old.items) }
    ensures empty { OnOk result (pending.new.items ≡ []) }
    ensures err { OnErr result
        (GainedPrefix (S.written sink.old) (S.written sink.new) pending.old.items) }
    ensures reason { IfErr result (HasReasonSince begun (S.fault_count sink.new)) }
    ensures later { S.fault_count sink.old ≤ S.fault_count sink.new }
{
    match write_all(sink, pending.as_slice()) {
        Ok(()) => {
            pending.clear();
            Ok(())
        }
        Err(SinkFailed) => Err(ListError::WriteFault {
            before: begun,
            after: sink.faults(),
        }),
    }
}

/// The same, once much is pending.
fn flush_much<S: Sink>(pending: &mut Vec<u8>, sink: &mut S, begun: u64) -> Result<(), ListError>
    requires { begun ≤ S.fault_count sink.old }
    ensures ok { OnOk result (LeavesPending (S.written sink.old) (S.written sink.new)
        pending.new.items pending.old.items) }
    ensures err { OnErr result
        (GainedPrefix (S.written sink.old) (S.written sink.new) pending.old.items) }
    ensures reason { IfErr result (HasReasonSince begun (S.fault_count sink.new)) }
    ensures later { S.fault_count sink.old ≤ S.fault_count sink.new }
{
    if pending.len() < ROOM {
        return Ok(());
    }
    flush(pending, sink, begun)
}

/// Puts the line of an item behind what is pending.
fn add_one<S: Sink, T, L: Lines<T>>(
    alloc: Global,
    lines: &L,
    item: &T,
    pending: &mut Vec<u8>,
    sink: &mut S,
    begun: u64,
) -> Result<(), ListError>
    requires fits { L.fits lines.now item.now }
    requires begun { begun ≤ S.fault_count sink.old }
    ensures ok { OnOk result (LeavesPending (S.written sink.old) (S.written sink.new) pending.new.items
        (pending.old.items ++ L.line lines.now item.now)) }
    ensures err { OnErr result (GainedPrefix (S.written sink.old) (S.written sink.new)
        (pending.old.items ++ L.line lines.now item.now)) }
    ensures reason { IfErr result (HasReasonSince begun (S.fault_count sink.new)) }
    ensures later { S.fault_count sink.old ≤ S.fault_count sink.new }
{
    lines.push(pending, alloc, item)?;
    flush_much(pending, sink, begun)
}

/// Puts the lines of items behind what is pending.
fn add_all<S: Sink, T, L: Lines<T>>(
    alloc: Global,
    lines: &L,
    items: &[T],
    pending: &mut Vec<u8>,
    sink: &mut S,
    begun: u64,
) -> Result<(), ListError>
    requires fits { All (L.fits lines.now) items.now }
    requires begun { begun ≤ S.fault_count sink.old }
    ensures ok { OnOk result (LeavesPending (S.written sink.old) (S.written sink.new) pending.new.items
        (pending.old.items ++ flat_map (L.line lines.now) items.now)) }
    ensures err { OnErr result (GainedPrefix (S.written sink.old) (S.written sink.new)
        (pending.old.items ++ flat_map (L.line lines.now) items.now)) }
    ensures reason { IfErr result (HasReasonSince begun (S.fault_count sink.new)) }
    ensures later { S.fault_count sink.old ≤ S.fault_count sink.new }
{
    'items: for item in items {
        add_one(alloc, lines, item, pending, sink, begun)?;
    }
    Ok(())
}

/// Puts a text behind what is pending, and writes it.
fn add_last<S: Sink>(
    text: &[u8],
    pending: &mut Vec<u8>,
    sink: &mut S,
    begun: u64,
) -> Result<(), ListError>
    requires { begun ≤ S.fault_count sink.old }
    ensures ok { OnOk result
        (Gained (S.written sink.old) (S.written sink.new) (pending.old.items ++ text.now)) }
    ensures err { OnErr result
        (GainedPrefix (S.written sink.old) (S.written sink.new) (pending.old.items ++ text.now)) }
    ensures reason { IfErr result (HasReasonSince begun (S.fault_count sink.new)) }
    ensures later { S.fault_count sink.old ≤ S.fault_count sink.new }
{
    pending.extend_from_slice(text)?;
    flush(pending, sink, begun)
}

/// Writes what is pending, the lines of items, and a last text.
pub(crate) fn write_lines<S: Sink, T, L: Lines<T>>(
    alloc: Global,
    pending: &mut Vec<u8>,
    lines: &L,
    items: &[T],
    last: &[u8],
    sink: &mut S,
    begun: u64,
) -> Result<(), ListError>
    requires fits { All (L.fits lines.now) items.now }
    requires begun { begun ≤ S.fault_count sink.old }
    ensures ok { OnOk result (Gained (S.written sink.old) (S.written sink.new)
        (pending.old.items ++ flat_map (L.line lines.now) items.now ++ last.now)) }
    ensures err { OnErr result (GainedPrefix (S.written sink.old) (S.written sink.new)
        (pending.old.items ++ flat_map (L.line lines.now) items.now ++ last.now)) }
    ensures reason { IfErr result (HasReasonSince begun (S.fault_count sink.new)) }
    ensures later { S.fault_count sink.old ≤ S.fault_count sink.new }
{
    add_all(alloc, lines, items, pending, sink, begun)?;
    add_last(last, pending, sink, begun)
}

/// Writes a text. `begun` is the sink's count of faults when the call began.
pub(crate) fn write_text<S: Sink>(
    text: &mut Vec<u8>,
    sink: &mut S,
    begun: u64,
) -> Result<(), ListError>
    requires { begun ≤ S.fault_count sink.old }
    ensures ok { OnOk result (Gained (S.written sink.old) (S.written sink.new) text.old.items) }
    ensures err { OnErr result (GainedPrefix (S.written sink.old) (S.written sink.new) text.old.items) }
    ensures reason { IfErr result (HasReasonSince begun (S.fault_count sink.new)) }
    ensures later { S.fault_count sink.old ≤ S.fault_count sink.new }
{
    flush(text, sink, begun)
}
