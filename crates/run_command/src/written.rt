//! What a command writes of its answer.
//! Called by `record_report` and `verify_since` of `run_record`; the text may be written in pieces.
ghost use Rattle.std.specs.Prelude.{◌≤◌, IfErr, OnErr, OnOk};
ghost use Rattle.tree_core.specs.Faults.{Gained, GainedPrefix};
ghost use Rattle.run_command.specs.Written.{IsWriteFault};

use run_found::Error;
use tree_core::sink::write_all;
use tree_core::{Sink, SinkFailed};

/// Writes the text of an answer. The counts of a refused write are those of this call.
pub fn write_answer<O: Sink>(out: &mut O, text: &[u8]) -> Result<(), Error>
    ensures ok { OnOk result (Gained (O.written out.old) (O.written out.new) text.now) }
    ensures err { OnErr result (GainedPrefix (O.written out.old) (O.written out.new) text.now) }
    ensures reason { IfErr result (IsWriteFault (O.fault_count out.old) (O.fault_count out.new)) }
    ensures later { O.fault_count out.old ≤ O.fault_count out.new }
{
    let before = out.faults();
    match write_all(out, text) {
        Ok(()) => Ok(()),
        Err(SinkFailed) => Err(Error::WriteFault {
            before,
            after: out.faults(),
        }),
    }
}
