//! What is written where there is no request.
//! Called by `answer_words` of `answer`; a text may be written in pieces, a prefix counts where it is refused.
ghost use Rattle.std.specs.Prelude.{◌≡◌, ◌≤◌, Ok, IfErr, OnOk};
ghost use Rattle.tree_core.specs.Faults.{Gained};
ghost use Rattle.run_found.specs.Error.{cause_of};
ghost use Rattle.run_found.specs.Written.{sink_between};
ghost use Rattle.deny_run.specs.Seen.{HasLine};
ghost use Rattle.deny_run.specs.Words.{IsShownBy, IsUnshown};

use crate::outcome::RunEnd;
use run_found::Error;
use tree_core::{Sink, SinkFailed, write_all};

/// Writes the text of a mistake in the words. A sink that refuses it changes nothing in the answer.
pub(crate) fn write_usage<E: Sink>(err: &mut E, text: &str)
    ensures written { HasLine (sink_between E.written E.fault_count err.old err.new) text.now }
    ensures later { E.fault_count err.old ≤ E.fault_count err.new }
{
    let _ = write_all(err, text.as_bytes());
}

/// Shows a text.
pub(crate) fn show<O: Sink>(out: &mut O, text: &str) -> Result<RunEnd, Error>
    ensures ok { OnOk result ((result ≡ Ok RunEnd.Shown) × Gained (O.written out.old) (O.written out.new) text.now) }
    ensures refused { IfErr result (IsUnshown (sink_between O.written O.fault_count out.old out.new) text.now) }
    ensures cause { IfErr result (λ error. IsShownBy (cause_of error)) }
    ensures later { O.fault_count out.old ≤ O.fault_count out.new }
{
    let before = out.faults();
    match write_all(out, text.as_bytes()) {
        Ok(()) => Ok(RunEnd::Shown),
        Err(SinkFailed) => Err(Error::WriteFault {
            before,
            after: out.faults(),
        }),
    }
}
