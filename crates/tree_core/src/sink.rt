//! Where bytes are written to.
ghost use Rattle.std.specs.Prelude.{◌≡◌, ℕ, ◌<◌, ◌≤◌, List, Option, length, take, IfOk, OnOk, OnErr};
ghost use Rattle.tree_core.specs.Faults.{Gained, GainedPrefix, IsCounted};

/// A sink refused a write, and counted it.
#[derive(Clone, Copy, Debug, PartialEq, Eq)]
pub struct SinkFailed;

pub trait Sink {
    /// What was written, where the sink tells it.
    ghost written: { Self → Option (List ℕ) };

    /// How often a write was refused.
    ghost fault_count: { Self → ℕ };

    /// Takes a prefix of the piece, and tells how many bytes it took: at least one of a piece that is not
    /// empty.
    fn write(&mut self, piece: &[u8]) -> Result<usize, SinkFailed>
        ensures most { IfOk result (λ n. n ≤ length piece.now) }
        ensures least { IfOk result (λ n. 0 < length piece.now → 0 < n) }
        ensures taken { IfOk result (λ n. Gained (written self.old) (written self.new) (take n piece.now)) }
        ensures refused { OnErr result (written self.new ≡ written self.old) }
        ensures cause { IsCounted (fault_count self.old) (fault_count self.new) result };

    /// How often a write was refused; it stops at the last number.
    fn faults(&self) -> u64
        ensures { result ≡ fault_count self.now };
}

/// Writes all bytes. After a refusal the sink has gained a prefix of them.
pub fn write_all<S: Sink>(sink: &mut S, bytes: &[u8]) -> Result<(), SinkFailed>
    ensures ok { OnOk result (Gained (S.written sink.old) (S.written sink.new) bytes.now) }
    ensures err { OnErr result (GainedPrefix (S.written sink.old) (S.written sink.new) bytes.now) }
    ensures cause { IsCounted (S.fault_count sink.old) (S.fault_count sink.new) result }
{
    let mut from = 0;
    'pieces: while from < bytes.len() {
        let rest = &bytes[from..];
        from += sink.write(rest)?;
    }
    Ok(())
}
