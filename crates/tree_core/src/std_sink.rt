//! A sink over a writer of the standard library.
ghost use Rattle.std.specs.Prelude.{◌≡◌, ◌≢◌, IfErr, ◌<◌, ◌≤◌, None, Ok, length, take, IfOk, OnErr, is_ok};
ghost use Rattle.std.specs.Prelude.{if◌then◌else◌};
ghost use Rattle.std.specs.declared.io.ErrorKind.{ErrorKind};
ghost use Rattle.std.specs.Io.{WritesAtMost};
ghost use Rattle.std.specs.Io.KnownBytes.{Appends, Keeps, WriteAppends};
ghost use Rattle.std.specs.IoError.{error_kind};
ghost use Rattle.tree_core.specs.Faults.{IsCounted, next_count};

use crate::sink::{Sink, SinkFailed};
use std::io;
use std::io::{ErrorKind, Write};
use std::marker::Model;

/// A sink over a writer, seen as the writer and the count of faults. It does not tell what was written.
#[derive(Drop)]
pub struct StdSink<W> {
    writer: W,
    refused: u64,
}

impl<W> Model for StdSink<W> {
    ghost use Rattle.std.specs.Prelude.{ℕ};

    ghost Value = { W × ℕ };

    ghost view = { λ s. (s.writer, s.refused) };
}

impl<W: Write> StdSink<W> {
    pub fn new(writer: W) -> StdSink<W>
        ensures { result ≡ (writer, 0) }
    {
        StdSink { writer, refused: 0 }
    }
}

impl<W: Write> Sink for StdSink<W> {
    ghost written = { λ _. None };

    ghost fault_count = { λ s. s.1 };

    /// A write of nothing is a fault, and so is an error of the writer. What was interrupted is tried again.
    fn write(&mut self, piece: &[u8]) -> Result<usize, SinkFailed>
        ensures most { IfOk result (λ n. n ≤ length piece.now) }
        ensures least { IfOk result (λ n. 0 < length piece.now → 0 < n) }
        ensures cause { IsCounted self.old.1 self.new.1 result }

        ensures nothing { length piece.now ≡ 0 → result ≡ Ok 0 }
        ensures counts { self.new.1 ≡ (if is_ok result then self.old.1 else next_count self.old.1) }
        ensures gained { IfOk result
            (λ n. Appends (W.contents self.old.0) (W.contents self.new.0) (take n piece.now)) }
        ensures kept { OnErr result (Keeps (W.contents self.old.0) (W.contents self.new.0)) }
    {
        if piece.is_empty() {
            return Ok(0);
        }
        match write_some(&mut self.writer, piece) {
            Ok(count) if count > 0 => Ok(count),
            _ => {
                self.refused = self.refused.saturating_add(1);
                Err(SinkFailed)
            }
        }
    }

    fn faults(&self) -> u64 {
        self.refused
    }
}

/// One write, and again where it was interrupted.
fn write_some<W: Write>(writer: &mut W, piece: &[u8]) -> io::Result<usize>
    ensures bound { WritesAtMost result piece.now }
    ensures bytes { WriteAppends (W.contents writer.old) (W.contents writer.new) result piece.now }
    ensures retried { IfErr result (λ e. error_kind e ≢ ErrorKind.Interrupted) }
{
    'tries: for _ in 0..u64::MAX {
        match writer.write(piece) {
            Ok(count) => return Ok(count),
            Err(error) => {
                if error.kind() != ErrorKind::Interrupted {
                    return Err(error);
                }
            }
        }
    }
    Err(io::Error::from(ErrorKind::TimedOut))
}
