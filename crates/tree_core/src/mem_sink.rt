//! A sink in memory.
ghost use Rattle.std.specs.Prelude.{◌≡◌, ℕ, ◌↔◌, ◌<◌, ◌≤◌, ◌++◌, [], Some, length, take, IfOk, OnErr, IsErr};
ghost use Rattle.tree_core.specs.Faults.{Gained, IsCounted, next_count};
ghost use Rattle.tree_core.specs.SinkState.{taken_of};

use crate::sink::{Sink, SinkFailed};
use std::alloc::{AllocError, Global};
use std::marker::Model;

/// A sink over memory that it takes once.
#[derive(Drop)]
pub struct MemSink {
    bytes: Vec<u8>,
    limit: usize,
    most: usize,
    refused: u64,
}

impl Model for MemSink {
    ghost use Rattle.std.specs.Prelude.{◌<◌, ◌≤◌, vec_len, vec_capacity};
    ghost use Rattle.tree_core.specs.SinkState.{SinkState};

    ghost Value = { SinkState };

    ghost view = { λ s. record { held = s.bytes.items; room = s.limit; piece = s.most; faults = s.refused } };

    ghost invariant = { λ s. (vec_len s.bytes ≤ s.limit) × (s.limit ≤ vec_capacity s.bytes) × (0 < s.most) };
}

impl MemSink {
    /// Takes at most `piece` bytes a call, and holds at most `room` bytes, whose memory is taken here.
    pub fn new(alloc: Global, room: usize, piece: usize) -> Result<MemSink, AllocError>
        requires { 1 ≤ piece }
        ensures { IfOk result (λ s. s ≡ record { held = []; room = room; piece = piece; faults = 0 }) }
    {
        let bytes = Vec::with_capacity(alloc, room)?;
        Ok(MemSink {
            bytes,
            limit: room,
            most: piece,
            refused: 0,
        })
    }

    /// What was written so far.
    pub fn written(&self) -> &[u8]
        ensures { result.now ≡ self.now.held }
    {
        &self.bytes
    }
}

impl Sink for MemSink {
    ghost written = { λ s. Some s.held };

    ghost fault_count = { λ s. s.faults };

    fn write(&mut self, piece: &[u8]) -> Result<usize, SinkFailed>
        ensures most { IfOk result (λ n. n ≤ length piece.now) }
        ensures least { IfOk result (λ n. 0 < length piece.now → 0 < n) }
        ensures taken { IfOk result
            (λ n. Gained (Some self.old.held) (Some self.new.held) (take n piece.now)) }
        ensures refused { OnErr result (Some self.new.held ≡ Some self.old.held) }
        ensures cause { IsCounted self.old.faults self.new.faults result }

        ensures count { IfOk result (λ n. n ≡ taken_of self.old (length piece.now)) }
        ensures after { IfOk result (λ n. self.new
            ≡ record self.old { held = self.old.held ++ take n piece.now }) }
        ensures full { IsErr result ↔ ((0 < length piece.now) × (self.old.room ≤ length self.old.held)) }
        ensures after_refusal { OnErr result
            (self.new ≡ record self.old { faults = next_count self.old.faults }) }
    {
        let left = self.limit - self.bytes.len();
        let count = piece.len().min(self.most.min(left));
        if count == 0 && !piece.is_empty() {
            self.refused = self.refused.saturating_add(1);
            return Err(SinkFailed);
        }
        match self.bytes.extend_from_slice(&piece[..count]) {
            Ok(()) => Ok(count),
            // The memory of the room was taken at the start.
            Err(_) => unreachable!(),
        }
    }

    fn faults(&self) -> u64 {
        self.refused
    }
}
