//! What measures.
use std::time::{Clock, Instant};

/// A clock, and when what is measured began; none where the clock can't be read.
#[derive(Drop)]
pub(crate) struct Meter<'r> {
    rt: &'r HostRuntime,
    begun: Option<Instant>,
}

impl<'r> Meter<'r> {
    pub(crate) fn new(rt: &'r HostRuntime) -> Meter<'r> {
        Meter { rt, begun: None }
    }

    /// Begins to measure.
    pub(crate) fn start(&mut self) {
        self.begun = Instant::now(self.rt).ok();
    }

    /// The nanoseconds since the start; 0 where the clock can't be read.
    pub(crate) fn nanoseconds(&self) -> u128 {
        let took = self.begun.and_then(|begun| begun.elapsed(self.rt).ok());
        took.map_or(0, |took| took.as_nanos())
    }
}
