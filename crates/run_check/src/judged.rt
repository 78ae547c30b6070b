//! The crates of a check beside the report on them.
//! Made by `judged_since` of command, used by the commands that tell of crates by their verdicts; the crates that were
//! not checked may be let go, no clause has them.
ghost use Rattle.std.specs.Prelude.{◌≡◌, IfOk, map};
ghost use Rattle.graph_core.specs.selection.Listed.{record_behind};
ghost use Rattle.run_check.specs.Judged.{crates_judged};

use crate::report::Report;
use graph_workspace::{Include, KrateRefs, Krates};
use std::alloc::{AllocError, Global};

/// The report of a check, and the crates that it is about.
#[derive(Drop)]
pub struct JudgedCrates {
    pub report: Report,
    /// The crates that walks from the roots reach, among them those that were checked.
    pub krates: Krates,
}

impl JudgedCrates {
    /// The crates that were checked, in the order of their ids: one for each crate of the report.
    pub fn checked(&self, alloc: Global) -> Result<KrateRefs<'_>, AllocError>
        ensures { IfOk result (λ refs. map record_behind refs ≡ crates_judged self.now) }
    {
        let include = Include {
            dev: self.report.policy.include_dev,
            build: self.report.policy.include_build,
        };
        self.krates.selected(alloc, include)
    }
}
