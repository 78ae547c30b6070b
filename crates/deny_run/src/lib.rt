//! The run of the licence gate: from words and files to verdicts, a summary and a status.
//! Used by deny_gate, tests_runner and tests_start; what is passed on may change, no clause is here.
#![tactic(auto)]

pub mod answer;
mod check;
mod commands;
pub mod laws;
pub mod outcome;
pub mod run;
mod summary;
mod words;

pub use diag_print::{Color, DiagPrinter, Format, LogContext, OutputLock, PrintError};
pub use gather_core::LicenseExprSource;
pub use outcome::{Outcome, RunEnd};
pub use policy_load::{
    Diagnostics, ErrorKind, ReadFault, ShapeError, ShapeErrors, SyntaxError, SyntaxReason,
    ValidConfig,
};
pub use run_bill::BilledCrates;
pub use run_check::report::{AllStats, CrateReport, Report, Stats, Verdict};
pub use run_found::{CrateRead, CrateReads, Error};
pub use run_notice::NoticedCrates;
pub use run_record::{NoReason, VerifiedCrates, VerifyAnswer};
pub use run_request::{Request, Subcommand};
pub use spdx_own_names::StoreFault;
