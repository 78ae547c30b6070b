//! The command `check`: from a request and the files to verdicts and findings.
//! Used by deny_run, run_record, run_sample and tests_runner; names may be added, no clause is here.
#![tactic(auto)]

mod carried;
mod check;
pub mod command;
pub mod judged;
mod reads;
pub mod report;

pub use carried::unsupported_in;
pub use command::{check_since, cmd, judged_of, judged_since, report_since};
pub use judged::JudgedCrates;
pub use report::{CrateReport, Report};
