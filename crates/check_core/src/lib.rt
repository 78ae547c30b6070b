//! The check: the verdict on each crate with what shows it, and the findings that tell it.
//! Used by run_check, check_verify and tests_check; what is passed on may change, no clause is here.
#![tactic(auto)]

pub mod check;
pub mod crate_check;
pub mod evaluate;
pub mod findings;
pub mod laws;
pub mod report;
pub mod unused;

pub use check::{CheckCtx, judge_all};
pub use crate_check::{Checker, JudgedCrate};
pub use report::{CrateReport, CrateReports, ExpressionPlace};
