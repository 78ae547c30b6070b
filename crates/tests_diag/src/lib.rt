//! Rows and cases of findings, of the files that they point into, of the levels that words ask for, and of what is printed.
#![tactic(auto)]

mod findings;
mod levels;
mod printing;
mod sources;

use findings::Findings;
use levels::Levels;
use printing::Printing;

/// Compares the rows and cases of the room, and returns whether nothing differs.
pub fn compare(rt: &HostRuntime) -> bool {
    let findings = tests_files::compare(rt, "diag/findings.txt", &Findings);
    let levels = tests_files::compare(rt, "diag/levels.txt", &Levels);
    let printing = tests_files::compare(rt, "diag/printing.txt", &Printing);
    findings & levels & printing
}
