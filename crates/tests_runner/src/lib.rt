//! Cases of the whole run of the gate, and of the process that it runs in, which are in files: what a run is over, and what it
//! comes to.
#![tactic(auto)]

mod counted;
mod identifiers;
mod process;
mod runs;
mod seen;
mod settings;
mod start;

use runs::RunCases;
use start::Starts;
use tests_files::compare_all;

/// Files of cases: of the first path and failures, of what words ask for and how they are refused, of metadata, of
/// policies, of what is found, of what is read of each crate, of the calls of the tree, of licence families, of
/// listings, of the sample, of own catalogues and texts, of verdict files, of policies by their version, of
/// clarifications of the exceptions file, of bills, of notices, and of what verdicts rest on.
const FILES: [&str; 18] = [
    "run/gate.txt",
    "run/command.txt",
    "run/refused.txt",
    "run/metadata.txt",
    "run/policies.txt",
    "run/found.txt",
    "run/gathered.txt",
    "run/calls.txt",
    "run/families.txt",
    "run/listed.txt",
    "run/sampled.txt",
    "run/lists.txt",
    "run/records.txt",
    "run/versions.txt",
    "run/overlays.txt",
    "run/bills.txt",
    "run/notices.txt",
    "run/why.txt",
];

/// Files of cases of input that is bad, long or deep, and of runs in which calls fail.
const HOSTILE: [&str; 5] = [
    "hostile/policies.txt",
    "hostile/metadata.txt",
    "hostile/licences.txt",
    "hostile/words.txt",
    "hostile/failures.txt",
];

/// Files of rows and cases of the start of a process: how it ends, what it writes, and the paths that its words name.
const STARTS: [&str; 3] = ["start/starts.txt", "start/helps.txt", "start/named.txt"];

/// Compares the runs of the cases of the room, and returns whether nothing differs.
pub fn compare(rt: &HostRuntime) -> bool {
    compare_all(rt, &FILES, &RunCases)
}

/// The same of the start of a process.
pub fn compare_start(rt: &HostRuntime) -> bool {
    compare_all(rt, &STARTS, &Starts)
}

/// The same of input that a stranger wrote, and of failures.
pub fn compare_hostile(rt: &HostRuntime) -> bool {
    compare_all(rt, &HOSTILE, &RunCases)
}
