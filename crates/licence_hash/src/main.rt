//! The program `licence-hash`: writes for each file that is named the entry that a clarification takes.
//! No clause is here, `hash_over` and `exit_code` have them.
#![tactic(auto)]

mod entry;
mod run;
mod told;

use run::{exit_code, hash_over};
use std::process::ExitCode;
use tree_core::{FolderTree, StdSink};

fn main(rt: HostRuntime) -> ExitCode {
    let mut tree = FolderTree::new(rt);
    let mut out = StdSink::new(rt.stdout());
    let mut err = StdSink::new(rt.stderr());
    exit_code(&hash_over(&rt, &mut tree, &mut out, &mut err))
}
