//! The program `cargo-deny`: the gate over the words, the files and the streams of the process.
//! Called by cargo as `cargo deny`; no clause is here, `gate_over` and `exit_code` of deny_gate have them.
#![tactic(auto)]

use deny_gate::{exit_code, gate_over};
use std::process::ExitCode;
use tree_core::{FolderTree, StdSink};

/// Lets a value go: at a type parameter nothing has to be proved of what it is made of.
fn let_go<T: Drop>(_value: T) {}

fn main(rt: HostRuntime) -> ExitCode {
    let mut tree = FolderTree::new(rt);
    let mut out = StdSink::new(rt.stdout());
    let mut err = StdSink::new(rt.stderr());
    let ended = gate_over(&rt, &mut tree, &mut out, &mut err);
    let code = exit_code(&ended);
    let_go(ended);
    code
}
