//! Compares the rows and cases of `data/` with what the crates answer, a folder after the other: prints how many each group and each
//! file has, and on standard error what differs. Words name the folders to compare; without words it compares all.
#![tactic(auto)]

use std::process::ExitCode;
use std::{env, io};
use tests_files::exit_code;

/// The folders: of rows and cases of each room, and then of whole runs, and of runs over input that a stranger wrote.
const FOLDERS: [&str; 10] = [
    "text", "spdx", "diag", "toml", "graph", "policy", "check", "start", "run", "hostile",
];

/// Compares what is in a folder, and returns whether nothing differs.
fn compare(rt: &HostRuntime, folder: &str) -> bool {
    match folder {
        "text" => tests_text::compare(rt),
        "spdx" => tests_spdx::compare(rt),
        "diag" => tests_diag::compare(rt),
        "toml" => tests_toml::compare(rt),
        "graph" => tests_graph::compare(rt),
        "policy" => tests_policy::compare(rt),
        "check" => tests_check::compare(rt),
        "start" => tests_runner::compare_start(rt),
        "run" => tests_runner::compare(rt),
        "hostile" => tests_runner::compare_hostile(rt),
        _ => {
            let _ = eprintln!(rt; "{folder}: no such folder");
            false
        }
    }
}

fn compare_asked(rt: &HostRuntime) -> io::Result<bool> {
    let words: Vec<String> = env::args(rt)?.skip(1).collect(rt.alloc())?;
    let mut is_as_wanted = true;
    for word in &words {
        is_as_wanted = compare(rt, word.as_str()) & is_as_wanted;
    }
    if words.is_empty() {
        for folder in FOLDERS {
            is_as_wanted = compare(rt, folder) & is_as_wanted;
        }
    }
    Ok(is_as_wanted)
}

fn main(rt: HostRuntime) -> ExitCode {
    match compare_asked(&rt) {
        Ok(is_as_wanted) => exit_code(is_as_wanted),
        Err(error) => {
            let _ = eprintln!(rt; "{error}");
            exit_code(false)
        }
    }
}
