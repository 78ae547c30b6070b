//! Rows and cases of what paths, trees and command lines come to, and what further rows of texts share.
#![tactic(auto)]

pub mod calls;
pub mod paths;
pub mod system;
mod trees;
mod words;

use paths::Paths;
use system::Systems;
use trees::Trees;
use words::{Help, Words};

/// Compares the rows and cases of the room, and returns whether nothing differs.
pub fn compare(rt: &HostRuntime) -> bool {
    let paths = tests_files::compare(rt, "text/paths.txt", &Paths);
    let trees = tests_files::compare(rt, "text/trees.txt", &Trees { rt });
    let systems = tests_files::compare(rt, "text/systems.txt", &Systems);
    let words = tests_files::compare(rt, "text/words.txt", &Words);
    let help = tests_files::compare(rt, "text/help.txt", &Help);
    paths & trees & systems & words & help
}
