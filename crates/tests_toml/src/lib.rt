//! Rows of what the crates of TOML, of types read from it, and of package specs answer.
#![tactic(auto)]

mod printed;
mod specs;
mod texts;
mod tokens;
mod typed;

use tests_files::{AnswerText, Asked, Room, Told, compare_all};

/// Tokens, values, whole texts, the types that are read from them, and package specs.
pub struct Toml;

impl Room for Toml {
    fn answer(&self, asked: &Asked<'_>, out: &mut AnswerText) -> Told {
        if tokens::put(asked, out) || specs::put(asked, out) || texts::put(asked, out) {
            Told::Answer
        } else {
            Told::NoSuchGroup
        }
    }
}

const FILES: [&str; 4] = [
    "toml/tokens.txt",
    "toml/toml.txt",
    "toml/typed.txt",
    "toml/specs.txt",
];

/// Compares the rows of the room, and returns whether nothing differs.
pub fn compare(rt: &HostRuntime) -> bool {
    compare_all(rt, &FILES, &Toml)
}
