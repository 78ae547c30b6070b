//! Rows of what the crates of licences answer: names, texts of licences, terms, families, expressions and certificates; and an
//! organisation's own catalogue and texts.
#![tactic(auto)]

mod expressions;
mod listings;
mod terms;
mod texts;

use spdx_terms::catalog::{Catalog, Table};
use std::rt::Runtime;
use tests_files::{AnswerText, Asked, Room, Told, compare_all};
use texts::Spdx;

impl Room for Spdx {
    fn answer(&self, asked: &Asked<'_>, out: &mut AnswerText) -> Told {
        let text = asked.text;
        match asked.group {
            "license name" => listings::put_license(out, Table.license(text), "none"),
            "exception name" => out.put(if Table.exception(text) { "yes" } else { "no" }),
            "beginning" => match Table.imprecise(text) {
                Some(found) => write!(out, "{} {}", found.len, found.name),
                None => out.put("none"),
            },
            "built-in texts" | "stored texts" | "no texts" => texts::put(self, asked, out),
            "strict"
            | "with the slash"
            | "lax"
            | "imprecise"
            | "size"
            | "certificate"
            | "printed expression" => expressions::put(asked, out),
            "catalogue file" | "catalogue look-up" => {
                let (file, behind) = terms::pair_of(text);
                listings::put(asked, out, file, behind)
            }
            "catalogue of an example" => {
                let built_in = self.text("built-in-list.txt");
                listings::put(asked, out, self.text(text), built_in)
            }
            "folder of texts" => listings::put_folder(asked, out),
            _ => return terms::put(asked, out),
        }
        Told::Answer
    }
}

const FILES: [&str; 2] = ["spdx/licences.txt", "spdx/catalogues.txt"];

/// Compares the rows of the room, and returns whether nothing differs.
pub fn compare(rt: &HostRuntime) -> bool {
    match texts::read(rt) {
        Ok(room) => compare_all(rt, &FILES, &room),
        Err(error) => {
            let _ = eprintln!(rt; "{error}");
            false
        }
    }
}
