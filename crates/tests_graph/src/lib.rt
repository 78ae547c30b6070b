//! Rows and cases of what is read of metadata, sources and specs, what is selected of graphs, what is gathered for requests, and
//! what a search over a tree finds.
#![tactic(auto)]

mod graphs;
mod records;
mod sources;
mod trees;

use graph_core::selection::ExcludeSpec;
use graph_metadata::records;
use records::Faults;
use sources::Sources;
use std::fmt::Debug;
use tests_files::{AnswerText, Asked, Room, Shown, Told, compare_all};

/// The folder in which cargo keeps crates of the sparse index of crates.io.
const SPARSE_DIR: &str = "index.crates.io-1949cf8c6b5b557f";

/// Puts what was made, or why it was not, and lets it go.
fn put_made<T: Shown<Graph> + Drop, E: Debug + Drop>(out: &mut AnswerText, made: Result<T, E>) {
    match &made {
        Ok(value) => value.put(out),
        Err(error) => write!(out, "{error:?}"),
    }
}

/// What answers of graphs, of their records, and of trees.
struct Graph;

impl Room for Graph {
    fn answer(&self, asked: &Asked<'_>, out: &mut AnswerText) -> Told {
        let (alloc, text) = (asked.alloc, asked.text);
        match asked.group {
            "specs" => out.made_or::<Graph, _, _>(ExcludeSpec::read(alloc, text), "unreadable"),
            "searches" | "searches in which looks fail" => trees::put_searches(alloc, text, out),
            "records" => {
                out.made::<Graph, _, _>(records(alloc, asked.case.given("metadata"), SPARSE_DIR));
            }
            "order" => sources::put_order(alloc, asked.case.given("sources"), out),
            "no-setting" | "exclude-dev" | "workspace" | "exclude-unpublished" | "selected" => {
                graphs::put_reached(asked, out);
            }
            "walks" | "walks-exclude-dev" | "walks-workspace" | "walks-exclude-unpublished" => {
                out.tried::<Graph, _>(graphs::chosen_of(asked));
            }
            "unchecked" | "unchecked-exclude-dev" | "unchecked-exclude-unpublished" => {
                out.tried::<Graph, _>(graphs::chosen_of(asked));
            }
            "gathered" => trees::put_gathered(asked, out),
            "graph" | "members" | "root" | "exclude" | "policy-exclude" => return Told::Given,
            "metadata" | "sources" | "file" | "fail" => return Told::Given,
            _ => return Told::NoSuchGroup,
        }
        Told::Answer
    }
}

const FILES: [&str; 6] = [
    "graph/specs.txt",
    "graph/searches.txt",
    "graph/records.txt",
    "graph/graphs.txt",
    "graph/walks.txt",
    "graph/requests.txt",
];

/// Compares the rows and cases of the room, and returns whether nothing differs.
pub fn compare(rt: &HostRuntime) -> bool {
    let faults = compare_all(rt, &["graph/faults.txt"], &Faults);
    let sources = compare_all(rt, &["graph/sources.txt"], &Sources);
    let graphs = compare_all(rt, &FILES, &Graph);
    faults & sources & graphs
}
