//! Rows and cases of verdicts, of verdict files and of bills; of fields and where they are; and of the texts that are written in
//! place of manifests.
#![tactic(auto)]

mod bills;
mod given;
mod judged;
mod located;
mod recorded;
mod texts;

use tests_files::{AnswerText, Asked, Room, Told, compare_all};

/// What says here how values are written.
pub struct Check;

/// Puts what a row comes to.
fn answer_row(asked: &Asked<'_>, out: &mut AnswerText) -> Told {
    let Asked { alloc, text, .. } = *asked;
    match asked.group {
        "terms of a field" => texts::put_terms(alloc, text, out),
        "value of a manifest" => texts::put_value(text, out),
        "places by slashes" => texts::put_place(text, out),
        "threshold" => texts::put_threshold(text, out),
        "verdict" => judged::put_verdict(alloc, text, out),
        "passed over" => judged::put_passed_over(alloc, text, out),
        "bill" => bills::put_read(alloc, text, out),
        "verdict file" => recorded::put_read(alloc, text, out),
        "verified" => recorded::put_verified(alloc, text, out),
        _ => return Told::NoSuchGroup,
    }
    Told::Answer
}

impl Room for Check {
    fn answer(&self, asked: &Asked<'_>, out: &mut AnswerText) -> Told {
        match asked.group {
            "text" | "spans" | "cuts" => texts::put_written(asked, out),
            "located" => located::put_each(asked, out),
            "plain" | "marked" | "package" | "files-expr" | "open-list" | "line" | "close-list" => {
                return Told::Given;
            }
            "file" | "table" | "fail" | "locate" => return Told::Given,
            _ => return answer_row(asked, out),
        }
        Told::Answer
    }
}

const FILES: [&str; 6] = [
    "check/verdicts.txt",
    "check/recorded.txt",
    "check/bills.txt",
    "check/texts.txt",
    "check/located.txt",
    "check/manifests.txt",
];

/// Compares the rows and cases of the room, and returns whether nothing differs.
pub fn compare(rt: &HostRuntime) -> bool {
    compare_all(rt, &FILES, &Check)
}
