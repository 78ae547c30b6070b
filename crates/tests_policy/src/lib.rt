//! Rows and cases of what the crates answer that read, validate and load policies.
#![tactic(auto)]

mod loads;
mod rows;
mod show;

use loads::ending_of;
use policy_core::{
    BlanketAgreement, Clarification, Config, Exception, ExceptionsFile, FileSource, GraphConfig,
    Licensee, LintLevel, OutputConfig, Private, Scope,
};
use tests_files::{AnswerText, Asked, Case, Comparison, Room, Told, compare_all};

/// What answers of policies: of their parts, of what is valid of them, and of policies as they are written.
struct Policy;

impl Room for Policy {
    fn answer(&self, asked: &Asked<'_>, out: &mut AnswerText) -> Told {
        match asked.group {
            "private crates" => rows::put_as::<Private>(asked, out),
            "output" => rows::put_as::<OutputConfig>(asked, out),
            "licence file" => rows::put_as::<FileSource>(asked, out),
            "graph" => rows::put_as::<GraphConfig>(asked, out),
            "scope" => rows::put_as::<Scope>(asked, out),
            "agreement" => rows::put_as::<BlanketAgreement>(asked, out),
            "lint level" => rows::put_as::<LintLevel>(asked, out),
            "left out" => rows::put_left_out(asked, out),
            "licensee entry" => rows::put_as::<Licensee>(asked, out),
            "exception" => rows::put_as::<Exception>(asked, out),
            "exceptions file" => rows::put_as::<ExceptionsFile>(asked, out),
            "clarification" => rows::put_as::<Clarification>(asked, out),
            "reason" | "removed key" => rows::put_table(asked, out),
            "two licensees" => rows::put_order(asked, out),
            "policy's file" => out.made::<Policy, _, _>(rows::heard(asked)),
            "clarified expression" | "private addresses" | "tied exceptions" => {
                out.made_or::<Policy, _, _>(rows::judged_in(asked), "no table");
            }
            "equal items" | "finding" => out.made::<Policy, _, _>(rows::left_in(asked)),
            "threshold" => out.made::<Policy, _, _>(rows::written_in(asked, asked.text)),
            "licenses" | "version" | "faults" | "whole" | "whole-faults" | "read" => {
                out.made::<Policy, _, _>(rows::written_in(asked, asked.case.given("policy")));
            }
            "left-out" => out.tried::<Policy, _>(Some(Config::default(asked.alloc))),
            "policy" => return Told::Given,
            _ => return Told::NoSuchGroup,
        }
        Told::Answer
    }

    /// A case without a policy's text is of a load, which is run once before all that it wants.
    fn compare_runs(&self, compared: &mut Comparison<'_>, case: &Case<'_>) -> bool {
        let is_load = case.entry("policy").is_none();
        if is_load {
            compared.compare_ran(ending_of(compared.alloc, case), case);
        }
        is_load
    }
}

const FILES: [&str; 7] = [
    "policy/parts.txt",
    "policy/entries.txt",
    "policy/policies.txt",
    "policy/valid.txt",
    "policy/valid_policies.txt",
    "policy/exceptions.txt",
    "policy/loads.txt",
];

/// Compares the rows and cases of the room, and returns whether nothing differs.
pub fn compare(rt: &HostRuntime) -> bool {
    compare_all(rt, &FILES, &Policy)
}
