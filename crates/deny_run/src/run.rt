//! The run: from words and files to a report, a summary and a status.
//! Called by `run_started` of `deny_gate`; the status may be found before the line of a refusal is written.
ghost use Rattle.std.specs.Prelude.{◌≡◌, ◌≤◌};
ghost use Rattle.run_found.specs.Hearing.{seen_between};
ghost use Rattle.run_found.specs.Written.{sink_between};
ghost use Rattle.deny_run.specs.Ends as ends;
ghost use Rattle.deny_run.specs.Given.{run_arguments_of};
ghost use Rattle.deny_run.specs.Run as run;
ghost use Rattle.deny_run.specs.Run.{IsRun};
ghost use Rattle.deny_run.specs.Seen.{EndsLine, run_seen};

use crate::answer::{Answered, answer_words};
use crate::outcome::{Outcome, RunEnd};
use run_found::Error;
use run_record::VerifyAnswer;
use run_request::Request;
use spdx_core::{Catalog, Identifier, TextLookup};
use std::alloc::Global;
use tree_core::{Sink, Tree, write_all};

/// The end of an answer. Here, and nowhere else, the line of a refusal is written; a sink that refuses it changes
/// nothing in the answer.
fn end_of<E: Sink>(err: &mut E, answer: Result<RunEnd, Error>) -> RunEnd
    ensures ended { result ≡ ends.end_of answer }
    ensures line { EndsLine answer (sink_between E.written E.fault_count err.old err.new) }
    ensures later { E.fault_count err.old ≤ E.fault_count err.new }
{
    match answer {
        Ok(ended) => ended,
        Err(error) => {
            let _ = write_all(err, error.line().as_bytes());
            RunEnd::Refused(error)
        }
    }
}

/// The status of an answer: 0 where a verdict file is right, else 4.
fn answer_status(answer: &VerifyAnswer) -> u8
    ensures { result ≡ run.answer_status answer.now }
{
    match answer {
        VerifyAnswer::Yes => 0,
        VerifyAnswer::No(_) => 4,
    }
}

/// The status of an end: 0 where the check of licences has no errors, where a verdict file is right, and where a bill
/// has not changed, 4 where not; 0 after a listing, a sample, a verdict file, a bill, a notice, what verdicts rest on,
/// help and the version, 2 after a mistake in the words, 1 after a refusal.
fn exit_status(ended: &RunEnd) -> u8
    ensures { result ≡ run.exit_status ended.now }
{
    match ended {
        RunEnd::Checked(report) => { if report.stats.has_errors() { 4 } else { 0 } }
        RunEnd::Verified(crates) => answer_status(&crates.answer),
        RunEnd::Billed(crates) => { if crates.same { 0 } else { 4 } }
        RunEnd::Listed(_)
        | RunEnd::Sampled(_)
        | RunEnd::Recorded(_)
        | RunEnd::Noticed(_)
        | RunEnd::Told(_)
        | RunEnd::Shown => 0,
        RunEnd::Usage => 2,
        RunEnd::Refused(_) => 1,
    }
}

fn outcome_of(request: Option<Request>, ended: RunEnd) -> Outcome
    ensures { result ≡ run.outcome_of request ended }
{
    Outcome {
        status: exit_status(&ended),
        request,
        ended,
    }
}

/// Runs the licence gate over the words of a command line, whose first is the program's name. Paths in them
/// are read from `cwd`. Help and the version go to `out`, and the mistakes of words to `err`. What is
/// reported of the policy's load, then what was found, and the line of a refusal go to `err`; the summary
/// goes to `out`, and as JSON to `err`.
///
/// The status is 0 where no finding is an error, 4 where one is, 2 where the words are not taken, and 1 after
/// a refusal; it is 0 after help and the version. Where a verdict file is verified it is 0 where that is
/// right, else 4; where a bill is compared with, 0 where nothing but the moment has changed, else 4.
pub fn run<T: Tree, O: Sink, E: Sink, C: Catalog, I: Identifier + TextLookup>(
    alloc: Global,
    words: &[String],
    cwd: &str,
    tree: &mut T,
    out: &mut O,
    err: &mut E,
    catalog: &C,
    identifier: &I,
) -> Outcome
    ensures { IsRun (run_arguments_of (C.lists catalog.now) (I.match_of identifier.now) (I.text_of identifier.now) words.now
        cwd.now)
        (run_seen (seen_between T.content T.fault_count T.trace tree.old tree.new)
        (sink_between O.written O.fault_count out.old out.new)
        (sink_between E.written E.fault_count err.old err.new)) result }
{
    let Answered { request, answer } = answer_words(
        alloc, words, cwd, tree, out, err, catalog, identifier,
    );
    let ended = end_of(err, answer);
    outcome_of(request, ended)
}
