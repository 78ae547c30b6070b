//! What a run answers: to a request, by its command, and to words.
//! Called by `run` of `run`; the arms may be in any order, each command has its own part of `Answers`.
ghost use Rattle.std.specs.Prelude.{◌≡◌, ◌≤◌, IfErr, IfOk};
ghost use Rattle.tree_core.specs.texts.Cause.{ReadCounts};
ghost use Rattle.run_found.specs.Error.{cause_of};
ghost use Rattle.run_found.specs.Hearing.{seen_between};
ghost use Rattle.run_found.specs.Written.{sink_between};
ghost use Rattle.deny_run.specs.Ends.{Answers, AnswersOf, HasLabels, IsAnswered};
ghost use Rattle.deny_run.specs.Given.{run_arguments_of};
ghost use Rattle.deny_run.specs.Seen.{run_seen};

use crate::check::check_request;
use crate::commands::{
    bill_request, list_request, notice_request, record_request, verify_request, why_request,
};
use crate::outcome::RunEnd;
use crate::words::{show, write_usage};
use run_found::Error;
use run_request::read::read;
use run_request::{CliAnswer, Request, Subcommand};
use run_sample::sample;
use spdx_core::{Catalog, Identifier, TextLookup};
use std::alloc::Global;
use tree_core::{Sink, Tree};

/// The answer to a request, by its command. The line of a refusal is not written yet.
fn answer_request<T: Tree, O: Sink, E: Sink, C: Catalog, I: Identifier + TextLookup>(
    alloc: Global,
    request: &Request,
    tree: &mut T,
    out: &mut O,
    err: &mut E,
    catalog: &C,
    identifier: &I,
) -> Result<RunEnd, Error>
    ensures answers { Answers (C.lists catalog.now) (I.match_of identifier.now) (I.text_of identifier.now) request.now
        request.now.command
        (run_seen (seen_between T.content T.fault_count T.trace tree.old tree.new)
        (sink_between O.written O.fault_count out.old out.new)
        (sink_between E.written E.fault_count err.old err.new)) result }
    ensures labels { IfOk result HasLabels }
    ensures counts { IfErr result (λ error. ReadCounts
        (T.fault_count tree.old) (T.fault_count tree.old) (T.fault_count tree.new) (cause_of error)) }
    ensures out_later { O.fault_count out.old ≤ O.fault_count out.new }
    ensures err_later { E.fault_count err.old ≤ E.fault_count err.new }
{
    match &request.command {
        Subcommand::Check(args) => {
            let answer = check_request(alloc, request, args, tree, out, err, catalog, identifier);
            answer.map(RunEnd::Checked)
        }
        Subcommand::List(args) => {
            let answer = list_request(alloc, request, *args, tree, out, err, catalog, identifier);
            answer.map(RunEnd::Listed)
        }
        Subcommand::Sample(size) => {
            sample(alloc, out, catalog, identifier, *size).map(RunEnd::Sampled)
        }
        Subcommand::Record => {
            let answer = record_request(alloc, request, tree, out, err, catalog, identifier);
            answer.map(RunEnd::Recorded)
        }
        Subcommand::Verify(path) => {
            let path = path.as_path();
            let answer = verify_request(alloc, request, path, tree, out, err, catalog, identifier);
            answer.map(RunEnd::Verified)
        }
        Subcommand::Bill(args) => {
            let answer = bill_request(alloc, request, args, tree, out, err, catalog, identifier);
            answer.map(RunEnd::Billed)
        }
        Subcommand::Notice => {
            let answer = notice_request(alloc, request, tree, out, err, catalog, identifier);
            answer.map(RunEnd::Noticed)
        }
        Subcommand::Why(crates) => {
            let answer = why_request(alloc, request, crates, tree, out, err, catalog, identifier);
            answer.map(RunEnd::Told)
        }
    }
}

/// What words ask for, where they are taken and ask for something, and the answer.
#[derive(Drop)]
pub(crate) struct Answered {
    pub(crate) request: Option<Request>,
    pub(crate) answer: Result<RunEnd, Error>,
}

/// The answer to words.
pub(crate) fn answer_words<T: Tree, O: Sink, E: Sink, C: Catalog, I: Identifier + TextLookup>(
    alloc: Global,
    words: &[String],
    cwd: &str,
    tree: &mut T,
    out: &mut O,
    err: &mut E,
    catalog: &C,
    identifier: &I,
) -> Answered
    ensures answered { IsAnswered
        (run_arguments_of (C.lists catalog.now) (I.match_of identifier.now) (I.text_of identifier.now) words.now
        cwd.now)
        (run_seen (seen_between T.content T.fault_count T.trace tree.old tree.new)
        (sink_between O.written O.fault_count out.old out.new)
        (sink_between E.written E.fault_count err.old err.new)) result }
    ensures out_later { O.fault_count out.old ≤ O.fault_count out.new }
    ensures err_later { E.fault_count err.old ≤ E.fault_count err.new }
{
    match read(alloc, words, cwd) {
        Ok(CliAnswer::Asked(request)) => {
            let answer = answer_request(alloc, &request, tree, out, err, catalog, identifier);
            Answered {
                request: Some(request),
                answer,
            }
        }
        Ok(CliAnswer::Shown(text)) => Answered {
            request: None,
            answer: show(out, text.as_str()),
        },
        Ok(CliAnswer::Usage(text)) => {
            write_usage(err, text.as_str());
            Answered {
                request: None,
                answer: Ok(RunEnd::Usage),
            }
        }
        Err(_) => Answered {
            request: None,
            answer: Err(Error::Memory),
        },
    }
}
