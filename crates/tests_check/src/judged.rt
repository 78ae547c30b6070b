//! Verdicts on expressions of a crate `a` under policies, and crates that are passed over.
ghost use Rattle.std.specs.Prelude.{◌≡◌, ◌<◌};

use crate::Check;
use crate::given::{expression, krate_of, list_of, policy};
use check_core::evaluate::{Evaluator, Hit, TermPlaces, Verdict};
use deny_text::{Steps, Text, Texts};
use graph_core::{Krate, Source};
use policy_core::valid::{CountedPolicy, ValidConfig};
use policy_parts::spec::Places;
use spdx_core::Expression;
use std::alloc::Global;
use std::marker::Brand;
use std::sync::ledger::{Blank, Ledger};
use tests_files::tree::pair_of;
use tests_files::{AnswerText, Shown};

fn put_places(out: &mut AnswerText, of: &str, places: &TermPlaces) {
    out.put(of);
    for place in places.items() {
        write!(out, " {place}");
    }
}

impl Shown<Check> for Hit {
    fn put(&self, out: &mut AnswerText) {
        match self {
            Hit::Allowed(entry) => write!(out, " allowed {entry}"),
            Hit::Exception { exception, entry } => write!(out, " exception {exception} {entry}"),
        }
    }
}

/// What shows a verdict.
impl Shown<Check> for Verdict {
    fn put(&self, out: &mut AnswerText) {
        match self {
            Verdict::Skipped | Verdict::Unlicensed => out.put(" none"),
            Verdict::Accepted { choice, hits } => {
                put_places(out, " choice", choice);
                out.put(",");
                out.each::<Check, _>("", hits.items());
            }
            Verdict::Rejected { least, blocks } => {
                put_places(out, " least", least);
                put_places(out, ", blocks", blocks);
            }
        }
    }
}

/// An expression under a policy, of which these exceptions count.
#[derive(Drop)]
struct Judged {
    alloc: Global,
    expression: Expression,
    counted: Places,
    policy: ValidConfig,
}

/// Puts what an evaluator answers the second time that it is asked, and what shows it.
fn ask_twice<L: Ledger>(judged: &Judged, out: &mut AnswerText, ledger: Blank)
    requires name { ledger.name ≡ L.name }
    requires parts { ledger.parts ≡ L.parts }
    requires some { 0 < ledger.parts }
{
    let Judged {
        alloc,
        expression,
        counted,
        policy,
    } = judged;
    let policy = CountedPolicy::<L>::of(policy);
    match Evaluator::with_room(*alloc, expression.nodes().len(), &policy) {
        Ok(mut evaluator) => {
            let mut steps = Steps::<L>::new(ledger);
            let _first = evaluator.evaluate(expression, counted, &policy, &mut steps);
            let accepts = evaluator.evaluate(expression, counted, &policy, &mut steps);
            out.put(if accepts { "accepted:" } else { "rejected:" });
            out.made::<Check, _, _>(evaluator.certificate(*alloc, expression));
        }
        Err(_) => out.want_memory(),
    }
}

/// The same over a ledger of its own.
fn ask(judged: &Judged, out: &mut AnswerText) {
    ask_twice::<Brand>(judged, out, Blank::new(1));
}

impl Shown<Check> for Judged {
    fn put(&self, out: &mut AnswerText) {
        ask(self, out);
    }
}

fn judged_of(alloc: Global, text: &str) -> Option<Judged> {
    let (text, lists) = pair_of(text);
    let (allow, lists) = pair_of(lists);
    let (exceptions, counted) = pair_of(lists);
    let counted = list_of::<usize>(alloc, counted, ' ');
    let policy = policy(alloc, allow, exceptions, true);
    let parts = expression(alloc, text).zip(counted).zip(policy);
    parts.map(|((expression, counted), policy)| Judged {
        alloc,
        expression,
        counted,
        policy,
    })
}

/// The verdict on an expression; behind bars are the allowed licences, the exceptions, and the places of those that count.
pub fn put_verdict(alloc: Global, text: &str, out: &mut AnswerText) {
    out.tried::<Check, _>(judged_of(alloc, text));
}

/// Any registry, none, or these.
fn registries(alloc: Global, words: &str) -> Option<Option<Texts>> {
    match words {
        "anywhere" => Some(None),
        "nowhere" => Some(Some(Texts::new(alloc))),
        _ => list_of::<Text>(alloc, words, ' ').map(Some),
    }
}

fn source_of(alloc: Global, from: &str) -> Option<Option<Source>> {
    match from {
        "" => Some(None),
        _ => Source::from_metadata(alloc, from, None, "index")
            .ok()
            .map(Some),
    }
}

/// A crate, a policy by which private ones are passed over, and one by which they are not.
#[derive(Drop)]
struct PassedOver {
    krate: Krate,
    ignoring: ValidConfig,
    judging: ValidConfig,
}

fn passed_over(alloc: Global, text: &str) -> Option<PassedOver> {
    let (words, from) = pair_of(text);
    let krate = krate_of(alloc, registries(alloc, words), source_of(alloc, from));
    let policies = policy(alloc, "", "", true).zip(policy(alloc, "", "", false));
    let parts = krate.zip(policies);
    parts.map(|(krate, (ignoring, judging))| PassedOver {
        krate,
        ignoring,
        judging,
    })
}

fn yes_or_no(is_so: bool) -> &'static str {
    if is_so { "yes" } else { "no" }
}

impl Shown<Check> for PassedOver {
    fn put(&self, out: &mut AnswerText) {
        out.put(yes_or_no(self.ignoring.is_private(&self.krate)));
        out.put(" ");
        out.put(yes_or_no(self.judging.is_private(&self.krate)));
    }
}

/// Whether a crate that may be published to these registries is passed over. Behind the bar is its source.
pub fn put_passed_over(alloc: Global, text: &str, out: &mut AnswerText) {
    out.tried::<Check, _>(passed_over(alloc, text));
}
