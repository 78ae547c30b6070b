//! Verdict files, and whether a record is right about the crate `a`.
ghost use Rattle.std.specs.Prelude.{◌≡◌, ◌<◌};

use crate::Check;
use crate::given::{expression, krate_of, list_of, policy};
use check_record::{Record, RecordError, decode, encode};
use check_verify::{NoReason, VerifyAnswer, verify};
use deny_text::{Bytes, ListOf, Steps, Texts};
use diag_core::Notes;
use gather_core::{
    Diags, KeptFiles, KrateLicense, LicenseExprInfo, LicenseExprSource, LicenseInfo, Summary,
};
use graph_core::Krate;
use policy_core::valid::{CountedPolicy, ValidConfig};
use std::alloc::{AllocError, Global};
use std::marker::Brand;
use std::sync::ledger::{Blank, Ledger};
use tests_files::tree::{first_word, pair_of};
use tests_files::{AnswerText, Shown};
use tree_core::Reads;

/// Puts whether what was read of a text is written as it was.
pub fn put_written(out: &mut AnswerText, written: &Result<Bytes, AllocError>, text: &str) {
    match written {
        Ok(bytes) if bytes.items() == text.as_bytes() => out.put("same"),
        Ok(_) => out.put("other"),
        Err(_) => out.want_memory(),
    }
}

/// Whether a text is a verdict file, and is written as it was read.
pub fn put_read(alloc: Global, text: &str, out: &mut AnswerText) {
    match &decode(alloc, text.as_bytes()) {
        Ok(verdicts) => put_written(out, &encode(alloc, verdicts), text),
        Err(RecordError::Memory) => out.want_memory(),
        Err(RecordError::Syntax) => out.put("none"),
    }
}

/// A record of lines, each an id without blanks, and a verdict.
fn record_in(alloc: Global, lines: &str) -> Option<Record> {
    let mut file = AnswerText::new(alloc);
    file.put("deny-record 1\n");
    for line in lines.split_terminator(';') {
        let line = line.trim();
        let (id, verdict) = first_word(line);
        let count = id.len();
        write!(file, "c {count}:{id} {verdict}\n");
    }
    file.put("end\n");
    if file.is_whole() {
        decode(alloc, file.text().as_bytes()).ok()
    } else {
        None
    }
}

/// The words of a row, which has bars between them.
#[derive(Clone, Copy)]
struct Words<'w> {
    expression: &'w str,
    allow: &'w str,
    exceptions: &'w str,
    /// The places of the exceptions that count for the crate.
    counted: &'w str,
    lines: &'w str,
}

fn words_of(text: &str) -> Words<'_> {
    let (expression, rest) = pair_of(text);
    let (allow, rest) = pair_of(rest);
    let (exceptions, rest) = pair_of(rest);
    let (counted, lines) = pair_of(rest);
    Words {
        expression,
        allow,
        exceptions,
        counted,
        lines,
    }
}

/// What a record is held against.
#[derive(Drop)]
struct Recorded<'w> {
    alloc: Global,
    words: Words<'w>,
    policy: ValidConfig,
    krate: Krate,
    verdicts: Record,
}

/// It may be published anywhere, or else is private.
fn krate_named(alloc: Global, expression: &str) -> Option<Krate> {
    let publish = if expression == "private" {
        Some(Texts::new(alloc))
    } else {
        None
    };
    krate_of(alloc, Some(publish), Some(None))
}

fn recorded_of<'w>(alloc: Global, words: Words<'w>) -> Option<Recorded<'w>> {
    let policy = policy(alloc, words.allow, words.exceptions, true);
    let krate = krate_named(alloc, words.expression);
    let parts = policy.zip(krate).zip(record_in(alloc, words.lines));
    parts.map(|((policy, krate), verdicts)| Recorded {
        alloc,
        words,
        policy,
        krate,
        verdicts,
    })
}

/// The licence of a crate; there is none of one that is private or has none.
fn license(alloc: Global, text: &str) -> Option<LicenseInfo> {
    if text == "none" || text == "private" {
        return Some(LicenseInfo::Unlicensed);
    }
    expression(alloc, text).map(|expr| LicenseInfo::SpdxExpression {
        expr,
        nfo: LicenseExprInfo {
            file_id: 0,
            offset: 0,
            whole: None,
            source: LicenseExprSource::UserOverride,
        },
    })
}

/// A list of an item, if there is one.
fn one_of<T: Drop>(alloc: Global, item: Option<T>) -> Option<ListOf<T>> {
    let item = item?;
    let mut list = ListOf::new(alloc);
    list.push(item).ok()?;
    Some(list)
}

/// What was gathered of the crate.
#[derive(Drop)]
struct Gathered<'r> {
    recorded: &'r Recorded<'r>,
    summary: Summary<'r>,
}

fn gathered_of<'r>(recorded: &'r Recorded<'r>) -> Option<Gathered<'r>> {
    let Recorded {
        alloc,
        words,
        krate,
        ..
    } = recorded;
    let alloc = *alloc;
    let counted = list_of::<usize>(alloc, words.counted, ' ');
    let parts = license(alloc, words.expression).zip(counted);
    let license = parts.map(|(lic_info, exceptions)| KrateLicense {
        krate,
        lic_info,
        notes: Notes::new(alloc),
        diags: Diags::new(alloc),
        reads: Reads::new(alloc),
        exceptions,
        kept: KeptFiles::new(alloc),
    });
    one_of(alloc, license).map(|nfos| Gathered {
        recorded,
        summary: Summary { nfos },
    })
}

/// Whether a record is right about what was gathered.
fn verified<L: Ledger>(gathered: &Gathered<'_>, ledger: Blank) -> Result<VerifyAnswer, AllocError>
    requires name { ledger.name ≡ L.name }
    requires parts { ledger.parts ≡ L.parts }
    requires some { 0 < ledger.parts }
{
    let recorded = gathered.recorded;
    let mut steps = Steps::<L>::new(ledger);
    let policy = CountedPolicy::<L>::of(&recorded.policy);
    verify(
        recorded.alloc,
        &recorded.verdicts,
        &gathered.summary,
        &policy,
        &mut steps,
    )
}

/// The same over a ledger of its own.
fn answer_of(gathered: &Gathered<'_>) -> Result<VerifyAnswer, AllocError> {
    verified::<Brand>(gathered, Blank::new(1))
}

impl Shown<Check> for VerifyAnswer {
    fn put(&self, out: &mut AnswerText) {
        out.put(match self {
            VerifyAnswer::Yes => "verified",
            VerifyAnswer::No(NoReason::Crates) => "the crates differ",
            VerifyAnswer::No(NoReason::Variant(_)) => "the verdict differs",
            VerifyAnswer::No(NoReason::NotAChoice(_)) => "the places are no choice",
            VerifyAnswer::No(NoReason::NotSatisfied(_)) => "an entry does not satisfy",
            VerifyAnswer::No(NoReason::HasHit(_)) => "a place has a hit",
            VerifyAnswer::No(NoReason::NotBlocking(_)) => "the places do not block",
        });
    }
}

impl Shown<Check> for Gathered<'_> {
    fn put(&self, out: &mut AnswerText) {
        out.made::<Check, _, _>(answer_of(self));
    }
}

impl Shown<Check> for Recorded<'_> {
    fn put(&self, out: &mut AnswerText) {
        out.tried::<Check, _>(gathered_of(self));
    }
}

/// Whether a record is right about the crate `a`: its expression, the allowed licences, the exceptions, the places of those
/// that count for the crate, and the lines of the record, with bars between them.
pub fn put_verified(alloc: Global, text: &str, out: &mut AnswerText) {
    out.tried::<Check, _>(recorded_of(alloc, words_of(text)));
}
