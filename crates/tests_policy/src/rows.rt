//! Rows of the parts and entries of a policy, each a text that is one value, of parts that are validated, and policies as they are
//! written.
use crate::Policy;
use crate::show::{put_clarified, put_excepted, put_findings, put_root, put_spans, put_texts};
use deny_text::{Span, Spanned, Text};
use diag_core::{Diagnostic, Files, Severity};
use policy_core::text::{ConfigText, ReadFault, read_config};
use policy_core::{
    BlanketAgreement, Config, Licensee, LintLevel, Reason, RootConfig, SpannedList,
    UnvalidatedConfig, ValidConfig, ValidationContext,
};
use policy_load::{Diagnostics, LoadError};
use policy_toml::rows::{Spans, deprecated, finish};
use policy_toml::{DeserError, Deserialize, TableHelper, Value};
use spdx_core::Table;
use std::alloc::{AllocError, Global};
use tests_files::{AnswerText, Asked, Shown, let_go};
use toml_value::read_value;

/// What a type reads from a text that is one value; none where the text is no value.
fn read<T: Deserialize<Table> + Drop>(alloc: Global, text: &str) -> Option<Result<T, DeserError>> {
    match read_value(alloc, text, 0, 0) {
        Ok((mut value, _)) => {
            let read = T::deserialize(alloc, &mut value, &Table);
            let_go(value);
            Some(read)
        }
        Err(_) => None,
    }
}

/// Puts what a type reads from the text of a row, or why it is refused.
pub fn put_as<T: Deserialize<Table> + Shown<Policy> + Drop>(
    asked: &Asked<'_>,
    out: &mut AnswerText,
) {
    match read::<T>(asked.alloc, asked.text) {
        Some(read) => out.made::<Policy, T, DeserError>(read),
        None => out.cant_be_tried(),
    }
}

/// Puts what stands for a thing that is left out.
pub fn put_left_out(asked: &Asked<'_>, out: &mut AnswerText) {
    match asked.text {
        "agreement" => BlanketAgreement::default().put(out),
        _ => LintLevel::default().put(out),
    }
}

/// How the first of two licensees compares to the second.
fn order(one: &Licensee, other: &Licensee) -> &'static str {
    if one == other {
        "equal"
    } else if one < other {
        "less"
    } else {
        "greater"
    }
}

/// Puts how the first of two licensees beside a bar compares to the second.
pub fn put_order(asked: &Asked<'_>, out: &mut AnswerText) {
    let (one, other) = asked.text.split_once(" | ").unwrap_or((asked.text, ""));
    match (
        &read::<Licensee>(asked.alloc, one),
        &read::<Licensee>(asked.alloc, other),
    ) {
        (Some(Ok(one)), Some(Ok(other))) => out.put(order(one, other)),
        _ => out.cant_be_tried(),
    }
}

/// The text of a policy's file, of which is read what a row says.
pub fn heard(asked: &Asked<'_>) -> Result<ConfigText, LoadError> {
    let heard = match asked.text {
        "nothing is there" => Err(ReadFault::Absent),
        "it is a folder" => Err(ReadFault::Folder),
        "no UTF-8 at 11" => Err(ReadFault::NotUtf8 { at: 11 }),
        "the first read failed" => Err(ReadFault::Failed {
            before: 0,
            after: 1,
        }),
        text => Ok(Text::copy(asked.alloc, text)?),
    };
    Ok(ConfigText::from_heard(asked.alloc, heard)?)
}

impl Shown<Policy> for ConfigText {
    fn put(&self, out: &mut AnswerText) {
        write!(out, "{:?} {}", self.text, self.is_there);
    }
}

/// Puts a reason, and whether its table has other keys, which go back.
fn put_reason(alloc: Global, value: &mut Value<'_>, out: &mut AnswerText) {
    out.made::<Policy, Reason, DeserError>(Reason::deserialize(alloc, value, &Table));
    if value.has_keys() {
        out.put(" and other keys");
    }
}

/// Puts what a key `old` that holds a flag and is no longer used gives, where it is there, and what is
/// reported at the table's end.
fn put_removed(alloc: Global, value: &mut Value<'_>, out: &mut AnswerText) {
    match TableHelper::new(alloc, value) {
        Ok(mut table) => {
            put_flag(alloc, &mut table, out);
            out.made::<Policy, (), DeserError>(finish(alloc, table, ()));
        }
        Err(error) => error.put(out),
    }
}

fn put_flag(alloc: Global, table: &mut TableHelper<'_>, out: &mut AnswerText) {
    let mut spans = Spans::new(alloc);
    let flag: Result<Option<bool>, AllocError> = deprecated(alloc, table, "old", &mut spans, &());
    match flag {
        Ok(flag) => write!(out, "{flag:?};"),
        Err(_) => out.want_memory(),
    }
    put_spans(out, spans.items());
    out.put(" and ");
}

/// What is told at the end of a table without other keys.
impl Shown<Policy> for () {
    fn put(&self, out: &mut AnswerText) {
        out.put("no more");
    }
}

/// Puts what a table comes to of which more is reported than what its type reads.
pub fn put_table(asked: &Asked<'_>, out: &mut AnswerText) {
    match read_value(asked.alloc, asked.text, 0, 0) {
        Ok((mut value, _)) => {
            match asked.group {
                "reason" => put_reason(asked.alloc, &mut value, out),
                _ => put_removed(asked.alloc, &mut value, out),
            }
            let_go(value);
        }
        Err(_) => out.cant_be_tried(),
    }
}

/// The policy of a text, of which nothing is said: whoever calls this owes nothing of the contract.
fn read_policy(alloc: Global, text: &str) -> Result<RootConfig, LoadError> {
    Ok(read_config(alloc, text, &Table)?)
}

/// A policy as it is written, and the key of what is told of it.
#[derive(Drop)]
pub struct Written<'a> {
    key: &'a str,
    root: RootConfig,
}

/// The policy of a text, of which a group or a key tells.
pub fn written_in<'a>(asked: &Asked<'a>, text: &str) -> Result<Written<'a>, LoadError> {
    let key = asked.group;
    read_policy(asked.alloc, text).map(|root| Written { key, root })
}

/// The fields of the whole policy or of its table `licenses`, or that it has no faults.
impl Shown<Policy> for Written<'_> {
    fn put(&self, out: &mut AnswerText) {
        match (self.key, &self.root.licenses) {
            ("whole", _) => put_root(out, &self.root),
            ("faults" | "whole-faults", _) => out.put("none"),
            ("read", licenses) => {
                if let Some(config) = licenses {
                    out.each::<Policy, _>("", config.allow.items());
                }
                put_texts(out, "exclude", &self.root.graph.exclude);
            }
            ("licenses", Some(config)) => config.put(out),
            ("version", Some(config)) => write!(out, "{}", config.version),
            (_, Some(config)) => write!(out, "{}", config.confidence_threshold.0),
            (_, None) => out.put("no licences"),
        }
    }
}

/// What the table `licenses` has of the policy that a row is a part of.
fn config_of(asked: &Asked<'_>) -> Result<Option<Config>, LoadError> {
    let (before, behind) = match asked.group {
        "private addresses" => ("[licenses.private]\nignore-sources = [", "]\n"),
        "tied exceptions" => ("licenses = { ", " }\n"),
        _ => (
            "licenses.clarify = [{ name = \"a\", license-files = [], expression = ",
            " }]\n",
        ),
    };
    let policy = format!(in asked.alloc; "{before}{}{behind}", asked.text)?;
    let mut root = read_policy(asked.alloc, policy.as_str())?;
    let config = root.licenses.take();
    let_go(root);
    Ok(config)
}

/// What is valid of a policy, and all that is reported of it.
#[derive(Drop)]
pub struct Judged {
    valid: ValidConfig,
    found: Diagnostics,
}

/// Validates a policy, which has the number 3.
fn validated(alloc: Global, config: Config) -> Result<Judged, AllocError> {
    let mut files = Files::new(alloc);
    let mut found = Diagnostics::new(alloc);
    let context = ValidationContext {
        cfg_id: 3,
        files: &mut files,
        diagnostics: &mut found,
    };
    match config.validate(alloc, context, &Table) {
        Ok(valid) => Ok(Judged { valid, found }),
        Err(error) => Err(error),
    }
}

/// What is valid of the policy that a row is a part of; none where that has no table `licenses`.
pub fn judged_in(asked: &Asked<'_>) -> Result<Option<Judged>, LoadError> {
    match config_of(asked)? {
        Some(config) => Ok(Some(validated(asked.alloc, config)?)),
        None => Ok(None),
    }
}

/// The expressions, the addresses and the exceptions that are valid, and all that is reported.
impl Shown<Policy> for Judged {
    fn put(&self, out: &mut AnswerText) {
        put_clarified(out, &self.valid.clarifications);
        for address in self.valid.ignore_sources.items() {
            write!(out, "{address};");
        }
        put_excepted(out, &self.valid.exceptions);
        put_findings(out, &self.found);
    }
}

/// The words that are left of a list, and all that is reported of it.
#[derive(Drop)]
pub struct Left<'t> {
    words: SpannedList<&'t str>,
    found: Diagnostics,
}

/// The words of a text, which are at 0, 1 and so on.
fn words_of(alloc: Global, text: &str) -> Result<SpannedList<&str>, AllocError> {
    let mut list = SpannedList::new(alloc);
    let mut start: usize = 0;
    for value in text.split_whitespace() {
        let span = Span { start, end: start };
        list.push(Spanned { value, span })?;
        start = start.wrapping_add(1);
    }
    Ok(list)
}

/// The words of a row that are left where equal ones are reported; or the row is the message of a finding.
fn words_left<'t>(
    asked: &Asked<'t>,
    mut context: ValidationContext<'_>,
) -> Result<SpannedList<&'t str>, AllocError> {
    if asked.group == "finding" {
        context.push(Diagnostic::new(asked.alloc, Severity::Note).with_message(asked.text)?)?;
        return Ok(SpannedList::new(asked.alloc));
    }
    let mut words = words_of(asked.alloc, asked.text)?;
    context.dedup(asked.alloc, &mut words)?;
    Ok(words)
}

/// The words of a row that are left, and all that is reported.
pub fn left_in<'t>(asked: &Asked<'t>) -> Result<Left<'t>, AllocError> {
    let mut files = Files::new(asked.alloc);
    let mut found = Diagnostics::new(asked.alloc);
    let context = ValidationContext {
        cfg_id: 3,
        files: &mut files,
        diagnostics: &mut found,
    };
    match words_left(asked, context) {
        Ok(words) => Ok(Left { words, found }),
        Err(error) => Err(error),
    }
}

impl Shown<Policy> for Left<'_> {
    fn put(&self, out: &mut AnswerText) {
        put_findings(out, &self.found);
        for word in self.words.items() {
            write!(out, "{} at {};", word.value, word.span.start);
        }
    }
}
