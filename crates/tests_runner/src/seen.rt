//! What is seen of how a run ended, under each key.
use crate::counted::CountedSink;
use crate::settings::{Ending, Setting, Stage};
use deny_run::{
    Color, CrateReport, DiagPrinter, Diagnostics, Error, Format, LicenseExprSource, LogContext,
    NoReason, Report, Request, RunEnd, ShapeErrors, Stats, StoreFault, SyntaxError, Verdict,
    VerifyAnswer,
};
use diag_core::LevelFilter;
use diag_print::pack_labels_are_inside;
use std::alloc::Global;
use std::fmt::Display;
use tests_files::tree::number;
use tests_files::{AnswerText, Asked, Room, Told};
use tree_core::ReadAnswer;

/// The number of the file whose text is wanted, by a key as `text-1`.
fn file_in(key: &str) -> Option<usize> {
    let file = number(key.strip_prefix("text-")?)?;
    Some(file as usize)
}

/// Puts texts or numbers, each behind a mark.
fn put_each<D: Display>(out: &mut AnswerText, mark: &str, items: &[D]) {
    for item in items {
        write!(out, "{mark}{item}");
    }
}

fn put_syntax(out: &mut AnswerText, fault: &SyntaxError) {
    write!(out, "syntax: {:?}", fault.reason);
    out.put_span(" ", fault.span);
}

fn put_shape(out: &mut AnswerText, faults: &ShapeErrors) {
    out.put("shape:");
    for fault in faults.items() {
        out.put_span(" ", fault.span);
    }
}

/// Puts the places of the labels of findings.
fn put_invalid(out: &mut AnswerText, found: &Diagnostics) {
    out.put("invalid:");
    for finding in found.items() {
        for label in finding.labels.items() {
            write!(out, " {}:", label.file_id);
            out.put_span("", label.range);
        }
    }
}

/// Puts why the licence texts were not read.
fn put_store(out: &mut AnswerText, fault: &StoreFault) {
    match fault {
        StoreFault::Failed { before, after } => {
            write!(out, "texts: Failed {{ before: {before}, after: {after} }}")
        }
        StoreFault::Absent => out.put("texts: Absent"),
        StoreFault::NotFolder => out.put("texts: NotFolder"),
        StoreFault::NotUtf8 { name } => write!(out, "texts: NotUtf8 {name}"),
    }
}

/// Puts a refusal. Of the faults of a policy it is the places alone.
fn put_error(out: &mut AnswerText, error: &Error) {
    match error {
        Error::Memory => out.put("memory"),
        Error::NotCarried(what) => write!(out, "not carried: {what:?}"),
        Error::ManifestPath(path) => write!(out, "manifest path: {path}"),
        Error::ManifestRead { before, after } => write!(out, "manifest: {before} {after}"),
        Error::CatalogRead(fault) => write!(out, "catalogue: {fault:?}"),
        Error::CatalogSyntax { line } => write!(out, "catalogue: line {line}"),
        Error::StoreRead(fault) => put_store(out, fault),
        Error::ConfigRead(fault) => write!(out, "policy: {fault:?}"),
        Error::ConfigSyntax(fault) => put_syntax(out, fault),
        Error::ConfigShape(faults) => put_shape(out, faults),
        Error::ConfigInvalid(found) => put_invalid(out, found),
        Error::OverrideTwice {
            name,
            first,
            second,
        } => write!(out, "twice: {name} {first:?} {second:?}"),
        Error::MetadataRead(fault) => write!(out, "metadata: {fault:?}"),
        Error::MetadataSyntax => out.put("no json"),
        Error::MetadataShape(fault) => write!(out, "shape: {} {:?}", fault.place, fault.fault),
        Error::NoRoots {
            base,
            excluded,
            unpublished,
        } => write!(out, "no roots: {base} {excluded} {unpublished}"),
        Error::NoSuchCrate(word) => write!(out, "no such crate: {word}"),
        Error::NotAccepted { id, .. } => write!(out, "not accepted: {id}"),
        Error::NoText { id, key, .. } => write!(out, "no text: {id} {key}"),
        Error::RecordRead { fault, .. } => write!(out, "record: {fault:?}"),
        Error::RecordSyntax => out.put("record syntax"),
        Error::BillText(id) => write!(out, "bill text: {id}"),
        Error::BillRead { fault, .. } => write!(out, "bill: {fault:?}"),
        Error::BillSyntax => out.put("bill syntax"),
        Error::WriteFault { before, after } => write!(out, "write: {before} {after}"),
    }
}

/// Puts a request: the level and the format of what is written, and where the metadata is.
fn put_request(out: &mut AnswerText, request: &Option<Request>) {
    match request {
        None => out.put("none"),
        Some(request) => {
            let LogContext {
                format,
                log_level,
                ..
            } = request.log_ctx;
            write!(out, "{log_level:?} {format:?} ");
            match &request.krate_ctx.metadata_path {
                Some(path) => write!(out, "{path}"),
                None => out.put("none"),
            }
        }
    }
}

/// Puts an expression, and the verdict in one word.
fn put_judged(out: &mut AnswerText, checked: &CrateReport) {
    match &checked.expression {
        Some(expression) => out.put(expression.as_ref()),
        None => out.put("none"),
    }
    out.put(match &checked.verdict {
        Verdict::Skipped => " Skipped",
        Verdict::Unlicensed => " Unlicensed",
        Verdict::Accepted { .. } => " Accepted",
        Verdict::Rejected { .. } => " Rejected",
    });
}

/// Puts a verdict, and what shows it.
fn put_verdict(out: &mut AnswerText, verdict: &Verdict) {
    match verdict {
        Verdict::Skipped => out.put("skipped"),
        Verdict::Unlicensed => out.put("unlicensed"),
        Verdict::Accepted { choice, hits } => {
            out.put("accepted by");
            put_each(out, " ", choice.items());
            for hit in hits.items() {
                write!(out, " {hit:?}");
            }
        }
        Verdict::Rejected { least, blocks } => {
            out.put("rejected, least");
            put_each(out, " ", least.items());
            out.put(", blocks");
            put_each(out, " ", blocks.items());
        }
    }
}

fn put_source(out: &mut AnswerText, source: &LicenseExprSource) {
    match source {
        LicenseExprSource::Metadata(None) => out.put(" by the field"),
        LicenseExprSource::Metadata(Some((file, span))) => {
            write!(out, " by the field in file {file}");
            out.put_span(" at ", *span);
        }
        LicenseExprSource::UserOverride => out.put(" by the policy"),
        LicenseExprSource::OverlayOverride => out.put(" by the overlay"),
        LicenseExprSource::LicenseFiles(paths) => {
            out.put(" by files");
            put_each(out, " ", paths.items());
        }
    }
}

/// Puts where an expression comes from, each note behind a `#`, and each read behind a `;`.
fn put_gathered(out: &mut AnswerText, checked: &CrateReport) {
    if let Some(source) = &checked.source {
        put_source(out, source);
    }
    put_each(out, " # ", checked.notes.items());
    for read in checked.reads.items() {
        write!(out, "; {:?} {} {:?}", read.kind, read.path, read.answer);
    }
}

/// Puts what each crate came to: in short with commas between, or a line for each with what shows it.
fn put_crates(out: &mut AnswerText, report: &Report, key: &str) {
    let mut front = "";
    for checked in report.crates.items() {
        write!(out, "{front}{}: ", checked.id);
        match key {
            "verdicts" => put_verdict(out, &checked.verdict),
            _ => put_judged(out, checked),
        }
        match key {
            "ended" => front = ", ",
            "crates" => put_gathered(out, checked),
            _ => {}
        }
        if key != "ended" {
            out.put("\n");
        }
    }
}

/// Puts the counts before and after each failed read of a crate, in the order of the reads.
fn put_failed(out: &mut AnswerText, report: &Report) {
    let mut front = "";
    for checked in report.crates.items() {
        for read in checked.reads.items() {
            if let ReadAnswer::Failed { before, after } = read.answer {
                write!(out, "{front}{before} {after}");
                front = "; ";
            }
        }
    }
}

/// Puts a line for each finding with the crates that it is about.
fn put_about(out: &mut AnswerText, report: &Report) {
    for pack in report.findings.items() {
        for finding in pack.iter() {
            for node in finding.graph_nodes.items() {
                out.put(node.kid.as_str());
            }
            out.put("\n");
        }
    }
}

/// Puts the policy's file, what it allows, and how many exceptions it has.
fn put_policy(out: &mut AnswerText, report: &Report) {
    write!(out, "file {}:", report.policy.file_id);
    for licensee in report.policy.allowed.items() {
        write!(out, " {}", licensee.0.value);
    }
    let number = report.policy.exceptions.items().len();
    write!(out, ", {number} exceptions");
}

/// How many findings there are of each severity.
fn put_stats(out: &mut AnswerText, stats: &Stats) {
    let Stats {
        errors,
        warnings,
        notes,
        helps,
    } = *stats;
    write!(out, "{errors} errors, {warnings} warnings");
    write!(out, ", {notes} notes, {helps} helps");
}

/// What is found from a level on. A pack that can't be printed counts as refused.
fn printed(alloc: Global, report: &Report, log_level: LevelFilter) -> CountedSink {
    let mut sink = CountedSink::new(alloc, usize::MAX, usize::MAX, 0);
    let printer = DiagPrinter::new(LogContext {
        format: Format::Human,
        color: Color::Auto,
        log_level,
    });
    let mut refused: u64 = 0;
    if let Some(printer) = &printer {
        for pack in report.findings.items() {
            if !pack_labels_are_inside(pack, &report.files)
                || printer
                    .lock(&mut sink)
                    .print_krate_pack(alloc, pack, &report.files)
                    .is_err()
            {
                refused = refused.saturating_add(1);
            }
        }
    }
    sink.refused = refused;
    sink
}

/// The whole of what is found.
fn found(sink: &CountedSink) -> &str {
    if sink.refused == 0 {
        sink.text()
    } else {
        "a pack is not printed"
    }
}

fn put_report(alloc: Global, out: &mut AnswerText, report: &Report, key: &str, err: &str) {
    match key {
        "ended" | "crates" | "verdicts" => put_crates(out, report, key),
        "failed" => put_failed(out, report),
        "about" => put_about(out, report),
        "policy" => put_policy(out, report),
        "notes" => {
            let notes = report.stats.licenses.map_or(0, |stats| stats.notes);
            write!(out, "{notes}");
        }
        "stats" => {
            if let Some(stats) = &report.stats.licenses {
                put_stats(out, stats);
            }
        }
        "found" => out.put(found(&printed(alloc, report, LevelFilter::Info))),
        // What is before the findings.
        "load" => {
            let printed = printed(alloc, report, LevelFilter::Warn);
            out.put(err.strip_suffix(found(&printed)).unwrap_or("no findings"));
        }
        _ => {
            let file = file_in(key).unwrap_or(usize::MAX);
            out.put(report.files.source(file).unwrap_or("no such file"));
        }
    }
}

/// Puts whether a verdict file is right, and else the reason, with the id of the crate.
fn put_answer(out: &mut AnswerText, answer: &VerifyAnswer) {
    match answer {
        VerifyAnswer::Yes => out.put("verified"),
        VerifyAnswer::No(NoReason::Crates) => out.put("Crates"),
        VerifyAnswer::No(NoReason::Variant(id)) => write!(out, "Variant {id}"),
        VerifyAnswer::No(NoReason::NotAChoice(id)) => write!(out, "NotAChoice {id}"),
        VerifyAnswer::No(NoReason::NotSatisfied(id)) => write!(out, "NotSatisfied {id}"),
        VerifyAnswer::No(NoReason::HasHit(id)) => write!(out, "HasHit {id}"),
        VerifyAnswer::No(NoReason::NotBlocking(id)) => write!(out, "NotBlocking {id}"),
    }
}

/// How a run ended, in a word.
fn word_of(ended: &RunEnd) -> &'static str {
    match ended {
        RunEnd::Checked(_) => "checked",
        RunEnd::Listed(_) => "listed",
        RunEnd::Sampled(_) => "sampled",
        RunEnd::Recorded(_) => "recorded",
        RunEnd::Verified(_) => "verified",
        RunEnd::Billed(_) => "billed",
        RunEnd::Noticed(_) => "noticed",
        RunEnd::Told(_) => "told",
        RunEnd::Shown => "shown",
        RunEnd::Usage => "usage",
        RunEnd::Refused(_) => "refused",
    }
}

/// Puts what the crates of a report came to, or else how a run ended.
pub fn put_end(out: &mut AnswerText, ended: &RunEnd) {
    match ended {
        RunEnd::Checked(report) => put_crates(out, report, "ended"),
        ended => out.put(word_of(ended)),
    }
}

/// Puts what is seen of a run that ended without a report.
fn put_unreported(out: &mut AnswerText, ended: &RunEnd, key: &str, err: &str) {
    if key == "load" {
        return out.put(err);
    }
    if key != "ended" {
        out.put("no report: ");
    }
    match ended {
        RunEnd::Refused(error) => put_error(out, error),
        RunEnd::Verified(crates) => put_answer(out, &crates.answer),
        RunEnd::Billed(crates) if !crates.same => out.put("bill changed"),
        ended => out.put(word_of(ended)),
    }
}

impl Ending<'_> {
    /// Puts what is seen of how it ended.
    fn put_ended(&self, alloc: Global, out: &mut AnswerText, key: &str) {
        let err = self.stage.err.text();
        match &self.outcome.ended {
            RunEnd::Checked(report) => put_report(alloc, out, report, key, err),
            ended => put_unreported(out, ended, key, err),
        }
    }

    /// Puts the counts of faults of the tree and of both sinks.
    fn put_faults(&self, told: &mut AnswerText) {
        let Stage { tree, out, err } = &self.stage;
        write!(told, "tree {}", tree.failed);
        write!(told, ", out {}, err {}", out.refused, err.refused);
    }
}

/// What a run came to answers what its case wants.
impl Room for Ending<'_> {
    fn answer(&self, asked: &Asked<'_>, out: &mut AnswerText) -> Told {
        match asked.group {
            "file" | "words" | "cwd" | "identifier" | "cut" | "fail" | "fail-too" =>
                return Told::Given,
            "room-out" | "room-err" | "piece-out" | "piece-err" => return Told::Given,
            "faults-tree" | "faults-out" | "faults-err" => return Told::Given,
            "status" => write!(out, "{}", self.outcome.status),
            "request" => put_request(out, &self.outcome.request),
            "out" | "out-begins" => out.put(self.stage.out.text()),
            "err" | "err-begins" => out.put(self.stage.err.text()),
            "calls" => write!(out, "{}", self.stage.tree.calls),
            "asked" => out.put_whole(&self.stage.tree.asked),
            "faults" => self.put_faults(out),
            "ended"
            | "crates"
            | "verdicts"
            | "failed"
            | "about"
            | "policy"
            | "notes"
            | "stats"
            | "found"
            | "load" => self.put_ended(asked.alloc, out, asked.group),
            key if file_in(key).is_some() => self.put_ended(asked.alloc, out, key),
            _ => return Told::NoSuchGroup,
        }
        Told::Answer
    }

    fn room_for(&self, key: &str) -> usize {
        let Setting { case, out, err, .. } = self.setting;
        match key {
            "out" if case.word("room-out") == "below" => out,
            "err" if case.word("room-err") == "below" => err,
            _ => usize::MAX,
        }
    }

    fn put_run(&self, told: &mut AnswerText) {
        let Setting { call, out, err, .. } = self.setting;
        write!(told, "  at  fail {call}, out {out}, err {err}\n");
        if self.setting.later > 0 {
            write!(told, "  and call {} fails\n", self.setting.later);
        }
        if !self.setting.case.word("cut").is_empty() {
            write!(told, "  cut to {} bytes\n", self.setting.kept);
        }
    }
}
