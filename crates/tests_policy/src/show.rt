//! What was read, reported or refused as one text: each field, or the faults with their places.
use crate::Policy;
use deny_text::{Span, Spanned, Texts};
use diag_core::{Label, LabelStyle, Severity};
use policy_core::{
    BlanketAgreement, Clarification, Config, Exception, ExceptionsFile, FileSource, FileSources,
    GraphConfig, Licensee, Licensees, LintLevel, OutputConfig, Private, Reason, RootConfig, Scope,
    ValidClarifications, ValidExceptions,
};
use policy_load::{Diagnostics, LoadError, ShapeErrors};
use policy_toml::DeserError;
use std::fmt::Display;
use tests_files::{AnswerText, Shown};

/// Puts places, each with a semicolon.
pub fn put_spans(out: &mut AnswerText, spans: &[Span]) {
    for span in spans {
        out.put_span("", *span);
        out.put(";");
    }
}

/// Puts a value and where it is there.
fn put_at<T: Display>(out: &mut AnswerText, item: &Spanned<T>) {
    write!(out, "{}", item.value);
    out.put_span(" at ", item.span);
}

pub fn put_texts(out: &mut AnswerText, name: &str, texts: &Texts) {
    write!(out, " {name}=");
    for text in texts.items() {
        write!(out, "{text};");
    }
}

/// A level, with how grave what it finds is.
impl Shown<Policy> for LintLevel {
    fn put(&self, out: &mut AnswerText) {
        let level = *self;
        write!(out, "{level:?} {:?}", Severity::from(level));
    }
}

impl Shown<Policy> for BlanketAgreement {
    fn put(&self, out: &mut AnswerText) {
        let agreement = *self;
        write!(out, "{agreement:?}");
    }
}

impl Shown<Policy> for Scope {
    fn put(&self, out: &mut AnswerText) {
        out.put(self.as_str());
    }
}

impl Shown<Policy> for FileSource {
    fn put(&self, out: &mut AnswerText) {
        put_at(out, &self.path);
        write!(out, " {}", self.hash);
    }
}

impl Shown<Policy> for Private {
    fn put(&self, out: &mut AnswerText) {
        write!(out, "ignore={} sources=", self.ignore);
        for source in self.ignore_sources.items() {
            put_at(out, source);
            out.put(";");
        }
        put_texts(out, "registries", &self.registries);
    }
}

impl Shown<Policy> for OutputConfig {
    fn put(&self, out: &mut AnswerText) {
        match self.feature_depth {
            Some(depth) => write!(out, "depth {depth}"),
            None => out.put("no depth"),
        }
    }
}

impl Shown<Policy> for GraphConfig {
    fn put(&self, out: &mut AnswerText) {
        for target in self.targets.items() {
            put_at(out, &target.filter);
            put_texts(out, "with", &target.features);
            out.put("; ");
        }
        let (all, none) = (self.all_features, self.no_default_features);
        let (dev, unpublished) = (self.exclude_dev, self.exclude_unpublished);
        write!(
            out,
            "all={all} none={none} dev={dev} unpublished={unpublished}"
        );
        put_texts(out, "exclude", &self.exclude);
        put_texts(out, "features", &self.features);
    }
}

impl Shown<Policy> for Licensee {
    fn put(&self, out: &mut AnswerText) {
        put_at(out, &self.0);
        out.put(";");
    }
}

impl Shown<Policy> for Reason {
    fn put(&self, out: &mut AnswerText) {
        put_at(out, &self.0);
    }
}

/// An exception, with the files that it is tied to where it has that key.
impl Shown<Policy> for Exception {
    fn put(&self, out: &mut AnswerText) {
        write!(out, "{}:", self.spec);
        out.each::<Policy, _>("", self.allow.items());
        if let Some(files) = &self.license_files {
            out.put(" files");
            for file in files.items() {
                out.put(" ");
                file.put(out);
                out.put(";");
            }
        }
    }
}

impl Shown<Policy> for ExceptionsFile {
    fn put(&self, out: &mut AnswerText) {
        out.each::<Policy, _>("", self.exceptions.items());
        for clarification in self.clarify.items() {
            out.put("clarify ");
            clarification.put(out);
        }
    }
}

impl Shown<Policy> for Clarification {
    fn put(&self, out: &mut AnswerText) {
        write!(out, "{}: ", self.spec);
        put_at(out, &self.expression);
        write!(out, " {};", self.escapes);
        for file in self.license_files.items() {
            write!(out, "{} {};", file.path.value, file.hash);
        }
    }
}

fn put_settings(out: &mut AnswerText, config: &Config) {
    let threshold = config.confidence_threshold.0;
    let allowed = config.unused_allowed_license;
    let exception = config.unused_license_exception;
    let (dev, build) = (config.include_dev, config.include_build);
    write!(out, "\nthreshold={threshold}\nunused_allowed={allowed:?}");
    write!(
        out,
        " unused_exception={exception:?}\ndev={dev} build={build}"
    );
}

impl Shown<Policy> for Config {
    fn put(&self, out: &mut AnswerText) {
        self.private.put(out);
        put_settings(out, self);
        out.put("\nallow=");
        out.each::<Policy, _>("", self.allow.items());
        out.put("\nclarify=");
        out.each::<Policy, _>("", self.clarify.items());
        out.put("\nexceptions=");
        out.each::<Policy, _>("", self.exceptions.items());
        out.put("\ndeprecated=");
        put_spans(out, self.deprecated_spans.items());
        out.put("\n");
    }
}

/// Puts a policy, its table `licenses` by whether it is there.
pub fn put_root(out: &mut AnswerText, root: &RootConfig) {
    write!(out, "licenses={}\n", root.licenses.is_some());
    root.graph.put(out);
    out.put("\ndeprecated=");
    put_spans(out, root.graph_deprecated.items());
    out.put("\n");
    root.output.put(out);
    if let Some(span) = root.output_deprecated {
        out.put_span(" at ", span);
    }
    out.put("\n");
}

fn put_sources(out: &mut AnswerText, files: &FileSources) {
    for file in files.items() {
        write!(out, " {} {}", file.path.value, file.hash);
    }
}

/// Puts clarifications that are valid, each of the exceptions file with the number of that file.
pub fn put_clarified(out: &mut AnswerText, clarifications: &ValidClarifications) {
    for clarification in clarifications.items() {
        write!(out, "{} from ", clarification.expression);
        match clarification.whole {
            Some(span) => out.put_span("", span),
            None => write!(out, "{}", clarification.expr_offset),
        }
        put_sources(out, &clarification.license_files);
        if clarification.overlay {
            write!(out, " over {}", clarification.file_id);
        }
        out.put(";");
    }
}

/// Puts licensees as they are printed, each behind a blank.
pub fn put_printed(out: &mut AnswerText, licensees: &Licensees) {
    for licensee in licensees.items() {
        write!(out, " {}", licensee.0.value);
    }
}

/// Puts exceptions that are valid, each with the number of its file and the files that it is tied to.
pub fn put_excepted(out: &mut AnswerText, exceptions: &ValidExceptions) {
    for exception in exceptions.items() {
        write!(out, "{} in {}", exception.spec, exception.file_id);
        put_printed(out, &exception.allowed);
        if !exception.license_files.items().is_empty() {
            out.put(" with");
            put_sources(out, &exception.license_files);
        }
        out.put(";");
    }
}

fn put_label(out: &mut AnswerText, label: &Label) {
    let style = match label.style {
        LabelStyle::Primary => "at",
        LabelStyle::Secondary => "and",
    };
    write!(out, " {style} {}", label.file_id);
    out.put_span(":", label.range);
    if !label.message.as_str().is_empty() {
        out.put(" ");
        out.put(label.message.as_str());
    }
}

fn put_notes(out: &mut AnswerText, notes: &Texts) {
    for note in notes.items() {
        write!(out, " ({note})");
    }
}

/// Puts findings in order, with the places that they are about, and their notes.
pub fn put_findings(out: &mut AnswerText, found: &Diagnostics) {
    for diag in found.items() {
        write!(out, "{:?}", diag.severity);
        if let Some(code) = &diag.code {
            out.put(" ");
            out.put(code.as_str());
        }
        out.put(" ");
        out.put(diag.message.as_str());
        for label in diag.labels.items() {
            put_label(out, label);
        }
        put_notes(out, &diag.notes);
        out.put(";");
    }
}

fn put_shape(out: &mut AnswerText, faults: &ShapeErrors) {
    for fault in faults.items() {
        out.put_span("", fault.span);
        write!(out, " {fault};");
    }
}

/// Why a part of a policy is refused.
impl Shown<Policy> for DeserError {
    fn put(&self, out: &mut AnswerText) {
        match self {
            DeserError::Faults(faults) => put_shape(out, faults),
            DeserError::Memory => out.want_memory(),
        }
    }
}

/// Why a policy is refused.
impl Shown<Policy> for LoadError {
    fn put(&self, out: &mut AnswerText) {
        match self {
            LoadError::Memory => out.want_memory(),
            LoadError::ConfigRead(fault) => write!(out, "{fault:?}"),
            LoadError::ConfigSyntax(fault) => {
                write!(out, "{:?}", fault.reason);
                out.put_span(" ", fault.span);
            }
            LoadError::ConfigShape(faults) => put_shape(out, faults),
            LoadError::NotCarried => out.put("not carried"),
            LoadError::ConfigInvalid(found) => put_findings(out, found),
            LoadError::WriteFault { before, after } => write!(out, "write {before} {after}"),
        }
    }
}
