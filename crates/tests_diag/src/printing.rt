//! Findings and files of cases, what is printed of them, and whether their labels lie in the files.
use crate::findings::severity_named;
use deny_text::{PathBuf, Span, Text};
use diag_core::{
    AddError, Check, Coord, Diag, Diagnostic, Files, Label, LevelFilter, Pack, Severity,
};
use diag_print::{
    Color, DiagPrinter, Format, LogContext, PrintError, labels_are_inside, pack_labels_are_inside,
};
use run_request::FromWord;
use std::alloc::{AllocError, Global};
use tests_files::tree::{first_word, number, number_in, written};
use tests_files::{AnswerText, Asked, Case, CaseEntry, Comparison, Room, Shown, Told};
use tests_text::calls::{CallWords, Called, put_answered};
use tree_core::MemSink;

/// The bytes that are written as `6..12`.
fn span_of(word: &str) -> Span {
    let (start, end) = word.split_once("..").unwrap_or((word, word));
    let (start, end) = (number_in(start), number_in(end));
    Span { start, end }
}

/// A label in a file, which is by its number before the bytes; `place` is a place that becomes a label.
fn label_of(alloc: Global, entry: &CaseEntry) -> Result<Label, AllocError> {
    let (style, place) = first_word(entry.word());
    let (file, span) = first_word(place);
    let (file, span) = (number_in(file), span_of(span));
    let label = match style {
        "primary" => Label::primary(alloc, file, span),
        "secondary" => Label::secondary(alloc, file, span),
        _ => Coord { file, span }.into_label(alloc),
    };
    label.with_message(entry.below())
}

/// A finding with what an entry adds to it.
fn with_entry(
    alloc: Global,
    finding: Diagnostic,
    entry: &CaseEntry,
) -> Result<Diagnostic, AllocError> {
    match entry.key() {
        "finding" => Ok(Diagnostic::new(alloc, severity_named(entry.word()))),
        "code" => finding.with_code(entry.wanted()),
        "message" => finding.with_message(entry.wanted()),
        "note" => finding.with_note(entry.wanted()),
        "label" => match label_of(alloc, entry) {
            Ok(label) => finding.with_label(label),
            Err(error) => Err(error),
        },
        _ => Ok(finding),
    }
}

/// The finding that begins at a place of some entries, with what those behind it add.
fn finding_at(alloc: Global, entries: &[CaseEntry], place: usize) -> Result<Diag, AllocError> {
    let mut finding = Diagnostic::new(alloc, Severity::Bug);
    let mut begun: usize = 0;
    for entry in entries.iter().skip(place) {
        if entry.key() == "finding" {
            begun = begun.saturating_add(1);
        }
        if begun == 1 {
            finding = with_entry(alloc, finding, entry)?;
        }
    }
    Diag::new(finding, None)
}

/// What a case says: its findings in a pack, and its files.
#[derive(Drop)]
struct Given {
    pack: Pack,
    files: Files,
}

/// A pack without findings, about the crate of that id, if it has letters; and no file.
fn empty(alloc: Global, id: &str) -> Result<Given, AllocError> {
    let pack = match id {
        "" => Pack::new(alloc, Check::Licenses),
        _ => Pack::with_kid(alloc, Check::Licenses, Text::copy(alloc, id)?),
    };
    let files = Files::new(alloc);
    Ok(Given { pack, files })
}

impl Given {
    fn add_file(&mut self, alloc: Global, entry: &CaseEntry) -> Result<(), AddError> {
        let path = PathBuf::copy(alloc, entry.word())?;
        self.files.add(path, Text::copy(alloc, entry.below())?)?;
        Ok(())
    }

    /// Adds the findings and the files of some entries.
    fn add(&mut self, alloc: Global, entries: &[CaseEntry]) -> Result<(), AddError> {
        for (place, entry) in entries.iter().enumerate() {
            match entry.key() {
                "finding" => self.pack.push(finding_at(alloc, entries, place)?)?,
                "file" => self.add_file(alloc, entry)?,
                _ => {}
            }
        }
        Ok(())
    }
}

/// The findings and files of a case, those of its base first.
fn given_of(alloc: Global, case: &Case<'_>) -> Option<Given> {
    let mut given = empty(alloc, case.word("pack")).ok()?;
    if given.add(alloc, case.base).is_ok() && given.add(alloc, case.own).is_ok() {
        Some(given)
    } else {
        None
    }
}

fn context_of(case: &Case<'_>) -> LogContext {
    LogContext {
        format: Format::from_word(case.word("format")).unwrap_or(Format::Human),
        color: Color::Auto,
        log_level: LevelFilter::from_word(case.word("level")).unwrap_or(LevelFilter::Warn),
    }
}

impl Given {
    /// Prints the pack where a case has the key `pack`, or else its first finding; nothing at level off. Returns what the call
    /// answers; none where a label is outside its file.
    fn print(&self, asked: &Asked<'_>, sink: &mut MemSink) -> Option<Result<(), PrintError>> {
        let (alloc, pack, files) = (asked.alloc, &self.pack, &self.files);
        let Some(printer) = DiagPrinter::new(context_of(&asked.case)) else {
            return Some(Ok(()));
        };
        let mut lock = printer.lock(sink);
        match pack.iter().next() {
            Some(first)
                if asked.case.entry("pack").is_none() && labels_are_inside(&first.diag, files) => {
                Some(lock.print(alloc, &first.diag, files))
            }
            _ if pack_labels_are_inside(pack, files) => {
                Some(lock.print_krate_pack(alloc, pack, files))
            }
            _ => None,
        }
    }

    /// Prints to a sink of a case's room, and puts what the call answers or what is written.
    fn put_printed(&self, asked: &Asked<'_>, out: &mut AnswerText, mut sink: MemSink) {
        match self.print(asked, &mut sink) {
            None => out.cant_be_tried(),
            Some(answer) if asked.group == "answer" => write!(out, "{answer:?}"),
            Some(_) => out.put(written(&sink)),
        }
    }
}

/// The files that labels are to lie in.
#[derive(Drop)]
struct Inside<'f> {
    files: &'f Files,
}

/// Whether a label lies in its file.
impl Called for Inside<'_> {
    fn put_answer(&mut self, out: &mut AnswerText, alloc: Global, call: CallWords<'_>) {
        let label = Label::primary(alloc, number_in(call.verb), span_of(call.path));
        match &Diagnostic::new(alloc, Severity::Note).with_label(label) {
            Ok(finding) => write!(out, " => {}", labels_are_inside(finding, self.files)),
            Err(_) => out.want_memory(),
        }
    }
}

impl Shown<Printing> for Diag {
    fn put(&self, out: &mut AnswerText) {
        let diag = &self.diag;
        let (labels, notes) = (diag.labels.items().len(), diag.notes.items().len());
        let crates = self.graph_nodes.items().len();
        write!(out, "; {}, {labels} labels", diag.message);
        write!(out, ", {notes} notes, {crates} crates");
    }
}

/// Puts how many findings a pack has, whether it is empty, and what each has that is taken out of it.
fn put_kept(out: &mut AnswerText, given: Given) {
    let Given { pack, .. } = given;
    write!(out, "{} {}", pack.len(), pack.is_empty());
    for finding in pack {
        finding.put(out);
    }
}

impl Room for Given {
    fn answer(&self, asked: &Asked<'_>, out: &mut AnswerText) -> Told {
        let (alloc, case, files) = (asked.alloc, &asked.case, &self.files);
        match asked.group {
            "inside" => put_answered(out, alloc, case.given("inside"), Inside { files }),
            "kept" => match given_of(alloc, case) {
                Some(given) => put_kept(out, given),
                None => out.want_memory(),
            },
            "written" | "answer" => {
                let room = number(case.word("room")).unwrap_or(1024);
                match MemSink::new(alloc, room as usize, 7) {
                    Ok(sink) => self.put_printed(asked, out, sink),
                    Err(_) => out.want_memory(),
                }
            }
            "file"
            | "finding"
            | "code"
            | "message"
            | "label"
            | "note"
            | "pack"
            | "format"
            | "level"
            | "room" => return Told::Given,
            _ => return Told::NoSuchGroup,
        }
        Told::Answer
    }
}

/// The cases of printing.
pub struct Printing;

impl Room for Printing {
    fn compare_runs(&self, compared: &mut Comparison<'_>, case: &Case<'_>) -> bool {
        compared.compare_ran(given_of(compared.alloc, case), case);
        true
    }
}
