//! How a process ends, what it writes, and the paths that its words name.
use crate::process::Process;
use crate::seen::put_end;
use crate::settings::{Setting, Stage, stage_of};
use deny_gate::{StartError, exit_code, gate_over, named_paths};
use deny_run::Outcome;
use deny_text::PathBuf;
use std::alloc::{AllocError, Global};
use std::process::ExitCode;
use tests_files::tree::number_in;
use tests_files::{AnswerText, Asked, Case, Comparison, Room, Shown, Told};

/// Cases of processes, and rows of paths that words name.
pub struct Starts;

// ---- processes

/// What a process came to: how it ended, what it wrote, and the paths that its tree was given.
#[derive(Drop)]
struct ProcessEnd {
    ended_at: Result<Outcome, StartError>,
    stage: Stage,
}

/// The gate over a process, of which nothing is said: whoever calls this owes nothing of the gate's contract.
fn run_over(alloc: Global, process: Process<'_>, stage: &mut Stage) -> Result<Outcome, StartError> {
    let Stage { tree, out, err } = stage;
    gate_over(&(process, alloc), tree, out, err)
}

fn end_over(alloc: Global, case: &Case<'_>, mut stage: Stage) -> ProcessEnd {
    let ended_at = run_over(alloc, Process(*case), &mut stage);
    ProcessEnd { ended_at, stage }
}

/// How the process of a case ends over its tree, with so many bytes of room on standard error; none where that can't be put. By
/// the key `fail` is the number of a call of the tree that fails.
fn end_in(alloc: Global, case: &Case<'_>, room: usize) -> Option<ProcessEnd> {
    let setting = Setting {
        call: number_in(case.word("fail")) as u64,
        ..Setting::whole(case, 1000, room)
    };
    stage_of(alloc, &setting).map(|stage| end_over(alloc, case, stage))
}

/// A process is shown by what it wrote to standard error.
impl Shown<Starts> for ProcessEnd {
    fn put(&self, out: &mut AnswerText) {
        out.put(self.stage.err.text());
    }
}

/// Whether the process of a case writes the front of a text to standard error, as much as there is room for.
fn writes_front(alloc: Global, case: &Case<'_>, room: usize, whole: &str) -> bool {
    let mut seen = AnswerText::new(alloc);
    seen.tried::<Starts, _>(end_in(alloc, case, room));
    let is_shown = seen.is_whole() & seen.is_tried();
    is_shown && whole.get(..room) == Some(seen.text())
}

/// In how many of the rooms below a text's length the process of a case writes its front to standard error.
fn fronts(alloc: Global, case: &Case<'_>, whole: &str) -> usize {
    let rooms = 0..whole.len();
    rooms
        .filter(|room| writes_front(alloc, case, *room, whole))
        .count()
}

impl ProcessEnd {
    /// Puts how the gate over the process ended.
    fn put_ended(&self, out: &mut AnswerText) {
        match &self.ended_at {
            Ok(outcome) => put_end(out, &outcome.ended),
            Err(error) => write!(out, "{error:?}"),
        }
    }

    /// Puts the status that the process ends with.
    fn put_status(&self, out: &mut AnswerText) {
        let code = exit_code(&self.ended_at);
        for status in 0..=8u8 {
            if code == ExitCode::from(status) {
                write!(out, "{status}");
            }
        }
    }
}

impl Room for ProcessEnd {
    fn answer(&self, asked: &Asked<'_>, out: &mut AnswerText) -> Told {
        let err = self.stage.err.text();
        match asked.group {
            "file" | "folder" | "word" | "fail" => return Told::Given,
            "ended" => self.put_ended(out),
            "status" => self.put_status(out),
            "named" => self.stage.tree.named.put(out),
            "out" => out.put(self.stage.out.text()),
            "err" => out.put(err),
            "err-line" => out.put(err.lines().next().unwrap_or("")),
            "rooms" => write!(out, "{}", fronts(asked.alloc, &asked.case, err)),
            _ => return Told::NoSuchGroup,
        }
        Told::Answer
    }
}

// ---- paths that words name

/// The paths that words name in the folder `/w`.
fn named(alloc: Global, text: &str) -> Result<Vec<PathBuf>, AllocError> {
    let words = text.split(' ').map(|word| String::from_str(alloc, word));
    let words: Result<Vec<String>, AllocError> = words.try_collect(alloc);
    named_paths(alloc, &words?, "/w")
}

/// Puts each path in brackets.
impl Shown<Starts> for Vec<PathBuf> {
    fn put(&self, out: &mut AnswerText) {
        for path in self {
            write!(out, "[{path}]");
        }
    }
}

impl Room for Starts {
    fn answer(&self, asked: &Asked<'_>, out: &mut AnswerText) -> Told {
        match asked.group {
            "paths that words name" => out.made::<Starts, _, _>(named(asked.alloc, asked.text)),
            _ => return Told::NoSuchGroup,
        }
        Told::Answer
    }

    fn compare_runs(&self, compared: &mut Comparison<'_>, case: &Case<'_>) -> bool {
        compared.compare_ran(end_in(compared.alloc, case, 1000), case);
        true
    }
}
