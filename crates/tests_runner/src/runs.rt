//! The runs of a case: one for each call that fails, each length of a file that is cut, and each room of the sinks.
use crate::settings::{Setting, calls_of, ending_of, laters_of, lengths_of, rooms_of};
use tests_files::{Case, CaseEntry, Comparison, Room};

/// Cases of whole runs.
pub struct RunCases;

/// Whether an entry may stand so: but for files and values each key stands once, and only files have a word and a text.
fn is_right(case: &Case<'_>, entry: &CaseEntry) -> bool {
    let is_one = entry.word().is_empty() || entry.text.is_empty();
    let first = case.entry(entry.key());
    let is_first = first.is_some_and(|first| first.line == entry.line);
    match entry.key() {
        "file" => true,
        "let" => is_one,
        _ => is_one && is_first,
    }
}

/// Compares a run for each room of the sinks, and is none where one can't be tried.
fn compare_rooms(
    compared: &mut Comparison<'_>,
    setting: &Setting<'_>,
    outs: (usize, usize),
    errs: (usize, usize),
) {
    for out in outs.0..outs.1 {
        for err in errs.0..errs.1 {
            let setting = Setting {
                out,
                err,
                ..*setting
            };
            compared.count_run();
            compared.compare_ran(ending_of(compared.alloc, &setting), &setting.case);
        }
    }
}

/// Compares the runs of a case: one for each call that fails, for each behind it that fails too, and for each length of the file
/// that is cut. It is none where they can't be told.
fn compare_runs(compared: &mut Comparison<'_>, case: &Case<'_>) -> Option<()> {
    let outs = rooms_of(case, "room-out", "out")?;
    let errs = rooms_of(case, "room-err", "err")?;
    let lengths = lengths_of(compared.alloc, case)?;
    let laters = laters_of(case)?;
    let whole = Setting::whole(case, outs.1.saturating_sub(1), errs.1.saturating_sub(1));
    let calls = calls_of(compared.alloc, &whole)?;
    for call in calls.0..=calls.1 {
        for later in laters.0..=laters.1 {
            for kept in lengths.0..lengths.1 {
                if later == 0 || later > call {
                    let setting = Setting {
                        call,
                        later,
                        kept,
                        ..whole
                    };
                    compare_rooms(compared, &setting, outs, errs);
                }
            }
        }
    }
    Some(())
}

/// Its files have no rows, and of a case each run answers.
impl Room for RunCases {
    fn compare_runs(&self, compared: &mut Comparison<'_>, case: &Case<'_>) -> bool {
        for entry in case.own {
            if !is_right(case, entry) {
                compared.tell(entry.line, "a key or its value stands twice");
            }
        }
        if compare_runs(compared, case).is_none() {
            compared.tell(case.line, "a case that can't be tried");
        }
        true
    }
}
