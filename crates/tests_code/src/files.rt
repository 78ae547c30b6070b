//! What is reported of files that can't be read, and of rows and cases that differ.
use std::io;
use std::process::ExitCode;
use std::rt::Runtime;
use tests_files::compared::told_text;
use tests_files::told::{show, text_of};
use tests_files::{AnswerText, Asked, Room, Tally, Told, compare, exit_code};

/// The group `same` answers each text by itself, and the key `said` by the word behind `say`.
struct Same;

impl Room for Same {
    fn answer(&self, asked: &Asked<'_>, out: &mut AnswerText) -> Told {
        match asked.group {
            "same" => out.put(asked.text),
            "said" | "said-begins" => out.put(asked.case.word("say")),
            "not tried" => out.cant_be_tried(),
            "say" => return Told::Given,
            _ => return Told::NoSuchGroup,
        }
        Told::Answer
    }
}

/// Lines of files; of each the counts and what is reported are behind the arrow.
macro_rules! files {
    ($($lines:literal => $counts:literal, $reported:literal;)*) => {
        [$(($lines, $counts, $reported),)*]
    };
}

/// Lines of files of rows.
const ROWS: [(&str, &str, &str); 12] = files! {
    "[same]\na => a\n\n# none\nb =>\n" => "same: 2 rows\n", "f:5: same\n  is  \"b\"\n  not \"\"\n";
    "[same]\n\\s\\t\\\\ \\=> \\u{e9} => \\u{20}\\t\\u{5c} \\u{3d}> é\n" => "same: 1 rows\n", "";
    "[same]\n\\*{3:ab} => ababab\n" => "same: 1 rows\n", "";
    "[other]\na => a\n" => "other: 1 rows\n", "f:2: no such group or key\n";
    "[say]\na => a\n" => "say: 1 rows\n", "f:2: no such group or key\n";
    "[not tried]\na => a\n" => "not tried: 1 rows\n", "f:2: it can't be tried\n";
    "[same]\na\n" => "same: 1 rows\n", "f:2: a row without ` => `\n";
    "[same]\n\\q => \n" => "same: 1 rows\n", "f:2: an escape that is not known\n";
    "[same]\na => \\u{d800}\n" => "same: 1 rows\n", "f:2: an escape whose number is none\n";
    "[same]\na => \\*{x:a}\n" => "same: 1 rows\n", "f:2: a count that is no number\n";
    "[same]\na => \\u41\n" => "same: 1 rows\n", "f:2: an escape without its brace\n";
    "[same]\na => \\\n" => "same: 1 rows\n", "f:2: an escape that does not end\n";
};

/// Lines of files of cases.
const CASES: [(&str, &str, &str); 16] = files! {
    "a => a\n" => "f: 0 cases\nf: 0 lines wanted\n", "f:1: a line before the first case\n";
    "base b\n  say x\n  said y\ncase a\n  with b\n" => "f: 1 cases\nf: 1 lines wanted\n", "f:3: a\n  is  \"x\"\n  not \"y\"\n";
    "base b\n  said y\ncase a\n  with b\n  say x\n  said x\n" => "f: 1 cases\nf: 1 lines wanted\n", "";
    "case a\n  say xyz\n  said-begins x\n" => "f: 1 cases\nf: 1 lines wanted\n", "";
    "case a\n  say x\n  said x\n" => "f: 1 cases\nf: 1 lines wanted\n", "";
    "base b\n  say x\ncase a\n  with b\n  said\n:x\n" => "f: 1 cases\nf: 1 lines wanted\n", "";
    "case a\n  say x\n  said y\n" => "f: 1 cases\nf: 1 lines wanted\n", "f:3: a\n  is  \"x\"\n  not \"y\"\n";
    "case a\n  said\n=00 zz\n  seen y\n" => "f: 1 cases\nf: 2 lines wanted\n",
        "f:3: a byte that is no number\nf:2: a\n  is  \"\"\n  not \"\\0\"\nf:4: no such group or key\n";
    "case a\n  say x\n" => "f: 1 cases\nf: 0 lines wanted\n", "f:1: a case that wants nothing\n";
    "case\n  said x\n" => "f: 1 cases\nf: 0 lines wanted\n", "f:1: a case without a name\n";
    "case a\n  said\ncase a\n  said\n" => "f: 2 cases\nf: 1 lines wanted\n", "f:3: a second case of this name\n";
    "case a\n  with b\n  said x\n" => "f: 1 cases\nf: 0 lines wanted\n", "f:1: a base that is not there\n";
    "case a\n  said\n*x y\n" => "f: 1 cases\nf: 1 lines wanted\n", "f:3: a count that is no number\n";
    "case a\n|x\n  said\n" => "f: 1 cases\nf: 1 lines wanted\n", "f:2: a line before the first key\n";
    "  said\ncase a\n  said\n" => "f: 1 cases\nf: 1 lines wanted\n", "f:1: a line before the first case\n";
    "case a\n  said\nx\n" => "f: 1 cases\nf: 1 lines wanted\n", "f:3: a line of no known kind\n";
};

/// Whether counts and differences are reported, and whether a program ends with 1 exactly where something differs.
fn is_told(rt: &HostRuntime, told: &io::Result<Tally>, counts: &str, differences: &str) -> bool {
    let is_so = match told {
        Ok(told) => told.counts.text() == counts && told.differences.text() == differences,
        Err(_) => false,
    };
    let status = if differences.is_empty() { 0 } else { 1 };
    is_so && exit_code(show(rt, "f", told)) == ExitCode::from(status)
}

/// The first text of which something else is told.
fn first_wrong(rt: &HostRuntime, files: &[(&'static str, &str, &str)]) -> &'static str {
    for (text, counts, differences) in files {
        let told = Ok(told_text(rt.alloc(), "f", text, &Same));
        if !is_told(rt, &told, counts, differences) {
            return text;
        }
    }
    "none"
}

#[test]
fn rows_are_told(rt: HostRuntime) {
    assert_eq!(rt; first_wrong(&rt, &ROWS), "none");
}

#[test]
fn cases_are_told(rt: HostRuntime) {
    assert_eq!(rt; first_wrong(&rt, &CASES), "none");
}

#[test]
fn a_file_that_is_no_text_is_told(rt: HostRuntime) {
    let mut told = Tally::new(rt.alloc());
    let is_text = text_of(&mut told, "f", b"[same]\na\xff").is_some();
    let is_told = is_told(&rt, &Ok(told), "", "f:2: the file is no UTF-8\n");
    assert!(rt; is_told && !is_text);
}

#[test]
fn a_file_that_is_not_there_is_not_as_wanted(rt: HostRuntime) {
    assert!(rt; !compare(&rt, "no-such-file.txt", &Same));
}
