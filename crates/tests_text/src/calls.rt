//! Texts of cases whose lines are calls, each with what it answers behind an arrow: `read a/x => "one"`. The
//! calls are made in their order, and the same lines are printed with what was seen. Paths alone have
//! escapes.
use std::alloc::Global;
use tests_files::AnswerText;
use tests_files::escapes::put_unescaped;
use tests_files::tree::first_word;

/// A call: a word, and one or two more behind it.
#[derive(Clone, Copy)]
pub struct CallWords<'l> {
    pub verb: &'l str,
    pub path: &'l str,
    pub text: &'l str,
}

/// What calls are made to.
pub trait Called {
    /// Puts an arrow and what a call answers, or nothing where nothing is to be reported.
    fn put_answer(&mut self, out: &mut AnswerText, alloc: Global, call: CallWords<'_>);
}

/// A word, of which `''` has no letter.
pub fn letters_of(word: &str) -> &str {
    if word == "''" { "" } else { word }
}

fn put_call<C: Called>(out: &mut AnswerText, alloc: Global, line: &str, called: &mut C) {
    let (verb, rest) = first_word(line);
    let (path, text) = first_word(rest);
    let mut unescaped = AnswerText::new(alloc);
    let is_read = put_unescaped(alloc, &mut unescaped, letters_of(path)).is_ok();
    out.tries(is_read & unescaped.is_whole());
    let (path, text) = (unescaped.text(), letters_of(text));
    called.put_answer(out, alloc, CallWords { verb, path, text });
}

/// Puts lines, each with what its call answers, and lets go what was called.
pub fn put_answered<C: Called + Drop>(
    out: &mut AnswerText,
    alloc: Global,
    lines: &str,
    mut called: C,
) {
    for line in lines.lines() {
        let (line, _) = line.split_once(" => ").unwrap_or((line, ""));
        out.put(line);
        put_call(out, alloc, line, &mut called);
        out.put("\n");
    }
}
