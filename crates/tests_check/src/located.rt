//! Where a field stands: what each `locate` of a case comes to, one after another, over one tree and one table.
use deny_text::{PathBuf, Text};
use diag_core::Files;
use gather_license::location::{LocatedField, locate};
use tests_files::tree::{fail_call, first_word, tree_of};
use tests_files::{AnswerText, Asked};
use tree_core::MemTree;

/// Where a field is, the read of its manifest, and how many files the table has then.
fn put_located(out: &mut AnswerText, located: &LocatedField, files: &Files) {
    match &located.location {
        Some(at) => write!(out, "{}:{}..{}", at.file, at.span.start, at.span.end),
        None => out.put("nowhere"),
    }
    if let Some(read) = &located.read {
        write!(out, "; {} {:?}", read.path, read.answer);
    }
    let ids = 0..4usize;
    let count = ids.filter(|id| files.name(*id).is_ok()).count();
    write!(out, "; {count} files\n");
}

/// Adds a text to the table under a path.
fn add_file(asked: &Asked<'_>, out: &mut AnswerText, files: &mut Files, path: &str, text: &str) {
    let path = PathBuf::copy(asked.alloc, path).ok();
    match path.zip(Text::copy(asked.alloc, text).ok()) {
        Some((path, text)) => out.needs(files.add(path, text)),
        None => out.want_memory(),
    }
}

/// Looks for the field that is written behind a path.
fn put_field(
    asked: &Asked<'_>,
    out: &mut AnswerText,
    tree: &mut MemTree,
    files: &mut Files,
    words: &str,
) {
    let (path, field) = first_word(words);
    match &PathBuf::copy(asked.alloc, path) {
        Ok(path) => match &locate(asked.alloc, tree, files, path, field) {
            Ok(located) => put_located(out, located, files),
            Err(_) => out.want_memory(),
        },
        Err(_) => out.want_memory(),
    }
}

/// Takes the entries of a case, of which those of the table come first.
fn put_all(asked: &Asked<'_>, out: &mut AnswerText, tree: &mut MemTree) {
    let mut files = Files::new(asked.alloc);
    for entry in asked.case.own {
        match entry.key() {
            "table" => add_file(asked, out, &mut files, entry.word(), entry.below()),
            "locate" => put_field(asked, out, tree, &mut files, entry.word()),
            _ => {}
        }
    }
}

/// Where each field by the key `locate` is, in the tree of the case, of which the call fails that it names.
pub fn put_each(asked: &Asked<'_>, out: &mut AnswerText) {
    let Ok(mut tree) = tree_of(asked.alloc, &asked.case) else {
        return out.cant_be_tried();
    };
    out.tries(fail_call(&mut tree, asked.case.word("fail")));
    put_all(asked, out, &mut tree);
}
