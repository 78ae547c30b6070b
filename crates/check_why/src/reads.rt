//! What came of the reads of a crate's files.
ghost use Rattle.std.specs.Prelude.{◌≡◌, ◌++◌, IfOk, OnOk, option_copied};
ghost use Rattle.check_why.specs.Kept as spec;
ghost use Rattle.check_why.specs.Reads.{named_said, wrong_said};

use crate::answer::{ReadAnswer, ReadAnswers, ReadSaid};
use deny_text::{PathBuf, Text};
use gather_license::expression::IdentifiedName;
use gather_license::{KeptFile, TextKept};
use std::alloc::{AllocError, Global};
use tree_core::file_reads::BadRead;
use tree_core::{ReadAnswer as Answer, ReadKind, ReadRecord};

/// A text by the name that is taken for it, if one is.
fn named_said(
    alloc: Global,
    score: u8,
    name: &Option<IdentifiedName>,
) -> Result<ReadSaid, AllocError>
    ensures { IfOk result (λ said. said ≡ named_said score name.now) }
{
    match name {
        Some(identified) => {
            let name = Text::copy(alloc, identified.name.as_str())?;
            Ok(ReadSaid::Known { name, score })
        }
        None => Ok(ReadSaid::Unknown { score }),
    }
}

/// Why a file gave no text.
fn bad_said(bad: BadRead) -> ReadSaid
    ensures { result ≡ spec.bad_said bad }
{
    match bad {
        BadRead::Absent => ReadSaid::NotThere,
        BadRead::WrongKind => ReadSaid::Folder,
        BadRead::NotUtf8 => ReadSaid::NotUtf8,
        BadRead::Failed { .. } => ReadSaid::Failed,
    }
}

/// A licence file by what is kept of it.
fn kept_said(alloc: Global, kept: &TextKept) -> Result<ReadSaid, AllocError>
    ensures { IfOk result (λ said. said ≡ spec.kept_said kept.now) }
{
    match kept {
        Ok(text) => named_said(alloc, text.score, &text.name),
        Err(bad) => Ok(bad_said(*bad)),
    }
}

/// A licence file by the first of those that are kept.
fn first_said(alloc: Global, kept: &[KeptFile]) -> Result<ReadSaid, AllocError>
    ensures { IfOk result (λ said. said ≡ spec.first_said kept.now) }
{
    match kept.first() {
        Some(file) => kept_said(alloc, &file.kept),
        None => Ok(ReadSaid::NotThere),
    }
}

/// Something else is there than what was to be read.
fn wrong_said(kind: ReadKind) -> ReadSaid
    ensures { result ≡ wrong_said kind }
{
    match kind {
        ReadKind::Manifest | ReadKind::LicenseFile => ReadSaid::Folder,
        ReadKind::Listing => ReadSaid::NoFolder,
    }
}

/// What was read: a licence file by the first of those that are kept.
fn got_said(alloc: Global, kind: ReadKind, kept: &[KeptFile]) -> Result<ReadSaid, AllocError>
    ensures { IfOk result (λ said. said ≡ spec.got_said kind kept.now) }
{
    match kind {
        ReadKind::Manifest | ReadKind::Listing => Ok(ReadSaid::Read),
        ReadKind::LicenseFile => first_said(alloc, kept),
    }
}

fn read_said(alloc: Global, read: &ReadRecord, kept: &[KeptFile]) -> Result<ReadSaid, AllocError>
    ensures { IfOk result (λ said. said ≡ spec.read_said read.now.kind read.now.answer kept.now) }
{
    match read.answer {
        Answer::Got => got_said(alloc, read.kind, kept),
        Answer::Absent => Ok(ReadSaid::NotThere),
        Answer::WrongKind => Ok(wrong_said(read.kind)),
        Answer::NotUtf8 => Ok(ReadSaid::NotUtf8),
        Answer::Failed { .. } => Ok(ReadSaid::Failed),
    }
}

/// What is kept of the licence files behind a read.
fn behind<'k>(read: &ReadRecord, kept: &'k [KeptFile]) -> &'k [KeptFile]
    ensures { result.now ≡ spec.behind read.now kept.entry.now }
{
    match read.kind {
        ReadKind::Manifest | ReadKind::Listing => kept,
        ReadKind::LicenseFile => match kept.split_first() {
            Some((_, rest)) => rest,
            None => kept,
        },
    }
}

/// What came of reads in order, with what is kept of the licence files among them.
pub(crate) fn read_answers(
    alloc: Global,
    reads: &[ReadRecord],
    kept: &[KeptFile],
) -> Result<ReadAnswers, AllocError>
    ensures { IfOk result (λ answers. answers ≡ spec.answers_by reads.now kept.now) }
{
    let mut answers = ReadAnswers::new(alloc);
    let mut rest = kept;
    'reads: for read in reads {
        let said = read_said(alloc, read, rest)?;
        let path = PathBuf::copy(alloc, read.path.as_path())?;
        answers.push(ReadAnswer { path, said })?;
        rest = behind(read, rest);
    }
    Ok(answers)
}
