//! The real files.
ghost use Rattle.std.specs.Prelude.{◌≡◌, ◌≢◌, ℕ, ◌↔◌, ◌<◌, ◌≤◌, ◌⊎◌, ◌++◌, [], ◌∷◌, Ok, Err, None, Some};
ghost use Rattle.std.specs.Prelude.{IfOk, IfErr, IsOkAnd, IsTrue, OnOk, IsSorted, true, false, vec_len};
ghost use Rattle.std.specs.Option.{ForSome};
ghost use Rattle.std.specs.List.{filter};
ghost use Rattle.std.specs.Str.{IsUtf8};
ghost use Rattle.std.specs.declared.io.ErrorKind.{ErrorKind};
ghost use Rattle.std.specs.Io.{ReadsAtMost};
ghost use Rattle.std.specs.Io.KnownBytes.{Consumes, IsAtEnd, ReadConsumes};
ghost use Rattle.std.specs.Fs.{IsDir, IsFile, IsSymlink, file_type};
ghost use Rattle.std.specs.IoError.{error_kind};
ghost use Rattle.std.specs.Ordering.{nat_cmp};
ghost use Rattle.std.specs.Cmp.Lexicographic.{slice_cmp};
ghost use Rattle.tree_core.specs.Answer.{FailsOrLacksMemory, IsInNameOrder};
ghost use Rattle.tree_core.specs.Faults.{count_after};
ghost use Rattle.tree_core.specs.Trace.{read_call, list_call, file_call, exists_call};
ghost use Rattle.tree_core.specs.Readable.{IsReadable, is_among};
ghost use Rattle.tree_core.specs.SystemNames.{TellsNames, names_entry, system_names, names_in_listing};

use crate::system::System;
use crate::trace::Trace;
use crate::tree::{Entry, FolderEntries, NamesPaths, Tree, TreeError};
use deny_text::path::join;
use deny_text::{Bytes, PathBuf, Text};
use std::alloc::{AllocError, Global};
use std::fs::Metadata;
use std::io;
use std::io::{ErrorKind, Read};
use std::marker::Model;

/// The most bytes that a file may have.
const LIMIT: usize = 67_108_864;

/// The most bytes that one read asks for, where more came than was reported: each asks for twice as many as the one
/// before, where that gave more than a sixteenth of it.
const PIECE: usize = 65_536;

/// How many bytes the read asks for that is to meet a file's end.
const END: usize = 32;

/// How many bytes the first reads of a folder ask for: room for one name at least.
const NAMES: usize = 2_048;

/// The real files, reached through the system that it keeps and seen as the count of faults and the calls.
/// Links are followed. What is neither a file nor a folder, as a pipe, is read only where its path is among
/// those that were named last.
#[derive(Drop)]
pub struct FolderTree<S> {
    system: S,
    named: Vec<PathBuf>,
    failed: u64,
    trace: Trace,
}

impl<S> Model for FolderTree<S> {
    ghost use Rattle.tree_core.specs.TreeState.{FolderState, folder_code};

    ghost Value = { FolderState };

    ghost coded = { folder_code };

    ghost view = { λ t. record { faults = t.failed; calls = t.trace.calls } };
}

impl<S: System + AllocGlobal + Drop> FolderTree<S> {
    /// No path is named.
    pub fn new(system: S) -> FolderTree<S>
        ensures { result ≡ record { faults = 0; calls = [] } }
    {
        let named = Vec::new(system.alloc());
        FolderTree {
            system,
            named,
            failed: 0,
            trace: Trace::new(),
        }
    }

    /// Counts a failure.
    fn count<T>(&mut self, answer: &Result<T, TreeError>)
        ensures { self.new ≡ record self.old { faults = count_after self.old.faults answer.now } }
    {
        if matches!(answer, Err(TreeError::Failed)) {
            self.failed = self.failed.saturating_add(1);
        }
    }
}

impl<S: System + AllocGlobal + Drop> Tree for FolderTree<S> {
    ghost content = { λ _. None };

    ghost fault_count = { λ t. t.faults };

    ghost trace = { λ t. t.calls };

    fn read(&mut self, alloc: Global, path: &str) -> Result<Bytes, TreeError>
        ensures counts { self.new.faults ≡ count_after self.old.faults result }
        ensures traced { self.new.calls ≡ self.old.calls ++ read_call path.now result ∷ [] }
    {
        let is_named = is_among(&self.named, path);
        let answer = read_file(&self.system, alloc, path, is_named);
        self.count(&answer);
        self.trace = self.trace.read(path.as_bytes(), &answer);
        answer
    }

    fn list(&mut self, alloc: Global, path: &str) -> Result<FolderEntries, TreeError>
        ensures ordered { IfOk result IsInNameOrder }
        ensures counts { self.new.faults ≡ count_after self.old.faults result }
        ensures traced { self.new.calls ≡ self.old.calls ++ list_call path.now result ∷ [] }
    {
        let answer = list_folder(&self.system, alloc, path);
        self.count(&answer);
        self.trace = self.trace.list(path.as_bytes(), &answer);
        answer
    }

    fn is_file(&mut self, _alloc: Global, path: &str) -> Result<bool, TreeError>
        ensures refusal { FailsOrLacksMemory result }
        ensures counts { self.new.faults ≡ count_after self.old.faults result }
        ensures traced { self.new.calls ≡ self.old.calls ++ file_call path.now result ∷ [] }
    {
        let answer = is_real_file(self.system.look(path));
        self.count(&answer);
        self.trace = self.trace.is_file(path.as_bytes(), &answer);
        answer
    }

    fn exists(&mut self, _alloc: Global, path: &str) -> Result<bool, TreeError>
        ensures refusal { FailsOrLacksMemory result }
        ensures counts { self.new.faults ≡ count_after self.old.faults result }
        ensures traced { self.new.calls ≡ self.old.calls ++ exists_call path.now result ∷ [] }
    {
        let answer = is_there(self.system.look(path));
        self.count(&answer);
        self.trace = self.trace.exists(path.as_bytes(), &answer);
        answer
    }

    fn faults(&self) -> u64 {
        self.failed
    }
}

impl<S: System + AllocGlobal + Drop> NamesPaths for FolderTree<S> {
    fn name_paths(&mut self, paths: Vec<PathBuf>) {
        self.named = paths;
    }
}

/// Whether a path is one of these, byte for byte.
fn is_among(named: &[PathBuf], path: &str) -> bool
    ensures { result ≡ is_among named.now path.now }
{
    named.iter().any(|one| one.as_path() == path)
}

/// What the system's error is to a reader.
fn refusal(error: &io::Error) -> TreeError
    ensures absent { (result ≡ TreeError.Absent) ↔ (error_kind error.now ≡ ErrorKind.NotFound) }
    ensures memory { (result ≡ TreeError.Memory) ↔ (error_kind error.now ≡ ErrorKind.OutOfMemory) }
    ensures no_kind { result ≢ TreeError.WrongKind }
{
    let kind = error.kind();
    if kind == ErrorKind::NotFound {
        TreeError::Absent
    } else if kind == ErrorKind::OutOfMemory {
        TreeError::Memory
    } else {
        TreeError::Failed
    }
}

/// The same where what was looked for has to be there.
fn failure(error: &io::Error) -> TreeError
    ensures memory { (result ≡ TreeError.Memory) ↔ (error_kind error.now ≡ ErrorKind.OutOfMemory) }
    ensures no_absent { result ≢ TreeError.Absent }
    ensures no_kind { result ≢ TreeError.WrongKind }
{
    if error.kind() == ErrorKind::OutOfMemory {
        TreeError::Memory
    } else {
        TreeError::Failed
    }
}

/// What is at a path, by what the system answered to a look at it. Nothing is only where it said so.
fn looked(answer: io::Result<Metadata>) -> Result<Option<Metadata>, TreeError>
    ensures there { IfOk answer (λ found. result ≡ Ok (Some found)) }
    ensures absent { IfErr answer (λ error. (result ≡ Ok None) ↔ (error_kind error ≡ ErrorKind.NotFound)) }
    ensures nothing { IfErr answer (λ error. IfOk result (λ found. found ≡ None)) }
    ensures memory { IfErr answer
        (λ error. (result ≡ Err TreeError.Memory) ↔ (error_kind error ≡ ErrorKind.OutOfMemory)) }
    ensures no_absent { IfErr result (λ error. error ≢ TreeError.Absent) }
    ensures no_kind { IfErr result (λ error. error ≢ TreeError.WrongKind) }
{
    match answer {
        Ok(found) => Ok(Some(found)),
        Err(error) => {
            if error.kind() == ErrorKind::NotFound {
                return Ok(None);
            }
            Err(failure(&error))
        }
    }
}

/// What a look says by the system's error: that nothing is there, or why it could not be made.
fn not_there(error: &io::Error) -> Result<bool, TreeError>
    ensures absent { (result ≡ Ok false) ↔ (error_kind error.now ≡ ErrorKind.NotFound) }
    ensures memory { (result ≡ Err TreeError.Memory) ↔ (error_kind error.now ≡ ErrorKind.OutOfMemory) }
    ensures nothing { result ≢ Ok true }
    ensures refusal { FailsOrLacksMemory result }
{
    if error.kind() == ErrorKind::NotFound {
        return Ok(false);
    }
    Err(failure(error))
}

/// Whether a file is at a path, by what the system answered to a look at it.
fn is_real_file(answer: io::Result<Metadata>) -> Result<bool, TreeError>
    ensures there { IfOk answer
        (λ found. IsOkAnd result (λ is_file. IsTrue is_file ↔ IsFile (file_type found))) }
    ensures absent { IfErr answer (λ error. (result ≡ Ok false) ↔ (error_kind error ≡ ErrorKind.NotFound)) }
    ensures memory { IfErr answer
        (λ error. (result ≡ Err TreeError.Memory) ↔ (error_kind error ≡ ErrorKind.OutOfMemory)) }
    ensures nothing { IfErr answer (λ error. result ≢ Ok true) }
    ensures refusal { FailsOrLacksMemory result }
{
    match answer {
        Ok(found) => Ok(found.is_file()),
        Err(error) => not_there(&error),
    }
}

/// Whether anything is at a path, by the same.
fn is_there(answer: io::Result<Metadata>) -> Result<bool, TreeError>
    ensures there { IfOk answer (λ found. result ≡ Ok true) }
    ensures absent { IfErr answer (λ error. (result ≡ Ok false) ↔ (error_kind error ≡ ErrorKind.NotFound)) }
    ensures memory { IfErr answer
        (λ error. (result ≡ Err TreeError.Memory) ↔ (error_kind error ≡ ErrorKind.OutOfMemory)) }
    ensures nothing { IfErr answer (λ error. result ≢ Ok true) }
    ensures refusal { FailsOrLacksMemory result }
{
    match answer {
        Ok(_) => Ok(true),
        Err(error) => not_there(&error),
    }
}

/// Whether what is at a path is read: a file whose length is lawful, and what is neither a file nor a
/// folder only where its path was named for it.
fn readable(found: &Option<Metadata>, is_named: bool) -> Result<(), TreeError>
    ensures absent { (result ≡ Err TreeError.Absent) ↔ (found.now ≡ None) }
    ensures folder { ForSome found.now (λ there. (result ≡ Err TreeError.WrongKind) ↔ IsDir (file_type there)) }
    ensures read { OnOk result (ForSome found.now (λ there. IsReadable there is_named)) }
    ensures fails { result ≡ Err TreeError.Failed → ForSome found.now (λ there. ¬ (IsReadable there is_named)) }
    ensures no_memory { result ≢ Err TreeError.Memory }
{
    let Some(there) = found else {
        return Err(TreeError::Absent);
    };
    if there.is_dir() {
        return Err(TreeError::WrongKind);
    }
    let is_read = if there.is_file() {
        there.len() <= LIMIT as u64
    } else {
        is_named
    };
    if is_read {
        Ok(())
    } else {
        Err(TreeError::Failed)
    }
}

/// What was opened, or why it could not be.
fn opened<F>(answer: io::Result<F>) -> Result<F, TreeError>
    ensures opened { IfOk answer (λ file. result ≡ Ok file) }
    ensures absent { IfErr answer
        (λ error. (result ≡ Err TreeError.Absent) ↔ (error_kind error ≡ ErrorKind.NotFound)) }
    ensures memory { IfErr answer
        (λ error. (result ≡ Err TreeError.Memory) ↔ (error_kind error ≡ ErrorKind.OutOfMemory)) }
    ensures no_kind { result ≢ Err TreeError.WrongKind }
    ensures refused { IfErr answer (λ error. (file : F) → result ≢ Ok file) }
{
    match answer {
        Ok(file) => Ok(file),
        Err(error) => Err(refusal(&error)),
    }
}

/// The bytes of what is at a path.
fn read_file<S: System>(
    system: &S,
    alloc: Global,
    path: &str,
    is_named: bool,
) -> Result<Bytes, TreeError> {
    let found = looked(system.look(path))?;
    readable(&found, is_named)?;
    let mut file = opened(system.open_file(path))?;
    let bytes = read_to_limit(&mut file, alloc, LIMIT, length_told(&found), END)?;
    Ok(Bytes::from(bytes))
}

/// The length that the system tells of a file; of what is none it tells nothing.
fn length_told(found: &Option<Metadata>) -> usize {
    match found {
        Some(there) if there.is_file() => there.len() as usize,
        _ => 0,
    }
}

/// All bytes, where they are not more than the limit: as many as were reported by one read, and what comes
/// behind them, if anything does, by reads of which the first asks for `next` bytes.
fn read_to_limit<F: Read>(
    file: &mut F,
    alloc: Global,
    limit: usize,
    told: usize,
    next: usize,
) -> Result<Vec<u8>, TreeError>
    requires { 0 < next }
    ensures most { IfOk result (λ bytes. vec_len bytes ≤ limit) }
    ensures bytes { IfOk result
        (λ bytes. Consumes (F.remaining file.old) (F.remaining file.new) bytes.items) }
    ensures end { OnOk result (IsAtEnd (F.remaining file.new)) }
    ensures refusal { FailsOrLacksMemory result }
{
    let mut bytes = first_bytes(file, alloc, told.min(limit))?;
    let mut piece = Vec::from_elem(alloc, 0u8, next)?;
    'pieces: for _ in 0..u64::MAX {
        let count = piece_read(file, piece.as_mut_slice())?;
        if count == 0 {
            return Ok(bytes);
        }
        if limit - bytes.len() < count {
            return Err(TreeError::Failed);
        }
        bytes.extend_from_slice(&piece[..count])?;
        piece = grown(alloc, piece, count)?;
    }
    Err(TreeError::Failed)
}

/// A piece twice as large, unless it is as large as any or hardly anything of it was filled: a folder's names take at
/// least a twelfth of the bytes in which the system tells them.
fn grown(alloc: Global, piece: Vec<u8>, count: usize) -> Result<Vec<u8>, AllocError>
    requires { 0 < vec_len piece }
    ensures { IfOk result (λ piece. 0 < vec_len piece) }
{
    let length = piece.len();
    if length < PIECE && length / 16 < count {
        Vec::from_elem(alloc, 0u8, length + length)
    } else {
        Ok(piece)
    }
}

/// What one read gives that asks for so many bytes.
fn first_bytes<F: Read>(file: &mut F, alloc: Global, told: usize) -> Result<Vec<u8>, TreeError>
    ensures most { IfOk result (λ bytes. vec_len bytes ≤ told) }
    ensures bytes { IfOk result
        (λ bytes. Consumes (F.remaining file.old) (F.remaining file.new) bytes.items) }
    ensures refusal { FailsOrLacksMemory result }
{
    let mut bytes = Vec::from_elem(alloc, 0u8, told)?;
    if told > 0 {
        let count = piece_read(file, bytes.as_mut_slice())?;
        bytes.truncate(count);
    }
    Ok(bytes)
}

/// How many bytes one read gave, or why none.
fn piece_read<F: Read>(file: &mut F, piece: &mut [u8]) -> Result<usize, TreeError>
    ensures bound { ReadsAtMost result piece.new }
    ensures bytes { ReadConsumes (F.remaining file.old) (F.remaining file.new) result piece.new }
    ensures refusal { FailsOrLacksMemory result }
{
    match read_piece(file, piece) {
        Ok(count) => Ok(count),
        Err(error) => Err(failure(&error)),
    }
}

/// One read, and again where it was interrupted.
fn read_piece<F: Read>(file: &mut F, piece: &mut [u8]) -> io::Result<usize>
    ensures bound { ReadsAtMost result piece.new }
    ensures bytes { ReadConsumes (F.remaining file.old) (F.remaining file.new) result piece.new }
    ensures retried { IfErr result (λ e. error_kind e ≢ ErrorKind.Interrupted) }
{
    'tries: for _ in 0..u64::MAX {
        match file.read(piece) {
            Ok(count) => return Ok(count),
            Err(error) => {
                if error.kind() != ErrorKind::Interrupted {
                    return Err(error);
                }
            }
        }
    }
    Err(io::Error::from(ErrorKind::TimedOut))
}

/// Whether what is at a path is listed: a folder.
fn listable(found: &Option<Metadata>) -> Result<(), TreeError>
    ensures absent { (result ≡ Err TreeError.Absent) ↔ (found.now ≡ None) }
    ensures folder { ForSome found.now (λ there. (result ≡ Ok tt) ↔ IsDir (file_type there)) }
    ensures refusal { IfErr result (λ error. (error ≡ TreeError.Absent) ⊎ (error ≡ TreeError.WrongKind)) }
{
    match found {
        None => Err(TreeError::Absent),
        Some(there) if there.is_dir() => Ok(()),
        Some(_) => Err(TreeError::WrongKind),
    }
}

/// What is listed at a path. A folder is opened at once; what is there is looked at only where that fails.
fn list_folder<S: System>(system: &S, alloc: Global, path: &str) -> Result<FolderEntries, TreeError>
    ensures { IfOk result IsInNameOrder }
{
    // With a slash behind it a path leads through a link at its end.
    let through = join(alloc, path, "")?;
    match system.open_folder(through.as_path()) {
        Ok(mut folder) => list_opened(system, alloc, path, &mut folder),
        Err(error) => Err(unlisted(system.look(path), &error)),
    }
}

/// Why a path is not listed that could not be opened as a folder, by what the system answered to a look at it.
fn unlisted(answer: io::Result<Metadata>, error: &io::Error) -> TreeError
    ensures there { IfOk answer (λ found. (result ≡ TreeError.WrongKind) ↔ (¬ (IsDir (file_type found)))) }
    ensures absent { IfErr answer
        (λ missed. (result ≡ TreeError.Absent) ↔ (error_kind missed ≡ ErrorKind.NotFound)) }
    ensures memory { IfErr answer
        (λ missed. (result ≡ TreeError.Memory) ↔ (error_kind missed ≡ ErrorKind.OutOfMemory)) }
{
    match looked(answer) {
        Ok(found) => match listable(&found) {
            Ok(()) => refusal(error),
            Err(kind) => kind,
        },
        Err(missed) => missed,
    }
}

/// The entries of a folder that was opened: one for each name that the system tells.
fn list_opened<S: System, D: Read>(
    system: &S,
    alloc: Global,
    path: &str,
    folder: &mut D,
) -> Result<FolderEntries, TreeError>
    ensures told { IfOk result
        (λ entries. TellsNames (D.remaining folder.old) (D.remaining folder.new) (system_names entries)) }
    ensures ordered { IfOk result IsInNameOrder }
    ensures refusal { FailsOrLacksMemory result }
{
    let names = names_in(alloc, folder)?;
    entries_named(system, alloc, path, names)
}

/// The entries with these names.
fn entries_named<S: System>(
    system: &S,
    alloc: Global,
    path: &str,
    names: Vec<Text>,
) -> Result<FolderEntries, TreeError>
    ensures named { IfOk result (λ entries. system_names entries ≡ names.items) }
    ensures refusal { FailsOrLacksMemory result }
{
    let mut entries = FolderEntries::new(alloc);
    'names: for name in names {
        let is_file = is_file_entry(system, alloc, path, name.as_str())?;
        entries.push(Entry { name, is_file })?;
    }
    Ok(entries)
}

/// What is said of an entry where a look found nothing: a link leads nowhere, and is no file; every other entry
/// has to be there.
fn dangling(answer: io::Result<Metadata>) -> Result<bool, TreeError>
    ensures link { IfOk answer (λ found. (result ≡ Ok false) ↔ IsSymlink (file_type found)) }
    ensures no_file { result ≢ Ok true }
    ensures there { IfErr answer (λ error. result ≢ Ok false) }
    ensures memory { IfErr answer
        (λ error. (result ≡ Err TreeError.Memory) ↔ (error_kind error ≡ ErrorKind.OutOfMemory)) }
    ensures told { IfOk answer (λ found. result ≢ Err TreeError.Memory) }
    ensures refusal { FailsOrLacksMemory result }
{
    match answer {
        Ok(found) if found.is_symlink() => Ok(false),
        Ok(_) => Err(TreeError::Failed),
        Err(error) => Err(failure(&error)),
    }
}

/// Whether an entry is a file. A link to nothing is none; every other entry has to be there.
fn is_file_entry<S: System>(
    system: &S,
    alloc: Global,
    folder: &str,
    name: &str,
) -> Result<bool, TreeError>
    ensures refusal { FailsOrLacksMemory result }
{
    let place = join(alloc, folder, name)?;
    if let Some(found) = looked(system.look(place.as_path()))? {
        return Ok(found.is_file());
    }
    dangling(system.look_at_link(place.as_path()))
}

/// The names that the system tells of a folder, in byte order.
fn names_in<D: Read>(alloc: Global, folder: &mut D) -> Result<Vec<Text>, TreeError>
    ensures told { IfOk result
        (λ names. TellsNames (D.remaining folder.old) (D.remaining folder.new) names.items) }
    ensures ordered { IfOk result (λ names. IsSorted (slice_cmp nat_cmp) names.items) }
    ensures refusal { FailsOrLacksMemory result }
{
    let bytes = read_to_limit(folder, alloc, usize::MAX, 0, NAMES)?;
    let mut names = split_names(alloc, &bytes)?;
    names.sort()?;
    Ok(names)
}

/// The names of entries among those that are reported, each of which ends with the byte 0.
fn split_names(alloc: Global, bytes: &[u8]) -> Result<Vec<Text>, TreeError>
    ensures names { IfOk result (λ names. names.items ≡ names_in_listing bytes.now) }
    ensures refusal { FailsOrLacksMemory result }
{
    let mut names = Vec::new(alloc);
    'names: for name in bytes.split(|byte| *byte == 0) {
        push_name(&mut names, alloc, name)?;
    }
    Ok(names)
}

/// Appends the name of an entry, which is text.
fn push_name(names: &mut Vec<Text>, alloc: Global, name: &[u8]) -> Result<(), TreeError>
    ensures pushed { OnOk result (names.new.items ≡ names.old.items ++ filter names_entry (name.now ∷ [])) }
    ensures refusal { FailsOrLacksMemory result }
    ensures fails { result ≡ Err TreeError.Failed → ¬ (IsUtf8 name.now) }
{
    let Ok(name) = str::from_utf8(name) else {
        return Err(TreeError::Failed);
    };
    match name {
        "" | "." | ".." => Ok(()),
        _ => {
            let copy = Text::copy(alloc, name)?;
            match names.push(copy) {
                Ok(()) => Ok(()),
                Err(_) => Err(TreeError::Memory),
            }
        }
    }
}
