//! The lines behind the line of a refusal.
//! Called by `write_help` of `tell`; a line may be put together in any way, each text is in a clause.
ghost use Rattle.std.specs.Prelude.{◌≡◌, ◌+◌, ◌<◌, ◌^◌, ◌++◌, IfOk, OnOk, codes};
ghost use Rattle.std.specs.Option.{ForSome};
ghost use Rattle.std.specs.String.{string_bytes};
ghost use Rattle.refusal_help.specs.Help.{advice, at_file, at_file_if, fault_at, help_of, is_unresolved};
ghost use Rattle.refusal_help.specs.Help.{line_and_column, place_text, resolve_help, roots_help, roots_words};
ghost use Rattle.refusal_help.specs.Help.{catalog_words, line_help, store_help, store_place, syntax_help};
ghost use Rattle.refusal_help.specs.Help.{absent_help, absent_words, accepted_help, missing_help};
ghost use Rattle.refusal_help.specs.Help.{named_help, text_place, unstored_help};
ghost use Rattle.refusal_help.specs.Help.{file_of, name_help, policy_help, shape_help, twice_help, unknown_help};
ghost use Rattle.refusal_help.specs.Words.{manifest_words, read_words};

use crate::again::Again;
use crate::place::place_in;
use crate::unknown::names_unknown;
use crate::words::{
    built_in_words, fault_words, level_option, line_words, manifest_words, policy_words,
    read_words, reason_words, store_words, what_words,
};
use deny_text::path::join;
use deny_text::{PathBuf, Text};
use diag_core::{Location, Severity};
use diag_print::push_flat;
use graph_metadata::{MetaFault, MetaReason};
use run_found::Error;
use run_request::{Request, Subcommand};
use spdx_own_names::StoreFault;
use std::alloc::{AllocError, Global};
use toml_subset::SyntaxError;
use tree_core::texts::ReadFault;

/// What is so of a file, or at a place in it.
fn push_file(text: &mut String, file: &str, words: &str) -> Result<(), AllocError>
    ensures { OnOk result (string_bytes text.new ≡ string_bytes text.old ++ at_file file.now words.now) }
{
    text.push_str("  --> ")?;
    push_flat(text, file)?;
    text.push_str(": ")?;
    push_flat(text, words)?;
    text.push_str("\n")
}

fn push_file_if(text: &mut String, file: &Option<PathBuf>, words: &str) -> Result<(), AllocError>
    ensures { OnOk result (string_bytes text.new ≡ string_bytes text.old ++ at_file_if file.now words.now) }
{
    match file {
        Some(file) => push_file(text, file.as_path(), words),
        None => Ok(()),
    }
}

/// What to do.
fn push_advice(text: &mut String, words: &str) -> Result<(), AllocError>
    ensures { OnOk result (string_bytes text.new ≡ string_bytes text.old ++ advice words.now) }
{
    text.push_str("  = ")?;
    push_flat(text, words)?;
    text.push_str("\n")
}

/// What is so of a path that names no manifest.
fn push_manifest(text: &mut String, path: &PathBuf) -> Result<(), AllocError>
    ensures { OnOk result (string_bytes text.new
        ≡ string_bytes text.old ++ at_file path.now (manifest_words path.now)) }
{
    push_file(text, path.as_path(), manifest_words(path.as_path()))
}

/// What is so of a manifest after a failed look at it.
fn push_unseen(text: &mut String, path: &PathBuf) -> Result<(), AllocError>
    ensures { OnOk result (string_bytes text.new
        ≡ string_bytes text.old ++ at_file path.now (codes "could not be looked at")) }
{
    push_file(text, path.as_path(), "could not be looked at")
}

/// A file at a line and a column, which count from 0 here and from 1 in the text.
fn line_and_column(alloc: Global, file: &str, at: Location) -> Result<String, AllocError>
    requires line { at.line + 1 < 2 ^ 64 }
    requires column { at.column + 1 < 2 ^ 64 }
    ensures { IfOk result (λ text. string_bytes text ≡ line_and_column file.now at) }
{
    let line = at.line + 1;
    let column = at.column + 1;
    let mut text = String::from_str(alloc, file)?;
    write!(text, ":{line}:{column}")?;
    Ok(text)
}

/// A fault of a file's text, at a line and a column or else at a byte.
fn push_fault(
    alloc: Global,
    text: &mut String,
    file: &str,
    at: Option<Location>,
    place: usize,
    words: &str,
) -> Result<(), AllocError>
    requires { ForSome at (λ is. (is.line + 1 < 2 ^ 64) × (is.column + 1 < 2 ^ 64)) }
    ensures { OnOk result (string_bytes text.new
        ≡ string_bytes text.old ++ fault_at file.now at place words.now) }
{
    match at {
        Some(at) => {
            let file = line_and_column(alloc, file, at)?;
            push_file(text, file.as_str(), words)
        }
        None => {
            let mut told = format!(in alloc; "at byte {place}: ")?;
            told.push_str(words)?;
            push_file(text, file, told.as_str())
        }
    }
}

fn push_syntax(
    alloc: Global,
    text: &mut String,
    again: &Again,
    fault: SyntaxError,
) -> Result<(), AllocError>
    ensures { OnOk result (string_bytes text.new
        ≡ string_bytes text.old ++ syntax_help again.now.policy again.now.text fault) }
{
    let Some(file) = &again.policy else {
        return Ok(());
    };
    let place = fault.span.start;
    let at = place_in(alloc, &again.text, place)?;
    push_fault(
        alloc,
        text,
        file.as_path(),
        at,
        place,
        reason_words(fault.reason),
    )
}

fn push_read(
    alloc: Global,
    text: &mut String,
    file: &Option<PathBuf>,
    fault: ReadFault,
) -> Result<(), AllocError>
    ensures { OnOk result (string_bytes text.new
        ≡ string_bytes text.old ++ at_file_if file.now (read_words fault)) }
{
    let words = read_words(alloc, fault)?;
    push_file_if(text, file, words.as_str())
}

/// What is so of a policy whose path is not known.
fn push_unnamed(alloc: Global, text: &mut String, told: &str) -> Result<(), AllocError>
    ensures { OnOk result (string_bytes text.new
        ≡ string_bytes text.old ++ advice (codes "the policy " ++ told.now)) }
{
    let mut words = String::from_str(alloc, "the policy ")?;
    words.push_str(told)?;
    push_advice(text, words.as_str())
}

/// What is so of the policy.
fn push_policy(
    alloc: Global,
    text: &mut String,
    file: &Option<PathBuf>,
    fault: ReadFault,
) -> Result<(), AllocError>
    ensures { OnOk result (string_bytes text.new ≡ string_bytes text.old ++ policy_help file.now fault) }
{
    let told = policy_words(alloc, fault)?;
    match file {
        Some(file) => push_file(text, file.as_path(), told.as_str()),
        None => push_unnamed(alloc, text, told.as_str()),
    }
}

/// What is so of the file whose verdicts are verified, or of the bill that is compared with.
fn push_asked(text: &mut String, command: &Subcommand, words: &str) -> Result<(), AllocError>
    ensures { OnOk result (string_bytes text.new
        ≡ string_bytes text.old ++ at_file_if (file_of command.now) words.now) }
{
    match command {
        Subcommand::Verify(file) => push_file(text, file.as_path(), words),
        Subcommand::Bill(args) => push_file_if(text, &args.against, words),
        _ => Ok(()),
    }
}

fn push_asked_read(
    alloc: Global,
    text: &mut String,
    command: &Subcommand,
    fault: ReadFault,
) -> Result<(), AllocError>
    ensures { OnOk result (string_bytes text.new
        ≡ string_bytes text.old ++ at_file_if (file_of command.now) (read_words fault)) }
{
    let words = read_words(alloc, fault)?;
    push_asked(text, command, words.as_str())
}

/// Which crate has a name that no bill has.
fn push_name(alloc: Global, text: &mut String, id: &Text) -> Result<(), AllocError>
    ensures { OnOk result (string_bytes text.new ≡ string_bytes text.old ++ name_help id.now) }
{
    let told = format!(in alloc; "{id}: its name is empty or has the end of a line")?;
    push_advice(text, told.as_str())
}

/// A word that names no crate.
fn push_named(alloc: Global, text: &mut String, word: &Text) -> Result<(), AllocError>
    ensures { OnOk result (string_bytes text.new ≡ string_bytes text.old ++ named_help word.now) }
{
    let told = format!(in alloc; "'{word}' is no crate's name, name@version or name:version")?;
    push_advice(text, told.as_str())
}

/// A crate that is not accepted.
fn push_accepted(alloc: Global, text: &mut String, id: &Text) -> Result<(), AllocError>
    ensures { OnOk result (string_bytes text.new ≡ string_bytes text.old ++ accepted_help id.now) }
{
    let told = format!(in alloc; "{id} is rejected or unlicensed: check licenses says why")?;
    push_advice(text, told.as_str())
}

/// Where the text of a key would be in a folder of texts.
fn text_place(alloc: Global, folder: &str, key: &Text) -> Result<PathBuf, AllocError>
    ensures { IfOk result (λ place. place ≡ text_place folder.now key.now) }
{
    let name = format!(in alloc; "{key}.txt")?;
    join(alloc, folder, name.as_str())
}

/// That there is no text for a licence of a crate.
fn absent_words(alloc: Global, id: &Text, key: &Text) -> Result<String, AllocError>
    ensures { IfOk result (λ words. string_bytes words ≡ absent_words id.now key.now) }
{
    let mut words = String::from_str(alloc, "there is no such text, and ")?;
    words.push_str(id.as_str())?;
    words.push_str(" has no file that is identified as ")?;
    words.push_str(key.as_str())?;
    Ok(words)
}

/// What is so where a folder of texts has none for a licence.
fn push_absent(
    alloc: Global,
    text: &mut String,
    place: &PathBuf,
    id: &Text,
    key: &Text,
) -> Result<(), AllocError>
    ensures { OnOk result (string_bytes text.new ≡ string_bytes text.old ++ absent_help place.now id.now key.now) }
{
    let words = absent_words(alloc, id, key)?;
    push_file(text, place.as_path(), words.as_str())
}

/// What is so where no stored text has the name of a licence.
fn push_unstored(alloc: Global, text: &mut String, id: &Text, key: &Text) -> Result<(), AllocError>
    ensures { OnOk result (string_bytes text.new ≡ string_bytes text.old ++ unstored_help id.now key.now) }
{
    let told = format!(in alloc;
        "{id} has no file that is identified as {key}, and no stored text has this name: cargo deny --store DIR names others"
    )?;
    push_advice(text, told.as_str())
}

/// A licence of a crate for which there is no text.
fn push_missing(
    alloc: Global,
    text: &mut String,
    folder: &Option<PathBuf>,
    id: &Text,
    key: &Text,
) -> Result<(), AllocError>
    ensures { OnOk result (string_bytes text.new ≡ string_bytes text.old ++ missing_help folder.now id.now key.now) }
{
    match folder {
        Some(folder) => {
            let place = text_place(alloc, folder.as_path(), key)?;
            push_absent(alloc, text, &place, id, key)
        }
        None => push_unstored(alloc, text, id, key),
    }
}

/// A fault of the catalogue's file, at a line that counts from 1.
fn push_line(
    alloc: Global,
    text: &mut String,
    file: &Option<PathBuf>,
    line: usize,
) -> Result<(), AllocError>
    ensures { OnOk result (string_bytes text.new ≡ string_bytes text.old ++ line_help file.now line) }
{
    let Some(file) = file else {
        return Ok(());
    };
    let place = format!(in alloc; "{file}:{line}")?;
    push_file(text, place.as_str(), line_words())
}

/// What was not read of a folder of texts: the folder, or a file in it.
fn store_place(alloc: Global, folder: &str, fault: &StoreFault) -> Result<PathBuf, AllocError>
    ensures { IfOk result (λ place. place ≡ store_place folder.now fault.now) }
{
    match fault {
        StoreFault::NotUtf8 { name } => join(alloc, folder, name.as_str()),
        _ => PathBuf::copy(alloc, folder),
    }
}

fn push_store(
    alloc: Global,
    text: &mut String,
    folder: &Option<PathBuf>,
    fault: &StoreFault,
) -> Result<(), AllocError>
    ensures { OnOk result (string_bytes text.new ≡ string_bytes text.old ++ store_help folder.now fault.now) }
{
    let Some(folder) = folder else {
        return Ok(());
    };
    let place = store_place(alloc, folder.as_path(), fault)?;
    push_file(text, place.as_path(), store_words(fault))
}

/// Which catalogue lacks a licence, and how it comes to have it.
fn catalog_words(alloc: Global, catalog: &Option<PathBuf>) -> Result<String, AllocError>
    ensures { IfOk result (λ words. string_bytes words ≡ catalog_words catalog.now) }
{
    match catalog {
        Some(file) => Ok(format!(in alloc; "the catalogue is {file}: name the licence there")?),
        None => String::from_str(alloc, built_in_words()),
    }
}

fn push_unknown(
    alloc: Global,
    text: &mut String,
    catalog: &Option<PathBuf>,
    is_unknown: bool,
) -> Result<(), AllocError>
    ensures { OnOk result (string_bytes text.new ≡ string_bytes text.old ++ unknown_help catalog.now is_unknown) }
{
    if !is_unknown {
        return Ok(());
    }
    let words = catalog_words(alloc, catalog)?;
    push_advice(text, words.as_str())
}

/// A place of metadata with a blank behind it.
fn place_text(alloc: Global, place: &str) -> Result<String, AllocError>
    ensures { IfOk result (λ text. string_bytes text ≡ place_text place.now) }
{
    let mut text = String::from_str(alloc, place)?;
    if !place.is_empty() {
        text.push_str(" ")?;
    }
    Ok(text)
}

/// Whether a `resolve` is null, as cargo writes it where it looks at no dependencies.
fn is_unresolved(fault: &MetaFault) -> bool
    ensures { result ≡ is_unresolved fault.now }
{
    match fault.fault {
        MetaReason::WrongKind => fault.place.as_str() == "/resolve",
        _ => false,
    }
}

fn push_resolve(text: &mut String, is_unresolved: bool) -> Result<(), AllocError>
    ensures { OnOk result (string_bytes text.new ≡ string_bytes text.old ++ resolve_help is_unresolved) }
{
    if is_unresolved {
        push_advice(
            text,
            "cargo metadata was run with --no-deps: run it without",
        )
    } else {
        Ok(())
    }
}

fn push_shape(
    alloc: Global,
    text: &mut String,
    file: &Option<PathBuf>,
    fault: &MetaFault,
) -> Result<(), AllocError>
    ensures { OnOk result (string_bytes text.new ≡ string_bytes text.old ++ shape_help file.now fault.now) }
{
    let mut words = place_text(alloc, fault.place.as_str())?;
    words.push_str(fault_words(fault.fault))?;
    push_file_if(text, file, words.as_str())?;
    push_resolve(text, is_unresolved(fault))
}

/// How many crates could be roots, and how many are left out.
fn roots_words(
    alloc: Global,
    base: usize,
    excluded: usize,
    unpublished: usize,
) -> Result<String, AllocError>
    ensures { IfOk result (λ words. string_bytes words ≡ roots_words base excluded unpublished) }
{
    let mut words = String::from_str(alloc, "root crates: ")?;
    write!(words, "{base}")?;
    words.push_str("; left out by name: ")?;
    write!(words, "{excluded}")?;
    words.push_str("; published nowhere: ")?;
    write!(words, "{unpublished}")?;
    Ok(words)
}

fn push_roots(
    alloc: Global,
    text: &mut String,
    base: usize,
    excluded: usize,
    unpublished: usize,
) -> Result<(), AllocError>
    ensures { OnOk result (string_bytes text.new
        ≡ string_bytes text.old ++ roots_help base excluded unpublished) }
{
    let words = roots_words(alloc, base, excluded, unpublished)?;
    push_advice(text, words.as_str())
}

fn push_twice(
    alloc: Global,
    text: &mut String,
    name: &Text,
    first: Severity,
    second: Severity,
) -> Result<(), AllocError>
    ensures { OnOk result (string_bytes text.new ≡ string_bytes text.old ++ twice_help name.now first second) }
{
    let mut words = String::from_str(alloc, "'")?;
    words.push_str(name.as_str())?;
    words.push_str("' is given twice: to ")?;
    words.push_str(level_option(first))?;
    words.push_str(" and to ")?;
    words.push_str(level_option(second))?;
    push_advice(text, words.as_str())
}

#[tactic(auto, unfolding(crate::specs::Help::help_of))]
fn push_help(
    alloc: Global,
    text: &mut String,
    request: &Request,
    again: &Again,
    error: &Error,
) -> Result<(), AllocError>
    ensures { OnOk result (string_bytes text.new
        ≡ string_bytes text.old ++ help_of request.now again.now error.now) }
{
    let metadata = &request.krate_ctx.metadata_path;
    match error {
        Error::NotCarried(what) => push_advice(text, what_words(*what)),
        Error::ManifestPath(path) => push_manifest(text, path),
        Error::ManifestRead { .. } => push_unseen(text, &request.krate_ctx.manifest_path),
        Error::CatalogRead(fault) => push_read(alloc, text, &request.catalog, *fault),
        Error::CatalogSyntax { line } => push_line(alloc, text, &request.catalog, *line),
        Error::StoreRead(fault) => push_store(alloc, text, &request.store, fault),
        Error::ConfigRead(fault) => push_policy(alloc, text, &again.policy, *fault),
        Error::ConfigSyntax(fault) => push_syntax(alloc, text, again, *fault),
        Error::ConfigShape(_) | Error::ConfigInvalid(_) => {
            push_unknown(alloc, text, &request.catalog, names_unknown(error))
        }
        Error::OverrideTwice {
            name,
            first,
            second,
        } => push_twice(alloc, text, name, *first, *second),
        Error::MetadataRead(fault) => push_read(alloc, text, metadata, *fault),
        Error::MetadataSyntax => push_file_if(text, metadata, "is no JSON"),
        Error::MetadataShape(fault) => push_shape(alloc, text, metadata, fault),
        Error::NoRoots {
            base,
            excluded,
            unpublished,
        } => push_roots(alloc, text, *base, *excluded, *unpublished),
        Error::NoSuchCrate(word) => push_named(alloc, text, word),
        Error::NotAccepted { id, .. } => push_accepted(alloc, text, id),
        Error::NoText { id, key, .. } => push_missing(alloc, text, &request.store, id, key),
        Error::RecordRead { fault, .. } => push_asked_read(alloc, text, &request.command, *fault),
        Error::RecordSyntax => push_asked(text, &request.command, "is no verdict file"),
        Error::BillText(id) => push_name(alloc, text, id),
        Error::BillRead { fault, .. } => push_asked_read(alloc, text, &request.command, *fault),
        Error::BillSyntax => push_asked(text, &request.command, "is no bill of this program"),
        Error::Memory | Error::WriteFault { .. } => Ok(()),
    }
}

/// The lines behind the line of a refusal, by the request and by what was read of the policy behind the run.
pub(crate) fn help_of(
    alloc: Global,
    request: &Request,
    again: &Again,
    error: &Error,
) -> Result<String, AllocError>
    ensures { IfOk result (λ text. string_bytes text ≡ help_of request.now again.now error.now) }
{
    let mut text = String::new(alloc);
    push_help(alloc, &mut text, request, again, error)?;
    Ok(text)
}
