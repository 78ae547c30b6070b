//! The words of help.
//! Called by `help`; each word is in a clause, so only the order of the arms is free.
ghost use Rattle.std.specs.Prelude.{◌≡◌, IfOk};
ghost use Rattle.std.specs.String.{string_bytes};
ghost use Rattle.refusal_help.specs.Words.{fault_words, level_option, manifest_words, read_words, reason_words};
ghost use Rattle.refusal_help.specs.Words.{built_in_words, line_words, policy_words, store_words, what_words};

use deny_text::path::file_name;
use diag_core::Severity;
use graph_metadata::MetaReason;
use graph_workspace::UnsupportedPart;
use spdx_own_names::StoreFault;
use std::alloc::{AllocError, Global};
use toml_subset::SyntaxReason;
use tree_core::texts::ReadFault;

/// What to give in the place of what is not carried.
#[tactic(auto, unfolding(crate::specs::Words::what_words))]
pub(crate) fn what_words(what: UnsupportedPart) -> &'static str
    ensures { result.now ≡ what_words what }
{
    match what {
        UnsupportedPart::MetadataPath => {
            "give --metadata-path: cargo metadata --format-version 1 > metadata.json"
        }
        UnsupportedPart::Which => "name the check that is carried, and no other: check licenses",
        UnsupportedPart::Format => "--format sarif is not carried: human or json",
        UnsupportedPart::Target =>
            "--target is not carried: the crates of all platforms are checked",
        UnsupportedPart::Graph => "--graph is not carried",
        UnsupportedPart::Audit => "--audit-compatible-output is not carried",
        UnsupportedPart::ExcludeSpec => {
            "a crate is named as name or name@version, in the words and in the policy's exclude"
        }
    }
}

/// Why a file was not read.
#[tactic(auto, unfolding(crate::specs::Words::read_words))]
pub(crate) fn read_words(alloc: Global, fault: ReadFault) -> Result<String, AllocError>
    ensures { IfOk result (λ words. string_bytes words ≡ read_words fault) }
{
    match fault {
        ReadFault::Failed { .. } => String::from_str(alloc, "could not be read"),
        ReadFault::Absent => String::from_str(alloc, "there is no such file"),
        ReadFault::Folder => String::from_str(alloc, "is a folder"),
        ReadFault::NotUtf8 { at } => Ok(format!(in alloc; "is no UTF-8 at byte {at}")?),
    }
}

/// Why a policy was not read. Of a call that failed it is not known whether it was a look for the policy or
/// for an exceptions file, or the policy's read.
pub(crate) fn policy_words(alloc: Global, fault: ReadFault) -> Result<String, AllocError>
    ensures { IfOk result (λ words. string_bytes words ≡ policy_words fault) }
{
    match fault {
        ReadFault::Failed { .. } => String::from_str(
            alloc,
            "could not be read, or a look for it or for deny.exceptions.toml failed",
        ),
        ReadFault::Absent | ReadFault::Folder | ReadFault::NotUtf8 { .. } => {
            read_words(alloc, fault)
        }
    }
}

/// Why the texts of a folder were not read. Of a call that failed it is not known whether it was the folder's
/// listing or a text's read.
#[tactic(auto, unfolding(crate::specs::Words::store_words))]
pub(crate) fn store_words(fault: &StoreFault) -> &'static str
    ensures { result.now ≡ store_words fault.now }
{
    match fault {
        StoreFault::Failed { .. } => "the folder or a text in it could not be read",
        StoreFault::Absent => "there is no such folder, or a file of it is gone",
        StoreFault::NotFolder => "is no folder",
        StoreFault::NotUtf8 { .. } => "is no UTF-8",
    }
}

/// What may be wrong with a line of a catalogue's file.
pub(crate) fn line_words() -> &'static str
    ensures { result.now ≡ line_words }
{
    "is no line of a catalogue, repeats a name, or means a licence that is not in the file"
}

/// How many licences are built in, and what to do where that is not enough.
pub(crate) fn built_in_words() -> &'static str
    ensures { result.now ≡ built_in_words }
{
    "the catalogue has 84 licences: cargo deny --catalog FILE names others"
}

/// Why a text is no text of the subset of TOML.
#[tactic(auto, unfolding(crate::specs::Words::reason_words))]
pub(crate) fn reason_words(reason: SyntaxReason) -> &'static str
    ensures { result.now ≡ reason_words reason }
{
    match reason {
        SyntaxReason::UnexpectedEnd => "unexpected end",
        SyntaxReason::Unexpected => "unexpected character",
        SyntaxReason::InvalidEscape => "invalid escape",
        SyntaxReason::ControlCharacter => "control character",
        SyntaxReason::NumberForm => "invalid number",
        SyntaxReason::NumberRange => "number out of range",
        SyntaxReason::Unsupported => "date, time or float that is not carried",
        SyntaxReason::DuplicateKey => "key that stands twice",
        SyntaxReason::RedefinedTable => "table that is there already",
        SyntaxReason::TooDeep => "nested too deep",
    }
}

/// What is wrong at a place of the metadata.
#[tactic(auto, unfolding(crate::specs::Words::fault_words))]
pub(crate) fn fault_words(fault: MetaReason) -> &'static str
    ensures { result.now ≡ fault_words fault }
{
    match fault {
        MetaReason::Float => "is a number that is no whole number of 64 bits",
        MetaReason::Missing => "is missing",
        MetaReason::WrongKind => "is of the wrong kind",
        MetaReason::BadVersion => "is no version",
        MetaReason::RepeatedId => "is the id of an earlier package",
        MetaReason::UnknownId => "is the id of no package",
        MetaReason::NoFolder => "has no folder",
        MetaReason::UnknownKind => "is no kind of a dependency",
    }
}

/// The option that asks for a level.
#[tactic(auto, unfolding(crate::specs::Words::level_option))]
pub(crate) fn level_option(level: Severity) -> &'static str
    ensures { result.now ≡ level_option level }
{
    match level {
        Severity::Help | Severity::Note => "--allow",
        Severity::Warning => "--warn",
        Severity::Error | Severity::Bug => "--deny",
    }
}

/// What is wrong with a path that names no file `Cargo.toml`.
#[tactic(auto, unfolding(crate::specs::Words::manifest_words))]
pub(crate) fn manifest_words(path: &str) -> &'static str
    ensures { result.now ≡ manifest_words path.now }
{
    match file_name(path) {
        Some(name) if name == "Cargo.toml" => "there is no such file",
        _ => "its name has to be Cargo.toml",
    }
}
