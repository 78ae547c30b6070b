//! The crates that the words of `why` name.
ghost use Rattle.std.specs.Prelude.{◌≡◌, map, option_copied, IfOk};
ghost use Rattle.std.specs.List.{list_any};
ghost use Rattle.graph_core.specs.Krate.{record_of};
ghost use Rattle.graph_core.specs.selection.Choice.{exclude_spec_of, read_one};
ghost use Rattle.graph_core.specs.selection.Roots.{crates_of};
ghost use Rattle.graph_walk.specs.Unchecked.{leaves_out};
ghost use Rattle.run_why.specs.Named as spec;

use deny_text::{Text, Texts};
use graph_core::selection::{ExcludeSpec, ExcludeSpecs, has_unsupported, read_specs};
use graph_core::{Krate, Metadata};
use std::alloc::{AllocError, Global};

/// Whether a word holds a `/` or a `#`. Such a word is not carried.
pub(crate) fn has_unsupported_word(words: &Texts) -> bool
    ensures { result ≡ spec.has_unsupported words.now }
{
    has_unsupported(words)
}

/// The specs that a word is read as: one, or none where it is unreadable.
fn specs_of(alloc: Global, word: &Text) -> Result<ExcludeSpecs, AllocError>
    ensures { IfOk result (λ specs. map exclude_spec_of specs ≡ read_one word.now) }
{
    let text = Text::copy(alloc, word.as_str())?;
    let mut specs = ExcludeSpecs::new(alloc);
    read_specs(alloc, &mut specs, &[text])?;
    Ok(specs)
}

/// Whether a spec names a crate.
fn is_for(one: &ExcludeSpec, krate: &Krate) -> bool
    ensures { result ≡ leaves_out (record_of krate.now) one.now }
{
    one.excludes(krate)
}

/// Whether one of some specs does.
fn any_is_for(specs: &[ExcludeSpec], krate: &Krate) -> bool
    ensures { result ≡ list_any (leaves_out (record_of krate.now)) specs.now }
{
    specs.iter().any(|one| is_for(one, krate))
}

/// The same, by what the specs are read as.
fn name(specs: &[ExcludeSpec], krate: &Krate) -> bool
    ensures { result ≡ spec.named_by (map exclude_spec_of specs.now) krate.now }
{
    any_is_for(specs, krate)
}

/// Whether specs name one of some crates.
fn name_any(specs: &[ExcludeSpec], crates: &[Krate]) -> bool
    ensures { result ≡ list_any (spec.named_by (map exclude_spec_of specs.now)) crates.now }
{
    crates.iter().any(|krate| name(specs, krate))
}

/// Whether a word names one of some crates.
fn names_any(alloc: Global, word: &Text, crates: &[Krate]) -> Result<bool, AllocError>
    ensures { IfOk result (λ any. any ≡ list_any (spec.names word.now) (map record_of crates.now)) }
{
    let specs = specs_of(alloc, word)?;
    Ok(name_any(specs.items(), crates))
}

/// A word that was found before, else this one where it names no crate.
fn unknown_or<'w>(
    alloc: Global,
    before: Option<&'w str>,
    word: &'w Text,
    crates: &[Krate],
) -> Result<Option<&'w str>, AllocError>
    ensures { IfOk result (λ unknown. option_copied unknown
        ≡ spec.unknown_or (option_copied before.entry) word.entry.now (map record_of crates.now)) }
{
    if before.is_some() || names_any(alloc, word, crates)? {
        Ok(before)
    } else {
        Ok(Some(word.as_str()))
    }
}

/// The first of some words that names no crate.
fn first_unknown<'w>(
    alloc: Global,
    words: &'w [Text],
    crates: &[Krate],
) -> Result<Option<&'w str>, AllocError>
    ensures { IfOk result (λ unknown. option_copied unknown
        ≡ spec.first_unknown words.entry.now (map record_of crates.now)) }
{
    let mut unknown = None;
    'words: for word in words {
        unknown = unknown_or(alloc, unknown, word, crates)?;
    }
    Ok(unknown)
}

fn copied(alloc: Global, word: Option<&str>) -> Result<Option<Text>, AllocError>
    ensures { IfOk result (λ copy. copy ≡ option_copied word.entry) }
{
    match word {
        Some(word) => {
            let word = Text::copy(alloc, word)?;
            Ok(Some(word))
        }
        None => Ok(None),
    }
}

/// The first of some words that names no crate of the metadata.
pub(crate) fn unknown_word(
    alloc: Global,
    words: &Texts,
    metadata: &Metadata,
) -> Result<Option<Text>, AllocError>
    ensures { IfOk result (λ word. word ≡ spec.first_unknown words.now (crates_of metadata.now)) }
{
    let word = first_unknown(alloc, words.items(), metadata.crates())?;
    copied(alloc, word)
}

/// Of each crate, whether specs name it.
fn marks_by(alloc: Global, specs: &[ExcludeSpec], crates: &[Krate]) -> Result<Vec<bool>, AllocError>
    ensures { IfOk result (λ marks. marks.items ≡ spec.marks_of (map exclude_spec_of specs.now) crates.now) }
{
    let mut marks = Vec::with_capacity(alloc, crates.len())?;
    'crates: for krate in crates {
        marks.push(name(specs, krate))?;
    }
    Ok(marks)
}

/// Of each crate, whether some word names it.
pub(crate) fn named_marks(
    alloc: Global,
    words: &[Text],
    crates: &[Krate],
) -> Result<Vec<bool>, AllocError>
    ensures { IfOk result (λ marks. marks.items ≡ map (spec.is_named words.now) (map record_of crates.now)) }
{
    let mut specs = ExcludeSpecs::new(alloc);
    read_specs(alloc, &mut specs, words)?;
    marks_by(alloc, specs.items(), crates)
}
