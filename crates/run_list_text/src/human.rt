//! A listing for a person.
//! Called by `write_crates` and `write_licenses` of `listing`; a line may be made apart and then appended.
ghost use Rattle.std.specs.Prelude.{◌≡◌, ◌++◌, IfOk, None, OnOk, ⊤};
ghost use Rattle.deny_text.specs.Fronts.{StandsInFront};
ghost use Rattle.run_list_text.specs.Grouped.{entry_line, entry_of};
ghost use Rattle.run_list_text.specs.Listed.{names_under};
ghost use Rattle.run_list_text.specs.Listing.{crate_line, crate_words, group_line, title_of, unlicensed_line};

use crate::grouped::LicenseNames;
use crate::lines::Lines;
use crate::listed::{ListedCrate, names_without};
use crate::plain::{push_joined, push_plain, push_text};
use deny_text::Text;
use std::alloc::{AllocError, Global};

/// Appends a title, and how many are under it.
fn push_title(out: &mut Vec<u8>, alloc: Global, title: &str, count: usize) -> Result<(), AllocError>
    ensures ok { OnOk result (out.new.items ≡ out.old.items ++ title_of title.now count) }
    ensures front { StandsInFront out.old.items out.new.items }
{
    push_plain(out, title)?;
    let counted = format!(in alloc; " ({count}): ")?;
    push_text(out, counted.as_str())
}

/// Appends what is under a title.
fn push_group(
    out: &mut Vec<u8>,
    alloc: Global,
    title: &str,
    texts: &[Text],
) -> Result<(), AllocError>
    ensures ok { OnOk result (out.new.items ≡ out.old.items ++ group_line title.now texts.now) }
    ensures front { StandsInFront out.old.items out.new.items }
{
    push_title(out, alloc, title, texts.len())?;
    push_joined(out, ", ", texts)?;
    push_text(out, "\n")
}

/// A crate and its licences.
#[derive(Clone, Copy)]
pub(crate) struct CrateLines;

/// Appends the licences of a crate.
fn push_licenses(out: &mut Vec<u8>, licenses: &[Text]) -> Result<(), AllocError>
    ensures ok { OnOk result (out.new.items ≡ out.old.items ++ crate_words licenses.now) }
    ensures front { StandsInFront out.old.items out.new.items }
{
    match licenses.split_first() {
        Some(_) => push_joined(out, ", ", licenses),
        None => push_text(out, "Unlicensed"),
    }
}

impl Lines<ListedCrate> for CrateLines {
    ghost line = { λ _ listed. crate_line listed };

    ghost fits = { λ _ _. ⊤ };

    fn push(&self, out: &mut Vec<u8>, alloc: Global, item: &ListedCrate) -> Result<(), AllocError> {
        let licenses = item.licenses.items();
        push_title(out, alloc, item.name.as_str(), licenses.len())?;
        push_licenses(out, licenses)?;
        push_text(out, "\n")
    }
}

/// A licence and the crates that have it.
#[derive(Clone, Copy)]
pub(crate) struct LicenseLines;

impl Lines<LicenseNames> for LicenseLines {
    ghost line = { λ _ group. entry_line (entry_of group) };

    ghost fits = { λ _ _. ⊤ };

    fn push(
        &self,
        out: &mut Vec<u8>,
        alloc: Global,
        item: &LicenseNames,
    ) -> Result<(), AllocError> {
        push_group(out, alloc, item.license.as_str(), item.names.items())
    }
}

/// Appends the line of these crates, which have no licence; nothing where there are none.
fn push_unlicensed(out: &mut Vec<u8>, alloc: Global, names: &[Text]) -> Result<(), AllocError>
    ensures ok { OnOk result (out.new.items ≡ out.old.items ++ unlicensed_line names.now) }
    ensures front { StandsInFront out.old.items out.new.items }
{
    match names.split_first() {
        Some(_) => push_group(out, alloc, "Unlicensed", names),
        None => Ok(()),
    }
}

/// The same as a text.
fn line_of_unlicensed(alloc: Global, names: &[Text]) -> Result<Vec<u8>, AllocError>
    ensures { IfOk result (λ line. line.items ≡ unlicensed_line names.now) }
{
    let mut line = Vec::new(alloc);
    push_unlicensed(&mut line, alloc, names)?;
    Ok(line)
}

/// The line of the crates without a licence; nothing where there are none.
pub(crate) fn unlicensed_line(alloc: Global, crates: &[ListedCrate]) -> Result<Vec<u8>, AllocError>
    ensures { IfOk result (λ line. line.items ≡ unlicensed_line (names_under None crates.now)) }
{
    let names = names_without(alloc, crates)?;
    line_of_unlicensed(alloc, names.items())
}
