//! Reading a catalogue's file.
ghost use Rattle.std.specs.Prelude.{◌≡◌, ◌≤◌, ◌<◌, ◌+◌, ◌^◌, ◌++◌, [], ◌∷◌, length};
ghost use Rattle.std.specs.Prelude.{Some, None, IfOk, IfErr, false};
ghost use Rattle.spdx_own_names.specs.File.{catalog_of, fault_behind, fault_in, first_fault, has_fault, line_at};
ghost use Rattle.spdx_own_names.specs.File.{license_in, lines_of, lists_of, names_in, TellsFault, TellsLine};
ghost use Rattle.std.specs.List.{cons_option};
ghost use Rattle.spdx_terms.specs.catalog.Catalog.{IsCatalog, names_of};
ghost use Rattle.spdx_own_names.specs.Form.{form_of};
ghost use Rattle.spdx_own_names.specs.FormView.{form_view};
ghost use Rattle.spdx_own_names.specs.Listed.{lists_in};
ghost use Rattle.spdx_own_names.specs.ListsView.{lists_view, with_form};

use crate::error::ListingError;
use crate::form::LineForm;
use crate::line::form_of;
use crate::listing::FileCatalog;
use crate::lists::Lists;
use crate::names::NameList;
use crate::ordered::OrderedMeanings;
use crate::words::cut_at_line_end;
use std::alloc::{AllocError, Global};

/// The number, from 1, of the line in which a place is.
fn line_at(bytes: &[u8], place: usize) -> usize
    requires { place ≤ length bytes.now }
    ensures { result ≡ line_at bytes.now place }
{
    let (before, _) = bytes.split_at(place);
    before.iter().filter(|byte| **byte == b'\n').count() + 1
}

/// The names and that of a licence, where the form of a line is one.
fn with_license(alloc: Global, names: NameList, form: LineForm<'_>) -> Result<NameList, AllocError>
    ensures { IfOk result (λ new. new ≡ names ++ names_of (cons_option (license_in (Some (form_view form.entry))) [])) }
{
    match form {
        LineForm::License { name, .. } => names.with(alloc, name),
        LineForm::Nothing => Ok(names),
        LineForm::Exception { .. } => Ok(names),
        LineForm::Imprecise { .. } => Ok(names),
    }
}

/// The names and that of the licence in a line, whatever fault the line has.
fn with_name(alloc: Global, names: NameList, line: &str) -> Result<NameList, AllocError>
    ensures { IfOk result (λ new. new ≡ names ++ names_in (line.now ∷ [])) }
{
    match form_of(line) {
        Some(form) => with_license(alloc, names, form),
        None => Ok(names),
    }
}

/// The names of the licences in all lines of a text.
fn names_in(alloc: Global, text: &str) -> Result<NameList, AllocError>
    ensures { IfOk result (λ names. names ≡ names_in (lines_of text.now)) }
{
    let mut names = NameList::new(alloc);
    let mut rest = text;
    'lines: while let Some((line, behind)) = cut_at_line_end(rest) {
        names = with_name(alloc, names, line)?;
        rest = behind;
    }
    with_name(alloc, names, rest)
}

/// The lists and what a line lists, which is behind so many lines.
#[tactic(auto, using(crate::proofs::FormLemmas::is_new, crate::proofs::FormLemmas::no_form))]
fn read_line(
    alloc: Global,
    lists: Lists,
    names: &NameList,
    line: &str,
    before: usize,
) -> Result<Lists, ListingError>
    requires { before + 1 < 2 ^ 64 }
    ensures ok { IfOk result (λ new. (has_fault names.now (lists_view lists) (form_of line.now) ≡ false)
        × (lists_view new ≡ with_form (lists_view lists) (form_of line.now))) }
    ensures err { IfErr result (TellsLine (has_fault names.now (lists_view lists) (form_of line.now)) before) }
{
    let Some(form) = form_of(line) else {
        return Err(ListingError::Syntax { line: before + 1 });
    };
    if lists.fault(alloc, names, &form)? {
        return Err(ListingError::Syntax { line: before + 1 });
    }
    let further = lists.with(alloc, &form)?;
    Ok(further)
}

/// What the lines of a text list, in a file whose licences have these names.
fn read_lines(alloc: Global, text: &str, names: &NameList) -> Result<Lists, ListingError>
    ensures ok { IfOk result (λ lists. (fault_behind names.now [] (lines_of text.now) ≡ None)
        × (lists_view lists ≡ lists_of (lines_of text.now))) }
    ensures err { IfErr result (TellsFault (fault_behind names.now [] (lines_of text.now))) }
{
    let mut lists = Lists::new(alloc);
    let mut rest = text;
    let mut before: usize = 0;
    'lines: while let Some((line, behind)) = cut_at_line_end(rest) {
        lists = match read_line(alloc, lists, names, line, before) {
            Ok(further) => further,
            Err(error) => return Err(error),
        };
        before += 1;
        rest = behind;
    }
    if rest.is_empty() {
        Ok(lists)
    } else {
        Err(ListingError::Syntax { line: before + 1 })
    }
}

/// The catalogue that a text defines.
fn read_text(alloc: Global, text: &str) -> Result<Lists, ListingError>
    ensures ok { IfOk result (λ lists. (fault_in (lines_of text.now) ≡ None)
        × (lists_view lists ≡ lists_of (lines_of text.now))) }
    ensures err { IfErr result (TellsFault (fault_in (lines_of text.now))) }
{
    let names = names_in(alloc, text)?;
    read_lines(alloc, text, &names)
}

/// The catalogue of these lists.
fn listing_with(alloc: Global, lists: Lists) -> Result<FileCatalog, AllocError>
    requires { IsCatalog (lists_view lists) }
    ensures { IfOk result (λ listing. lists_in listing ≡ lists_view lists) }
{
    let Lists {
        licenses,
        exceptions,
        meanings,
    } = lists;
    let meanings = OrderedMeanings::new(alloc, meanings.into_listed())?;
    Ok(FileCatalog {
        licenses,
        exceptions,
        meanings,
    })
}

/// The catalogue that a text defines, with its laws.
fn listing_of(alloc: Global, text: &str) -> Result<FileCatalog, ListingError>
    ensures ok { IfOk result (λ listing. (fault_in (lines_of text.now) ≡ None)
        × (lists_in listing ≡ lists_of (lines_of text.now))) }
    ensures err { IfErr result (TellsFault (fault_in (lines_of text.now))) }
{
    match read_text(alloc, text) {
        Ok(lists) => {
            let listing = listing_with(alloc, lists)?;
            Ok(listing)
        }
        Err(error) => Err(error),
    }
}

/// The catalogue that the bytes of a file define. It is refused with the number of the first line that has a
/// fault, and for want of memory.
pub fn read_catalog(alloc: Global, bytes: &[u8]) -> Result<FileCatalog, ListingError>
    ensures ok { IfOk result (λ listing. catalog_of bytes.now ≡ Some (lists_in listing)) }
    ensures err { IfErr result (TellsFault (first_fault bytes.now)) }
{
    match str::from_utf8(bytes) {
        Ok(text) => listing_of(alloc, text),
        Err(error) => Err(ListingError::Syntax {
            line: line_at(bytes, error.valid_up_to()),
        }),
    }
}
