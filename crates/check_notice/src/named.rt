//! The licences of the texts that a crate comes with.
ghost use Rattle.std.specs.Prelude.{◌≡◌, ℕ, List, Option, IfOk, find, map, position};
ghost use Rattle.std.specs.Option.{option_copied, option_map};
ghost use Rattle.gather_license.specs.declared.texts.OwnText.{OwnText};
ghost use Rattle.check_notice.specs.Sources as spec;
ghost use Rattle.check_notice.specs.Sources.{TextSources, finder_sources, is_named, name_of, own_text_by, own_text_in};

use crate::sources::TextFinder;
use deny_text::{ListOf, Text};
use gather_license::OwnText;
use spdx_terms::catalog::{Identifier, Match, TextLookup};
use spdx_terms::{LicenseItem, LicenseReq};
use std::alloc::{AllocError, Global};

/// The licences of texts, place by place, where one is identified.
pub(crate) type TextNames = ListOf<Option<Text>>;

/// The licence that a text is identified as, where its score is enough.
fn sure_name(found: Match, threshold: u8) -> Option<Text>
    ensures { result ≡ spec.sure_name threshold found }
{
    if found.score < 50 {
        return None;
    }
    if found.score < threshold {
        return None;
    }
    found.name
}

/// The licence of each text, where one is identified.
pub(crate) fn names_of<I: Identifier + TextLookup>(
    alloc: Global,
    own: &[OwnText],
    finder: &TextFinder<'_, I>,
) -> Result<TextNames, AllocError>
    ensures { IfOk result (λ names.
        names ≡ map (name_of (finder_sources I.match_of I.text_of finder.now)) own.now) }
{
    let mut names = TextNames::new(alloc);
    'texts: for text in own {
        let found = finder.identifier.scan(alloc, text.text.as_str())?;
        names.push(sure_name(found, finder.threshold))?;
    }
    Ok(names)
}

/// Whether a licence is identified, and is this one.
fn is_named(told: &Option<Text>, name: &str) -> bool
    ensures { result ≡ is_named name.now told.now }
{
    match told {
        None => false,
        Some(told) => told.as_str() == name,
    }
}

/// The first place of a licence.
fn place_of(names: &[Option<Text>], name: &str) -> Option<usize>
    ensures { result ≡ position (is_named name.now) names.now }
{
    names.iter().position(|told| is_named(told, name))
}

/// The first text of a licence, where these are the licences of the texts.
fn text_named<'o>(own: &'o [OwnText], names: &[Option<Text>], name: &str) -> Option<&'o OwnText>
    ensures { (told_of : OwnText → Option (List ℕ)) → names.now ≡ map told_of own.now
        → option_copied result ≡ find (λ one. is_named name.now (told_of one)) own.now }
{
    let place = place_of(names, name)?;
    own.get(place)
}

/// The text of a term among those that the crate comes with, where these are their licences.
pub(crate) fn own_text<'o>(
    own: &'o [OwnText],
    names: &[Option<Text>],
    term: &LicenseReq,
) -> Option<&'o OwnText>
    ensures { (by : TextSources) → names.now ≡ map (name_of by) own.now
        → option_map own_text_in (option_copied result) ≡ own_text_by by own.now term.now.item term.now.exception }
{
    match (&term.item, &term.exception) {
        (LicenseItem::Spdx { name, .. }, None) => text_named(own, names, name.as_str()),
        _ => None,
    }
}
