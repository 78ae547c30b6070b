//! What tells licences from texts in a case.
ghost use Rattle.std.specs.Prelude.{◌≡◌, Some, IfOk};
ghost use Rattle.tests_runner.specs.Said.{is_within, kept_text, match_of_text};

use deny_text::Text;
use spdx_terms::catalog::{Identifier, LicenseStore, Match, TextLookup};
use std::alloc::{AllocError, Global};
use tests_files::NameIdentifier;
use tests_files::told::UnreadLine;

#[derive(Drop)]
pub enum CaseIdentifier {
    /// The licence of a stored text with the same words.
    Stored(LicenseStore),
    /// A text of one line that is the name of a licence is that one.
    Named,
    /// Each text is the MIT licence, as surely as this, in hundredths; what is above 100 counts as 100.
    Mit(u8),
}

/// The match of a licence.
fn match_of(alloc: Global, name: &str, score: u8) -> Result<Match, AllocError>
    ensures { IfOk result (λ found. found ≡ record { name = Some name.now; score = score }) }
{
    let name = Text::copy(alloc, name)?;
    Ok(Match {
        name: Some(name),
        score,
    })
}

impl Identifier for CaseIdentifier {
    ghost match_of = { match_of_text };

    ghost within_hundred = { is_within };

    fn scan(&self, alloc: Global, text: &str) -> Result<Match, AllocError> {
        match self {
            CaseIdentifier::Stored(store) => store.scan(alloc, text),
            CaseIdentifier::Named => NameIdentifier.scan(alloc, text),
            CaseIdentifier::Mit(score) => match_of(alloc, "MIT", (*score).min(100)),
        }
    }
}

/// The texts of its store; those that name licences keep none.
impl TextLookup for CaseIdentifier {
    ghost text_of = { kept_text };

    fn text(&self, name: &str) -> Option<&str> {
        match self {
            CaseIdentifier::Stored(store) => store.text(name),
            CaseIdentifier::Named => None,
            CaseIdentifier::Mit(_) => None,
        }
    }
}

fn built_in(alloc: Global) -> Result<CaseIdentifier, AllocError> {
    let store = LicenseStore::from_cache(alloc)?;
    Ok(CaseIdentifier::Stored(store))
}

fn mit_at(score: &str) -> Result<CaseIdentifier, UnreadLine> {
    match score.parse::<u8>() {
        Ok(score) => Ok(CaseIdentifier::Mit(score)),
        Err(_) => Err(UnreadLine::Line("a score that is no number")),
    }
}

/// What a word names: `none`, `built-in`, `names`, or `MIT at` and a number.
pub fn known_as(alloc: Global, word: &str) -> Result<CaseIdentifier, UnreadLine> {
    if word == "none" {
        return Ok(CaseIdentifier::Stored(LicenseStore::default(alloc)));
    }
    if word == "built-in" {
        return Ok(built_in(alloc)?);
    }
    if word == "names" {
        return Ok(CaseIdentifier::Named);
    }
    match word.strip_prefix("MIT at ") {
        Some(score) => mit_at(score),
        None => Err(UnreadLine::Line("an identifier that is not known")),
    }
}
