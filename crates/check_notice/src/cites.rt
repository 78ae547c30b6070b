//! The keys of a crate, with the numbers of their texts.
ghost use Rattle.std.specs.Prelude.{◌≡◌, IfOk, map};
ghost use Rattle.std.specs.Option.{option_map};
ghost use Rattle.deny_text.specs.Normal.{normal_of};
ghost use Rattle.check_notice.specs.Sources.{finder_sources, name_of};
ghost use Rattle.check_notice.specs.Steps.{AnswersCited, cite_by, cited_with, cites_by, lent_term, nothing_cited};

use crate::keys::key_of;
use crate::named::own_text;
use crate::notice::{KeyNumber, KeyNumbers};
use crate::numbers::{Numbered, TextNumbers};
use crate::sources::TextFinder;
use deny_text::Text;
use deny_text::normal::normalize;
use gather_license::OwnText;
use spdx_terms::LicenseReq;
use spdx_terms::catalog::{Identifier, TextLookup};
use std::alloc::{AllocError, Global};

/// The texts of all crates so far, and the keys of a crate.
#[derive(Drop)]
pub(crate) struct Cited {
    pub(crate) numbers: TextNumbers,
    pub(crate) keys: KeyNumbers,
}

/// Why a term is not cited.
#[derive(Drop)]
pub(crate) enum CiteError {
    /// There is no text for the term of this key.
    NoText(Text),
    Memory,
}

impl From<AllocError> for CiteError {
    ghost use Rattle.check_notice.specs.declared.cites.CiteError.TheVariants.{Memory};

    ghost from_gives = { λ _ error. error ≡ Memory };

    fn from(_: AllocError) -> CiteError {
        CiteError::Memory
    }
}

/// The text that is kept under a key, in its normal form.
fn kept_text<I: TextLookup>(
    alloc: Global,
    identifier: &I,
    key: &str,
) -> Result<Option<Text>, AllocError>
    ensures { IfOk result (λ text. text ≡ option_map normal_of (I.text_of identifier.now key.now)) }
{
    match identifier.text(key) {
        Some(text) => {
            let text = normalize(alloc, text)?;
            Ok(Some(text))
        }
        None => Ok(None),
    }
}

/// What is cited, with a text under a key.
fn cite_text(alloc: Global, cited: Cited, key: Text, text: &str) -> Result<Cited, AllocError>
    ensures { IfOk result (λ now. now ≡ cited_with cited key text.now) }
{
    let Cited { numbers, mut keys } = cited;
    let Numbered { numbers, number } = numbers.with(alloc, text)?;
    keys.push(KeyNumber { key, number })?;
    Ok(Cited { numbers, keys })
}

/// What is cited, with a term: under its key its text, which is the crate's own, or else one that is kept. `names` has
/// the licences of the own texts.
fn cite<I: Identifier + TextLookup>(
    alloc: Global,
    own: &[OwnText],
    names: &[Option<Text>],
    finder: &TextFinder<'_, I>,
    term: &LicenseReq,
    cited: Cited,
) -> Result<Cited, CiteError>
    requires { names.now ≡ map (name_of (finder_sources I.match_of I.text_of finder.now)) own.now }
    ensures { AnswersCited
        (cite_by (finder_sources I.match_of I.text_of finder.now) own.now cited term.now) result }
{
    let key = key_of(alloc, term)?;
    if let Some(own) = own_text(own, names, term) {
        let cited = cite_text(alloc, cited, key, own.text.as_str())?;
        return Ok(cited);
    }
    match kept_text(alloc, finder.identifier, key.as_str())? {
        Some(text) => {
            let cited = cite_text(alloc, cited, key, text.as_str())?;
            Ok(cited)
        }
        None => Err(CiteError::NoText(key)),
    }
}

/// The keys of terms, in order, with the texts so far and theirs.
pub(crate) fn cites<I: Identifier + TextLookup>(
    alloc: Global,
    own: &[OwnText],
    names: &[Option<Text>],
    finder: &TextFinder<'_, I>,
    terms: &[&LicenseReq],
    numbers: TextNumbers,
) -> Result<Cited, CiteError>
    requires { names.now ≡ map (name_of (finder_sources I.match_of I.text_of finder.now)) own.now }
    ensures { AnswersCited (cites_by (finder_sources I.match_of I.text_of finder.now) own.now
        (nothing_cited numbers) (map lent_term terms.now)) result }
{
    let keys = KeyNumbers::new(alloc);
    let mut cited = Cited { numbers, keys };
    'terms: for term in terms {
        cited = cite(alloc, own, names, finder, term, cited)?;
    }
    Ok(cited)
}
