//! The crates of a listing.
//! Called by `run_list`, `human`, `json_text` and `listing`; a set of licences may be any that is in order.
ghost use Rattle.std.specs.Prelude.{◌≡◌, All, IfOk, None, OnOk, [], ◌∷◌, ◌++◌, map};
ghost use Rattle.graph_core.specs.Krate.{record_of};
ghost use Rattle.graph_core.specs.Metadata.{AreRising};
ghost use Rattle.run_list_text.specs.Listed.{all_licenses, crate_name, licenses_of, listed_of};
ghost use Rattle.run_list_text.specs.Listed.{names_under, printed_terms};

use crate::sets::{copies_in, distinct, texts_of};
use deny_text::{ListOf, Text, Texts};
use gather_core::{KrateLicense, LicenseInfo};
use graph_core::Krate;
use spdx_core::ExpressionReq;
use std::alloc::{AllocError, Global};
use std::collections::BTreeSet;

/// A crate as a listing has it: its name and version, and its licences in byte order, each once.
#[derive(Drop)]
pub struct ListedCrate {
    pub name: Text,
    pub licenses: Texts,
}

/// Crates of a listing, in the order of their ids.
pub type ListedCrates = ListOf<ListedCrate>;

/// The name of a crate, `@` and its version.
fn crate_name(alloc: Global, krate: &Krate) -> Result<Text, AllocError>
    ensures { IfOk result (λ name. name ≡ crate_name (record_of krate.now)) }
{
    let name = &krate.name;
    let version = &krate.version;
    let text = format!(in alloc; "{name}@{version}")?;
    Ok(Text::from(text))
}

/// Terms as they are printed.
fn printed_terms(alloc: Global, terms: &[ExpressionReq]) -> Result<Texts, AllocError>
    ensures { IfOk result (λ texts. texts ≡ printed_terms terms.now) }
{
    let mut texts = Texts::new(alloc);
    'terms: for term in terms {
        let req = &term.req;
        let text = format!(in alloc; "{req}")?;
        texts.push(Text::from(text))?;
    }
    Ok(texts)
}

/// The licences of an expression: its distinct terms as they are printed; none where there is no expression.
fn licenses_of(alloc: Global, info: &LicenseInfo) -> Result<Texts, AllocError>
    ensures licenses { IfOk result (λ licenses. licenses ≡ licenses_of info.now) }
    ensures ordered { IfOk result AreRising }
{
    match info {
        LicenseInfo::SpdxExpression { expr, .. } => {
            let printed = printed_terms(alloc, expr.requirements())?;
            distinct(alloc, printed.items())
        }
        LicenseInfo::Unlicensed => Ok(Texts::new(alloc)),
    }
}

/// A crate of a summary, as a listing has it.
fn listed_crate(alloc: Global, license: &KrateLicense<'_>) -> Result<ListedCrate, AllocError>
    ensures listed { IfOk result (λ listed. listed ≡ listed_of license.now) }
    ensures ordered { IfOk result (λ listed. AreRising listed.licenses) }
{
    let name = crate_name(alloc, license.krate)?;
    let licenses = licenses_of(alloc, &license.lic_info)?;
    Ok(ListedCrate { name, licenses })
}

/// The crates of a summary, as a listing has them.
pub fn listed_crates(
    alloc: Global,
    licenses: &[KrateLicense<'_>],
) -> Result<ListedCrates, AllocError>
    ensures crates { IfOk result (λ crates. crates ≡ map listed_of licenses.now) }
    ensures ordered { IfOk result (λ crates. All (λ listed. AreRising listed.licenses) crates) }
{
    let mut crates = ListedCrates::new(alloc);
    'licenses: for license in licenses {
        let listed = listed_crate(alloc, license)?;
        crates.push(listed)?;
    }
    Ok(crates)
}

/// The licences of all crates, in byte order, each once.
pub(crate) fn all_licenses(alloc: Global, crates: &[ListedCrate]) -> Result<Texts, AllocError>
    ensures licenses { IfOk result (λ licenses. licenses ≡ all_licenses crates.now) }
    ensures ordered { IfOk result AreRising }
{
    let mut set = BTreeSet::new(alloc);
    'crates: for listed in crates {
        copies_in(alloc, &mut set, listed.licenses.items())?;
    }
    texts_of(alloc, set)
}

/// The names of the crates without a licence, in order.
pub(crate) fn names_without(alloc: Global, crates: &[ListedCrate]) -> Result<Texts, AllocError>
    ensures { IfOk result (λ names. names ≡ names_under None crates.now) }
{
    let mut names = Texts::new(alloc);
    'crates: for listed in crates {
        add_name(alloc, &mut names, listed)?;
    }
    Ok(names)
}

/// Appends the name of a crate that has no licence.
fn add_name(alloc: Global, names: &mut Texts, listed: &ListedCrate) -> Result<(), AllocError>
    ensures { OnOk result (names.new ≡ names.old ++ names_under None (listed.now ∷ [])) }
{
    if !listed.licenses.items().is_empty() {
        return Ok(());
    }
    let name = Text::copy(alloc, listed.name.as_str())?;
    names.push(name)
}
