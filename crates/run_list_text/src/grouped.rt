//! The names of the crates under each licence.
//! Called by `write_licenses` of `listing` and `write_by_license` of `json_text`; the map may be another, clauses
//! have its entries.
ghost use Rattle.std.specs.Prelude.{◌≡◌, All, [], IfOk, OnOk, map, unwrap_or};
ghost use Rattle.std.specs.BTreeMap.{get};
ghost use Rattle.std.specs.Ordering.{nat_cmp};
ghost use Rattle.std.specs.Cmp.Lexicographic.{slice_cmp};
ghost use Rattle.graph_core.specs.Metadata.{AreRising};
ghost use Rattle.run_list_text.specs.Grouped.{entry_of, names_by_license, with_crate, with_name};

use crate::listed::ListedCrate;
use deny_text::{ListOf, Text, Texts};
use std::alloc::{AllocError, Global};
use std::collections::BTreeMap;

/// A licence and the names of the crates that have it.
#[derive(Drop)]
pub(crate) struct LicenseNames {
    pub(crate) license: Text,
    pub(crate) names: Texts,
}

/// Names of crates by licences.
type NameMap = BTreeMap<Text, Texts>;

/// The first name at a licence.
fn add_first(alloc: Global, map: &mut NameMap, license: &Text, name: Text) -> Result<(), AllocError>
    requires { unwrap_or (get (slice_cmp nat_cmp) map.old license.now) [] ≡ [] }
    ensures { OnOk result (map.new.entries ≡ with_name name map.old.entries license.now) }
{
    let mut names = Texts::new(alloc);
    names.push(name)?;
    let license = Text::copy(alloc, license.as_str())?;
    map.insert(license, names)?;
    Ok(())
}

/// A further name at a licence.
fn add_name(alloc: Global, map: &mut NameMap, license: &Text, name: Text) -> Result<(), AllocError>
    ensures { OnOk result (map.new.entries ≡ with_name name map.old.entries license.now) }
{
    if let Some(names) = map.get_mut(license) {
        names.push(name)?;
        return Ok(());
    }
    add_first(alloc, map, license, name)
}

/// The name of a crate at each of its licences.
fn add_crate(alloc: Global, map: &mut NameMap, listed: &ListedCrate) -> Result<(), AllocError>
    ensures { OnOk result (map.new.entries ≡ with_crate map.old.entries listed.now) }
{
    let licenses = listed.licenses.items();
    'licenses: for license in licenses {
        let name = Text::copy(alloc, listed.name.as_str())?;
        add_name(alloc, map, license, name)?;
    }
    Ok(())
}

/// The licences of a map in order, each with its names.
fn groups_of(alloc: Global, names: NameMap) -> Result<ListOf<LicenseNames>, AllocError>
    ensures { IfOk result (λ groups. map entry_of groups ≡ names.entries) }
{
    let mut groups = ListOf::new(alloc);
    'groups: for (license, known) in names {
        let group = LicenseNames {
            license,
            names: known,
        };
        groups.push(group)?;
    }
    Ok(groups)
}

/// All licences in byte order, each with the names of the crates that have it, in the order of the crates.
pub(crate) fn names_by_license(
    alloc: Global,
    crates: &[ListedCrate],
) -> Result<ListOf<LicenseNames>, AllocError>
    requires { All (λ listed. AreRising listed.licenses) crates.now }
    ensures { IfOk result (λ groups. map entry_of groups ≡ names_by_license crates.now) }
{
    let mut names = NameMap::new(alloc);
    'crates: for listed in crates {
        add_crate(alloc, &mut names, listed)?;
    }
    let groups = groups_of(alloc, names)?;
    Ok(groups)
}
