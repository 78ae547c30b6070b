//! Places of families in a list.
ghost use Rattle.std.specs.Prelude.{◌≡◌, ◌≤◌, [], ◌∷◌, ◌++◌, length, if◌then◌else◌, OnOk, OnErr};
ghost use Rattle.spdx_terms.specs.Terms.{family_of};
ghost use Rattle.spdx_terms.specs.families.Places.{places_in, same_family};
ghost use Rattle.spdx_terms.specs.families.Map.{IsIndex};

use crate::families::map::{FamilyMap, add_place, places_at, two_places};
use crate::{Family, Licensee};
use deny_text::ListOf;
use std::alloc::{AllocError, Global};
use std::collections::BTreeMap;
use std::marker::Model;

/// The families of a list of licences, in order, each with its places. One alone needs no map. A question among
/// n families takes about log2 n comparisons, however long the list is.
#[derive(Drop)]
pub struct FamilyIndex {
    alloc: Global,
    families: Vec<Family>,
    places: FamilyMap,
}

/// Indexes in order.
pub type FamilyIndexes = ListOf<FamilyIndex>;

impl Model for FamilyIndex {
    ghost use Rattle.std.specs.Prelude.{List};
    ghost use Rattle.spdx_terms.specs.declared.term.Family.{Family};
    ghost use Rattle.spdx_terms.specs.families.Map.{IsIndex};

    ghost Value = { List Family };

    ghost view = { λ index. index.families.items };

    ghost invariant = { λ index. IsIndex index.places index.families.items };
}

/// Whether two families are the same.
fn is_same(one: Family, other: Family) -> bool
    ensures { result ≡ same_family one other }
{
    match (one, other) {
        (Family::Spdx(one), Family::Spdx(other)) => one == other,
        (Family::Reference, Family::Reference) => true,
        _ => false,
    }
}

/// The first place alone.
static FIRST: [usize; 1] = [0];

/// The first place, or none.
fn first_where(passes: bool) -> &'static [usize]
    ensures { result.now ≡ (if passes then 0 ∷ [] else []) }
{
    if passes { &FIRST } else { &[] }
}

/// The places of a family in a list of one at most.
#[tactic(auto, using(crate::proofs::families::PlaceLemmas::few_places, crate::proofs::families::PlaceLemmas::no_places))]
fn places_of_few(families: &[Family], family: Family) -> &'static [usize]
    requires { length families.now ≤ 1 }
    ensures { result.now ≡ places_in family families.now }
{
    match families.first() {
        Some(only) => first_where(is_same(family, *only)),
        None => &[],
    }
}

/// Notes the place of a further family. Where memory ends, the places of those before are as they were.
fn note_place(
    alloc: Global,
    places: &mut FamilyMap,
    families: &[Family],
    family: Family,
) -> Result<(), AllocError>
    requires { IsIndex places.old families.now }
    ensures ok { OnOk result (IsIndex places.new (families.now ++ family ∷ [])) }
    ensures err { OnErr result (IsIndex places.new families.now) }
{
    if families.is_empty() {
        return Ok(());
    }
    if families.len() == 1 {
        *places = two_places(alloc, families[0], family)?;
        return Ok(());
    }
    add_place(alloc, places, family, families.len())
}

impl FamilyIndex {
    /// No family, which takes no memory.
    pub fn new(alloc: Global) -> FamilyIndex
        ensures { result ≡ [] }
    {
        FamilyIndex {
            alloc,
            families: Vec::new(alloc),
            places: BTreeMap::new(alloc),
        }
    }

    /// A further family. Where memory ends, the index is as it was.
    fn push_family(&mut self, family: Family) -> Result<(), AllocError>
        ensures ok { OnOk result (self.new ≡ self.old ++ family ∷ []) }
        ensures err { OnErr result (self.new ≡ self.old) }
    {
        self.families.reserve(1)?;
        note_place(
            self.alloc,
            &mut self.places,
            self.families.as_slice(),
            family,
        )?;
        self.families.push_reserved(family);
        Ok(())
    }

    /// The family of a further licensee. Where memory ends, the index is as it was.
    pub fn push(&mut self, licensee: &Licensee) -> Result<(), AllocError>
        ensures ok { OnOk result (self.new ≡ self.old ++ family_of licensee.now ∷ []) }
        ensures err { OnErr result (self.new ≡ self.old) }
    {
        self.push_family(licensee.family())
    }

    /// The places at which a family is, from 0 and rising.
    pub fn places(&self, family: Family) -> &[usize]
        ensures { result.now ≡ places_in family self.now }
    {
        if self.families.len() <= 1 {
            places_of_few(self.families.as_slice(), family)
        } else {
            places_at(&self.places, family)
        }
    }
}
