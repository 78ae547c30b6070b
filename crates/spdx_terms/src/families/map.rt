//! A map from families to their places.
ghost use Rattle.std.specs.Prelude.{◌≡◌, [], ◌∷◌, IfOk, OnOk, OnErr};
ghost use Rattle.spdx_terms.specs.families.Map as spec;
ghost use Rattle.spdx_terms.specs.families.Map.{HasFamilyPlaces, HasFurther, HasSame};

use crate::Family;
use deny_text::ListOf;
use std::alloc::{AllocError, Global};
use std::collections::BTreeMap;

/// Places in a list, counted from 0.
type Places = ListOf<usize>;

/// Places by families.
pub(crate) type FamilyMap = BTreeMap<Family, Places>;

/// The places that a map has of a family.
pub(crate) fn places_at(map: &FamilyMap, family: Family) -> &[usize]
    ensures { result.now ≡ spec.places_at map.now family }
{
    match map.get(&family) {
        Some(places) => places.items(),
        None => &[],
    }
}

/// A first place of a family, which the map does not have.
fn add_family(
    alloc: Global,
    map: &mut FamilyMap,
    family: Family,
    place: usize,
) -> Result<(), AllocError>
    requires { spec.places_at map.old family ≡ [] }
    ensures ok { OnOk result (HasFurther map.old map.new family place) }
    ensures err { OnErr result (HasSame map.old map.new) }
{
    let mut places = Places::new(alloc);
    places.push(place)?;
    map.insert(family, places)?;
    Ok(())
}

/// A further place of a family. Where memory ends, the map is as it was.
pub(crate) fn add_place(
    alloc: Global,
    map: &mut FamilyMap,
    family: Family,
    place: usize,
) -> Result<(), AllocError>
    ensures ok { OnOk result (HasFurther map.old map.new family place) }
    ensures err { OnErr result (HasSame map.old map.new) }
{
    if let Some(places) = map.get_mut(&family) {
        places.push(place)?;
        return Ok(());
    }
    add_family(alloc, map, family, place)
}

/// The places of two families alone.
pub(crate) fn two_places(
    alloc: Global,
    first: Family,
    second: Family,
) -> Result<FamilyMap, AllocError>
    ensures { IfOk result (λ map. HasFamilyPlaces map (first ∷ second ∷ [])) }
{
    let mut map = FamilyMap::new(alloc);
    add_place(alloc, &mut map, first, 0)?;
    add_place(alloc, &mut map, second, 1)?;
    Ok(map)
}
