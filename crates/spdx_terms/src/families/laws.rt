//! What holds of all lists of families. These functions do nothing: their contracts are the laws.
ghost use Rattle.spdx_terms.specs.families.Laws.{PlacesRise, PlacesStand, AsManyPlaces, TestIsSameness};

/// The test of families is that they are the same.
pub fn test_is_sameness()
    ensures { TestIsSameness }
{}

/// A number is among the places of a family exactly where the list has the family there.
pub fn places_stand()
    ensures { PlacesStand }
{}

/// A family has as many places as it is in the list.
pub fn as_many_places()
    ensures { AsManyPlaces }
{}

/// Each place is less than the next.
pub fn places_rise()
    ensures { PlacesRise }
{}
