//! Places of numbers in a list.
ghost use Rattle.std.specs.Prelude.{◌≡◌, [], ◌∷◌, ◌++◌, unwrap_or, IfOk, OnOk};
ghost use Rattle.std.specs.BTreeMap.{get};
ghost use Rattle.std.specs.Ordering.{nat_cmp};
ghost use Rattle.policy_parts.specs.spec.Index.{HasFurther, places_of};

use deny_text::ListOf;
use std::alloc::{AllocError, Global};
use std::collections::BTreeMap;
use std::marker::Model;

/// Places in a list, counted from 0.
pub type Places = ListOf<usize>;

/// A list of numbers, each with its places. A question among n numbers takes about log2 n comparisons.
#[derive(Drop)]
pub struct NumberIndex {
    numbers: Vec<u64>,
    places: BTreeMap<u64, Places>,
}

impl Model for NumberIndex {
    ghost use Rattle.std.specs.Prelude.{ℕ, List};
    ghost use Rattle.policy_parts.specs.spec.Index.{HasNumberPlaces};

    ghost Value = { List ℕ };

    ghost view = { λ index. index.numbers.items };

    ghost invariant = { λ index. HasNumberPlaces index.places index.numbers.items };
}

/// A first place of a number, which the map does not have.
fn add_number(
    alloc: Global,
    places: &mut BTreeMap<u64, Places>,
    number: u64,
    place: usize,
) -> Result<(), AllocError>
    requires { unwrap_or (get nat_cmp places.old number) [] ≡ [] }
    ensures { OnOk result (HasFurther places.old places.new number place) }
{
    let mut first = Places::new(alloc);
    first.push(place)?;
    places.insert(number, first)?;
    Ok(())
}

/// Adds a place of a number.
fn add_place(
    alloc: Global,
    places: &mut BTreeMap<u64, Places>,
    number: u64,
    place: usize,
) -> Result<(), AllocError>
    ensures { OnOk result (HasFurther places.old places.new number place) }
{
    if let Some(known) = places.get_mut(&number) {
        known.push(place)?;
        return Ok(());
    }
    add_number(alloc, places, number, place)
}

impl NumberIndex {
    /// No number, which takes no memory.
    pub fn new(alloc: Global) -> NumberIndex
        ensures { result ≡ [] }
    {
        NumberIndex {
            numbers: Vec::new(alloc),
            places: BTreeMap::new(alloc),
        }
    }

    /// The numbers and a further one. Where memory ends, nothing is left.
    pub fn with(self, alloc: Global, number: u64) -> Result<NumberIndex, AllocError>
        ensures { IfOk result (λ index. index ≡ self ++ number ∷ []) }
    {
        let NumberIndex {
            mut numbers,
            mut places,
        } = self;
        let place = numbers.as_slice().len();
        add_place(alloc, &mut places, number, place)?;
        numbers.push(number)?;
        Ok(NumberIndex { numbers, places })
    }

    /// The places at which a number is, from 0 and rising.
    pub fn places(&self, number: u64) -> &[usize]
        ensures { result.now ≡ places_of number self.now }
    {
        match self.places.get(&number) {
            Some(places) => places.items(),
            None => &[],
        }
    }
}
