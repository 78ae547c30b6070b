//! Specs found by the names and versions of crates.
ghost use Rattle.std.specs.Prelude.{◌≡◌, [], ◌∷◌, ◌++◌, map, if◌then◌else◌, IfOk, OnOk};
ghost use Rattle.graph_core.specs.Krate.{record_of};
ghost use Rattle.policy_parts.specs.spec.Index as spec;
ghost use Rattle.policy_parts.specs.spec.Index.{candidates, first_of, list_from, matching_places, spec_numbers};
ghost use Rattle.policy_parts.specs.spec.Spec.{Spec};

use crate::spec::matching::match_krate;
use crate::spec::number::{name_number, spec_number, version_number};
use crate::spec::number_index::{NumberIndex, Places};
use crate::spec::package_spec::PackageSpec;
use graph_core::Krate;
use std::alloc::{AllocError, Global};
use std::marker::Model;

/// What is reported by a package spec which crates it is about.
pub trait HasSpec {
    /// The spec, as contracts see it.
    ghost spec_of: { Self → Spec };

    fn spec(&self) -> &PackageSpec
        ensures { result.now ≡ spec_of self.now };
}

impl HasSpec for PackageSpec {
    ghost spec_of = { λ spec. spec };

    fn spec(&self) -> &PackageSpec {
        self
    }
}

/// The numbers of a list of specs, in order, each with its places. It keeps no spec: its calls take the list
/// again, which has to have these numbers. A question among n specs takes about log2 n comparisons of numbers.
/// It looks at the specs of the crate's name that are for one version alone and have the crate's, and at all
/// others of its name.
#[derive(Drop)]
pub struct SpecIndex {
    numbers: NumberIndex,
}

impl Model for SpecIndex {
    ghost use Rattle.std.specs.Prelude.{ℕ, List};

    ghost Value = { List ℕ };

    ghost view = { λ index. index.numbers };
}

/// Places that are still to come, out of two rising lists, in order and each once.
#[derive(Drop)]
struct PlacesLeft<'a> {
    one: &'a [usize],
    other: &'a [usize],
}

impl<'a> Model for PlacesLeft<'a> {
    ghost use Rattle.std.specs.Prelude.{ℕ, List};
    ghost use Rattle.policy_parts.specs.spec.Index.{union};

    ghost Value = { List ℕ };

    ghost view = { λ left. union left.one.now left.other.now };
}

impl<'a> PlacesLeft<'a> {
    /// The first of them, and those behind it.
    fn split_first(self) -> Option<(usize, PlacesLeft<'a>)>
        ensures { list_from result ≡ self.entry }
    {
        let PlacesLeft { one, other } = self;
        match (one.split_first(), other.split_first()) {
            (None, None) => None,
            (Some((place, one)), None) => Some((*place, PlacesLeft { one, other })),
            (None, Some((place, other))) => Some((*place, PlacesLeft { one, other })),
            (Some((place, places)), Some((second, others))) => {
                if place < second {
                    Some((*place, PlacesLeft { one: places, other }))
                } else if second < place {
                    Some((*second, PlacesLeft { one, other: others }))
                } else {
                    Some((
                        *place,
                        PlacesLeft {
                            one: places,
                            other: others,
                        },
                    ))
                }
            }
        }
    }
}

/// Appends a place where it passes.
fn push_where(found: &mut Places, place: usize, passes: bool) -> Result<(), AllocError>
    ensures { OnOk result (found.new ≡ found.old ++ (if passes then place ∷ [] else [])) }
{
    if passes { found.push(place) } else { Ok(()) }
}

/// Whether the spec at a place matches a crate.
fn matches_at<S: HasSpec>(items: &[S], krate: &Krate, place: usize) -> bool
    ensures { result ≡ spec.matches_at (map S.spec_of items.now) (record_of krate.now) place }
{
    match items.get(place) {
        Some(item) => match_krate(krate, item.spec()),
        None => false,
    }
}

impl SpecIndex {
    /// The index of a list.
    pub fn of<S: HasSpec>(alloc: Global, items: &[S]) -> Result<SpecIndex, AllocError>
        ensures { IfOk result (λ index. index ≡ spec_numbers (map S.spec_of items.now)) }
    {
        let mut numbers = NumberIndex::new(alloc);
        'items: for item in items {
            let spec = item.spec();
            numbers = numbers.with(alloc, spec_number(spec))?;
        }
        Ok(SpecIndex { numbers })
    }

    /// The places at which a spec may be that matches a crate.
    fn candidates(&self, krate: &Krate) -> PlacesLeft<'_>
        ensures { result ≡ candidates (record_of krate.now) self.now }
    {
        let name = krate.name.as_str();
        let version = &krate.version;
        let numbers = (version.major, version.minor, version.patch);
        PlacesLeft {
            one: self.numbers.places(name_number(name)),
            other: self.numbers.places(version_number(name, numbers)),
        }
    }

    /// The places of the specs that match a crate, from 0 and rising.
    pub fn matches<S: HasSpec>(
        &self,
        alloc: Global,
        items: &[S],
        krate: &Krate,
    ) -> Result<Places, AllocError>
        requires { spec_numbers (map S.spec_of items.now) ≡ self.now }
        ensures { IfOk result (λ places. places ≡ matching_places (map S.spec_of items.now) (record_of krate.now)) }
    {
        let mut found = Places::new(alloc);
        let mut left = self.candidates(krate);
        'places: while let Some((place, behind)) = left.split_first() {
            let passes = matches_at(items, krate, place);
            push_where(&mut found, place, passes)?;
            left = behind;
        }
        Ok(found)
    }

    /// The first of the places whose spec matches a crate.
    pub fn first<S: HasSpec>(&self, items: &[S], krate: &Krate) -> Option<usize>
        requires { spec_numbers (map S.spec_of items.now) ≡ self.now }
        ensures { result ≡ first_of (matching_places (map S.spec_of items.now) (record_of krate.now)) }
    {
        let mut left = self.candidates(krate);
        'places: while let Some((place, behind)) = left.split_first() {
            if matches_at(items, krate, place) {
                return Some(place);
            }
            left = behind;
        }
        None
    }
}
