//! Recorded entries against terms.
//! Called by `crates`; each loop may stop once its answer is known, as steps have an upper bound alone.
ghost use Rattle.std.specs.Prelude.{◌≡◌, ◌+◌, ◌≤◌, false, true, map, length, is_some, slice_get, sum_by};
ghost use Rattle.std.specs.List.{list_any};
ghost use Rattle.std.specs.Option.{option_map_or};
ghost use Rattle.policy_core.specs.valid.View.{policy_of};
ghost use Rattle.check_core.specs.evaluate.Entries.{entry_families};
ghost use Rattle.check_verify.specs.Terms as spec;
ghost use Rattle.check_verify.specs.Terms.{entries_at};

use check_core::evaluate::{EntryIndex, hit_by};
use deny_text::Steps;
use policy_core::valid::CountedPolicy;
use policy_parts::spec::Places;
use spdx_core::certificates::Hit;
use spdx_core::{ExpressionReq, LicenseReq};
use std::sync::ledger::Ledger;

/// Whether an exception is one of those that count.
fn counts(counted: &Places, exception: usize) -> bool
    ensures { result ≡ spec.is_among counted.now exception }
{
    counted.items().contains(&exception)
}

/// Whether a hit is one of the policy for a crate, and satisfies a term. It takes a step at most.
fn is_allowed_by<L: Ledger>(
    policy: &CountedPolicy<'_, L>,
    counted: &Places,
    term: &LicenseReq,
    hit: Hit,
    steps: &mut Steps<L>,
) -> bool
    ensures answer { result ≡ spec.is_allowed_by (policy_of policy.now) counted.now term.now hit }
    ensures steps { steps.old ≤ steps.new }
    ensures bound { steps.new ≤ steps.old + 1 }
{
    match hit {
        Hit::Allowed(entry) => policy.allowed().satisfies_at(entry, term, steps),
        Hit::Exception { exception, entry } => {
            if !counts(counted, exception) {
                return false;
            }
            policy.granted(exception).satisfies_at(entry, term, steps)
        }
    }
}

/// Whether a hit allows the term at a place.
fn is_allowed_at<L: Ledger>(
    policy: &CountedPolicy<'_, L>,
    counted: &Places,
    terms: &[ExpressionReq],
    place: usize,
    hit: Hit,
    steps: &mut Steps<L>,
) -> bool
    ensures answer { let policy = policy_of policy.now in
        result ≡ option_map_or (λ term. spec.is_allowed_by policy counted.now term.req hit)
        (slice_get terms.now place) false }
    ensures steps { steps.old ≤ steps.new }
    ensures bound { steps.new ≤ steps.old + 1 }
{
    match terms.get(place) {
        Some(term) => is_allowed_by(policy, counted, &term.req, hit, steps),
        None => false,
    }
}

/// Whether each hit allows the term at its place. It takes a step a hit at most.
pub fn are_allowed<L: Ledger>(
    policy: &CountedPolicy<'_, L>,
    counted: &Places,
    terms: &[ExpressionReq],
    places: &[usize],
    hits: &[Hit],
    steps: &mut Steps<L>,
) -> bool
    ensures answer { result
        ≡ spec.are_allowed (policy_of policy.now) counted.now terms.now places.now hits.now }
    ensures steps { steps.old ≤ steps.new }
    ensures bound { steps.new ≤ steps.old + length hits.now }
{
    if places.len() != hits.len() {
        return false;
    }
    let mut allowed = true;
    'hits: for place in 0..hits.len() {
        let here = is_allowed_at(policy, counted, terms, places[place], hits[place], steps);
        allowed = allowed & here;
    }
    allowed
}

/// Whether a place is outside an expression, or its term is allowed. It takes a step for each entry that it asks.
fn has_hit_or_none<L: Ledger>(
    policy: &CountedPolicy<'_, L>,
    index: &EntryIndex,
    counted: &Places,
    terms: &[ExpressionReq],
    place: usize,
    steps: &mut Steps<L>,
) -> bool
    requires { entry_families (policy_of policy.now) ≡ index.now }
    ensures answer { result ≡ spec.hit_or_none_by (policy_of policy.now) counted.now terms.now place }
    ensures steps { steps.old ≤ steps.new }
    ensures bound { steps.new ≤ steps.old + entries_at (policy_of policy.now) counted.now terms.now place }
{
    match terms.get(place) {
        Some(term) => hit_by(policy, index, counted, &term.req, steps).is_some(),
        None => true,
    }
}

/// Whether one of some places is outside an expression, or its term is allowed.
pub fn any_has_hit<L: Ledger>(
    policy: &CountedPolicy<'_, L>,
    index: &EntryIndex,
    counted: &Places,
    terms: &[ExpressionReq],
    places: &[usize],
    steps: &mut Steps<L>,
) -> bool
    requires { entry_families (policy_of policy.now) ≡ index.now }
    ensures answer { result ≡ list_any (spec.hit_or_none_by (policy_of policy.now) counted.now terms.now) places.now }
    ensures steps { steps.old ≤ steps.new }
    ensures bound { steps.new
        ≤ steps.old + sum_by (entries_at (policy_of policy.now) counted.now terms.now) places.now }
{
    let mut found = false;
    'places: for place in places {
        let here = has_hit_or_none(policy, index, counted, terms, *place, steps);
        found = found | here;
    }
    found
}
