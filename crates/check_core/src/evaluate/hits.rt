//! What allows the terms of an expression.
//! Called by `evaluate` and `check_verify`; fewer entries may be asked, as steps have an upper bound alone.
ghost use Rattle.std.specs.Prelude.{◌≡◌, ◌+◌, ◌≤◌, map, length, option_map, vec_capacity};
ghost use Rattle.spdx_core.specs.declared.certificates.verdict.Hit.TheVariants.{Allowed};
ghost use Rattle.policy_core.specs.valid.Policy as spec;
ghost use Rattle.policy_core.specs.valid.View.{req_of, grant_of, policy_of};
ghost use Rattle.check_core.specs.evaluate.Entries.{entries_in, entries_of, entries_of_terms, entry_families};
ghost use Rattle.check_core.specs.evaluate.Entries.{families_in, granted_entries, granted_families, places_for};
ghost use Rattle.check_core.specs.evaluate.Evaluation.{term_hits};

use crate::evaluate::entry_index::EntryIndex;
use crate::evaluate::room::put;
use deny_text::Steps;
use policy_core::valid::{CountedLicensees, CountedPolicy};
use policy_parts::spec::Places;
use spdx_core::certificates::Hit;
use spdx_core::{ExpressionReq, LicenseReq};
use std::sync::ledger::Ledger;

/// The place of the first of some licensees that satisfies a term, where `places` are those of the term's family
/// among them. It takes a step for each that it asks.
fn first_entry<L: Ledger>(
    licensees: &CountedLicensees<'_, L>,
    places: &[usize],
    term: &LicenseReq,
    steps: &mut Steps<L>,
) -> Option<usize>
    requires { places.now ≡ places_for (map req_of licensees.now) term.now }
    ensures entry { result ≡ spec.first_entry (map req_of licensees.now) term.now }
    ensures steps { steps.old ≤ steps.new }
    ensures bound { steps.new ≤ steps.old + entries_in (map req_of licensees.now) term.now }
{
    'places: for place in places {
        if licensees.satisfies_at(*place, term, steps) {
            return Some(*place);
        }
    }
    None
}

/// The hit of a term by the exception at a place. It asks the entries of the term's family alone.
fn exception_hit<L: Ledger>(
    policy: &CountedPolicy<'_, L>,
    index: &EntryIndex,
    exception: usize,
    term: &LicenseReq,
    steps: &mut Steps<L>,
) -> Option<Hit>
    requires { granted_families (map grant_of policy.now.exceptions) ≡ index.now.granted }
    ensures hit { result ≡ spec.exception_hit (map grant_of policy.now.exceptions) exception term.now }
    ensures steps { steps.old ≤ steps.new }
    ensures bound { steps.new
        ≤ steps.old + entries_in (spec.granted_licensees (map grant_of policy.now.exceptions) exception) term.now }
{
    let places = index.granted(exception, term.family());
    let licensees = policy.granted(exception);
    let entry = first_entry(&licensees, places, term, steps)?;
    Some(Hit::Exception { exception, entry })
}

/// The hit of a term by the first of some exceptions that has one. It asks them in order, and none behind that.
fn granted_hit<L: Ledger>(
    policy: &CountedPolicy<'_, L>,
    index: &EntryIndex,
    exceptions: &[usize],
    term: &LicenseReq,
    steps: &mut Steps<L>,
) -> Option<Hit>
    requires { granted_families (map grant_of policy.now.exceptions) ≡ index.now.granted }
    ensures hit { result ≡ spec.granted_hit (map grant_of policy.now.exceptions) exceptions.now term.now }
    ensures steps { steps.old ≤ steps.new }
    ensures bound { steps.new
        ≤ steps.old + granted_entries (map grant_of policy.now.exceptions) exceptions.now term.now }
{
    'exceptions: for exception in exceptions {
        if let Some(hit) = exception_hit(policy, index, *exception, term, steps) {
            return Some(hit);
        }
    }
    None
}

/// The hit of a term by what is allowed. It asks the entries of the term's family alone.
fn allowed_hit<L: Ledger>(
    policy: &CountedPolicy<'_, L>,
    index: &EntryIndex,
    term: &LicenseReq,
    steps: &mut Steps<L>,
) -> Option<Hit>
    requires { families_in (map req_of policy.now.allowed) ≡ index.now.allowed }
    ensures hit { result
        ≡ option_map Allowed (spec.first_entry (map req_of policy.now.allowed) term.now) }
    ensures steps { steps.old ≤ steps.new }
    ensures bound { steps.new ≤ steps.old + entries_in (map req_of policy.now.allowed) term.now }
{
    let places = index.allowed(term.family());
    let licensees = policy.allowed();
    let entry = first_entry(&licensees, places, term, steps)?;
    Some(Hit::Allowed(entry))
}

/// What allows a term, where the exceptions at some places count for the crate. It takes a step for each licensee
/// that it asks.
pub fn hit_by<L: Ledger>(
    policy: &CountedPolicy<'_, L>,
    index: &EntryIndex,
    exceptions: &Places,
    term: &LicenseReq,
    steps: &mut Steps<L>,
) -> Option<Hit>
    requires { entry_families (policy_of policy.now) ≡ index.now }
    ensures hit { result ≡ spec.hit_of (policy_of policy.now) exceptions.now term.now }
    ensures steps { steps.old ≤ steps.new }
    ensures bound { steps.new ≤ steps.old + entries_of (policy_of policy.now) exceptions.now term.now }
{
    match granted_hit(policy, index, exceptions.items(), term, steps) {
        Some(hit) => Some(hit),
        None => allowed_hit(policy, index, term, steps),
    }
}

/// Fills a list, which has room, with what allows each term. What stood in it goes.
pub fn keep_hits<L: Ledger>(
    kept: &mut Vec<Option<Hit>>,
    policy: &CountedPolicy<'_, L>,
    index: &EntryIndex,
    exceptions: &Places,
    terms: &[ExpressionReq],
    steps: &mut Steps<L>,
)
    requires room { length terms.now ≤ vec_capacity kept.old }
    requires families { entry_families (policy_of policy.now) ≡ index.now }
    ensures kept { kept.new.items ≡ term_hits (policy_of policy.now) exceptions.now terms.now }
    ensures room { vec_capacity kept.new ≡ vec_capacity kept.old }
    ensures steps { steps.old ≤ steps.new }
    ensures bound { steps.new ≤ steps.old + entries_of_terms (policy_of policy.now) exceptions.now terms.now }
{
    kept.clear();
    'terms: for term in terms {
        let hit = hit_by(policy, index, exceptions, &term.req, steps);
        put(kept, hit);
    }
}
