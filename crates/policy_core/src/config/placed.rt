//! Keys that are taken with their places.
ghost use Rattle.std.specs.Prelude.{◌≡◌, ◌++◌, IfOk, OnOk, option_to_list};
ghost use Rattle.policy_toml.specs.rows.Rows.{key_span};
ghost use Rattle.policy_toml.specs.HelperState.{state_of, without_key};
ghost use Rattle.policy_core.specs.config.Places.{places_there};

use deny_text::Span;
use policy_toml::TableHelper;
use policy_toml::rows::Spans;
use std::alloc::{AllocError, Global};

/// Takes a key out, whatever its value is, and tells where it stood.
pub(crate) fn take_removed(table: &mut TableHelper<'_>, name: &str) -> Option<Span>
    ensures place { result ≡ key_span name.now (state_of table.old).left }
    ensures after { state_of table.new ≡ without_key name.now (state_of table.old) }
{
    match table.take(name) {
        Some((key, _)) => Some(key.span),
        None => None,
    }
}

/// The places that are there.
#[tactic(auto, using(crate::proofs::config::PlaceLemmas::one_more))]
pub(crate) fn places_of(alloc: Global, places: &[Option<Span>]) -> Result<Spans, AllocError>
    ensures { IfOk result (λ spans. spans ≡ places_there places.now) }
{
    let mut spans = Spans::new(alloc);
    'places: for place in places {
        push_place(&mut spans, *place)?;
    }
    Ok(spans)
}

/// Appends a place that is there.
pub(crate) fn push_place(spans: &mut Spans, place: Option<Span>) -> Result<(), AllocError>
    ensures { OnOk result (spans.new ≡ spans.old ++ option_to_list place) }
{
    match place {
        Some(place) => spans.push(place),
        None => Ok(()),
    }
}
