//! Whether places are a choice of an expression, and whether places meet each choice. Both come with
//! the certificate on the expression where just some terms have a hit.
//! Called by `crates`; any hit may be the one that is kept, since only whether there is one is asked.
ghost use Rattle.std.specs.Prelude.{◌≡◌, ◌&&◌, ℕ, IfOk, not, length, nat_lt};
ghost use Rattle.spdx_core.specs.certificates.Certificates.{has_hit};
ghost use Rattle.check_verify.specs.Terms as spec;
ghost use Rattle.check_verify.specs.Terms.{is_among};

use spdx_core::Expression;
use spdx_core::certificates::{Hit, Verdict, certificate};
use std::alloc::{AllocError, Global};

/// For each of so many places the same.
fn each(alloc: Global, count: usize, kept: Option<Hit>) -> Result<Vec<Option<Hit>>, AllocError>
    ensures { IfOk result (λ list. list.items ≡ spec.copies_of count kept) }
{
    let mut list = Vec::with_capacity(alloc, count)?;
    'places: for _place in 0..count {
        list.push(kept)?;
    }
    Ok(list)
}

/// Keeps something at some places; those behind the end of the list are passed by.
fn keep_at(kept: &mut Vec<Option<Hit>>, places: &[usize], hit: Option<Hit>)
    ensures { kept.new.items ≡ spec.kept_at kept.old.items places.now hit }
{
    'places: for place in places {
        if *place < kept.len() {
            kept[*place] = hit;
        }
    }
}

/// Whether some places are a choice.
pub fn is_choice(alloc: Global, expr: &Expression, places: &[usize]) -> Result<bool, AllocError>
    ensures { IfOk result (λ answer. answer ≡ spec.is_choice expr.now.tree places.now) }
{
    let mut kept = each(alloc, expr.requirements().len(), None)?;
    keep_at(&mut kept, places, Some(Hit::Allowed(0)));
    let verdict = certificate(alloc, expr, kept.as_slice())?;
    match verdict {
        Verdict::Accepted { choice, .. } => Ok(choice.items() == places),
        _ => Ok(false),
    }
}

/// Whether each choice holds one of some places.
pub fn meet_each(alloc: Global, expr: &Expression, places: &[usize]) -> Result<bool, AllocError>
    ensures { IfOk result (λ answer. answer ≡ spec.meet_each expr.now.tree places.now) }
{
    let mut kept = each(alloc, expr.requirements().len(), Some(Hit::Allowed(0)))?;
    keep_at(&mut kept, places, None);
    let verdict = certificate(alloc, expr, kept.as_slice())?;
    match verdict {
        Verdict::Rejected { .. } => Ok(true),
        _ => Ok(false),
    }
}
