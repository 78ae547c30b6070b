//! Certificates.
ghost use Rattle.std.specs.Prelude.{◌≡◌, IfOk, filter_map};
ghost use Rattle.spdx_core.specs.certificates.Certificates.{CertificateAnswers, hit_at as hit_of};

use crate::Expression;
use crate::certificates::mark::{hit_at, mark_nodes};
use crate::certificates::stack::take_off;
use crate::certificates::verdict::{Hit, Hits, Verdict};
use crate::certificates::walk::{Walk, gathered};
use std::alloc::{AllocError, Global};

/// The hits of places, in their order. A place without a hit has none.
fn hits_of(alloc: Global, places: &[usize], kept: &[Option<Hit>]) -> Result<Vec<Hit>, AllocError>
    ensures { IfOk result (λ hits. hits.items ≡ filter_map (hit_of kept.now) places.now) }
{
    places
        .iter()
        .filter_map(|place| hit_at(kept, *place))
        .collect(alloc)
}

/// The verdict on an expression with what shows it, from what was found for each of its terms in text order:
/// a hit or none. A term beyond the list has no hit.
pub fn certificate(
    alloc: Global,
    expression: &Expression,
    kept: &[Option<Hit>],
) -> Result<Verdict, AllocError>
    ensures { CertificateAnswers kept.now expression.now.tree result }
{
    let mut marking = mark_nodes(alloc, expression.nodes(), kept)?;
    let choice = gathered(alloc, Walk::Choice, &marking.marks)?;
    if take_off(&mut marking.counts, 0) == 0 {
        let hits = hits_of(alloc, choice.items(), kept)?;
        Ok(Verdict::Accepted {
            choice,
            hits: Hits::from(hits),
        })
    } else {
        let blocks = gathered(alloc, Walk::Blocks, &marking.marks)?;
        Ok(Verdict::Rejected {
            least: choice,
            blocks,
        })
    }
}
