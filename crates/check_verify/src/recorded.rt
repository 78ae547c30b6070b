//! What is recorded of a verdict.
//! Called by `item` of `run_record`; hits may be copied before places, only memory can be refused.
ghost use Rattle.std.specs.Prelude.{◌≡◌, IfOk};
ghost use Rattle.std.specs.List.{AllByRecursion};
ghost use Rattle.check_record.specs.Items.{IsHit, IsNumber, IsRecordVerdict};
ghost use Rattle.check_verify.specs.Recorded.{IsRecordable, recorded_of};

use check_record::RecordVerdict;
use spdx_core::certificates::{Hit, Hits, TermPlaces, Verdict};
use std::alloc::{AllocError, Global};

fn copied_places(alloc: Global, places: &[usize]) -> Result<TermPlaces, AllocError>
    ensures copy { IfOk result (λ copy. copy ≡ places.now) }
    ensures fit { AllByRecursion IsNumber places.now }
{
    let copy = Vec::from_slice(alloc, places)?;
    Ok(TermPlaces::from(copy))
}

/// A hit has numbers of 64 bits.
fn hit_fits(hit: Hit) -> Hit
    ensures same { result ≡ hit }
    ensures fits { IsHit hit }
{
    match hit {
        Hit::Allowed(entry) => Hit::Allowed(entry),
        Hit::Exception { exception, entry } => Hit::Exception { exception, entry },
    }
}

fn copied_hits(alloc: Global, hits: &[Hit]) -> Result<Hits, AllocError>
    ensures copy { IfOk result (λ copy. copy ≡ hits.now) }
    ensures fit { IfOk result (λ copy. AllByRecursion IsHit copy) }
{
    let mut copy = Hits::new(alloc);
    'hits: for hit in hits {
        copy.push(hit_fits(*hit))?;
    }
    Ok(copy)
}

/// What is recorded of a verdict.
pub fn recorded_verdict(alloc: Global, verdict: &Verdict) -> Result<RecordVerdict, AllocError>
    requires { IsRecordable verdict.now }
    ensures verdict { IfOk result (λ recorded. recorded ≡ recorded_of verdict.now) }
    ensures is { IfOk result IsRecordVerdict }
{
    match verdict {
        Verdict::Skipped => Ok(RecordVerdict::Skipped),
        Verdict::Unlicensed => Ok(RecordVerdict::Unlicensed),
        Verdict::Accepted { choice, hits } => {
            let choice = copied_places(alloc, choice.items())?;
            let hits = copied_hits(alloc, hits.items())?;
            Ok(RecordVerdict::Accepted { choice, hits })
        }
        Verdict::Rejected { blocks, .. } => {
            let blocks = copied_places(alloc, blocks.items())?;
            Ok(RecordVerdict::Rejected { blocks })
        }
    }
}
