//! The parts of a file's lines.
//! Called by `encode` of encoding; a number may be written by any code, a line may first be made apart.
ghost use Rattle.std.specs.Prelude.{◌≡◌, ◌++◌, decimal, OnOk};
ghost use Rattle.std.specs.List.{flat_map};
ghost use Rattle.check_record.specs.Spelling as spec;
ghost use Rattle.deny_text.specs.Fronts.{StandsInFront};

use crate::items::{RecordItem, RecordVerdict};
use itoa::Buffer;
use spdx_core::certificates::Hit;
use std::alloc::AllocError;

fn put_number(out: &mut Vec<u8>, number: usize) -> Result<(), AllocError>
    ensures ok { OnOk result (out.new.items ≡ out.old.items ++ decimal number) }
    ensures front { StandsInFront out.old.items out.new.items }
{
    let mut digits = Buffer::new();
    out.extend_from_slice(digits.format(number).as_bytes())?;
    Ok(())
}

#[tactic(auto, using(std::proofs::Common::append_assoc))]
fn put_hit(out: &mut Vec<u8>, hit: Hit) -> Result<(), AllocError>
    ensures ok { OnOk result (out.new.items ≡ out.old.items ++ spec.hit_text hit) }
    ensures front { StandsInFront out.old.items out.new.items }
{
    match hit {
        Hit::Allowed(entry) => {
            out.extend_from_slice(b"l")?;
            put_number(out, entry)?;
        }
        Hit::Exception { exception, entry } => {
            out.extend_from_slice(b"e")?;
            put_number(out, exception)?;
            out.extend_from_slice(b".")?;
            put_number(out, entry)?;
        }
    }
    Ok(())
}

fn put_place(out: &mut Vec<u8>, place: usize) -> Result<(), AllocError>
    ensures ok { OnOk result (out.new.items ≡ out.old.items ++ spec.place_text place) }
    ensures front { StandsInFront out.old.items out.new.items }
{
    out.extend_from_slice(b" ")?;
    put_number(out, place)?;
    Ok(())
}

fn put_place_hit(out: &mut Vec<u8>, place: usize, hit: Hit) -> Result<(), AllocError>
    ensures ok { OnOk result (out.new.items
        ≡ out.old.items ++ spec.place_hit_text place hit) }
    ensures front { StandsInFront out.old.items out.new.items }
{
    put_place(out, place)?;
    out.extend_from_slice(b"=")?;
    put_hit(out, hit)?;
    Ok(())
}

/// Each place of a choice with its hit.
fn put_chosen(out: &mut Vec<u8>, choice: &[usize], hits: &[Hit]) -> Result<(), AllocError>
    ensures ok { OnOk result (out.new.items
        ≡ out.old.items ++ spec.chosen_text choice.now hits.now) }
    ensures front { StandsInFront out.old.items out.new.items }
{
    'terms: for (place, hit) in choice.iter().zip(hits.iter()) {
        put_place_hit(out, *place, *hit)?;
    }
    Ok(())
}

fn put_places(out: &mut Vec<u8>, places: &[usize]) -> Result<(), AllocError>
    ensures ok { OnOk result (out.new.items
        ≡ out.old.items ++ flat_map spec.place_text places.now) }
    ensures front { StandsInFront out.old.items out.new.items }
{
    'places: for place in places {
        put_place(out, *place)?;
    }
    Ok(())
}

fn put_verdict(out: &mut Vec<u8>, verdict: &RecordVerdict) -> Result<(), AllocError>
    ensures ok { OnOk result (out.new.items ≡ out.old.items ++ spec.verdict_text verdict.now) }
    ensures front { StandsInFront out.old.items out.new.items }
{
    match verdict {
        RecordVerdict::Skipped => out.extend_from_slice(b" s")?,
        RecordVerdict::Unlicensed => out.extend_from_slice(b" u")?,
        RecordVerdict::Accepted { choice, hits } => {
            out.extend_from_slice(b" a")?;
            put_chosen(out, choice.items(), hits.items())?;
        }
        RecordVerdict::Rejected { blocks } => {
            out.extend_from_slice(b" r")?;
            put_places(out, blocks.items())?;
        }
    }
    Ok(())
}

/// A line. Where memory is wanted what was written stays, in front of what was added.
pub fn put_item(out: &mut Vec<u8>, item: &RecordItem) -> Result<(), AllocError>
    ensures ok { OnOk result (out.new.items ≡ out.old.items ++ spec.item_text item.now) }
    ensures front { StandsInFront out.old.items out.new.items }
{
    let id = item.id.as_str().as_bytes();
    out.extend_from_slice(b"c ")?;
    put_number(out, id.len())?;
    out.extend_from_slice(b":")?;
    out.extend_from_slice(id)?;
    put_verdict(out, &item.verdict)?;
    out.extend_from_slice(b"\n")?;
    Ok(())
}
