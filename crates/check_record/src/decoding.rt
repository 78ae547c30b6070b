//! Reading a file.
//! Called by `verify_text` of run_record; ids may be compared before the end is read, `Syntax` is for both.
ghost use Rattle.std.specs.Prelude.{◌≡◌, codes};
ghost use Rattle.check_record.specs.Decoded.{AnswersDecode};
ghost use Rattle.check_record.specs.Reading as spec;
ghost use Rattle.check_record.specs.Reading.{Reads};

use crate::decode_parts::{ids_rise, read_items};
use crate::error::RecordError;
use crate::items::{Record, RecordItems};
use std::alloc::Global;

/// What is behind a text.
#[tactic(auto, unfolding(crate::specs::Reading::behind_text))]
fn behind_text<'b>(bytes: &'b [u8], text: &[u8]) -> Result<&'b [u8], RecordError>
    ensures { Reads (λ rest. rest.now) result (spec.behind_text text.now bytes.now) }
{
    if !bytes.starts_with(text) {
        return Err(RecordError::Syntax);
    }
    Ok(bytes.split_at(text.len()).1)
}

#[tactic(auto, unfolding(crate::specs::Reading::record_at))]
fn read_record(alloc: Global, bytes: &[u8]) -> Result<(RecordItems, &[u8]), RecordError>
    ensures { Reads (λ read. (read.0, read.1.now)) result (spec.record_at bytes.now) }
{
    let rest = behind_text(bytes, b"deny-record 1\n")?;
    let (items, rest) = read_items(alloc, rest)?;
    let rest = behind_text(rest, b"end\n")?;
    if !ids_rise(items.items()) {
        return Err(RecordError::Syntax);
    }
    Ok((items, rest))
}

#[tactic(auto, unfolding(crate::specs::Reading::whole_at))]
fn read_whole(alloc: Global, bytes: &[u8]) -> Result<RecordItems, RecordError>
    ensures { Reads (λ items. items) result (spec.whole_at bytes.now) }
{
    let (items, rest) = read_record(alloc, bytes)?;
    if !rest.is_empty() {
        return Err(RecordError::Syntax);
    }
    Ok(items)
}

/// The record that the bytes spell. They have to be its one spelling, each byte of it.
pub fn decode(alloc: Global, bytes: &[u8]) -> Result<Record, RecordError>
    ensures { AnswersDecode bytes.now result }
{
    let items = read_whole(alloc, bytes)?;
    Ok(Record::of(items))
}
