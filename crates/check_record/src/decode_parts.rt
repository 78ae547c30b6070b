//! The lines of a file.
//! Called by `read_record` of decoding; the walks over places and ids may stop where one does not rise.
ghost use Rattle.std.specs.Prelude.{◌≡◌, [], length, nat_lt};
ghost use Rattle.check_record.specs.Items as order;
ghost use Rattle.check_record.specs.Items.{ids_of, is_before};
ghost use Rattle.check_record.specs.Reading as spec;
ghost use Rattle.check_record.specs.Reading.{Reads};

use crate::digits::{begins, behind, behind_first, read_number};
use crate::error::RecordError;
use crate::items::{RecordItem, RecordItems, RecordVerdict};
use deny_text::Text;
use spdx_core::certificates::{Hit, Hits, TermPlaces};
use std::alloc::Global;
use std::str;

/// A place with what allows the term there.
#[derive(Clone, Copy)]
pub struct PlaceHit {
    pub place: usize,
    pub hit: Hit,
}

/// The places of a choice, and their hits.
#[derive(Drop)]
pub struct ChoiceAndHits {
    pub choice: TermPlaces,
    pub hits: Hits,
}

#[tactic(auto, unfolding(crate::specs::Reading::allowed_at))]
fn read_allowed(bytes: &[u8]) -> Result<(Hit, &[u8]), RecordError>
    ensures { Reads (λ read. (read.0, read.1.now)) result (spec.allowed_at bytes.now) }
{
    let (entry, rest) = read_number(bytes)?;
    Ok((Hit::Allowed(entry), rest))
}

#[tactic(auto, unfolding(crate::specs::Reading::exception_at))]
fn read_exception(bytes: &[u8]) -> Result<(Hit, &[u8]), RecordError>
    ensures { Reads (λ read. (read.0, read.1.now)) result (spec.exception_at bytes.now) }
{
    let (exception, rest) = read_number(bytes)?;
    let rest = behind(rest, b'.')?;
    let (entry, rest) = read_number(rest)?;
    Ok((Hit::Exception { exception, entry }, rest))
}

#[tactic(auto, unfolding(crate::specs::Reading::hit_at))]
fn read_hit(bytes: &[u8]) -> Result<(Hit, &[u8]), RecordError>
    ensures { Reads (λ read. (read.0, read.1.now)) result (spec.hit_at bytes.now) }
{
    if begins(bytes, b'l') {
        return read_allowed(behind_first(bytes));
    }
    let rest = behind(bytes, b'e')?;
    read_exception(rest)
}

#[tactic(auto, unfolding(crate::specs::Reading::place_hit_at))]
fn read_place_hit(bytes: &[u8]) -> Result<(PlaceHit, &[u8]), RecordError>
    ensures { Reads (λ read. (read.0, read.1.now)) result (spec.place_hit_at bytes.now) }
{
    let (place, rest) = read_number(bytes)?;
    let rest = behind(rest, b'=')?;
    let (hit, rest) = read_hit(rest)?;
    Ok((PlaceHit { place, hit }, rest))
}

/// Places with their hits, each behind a space.
#[tactic(auto, using(crate::proofs::Loops::chosen_more, crate::proofs::Loops::chosen_last, crate::proofs::Loops::place_hit_smaller))]
fn read_chosen(alloc: Global, bytes: &[u8]) -> Result<(ChoiceAndHits, &[u8]), RecordError>
    ensures { Reads (λ read. (read.0, read.1.now)) result
        (spec.chosen_on (length bytes.now) [] [] bytes.now) }
{
    let mut choice = TermPlaces::new(alloc);
    let mut hits = Hits::new(alloc);
    let mut rest = bytes;
    'terms: while begins(rest, b' ') {
        let (next, after) = match read_place_hit(behind_first(rest)) {
            Ok(read) => read,
            Err(error) => return Err(error),
        };
        choice.push(next.place)?;
        hits.push(next.hit)?;
        rest = after;
    }
    Ok((ChoiceAndHits { choice, hits }, rest))
}

/// Places, each behind a space.
#[tactic(auto, using(crate::proofs::Loops::places_more, crate::proofs::Loops::places_last, crate::proofs::Loops::number_smaller))]
fn read_places(alloc: Global, bytes: &[u8]) -> Result<(TermPlaces, &[u8]), RecordError>
    ensures { Reads (λ read. (read.0, read.1.now)) result
        (spec.places_on (length bytes.now) [] bytes.now) }
{
    let mut places = TermPlaces::new(alloc);
    let mut rest = bytes;
    'terms: while begins(rest, b' ') {
        let (place, after) = match read_number(behind_first(rest)) {
            Ok(read) => read,
            Err(error) => return Err(error),
        };
        places.push(place)?;
        rest = after;
    }
    Ok((places, rest))
}

/// Whether there are places, each less than the next.
fn some_rise(places: &[usize]) -> bool
    ensures { result ≡ order.some_rise nat_lt places.now }
{
    match places {
        [] => false,
        [first, rest @ ..] => rise_from(*first, rest),
    }
}

fn rise_from(first: usize, places: &[usize]) -> bool
    ensures { result ≡ order.rise_from nat_lt first places.now }
{
    let mut rises = true;
    let mut last = first;
    'places: for place in places {
        rises = rises & (last < *place);
        last = *place;
    }
    rises
}

#[tactic(auto, unfolding(crate::specs::Reading::accepted_at))]
fn read_accepted(alloc: Global, bytes: &[u8]) -> Result<(RecordVerdict, &[u8]), RecordError>
    ensures { Reads (λ read. (read.0, read.1.now)) result (spec.accepted_at bytes.now) }
{
    let (chosen, rest) = read_chosen(alloc, bytes)?;
    if !some_rise(chosen.choice.items()) {
        return Err(RecordError::Syntax);
    }
    let verdict = RecordVerdict::Accepted {
        choice: chosen.choice,
        hits: chosen.hits,
    };
    Ok((verdict, rest))
}

#[tactic(auto, unfolding(crate::specs::Reading::rejected_at))]
fn read_rejected(alloc: Global, bytes: &[u8]) -> Result<(RecordVerdict, &[u8]), RecordError>
    ensures { Reads (λ read. (read.0, read.1.now)) result (spec.rejected_at bytes.now) }
{
    let (blocks, rest) = read_places(alloc, bytes)?;
    if !some_rise(blocks.items()) {
        return Err(RecordError::Syntax);
    }
    Ok((RecordVerdict::Rejected { blocks }, rest))
}

/// A verdict, which begins with its letter.
#[tactic(auto, unfolding(crate::specs::Reading::lettered_at))]
fn read_lettered(alloc: Global, bytes: &[u8]) -> Result<(RecordVerdict, &[u8]), RecordError>
    ensures { Reads (λ read. (read.0, read.1.now)) result (spec.lettered_at bytes.now) }
{
    if begins(bytes, b's') {
        return Ok((RecordVerdict::Skipped, behind_first(bytes)));
    }
    if begins(bytes, b'u') {
        return Ok((RecordVerdict::Unlicensed, behind_first(bytes)));
    }
    if begins(bytes, b'a') {
        return read_accepted(alloc, behind_first(bytes));
    }
    let rest = behind(bytes, b'r')?;
    read_rejected(alloc, rest)
}

/// A text of so many bytes.
#[tactic(auto, using(crate::proofs::Loops::no_utf8, crate::proofs::Loops::is_utf8_of), unfolding(crate::specs::Reading::text_of))]
fn read_text(alloc: Global, count: usize, bytes: &[u8]) -> Result<(Text, &[u8]), RecordError>
    ensures { Reads (λ read. (read.0, read.1.now)) result (spec.text_of count bytes.now) }
{
    if bytes.len() < count {
        return Err(RecordError::Syntax);
    }
    let (text, rest) = bytes.split_at(count);
    let Ok(text) = str::from_utf8(text) else {
        return Err(RecordError::Syntax);
    };
    Ok((Text::copy(alloc, text)?, rest))
}

#[tactic(auto, unfolding(crate::specs::Reading::id_at))]
fn read_id(alloc: Global, bytes: &[u8]) -> Result<(Text, &[u8]), RecordError>
    ensures { Reads (λ read. (read.0, read.1.now)) result (spec.id_at bytes.now) }
{
    let (count, rest) = read_number(bytes)?;
    let rest = behind(rest, b':')?;
    read_text(alloc, count, rest)
}

#[tactic(auto, unfolding(crate::specs::Reading::item_at))]
fn read_item(alloc: Global, bytes: &[u8]) -> Result<(RecordItem, &[u8]), RecordError>
    ensures { Reads (λ read. (read.0, read.1.now)) result (spec.item_at bytes.now) }
{
    let rest = behind(bytes, b'c')?;
    let rest = behind(rest, b' ')?;
    let (id, rest) = read_id(alloc, rest)?;
    let rest = behind(rest, b' ')?;
    let (verdict, rest) = read_lettered(alloc, rest)?;
    let rest = behind(rest, b'\n')?;
    Ok((RecordItem { id, verdict }, rest))
}

/// The lines of crates.
#[tactic(auto, using(crate::proofs::Loops::items_more, crate::proofs::Loops::items_last, crate::proofs::Loops::item_smaller))]
pub fn read_items(alloc: Global, bytes: &[u8]) -> Result<(RecordItems, &[u8]), RecordError>
    ensures { Reads (λ read. (read.0, read.1.now)) result
        (spec.items_on (length bytes.now) [] bytes.now) }
{
    let mut items = RecordItems::new(alloc);
    let mut rest = bytes;
    'items: while begins(rest, b'c') {
        let (item, after) = match read_item(alloc, rest) {
            Ok(read) => read,
            Err(error) => return Err(error),
        };
        items.push(item)?;
        rest = after;
    }
    Ok((items, rest))
}

/// Whether the ids rise strictly, in byte order.
pub fn ids_rise(items: &[RecordItem]) -> bool
    ensures { result ≡ order.all_rise is_before (ids_of items.now) }
{
    match items {
        [] => true,
        [first, rest @ ..] => ids_rise_from(&first.id, rest),
    }
}

fn ids_rise_from(first: &Text, items: &[RecordItem]) -> bool
    ensures { result ≡ order.rise_from is_before first.now (ids_of items.now) }
{
    let mut rises = true;
    let mut last = first;
    'items: for item in items {
        rises = rises & last.cmp(&item.id).is_lt();
        last = &item.id;
    }
    rises
}
