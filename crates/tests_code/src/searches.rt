//! Searches, comparisons and maps, at numbers.
use deny_text::search::{binary_search, contains};
use deny_text::span::compares_by_value;
use deny_text::{Span, Spanned, Text, TextMap};
use std::alloc::{AllocError, Global};
use std::cmp::Ordering;
use std::test::Fail;
use tests_files::AnswerText;

#[test]
fn finds_places(rt: HostRuntime) -> Result<(), Fail> {
    let mut items: Vec<u32> = Vec::from_array(rt.alloc(), [7, 1, 4])?;
    items.sort()?;
    for (query, want) in [
        (0, Err(0)),
        (1, Ok(0)),
        (4, Ok(1)),
        (5, Err(2)),
        (8, Err(3)),
    ] {
        assert_eq!(rt; binary_search(&items, &query), want, "place of {query}");
        assert_eq!(rt;
            contains(&items, &query),
            want.is_ok(),
            "whether {query} is there"
        );
    }
    Ok(())
}

/// A number that is at these bytes.
fn at(value: u32, start: usize, end: usize) -> Spanned<u32> {
    let span = Span { start, end };
    Spanned { value, span }
}

#[test]
fn places_do_not_count(rt: HostRuntime) {
    let near = at(1, 0, 1);
    let far = at(1, 8, 9);
    let more = at(2, 0, 1);
    assert_eq!(rt; compares_by_value(&near, &far), (true, Ordering::Equal));
    assert_eq!(rt; compares_by_value(&far, &more), (false, Ordering::Less));
}

/// Inserts a value by a key, and puts the one that was there.
fn put_inserted(
    alloc: Global,
    out: &mut AnswerText,
    map: &mut TextMap<u32>,
    key: &str,
    value: u32,
) -> Result<(), AllocError> {
    let old = map.insert(Text::copy(alloc, key)?, value)?;
    write!(out, "{old:?} ");
    Ok(())
}

/// Puts the entries of a map in order, what it finds by two keys, and how many entries it has.
fn put_map(out: &mut AnswerText, map: &TextMap<u32>) {
    for (key, value) in map.iter() {
        write!(out, "[{key}]={value} ");
    }
    let there = map.get("a").copied();
    let absent = map.get("c").copied();
    write!(out, "{there:?} {absent:?} {} {}", map.len(), map.is_empty());
}

#[test]
fn keeps_the_last_value(rt: HostRuntime) {
    let mut out = AnswerText::new(rt.alloc());
    let mut map = TextMap::new(rt.alloc());
    for (key, value) in [("b", 1), ("a", 2), ("b", 3), ("", 4)] {
        let inserted = put_inserted(rt.alloc(), &mut out, &mut map, key, value);
        out.needs(inserted);
    }
    put_map(&mut out, &map);
    let wanted = "None None Some(1) None []=4 [a]=2 [b]=3 Some(2) None 3 false";
    assert_eq!(rt; out.text(), wanted);
}
