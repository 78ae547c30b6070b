//! Imprecise texts in the order in which they are found.
ghost use Rattle.std.specs.Prelude.{◌≡◌, ◌≤◌, ℕ, List, IfOk, IfSome, IfNone, All, Contains, length, map};
ghost use Rattle.std.specs.List.Sorted.{IsPermutation};
ghost use Rattle.std.specs.Ordering.{nat_cmp};
ghost use Rattle.std.specs.Cmp.Lexicographic.{slice_cmp};
ghost use Rattle.std.specs.Str.{str_to_ascii_lowercase};
ghost use Rattle.spdx_terms.specs.catalog.Catalog.{BeginsNone, IsLongestImprecise};
ghost use Rattle.spdx_terms.specs.catalog.Words.{ends_word};
ghost use Rattle.spdx_own_names.specs.IndexView.{meanings_listed};
ghost use Rattle.spdx_own_names.specs.Ordered.{AreInOrder, AreSorted, IsLastUpto, IsLaterOf, lower_pair};
ghost use Rattle.spdx_own_names.specs.Ordered.{Means, MeansNothing, MeansNothingUpto};

use crate::meanings::{Meaning, lowered};
use deny_text::{ListOf, Text};
use spdx_terms::catalog::Imprecise;
use std::alloc::{AllocError, Global};
use std::cmp::Ordering;
use std::marker::Model;

/// Imprecise texts, of which the longest that begins a text is found by halves.
#[derive(Drop)]
pub(crate) struct OrderedMeanings {
    listed: ListOf<Meaning>,
    /// The same in lower case, in the byte order of the texts.
    ordered: Vec<Meaning>,
    /// The length of the longest text.
    longest: usize,
}

impl Model for OrderedMeanings {
    ghost use Rattle.std.specs.Prelude.{ℕ, List};
    ghost use Rattle.spdx_own_names.specs.IndexView.{meanings_listed};
    ghost use Rattle.spdx_own_names.specs.Ordered.{AreInOrder};

    ghost Value = { List (List ℕ × List ℕ) };

    ghost view = { λ o. meanings_listed o.listed };

    ghost invariant = { λ o. AreInOrder (meanings_listed o.listed) o.ordered.items o.longest };
}

/// A text in lower case, with its licence.
fn in_lower_case(alloc: Global, meaning: &Meaning) -> Result<Meaning, AllocError>
    ensures { IfOk result (λ lower.
        (lower.text, lower.name) ≡ lower_pair (meaning.now.text, meaning.now.name)) }
{
    let text = lowered(alloc, meaning.text.as_str())?;
    let name = Text::copy(alloc, meaning.name.as_str())?;
    Ok(Meaning { text, name })
}

/// All texts in lower case.
fn all_in_lower_case(alloc: Global, listed: &[Meaning]) -> Result<Vec<Meaning>, AllocError>
    ensures { IfOk result (λ all.
        meanings_listed all.items ≡ map lower_pair (meanings_listed listed.now)) }
{
    let mut all = Vec::with_capacity(alloc, listed.len())?;
    'listed: for meaning in listed {
        let lower = in_lower_case(alloc, meaning)?;
        all.push(lower)?;
    }
    Ok(all)
}

/// All texts in lower case, in the byte order of the texts.
fn in_order(alloc: Global, listed: &[Meaning]) -> Result<Vec<Meaning>, AllocError>
    ensures same { IfOk result (λ ordered.
        IsPermutation (map lower_pair (meanings_listed listed.now)) (meanings_listed ordered.items)) }
    ensures sorted { IfOk result (λ ordered. AreSorted ordered.items) }
{
    let mut all = all_in_lower_case(alloc, listed)?;
    all.sort_by(|one, other| one.text.as_str().cmp(other.text.as_str()))?;
    Ok(all)
}

fn larger(one: usize, other: usize) -> usize
    ensures one { one ≤ result }
    ensures other { other ≤ result }
{
    if one < other { other } else { one }
}

fn smaller(one: usize, other: usize) -> usize
    ensures one { result ≤ one }
    ensures other { result ≤ other }
    ensures all { (len : ℕ) → len ≤ one → len ≤ other → len ≤ result }
{
    if one < other { one } else { other }
}

/// The length of the longest text.
fn longest_len(listed: &[Meaning]) -> usize
    ensures { All (λ meaning. length meaning.text ≤ result) listed.now }
{
    let mut longest: usize = 0;
    'listed: for meaning in listed {
        longest = larger(longest, meaning.text.as_str().len());
    }
    longest
}

/// The order of a text and of the start of another in lower case.
fn compare_lowered(text: &[u8], start: &[u8]) -> Ordering
    ensures { result ≡ slice_cmp nat_cmp text.now (str_to_ascii_lowercase start.now) }
{
    text.iter()
        .copied()
        .cmp(start.iter().map(|byte| byte.to_ascii_lowercase()))
}

/// How a text is to the start of another in lower case.
fn compare_to(meaning: &Meaning, start: &[u8]) -> Ordering
    ensures { result ≡ slice_cmp nat_cmp meaning.now.text (str_to_ascii_lowercase start.now) }
{
    compare_lowered(meaning.text.as_str().as_bytes(), start)
}

/// The licence that the start of a text means, in whatever case.
fn name_of<'l>(ordered: &'l [Meaning], start: &[u8]) -> Option<&'l str>
    requires { AreSorted ordered.now }
    ensures found { IfSome result (λ name.
        Contains (meanings_listed ordered.now) (str_to_ascii_lowercase start.now, name.now)) }
    ensures none { IfNone result ((name : List ℕ)
        → ¬ Contains (meanings_listed ordered.now) (str_to_ascii_lowercase start.now, name)) }
{
    match ordered.binary_search_by(|meaning| compare_to(meaning, start)) {
        Ok(place) => Some(ordered[place].name.as_str()),
        Err(_) => None,
    }
}

/// Whether nothing is here that goes on a word.
fn ends_word(rest: &[u8]) -> bool
    ensures { result ≡ ends_word rest.now }
{
    match rest.first() {
        None => true,
        Some(byte) => !(byte.is_ascii_alphanumeric() || matches!(*byte, b'-' | b'.' | b':')),
    }
}

/// The licence that so many bytes at the start of a text mean.
fn meaning_at<'l>(ordered: &'l [Meaning], text: &str, len: usize) -> Option<&'l str>
    requires sorted { AreSorted ordered.now }
    requires within { len ≤ length text.now }
    ensures found { IfSome result (λ name. Means ordered.now text.now len name.now) }
    ensures none { IfNone result (MeansNothing ordered.now text.now len) }
{
    let (start, rest) = text.as_bytes().split_at(len);
    if !ends_word(rest) {
        return None;
    }
    name_of(ordered, start)
}

/// A length, where so many bytes mean a licence; else the one before.
fn later_of(ordered: &[Meaning], text: &str, last: usize, len: usize) -> usize
    requires sorted { AreSorted ordered.now }
    requires within { len ≤ length text.now }
    ensures { IsLaterOf ordered.now text.now last len result }
{
    match meaning_at(ordered, text, len) {
        Some(_) => len,
        None => last,
    }
}

/// The last length up to one at which so many bytes mean a licence, or 0.
fn last_upto(ordered: &[Meaning], text: &str, most: usize) -> usize
    requires sorted { AreSorted ordered.now }
    requires within { most ≤ length text.now }
    ensures { IsLastUpto ordered.now text.now most result }
{
    let mut last: usize = 0;
    let mut len: usize = 0;
    'lens: while len < most {
        len += 1;
        last = later_of(ordered, text, last, len);
    }
    last
}

/// The longest of the texts up to a length that begins a text.
fn longest_upto<'l>(ordered: &'l [Meaning], text: &str, most: usize) -> Option<Imprecise<'l>>
    requires sorted { AreSorted ordered.now }
    requires within { most ≤ length text.now }
    ensures found { IfSome result (λ found. IsLastUpto ordered.now text.now most found.len
        × Means ordered.now text.now found.len found.name.now) }
    ensures none { IfNone result (MeansNothingUpto ordered.now text.now most) }
{
    let len = last_upto(ordered, text, most);
    match meaning_at(ordered, text, len) {
        Some(name) => Some(Imprecise { len, name }),
        None => None,
    }
}

impl OrderedMeanings {
    /// The texts that are listed. They are put in order once.
    pub(crate) fn new(alloc: Global, listed: ListOf<Meaning>) -> Result<OrderedMeanings, AllocError>
        ensures { IfOk result (λ meanings. meanings ≡ meanings_listed listed) }
    {
        let ordered = in_order(alloc, listed.items())?;
        let longest = longest_len(listed.items());
        Ok(OrderedMeanings {
            listed,
            ordered,
            longest,
        })
    }

    /// The longest of them that begins a text.
    pub(crate) fn longest(&self, text: &str) -> Option<Imprecise<'_>>
        ensures found { IfSome result (λ found.
            IsLongestImprecise self.now text.now found.len found.name.now) }
        ensures none { IfNone result (BeginsNone self.now text.now) }
    {
        let most = smaller(self.longest, text.len());
        longest_upto(&self.ordered, text, most)
    }
}
