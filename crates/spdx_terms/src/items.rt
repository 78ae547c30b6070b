//! The items of a text.
ghost use Rattle.std.specs.Prelude.{◌≡◌, ◌+◌, ◌<◌, ◌≤◌, ◌^◌, IfOk, IfSome, length, drop, true, slice_get};
ghost use Rattle.std.specs.Option.{option_copied, option_map};
ghost use Rattle.std.specs.Str.{IsCharBoundary};
ghost use Rattle.spdx_terms.specs.Tokens.{one_of};
ghost use Rattle.spdx_terms.specs.Items.{wanted_after, operator_of, is_operator_text, plus_behind};
ghost use Rattle.spdx_terms.specs.Items.{term_of as term_at, item_at, license_of, license_at, reference_at};
ghost use Rattle.spdx_terms.specs.Items.{has_reading as word_has_reading, imprecise_if, longest_match, imprecise_of};
ghost use Rattle.spdx_terms.specs.Items.{term_item as term_item_at, plain_item as plain_item_at};
ghost use Rattle.spdx_terms.specs.Items.{exception_item as exception_item_at, word_item as word_item_at};
ghost use Rattle.spdx_terms.specs.Items.{first_item as first_item_of, items_of};
ghost use Rattle.spdx_terms.specs.NextItem.{IsNext};

use crate::catalog::{Catalog, Imprecise, LicenseEntry};
use crate::item::{Item, ItemKind, LicenseMarks, Simple, Token, WantedItem};
use crate::mode::ParseMode;
use crate::term::LicenseItem;
use crate::words;
use deny_text::text::copied;
use deny_text::{ListOf, Span, Text};
use std::alloc::{AllocError, Global};

impl WantedItem {
    /// What is wanted behind an item.
    pub fn after(self, what: &ItemKind) -> WantedItem
        ensures { result ≡ wanted_after self what.now }
    {
        match what {
            ItemKind::Term(_) => WantedItem::AfterTerm,
            ItemKind::Exception(_) | ItemKind::Close => WantedItem::AfterPart,
            ItemKind::And | ItemKind::Or | ItemKind::Open => WantedItem::Term,
            ItemKind::With => WantedItem::Exception,
            ItemKind::Plus | ItemKind::Word | ItemKind::Other => self,
        }
    }
}

/// An operator, or a word that is none.
fn operator(word: &str) -> ItemKind
    ensures { result ≡ operator_of word.now }
{
    if words::says_and(word) {
        ItemKind::And
    } else if words::says_or(word) {
        ItemKind::Or
    } else if words::says_with(word) {
        ItemKind::With
    } else {
        ItemKind::Word
    }
}

/// Whether a `+` is behind so many bytes.
fn has_plus(text: &str, len: usize) -> bool
    ensures { result ≡ plus_behind text.now len }
{
    match text.as_bytes().get(len) {
        Some(byte) => *byte == b'+',
        None => false,
    }
}

fn item(what: ItemKind, place: usize, len: usize) -> Item
    requires { place + len < 2 ^ 64 }
    ensures { result ≡ item_at what place len }
{
    Item {
        what,
        span: Span {
            start: place,
            end: place + len,
        },
    }
}

/// A term whose name takes so many bytes, with its `+`.
fn term(item: LicenseItem, marks: LicenseMarks, place: usize, len: usize) -> Item
    requires { place + len + 1 < 2 ^ 64 }
    ensures { result ≡ term_at item marks place len }
{
    let name_end = place + len;
    let end = if marks.plus { name_end + 1 } else { name_end };
    let simple = Simple {
        item,
        marks,
        name_end,
    };
    Item {
        what: ItemKind::Term(simple),
        span: Span { start: place, end },
    }
}

/// A licence of the catalogue.
fn license_item(name: Text, entry: LicenseEntry, plus: bool, place: usize, len: usize) -> Item
    requires { place + len + 1 < 2 ^ 64 }
    ensures { result ≡ license_of name entry plus place len }
{
    let item = LicenseItem::Spdx {
        name,
        family: entry.family,
        rank: entry.rank,
        later: plus || entry.later,
        plus,
    };
    let marks = LicenseMarks {
        later: entry.later,
        deprecated: entry.deprecated,
        gnu: entry.gnu,
        plus,
    };
    term(item, marks, place, len)
}

/// The licence of a name that takes so many bytes of the text, where the catalogue knows it.
fn find_license<C: Catalog>(
    alloc: Global,
    name: &str,
    place: usize,
    text: &str,
    len: usize,
    catalog: &C,
) -> Result<Option<Item>, AllocError>
    requires { place + len + 1 < 2 ^ 64 }
    ensures { IfOk result (λ found. found ≡ license_at (C.lists catalog.now) name.now place text.now len) }
{
    match catalog.license(name) {
        None => Ok(None),
        Some(entry) => {
            let name = Text::copy(alloc, name)?;
            Ok(Some(license_item(name, entry, has_plus(text, len), place, len)))
        }
    }
}

/// The reference that a word is.
fn find_reference(
    alloc: Global,
    word: &str,
    place: usize,
    len: usize,
) -> Result<Option<Item>, AllocError>
    requires { place + len + 1 < 2 ^ 64 }
    ensures { IfOk result (λ found. found ≡ reference_at word.now place len) }
{
    match words::reference_parts(word) {
        None => Ok(None),
        Some(parts) => {
            let doc = copied(alloc, parts.doc)?;
            let id = Text::copy(alloc, parts.id)?;
            let marks = LicenseMarks {
                later: false,
                deprecated: false,
                gnu: false,
                plus: false,
            };
            Ok(Some(term(LicenseItem::Reference { doc, id }, marks, place, len)))
        }
    }
}

/// Whether a word is an operator, a reference or a licence name.
fn has_reading<C: Catalog>(word: &str, catalog: &C) -> bool
    ensures { result ≡ word_has_reading (C.lists catalog.now) word.now }
{
    words::says_and(word)
        || words::says_or(word)
        || words::says_with(word)
        || words::reference_parts(word).is_some()
        || catalog.license(word).is_some()
}

/// The longest imprecise text that begins a text.
fn longest_imprecise<'c, C: Catalog>(text: &str, catalog: &'c C) -> Option<Imprecise<'c>>
    ensures found { option_map imprecise_of result ≡ longest_match (C.lists catalog.now).imprecise text.now }
    ensures within { IfSome result (λ found. found.len ≤ length text.now) }
{
    catalog.imprecise(text)
}

/// Whether a word is the name of an exception.
fn is_exception<C: Catalog>(word: &str, catalog: &C) -> bool
    ensures { result ≡ one_of (C.lists catalog.now).exceptions word.now }
{
    catalog.exception(word)
}

/// The licence of the longest imprecise text that begins a text, where it is taken. The text begins with a
/// word of so many bytes.
fn find_imprecise<C: Catalog>(
    alloc: Global,
    place: usize,
    text: &str,
    len: usize,
    catalog: &C,
) -> Result<Option<Item>, AllocError>
    requires room { place + length text.now + 1 < 2 ^ 64 }
    requires border { IsCharBoundary text.now len }
    ensures { IfOk result (λ found. found ≡ imprecise_if true (C.lists catalog.now) place text.now len) }
{
    match longest_imprecise(text, catalog) {
        None => Ok(None),
        Some(found) => {
            if len < found.len || !has_reading(text.split_at(len).0, catalog) {
                find_license(alloc, found.name, place, text, found.len, catalog)
            } else {
                Ok(None)
            }
        }
    }
}

/// A word at the start of a text where a term is wanted: the first of an imprecise text, a reference and a
/// licence name, else an operator or another word.
fn term_item<C: Catalog>(
    alloc: Global,
    place: usize,
    text: &str,
    len: usize,
    mode: ParseMode,
    catalog: &C,
) -> Result<Item, AllocError>
    requires room { place + length text.now + 1 < 2 ^ 64 }
    requires border { IsCharBoundary text.now len }
    ensures { IfOk result (λ item. item ≡ term_item_at mode (C.lists catalog.now) place text.now len) }
{
    if mode.allow_imprecise_license_names {
        if let Some(item) = find_imprecise(alloc, place, text, len, catalog)? {
            return Ok(item);
        }
    }
    plain_item(alloc, place, text, len, catalog)
}

/// The same without imprecise texts.
fn plain_item<C: Catalog>(
    alloc: Global,
    place: usize,
    text: &str,
    len: usize,
    catalog: &C,
) -> Result<Item, AllocError>
    requires room { place + length text.now + 1 < 2 ^ 64 }
    requires border { IsCharBoundary text.now len }
    ensures { IfOk result (λ item. item ≡ plain_item_at (C.lists catalog.now) place text.now len) }
{
    let word = text.split_at(len).0;
    if let Some(item) = find_reference(alloc, word, place, len)? {
        return Ok(item);
    }
    if let Some(item) = find_license(alloc, word, place, text, len, catalog)? {
        return Ok(item);
    }
    Ok(item(operator(word), place, len))
}

/// A word where an exception is wanted.
fn exception_item<C: Catalog>(
    alloc: Global,
    place: usize,
    word: &str,
    catalog: &C,
) -> Result<Item, AllocError>
    requires room { place + length word.now + 1 < 2 ^ 64 }
    ensures { IfOk result (λ item.
        item ≡ exception_item_at (C.lists catalog.now) place word.now (length word.now)) }
{
    let what = if is_exception(word, catalog) {
        ItemKind::Exception(Text::copy(alloc, word)?)
    } else {
        operator(word)
    };
    Ok(item(what, place, word.len()))
}

/// A word at the start of a text, by what is wanted.
fn word_item<C: Catalog>(
    alloc: Global,
    wanted: WantedItem,
    place: usize,
    text: &str,
    len: usize,
    mode: ParseMode,
    catalog: &C,
) -> Result<Item, AllocError>
    requires room { place + length text.now + 1 < 2 ^ 64 }
    requires border { IsCharBoundary text.now len }
    ensures { IfOk result (λ item. item ≡ word_item_at mode (C.lists catalog.now) wanted place text.now len) }
{
    match wanted {
        WantedItem::Term => term_item(alloc, place, text, len, mode, catalog),
        WantedItem::Exception => exception_item(alloc, place, text.split_at(len).0, catalog),
        WantedItem::AfterTerm | WantedItem::AfterPart => {
            Ok(item(operator(text.split_at(len).0), place, len))
        }
    }
}

/// The item at the start of a text whose first byte is no white space.
fn first_item<C: Catalog>(
    alloc: Global,
    wanted: WantedItem,
    place: usize,
    text: &str,
    first: u8,
    mode: ParseMode,
    catalog: &C,
) -> Result<Item, AllocError>
    requires room { place + length text.now + 1 < 2 ^ 64 }
    requires begins { slice_get text.now 0 ≡ Some first }
    ensures { IfOk result (λ item.
        item ≡ first_item_of mode (C.lists catalog.now) wanted place first (drop 1 text.now)) }
{
    let token = words::token_of(first, mode.allow_slash_as_or_operator);
    let len = 1 + token.rest_len(text.as_bytes().split_at(1).1);
    let what = match token {
        Token::Word => return word_item(alloc, wanted, place, text, len, mode, catalog),
        Token::Plus => ItemKind::Plus,
        Token::Open => ItemKind::Open,
        Token::Close => ItemKind::Close,
        Token::Slash => ItemKind::Or,
        Token::Other => ItemKind::Other,
    };
    Ok(item(what, place, len))
}

/// The first item of a text from a place on, where there is one: a reader goes on behind it, with what is
/// wanted there.
pub fn next_item<C: Catalog>(
    alloc: Global,
    text: &str,
    place: usize,
    wanted: WantedItem,
    mode: ParseMode,
    catalog: &C,
) -> Result<Option<Item>, AllocError>
    requires border { IsCharBoundary text.now place }
    ensures { IfOk result (λ found. IsNext mode (C.lists catalog.now) wanted place text.now found) }
{
    let mut place = place;
    'white: while place < text.len() && words::is_white(text.as_bytes()[place]) {
        place += 1;
    }
    if place == text.len() {
        return Ok(None);
    }
    let first = text.as_bytes()[place];
    let rest = text.split_at(place).1;
    let found = first_item(alloc, wanted, place, rest, first, mode, catalog)?;
    Ok(Some(found))
}

/// The items of a text, from left to right.
pub fn items<C: Catalog>(
    alloc: Global,
    text: &str,
    mode: ParseMode,
    catalog: &C,
) -> Result<ListOf<Item>, AllocError>
    ensures { IfOk result (λ items. items ≡ items_of mode (C.lists catalog.now) text.now) }
{
    let items = item_vec(alloc, text, mode, catalog)?;
    Ok(ListOf::from(items))
}

/// The same as a vector, for the readers.
pub fn item_vec<C: Catalog>(
    alloc: Global,
    text: &str,
    mode: ParseMode,
    catalog: &C,
) -> Result<Vec<Item>, AllocError>
    ensures { IfOk result (λ items. items.items ≡ items_of mode (C.lists catalog.now) text.now) }
{
    let mut items = Vec::new(alloc);
    let mut wanted = WantedItem::Term;
    let mut place = 0;
    'items: while let Some(found) = next_item(alloc, text, place, wanted, mode, catalog)? {
        wanted = wanted.after(&found.what);
        place = found.span.end;
        items.push(found)?;
    }
    Ok(items)
}
