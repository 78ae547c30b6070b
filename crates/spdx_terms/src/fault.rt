//! What is wrong with an item where it is there.
ghost use Rattle.std.specs.Prelude.{◌≡◌, Some};
ghost use Rattle.spdx_terms.specs.Faults.{takes_term, takes_exception, takes_operator, takes_with};
ghost use Rattle.spdx_terms.specs.Faults.{word_reason, fault as fault_between, fault_unless as unless_fine};
ghost use Rattle.spdx_terms.specs.Faults.{mark_fault as mark_fault_of, item_fault, end_fault as end_fault_at};

use crate::error::{ParseError, ParseReason};
use crate::item::{Item, ItemKind, Simple, WantedItem};
use crate::mode::ParseMode;
use deny_text::Span;

impl WantedItem {
    fn is_term(self) -> bool
        ensures { result ≡ takes_term self }
    {
        match self {
            WantedItem::Term => true,
            WantedItem::Exception | WantedItem::AfterTerm | WantedItem::AfterPart => false,
        }
    }

    fn is_exception(self) -> bool
        ensures { result ≡ takes_exception self }
    {
        match self {
            WantedItem::Exception => true,
            WantedItem::Term | WantedItem::AfterTerm | WantedItem::AfterPart => false,
        }
    }

    fn is_operator(self) -> bool
        ensures { result ≡ takes_operator self }
    {
        match self {
            WantedItem::AfterTerm | WantedItem::AfterPart => true,
            WantedItem::Term | WantedItem::Exception => false,
        }
    }

    fn is_with(self) -> bool
        ensures { result ≡ takes_with self }
    {
        match self {
            WantedItem::AfterTerm => true,
            WantedItem::Term | WantedItem::Exception | WantedItem::AfterPart => false,
        }
    }

    /// What a word is called that is neither operator nor what is wanted.
    fn reason(self) -> ParseReason
        ensures { result ≡ word_reason self }
    {
        match self {
            WantedItem::Term => ParseReason::UnknownTerm,
            WantedItem::Exception => ParseReason::UnknownException,
            WantedItem::AfterTerm | WantedItem::AfterPart => ParseReason::Unexpected,
        }
    }
}

fn unless(fine: bool, reason: ParseReason, span: Span) -> Option<ParseError>
    ensures { result ≡ unless_fine fine reason span }
{
    if fine {
        None
    } else {
        Some(ParseError { reason, span })
    }
}

/// A mark of a term that the mode refuses.
fn mark_fault(simple: &Simple, mode: ParseMode, span: Span) -> Option<ParseError>
    ensures { result ≡ mark_fault_of mode simple.now span }
{
    let marks = simple.marks;
    if marks.deprecated && !mode.allow_deprecated {
        let span = Span {
            start: span.start,
            end: simple.name_end,
        };
        Some(ParseError {
            reason: ParseReason::DeprecatedId,
            span,
        })
    } else {
        let fine = !(marks.gnu && marks.plus) || mode.allow_postfix_plus_on_gpl;
        unless(fine, ParseReason::GplNoPlus, span)
    }
}

/// What is wrong with an item, by what is wanted and by whether a parenthesis is open.
pub fn item_fault(
    item: &Item,
    mode: ParseMode,
    wanted: WantedItem,
    is_open: bool,
) -> Option<ParseError>
    ensures { result ≡ item_fault mode wanted is_open item.now.what item.now.span }
{
    let span = item.span;
    match &item.what {
        ItemKind::Term(simple) if wanted.is_term() => mark_fault(simple, mode, span),
        ItemKind::Term(_) => unless(false, ParseReason::Unexpected, span),
        ItemKind::Exception(_) => unless(wanted.is_exception(), ParseReason::Unexpected, span),
        ItemKind::And | ItemKind::Or => unless(wanted.is_operator(), ParseReason::Unexpected, span),
        ItemKind::With => unless(wanted.is_with(), ParseReason::Unexpected, span),
        ItemKind::Open => unless(wanted.is_term(), ParseReason::Unexpected, span),
        ItemKind::Close if is_open => unless(wanted.is_operator(), ParseReason::Unexpected, span),
        ItemKind::Close => unless(false, ParseReason::UnopenedParens, span),
        ItemKind::Plus => unless(false, ParseReason::SeparatedPlus, span),
        ItemKind::Word => unless(false, wanted.reason(), span),
        ItemKind::Other => unless(false, ParseReason::InvalidCharacters, span),
    }
}

/// What is wrong at the end of a text of so many bytes, by the last open parenthesis.
pub fn end_fault(len: usize, wanted: WantedItem, opened: Option<Span>) -> Option<ParseError>
    ensures { result ≡ end_fault_at len wanted opened }
{
    if !wanted.is_operator() {
        let span = Span {
            start: len,
            end: len,
        };
        return Some(ParseError {
            reason: ParseReason::Unexpected,
            span,
        });
    }
    match opened {
        None => None,
        Some(span) => Some(ParseError {
            reason: ParseReason::UnclosedParens,
            span,
        }),
    }
}

/// The fault of a text without an item.
pub fn empty_fault(len: usize) -> ParseError
    ensures { Some result ≡ fault_between ParseReason.Empty 0 len }
{
    ParseError {
        reason: ParseReason::Empty,
        span: Span { start: 0, end: len },
    }
}
