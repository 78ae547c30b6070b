//! Licensees: the terms that a policy allows.
ghost use Rattle.std.specs.Prelude.{◌≡◌, ◌↔◌, ◌+◌, IfOk, IsTrue, Some};
ghost use Rattle.std.proofs.Common.{rules};
ghost use Rattle.std.specs.Ordering.{eq_by_cmp};
ghost use Rattle.std.specs.Cmp.{eq_by_cmp_equiv, partial_equiv_from_equiv, partial_order_from_total};
ghost use Rattle.std.specs.Cmp.Rules.{comparing};
ghost use Rattle.spdx_terms.specs.Terms.{family_of, req_text};
ghost use Rattle.spdx_terms.specs.Satisfaction.{Satisfies};
ghost use Rattle.spdx_terms.specs.Licensee.{HasNoPlus, printed_order, printed_order_total, without_plus};
ghost use Rattle.spdx_terms.specs.Licensee.{exception_name_of, part_of, LicenseeAnswers};
ghost use Rattle.spdx_terms.specs.Faults.{lone_fault as lone_fault_at, licensee_fault_from, licensee_fault_of};
ghost use Rattle.std.specs.Option.{option_and_then};

use crate::catalog::Catalog;
use crate::error::{ExprError, ParseError, ParseReason};
use crate::fault::{empty_fault, end_fault, item_fault};
use crate::item::{Item, ItemKind, LicenseMarks, WantedItem};
use crate::items::item_vec;
use crate::mode::ParseMode;
use crate::term::{Family, LicenseItem, LicenseReq};
use deny_text::{Steps, Text};
use std::alloc::{AllocError, Global};
use std::cmp::Ordering;
use std::fmt;
use std::marker::Model;
use std::sync::ledger::Ledger;

/// A term that a policy allows. It keeps the text that it prints, by which licensees are distinguished and
/// ordered.
#[derive(Drop)]
pub struct Licensee {
    req: LicenseReq,
    printed: Text,
}

impl Model for Licensee {
    ghost use Rattle.std.specs.Prelude.{◌≡◌};
    ghost use Rattle.spdx_terms.specs.declared.term.LicenseReq.{LicenseReq};
    ghost use Rattle.spdx_terms.specs.Terms.{req_text};
    ghost use Rattle.spdx_terms.specs.Licensee.{HasNoPlus};

    ghost Value = { LicenseReq };

    ghost view = { λ licensee. licensee.req };

    ghost invariant = { λ licensee.
        (licensee.printed ≡ req_text licensee.req) × HasNoPlus licensee.req.item };
}

impl Licensee {
    /// The licensee of a term without a `+`.
    fn of_req(alloc: Global, req: LicenseReq) -> Result<Licensee, AllocError>
        requires { HasNoPlus req.item }
        ensures { IfOk result (λ licensee. licensee ≡ req) }
    {
        let printed = Text::from(format!(in alloc; "{req}")?);
        Ok(Licensee { req, printed })
    }

    /// Reads one licence or reference, perhaps with an exception. Its `+` is ignored.
    pub fn parse_mode<C: Catalog>(
        alloc: Global,
        text: &str,
        mode: ParseMode,
        catalog: &C,
    ) -> Result<Licensee, ExprError>
        ensures { LicenseeAnswers mode (C.lists catalog.now) text.now result }
    {
        let mode = mode.of_licensees();
        let items = item_vec(alloc, text, mode, catalog)?;
        if let Some(fault) = first_fault(items.as_slice(), mode, text.len()) {
            return Err(ExprError::Parse(fault));
        }
        match part(items) {
            Some(req) => {
                let licensee = Licensee::of_req(alloc, req)?;
                Ok(licensee)
            }
            None => unreachable!(),
        }
    }

    /// The text that it prints.
    fn as_str(&self) -> &str
        ensures { result.now ≡ req_text self.now }
    {
        self.printed.as_str()
    }

    /// The family of its licence; references have one of their own. An index alone asks for it.
    pub(crate) fn family(&self) -> Family
        ensures { result ≡ family_of self.now }
    {
        self.req.family()
    }

    /// Whether the policy is content with a term. It takes one step.
    pub fn satisfies<L: Ledger>(&self, req: &LicenseReq, steps: &mut Steps<L>) -> bool
        ensures answer { IsTrue result ↔ Satisfies self.now req.now }
        ensures tick { steps.new ≡ steps.old + 1 }
    {
        steps.tick();
        self.req.satisfies(req)
    }
}

/// What is wrong with an item of a licensee's text.
fn lone_fault(item: &Item, mode: ParseMode, wanted: WantedItem) -> Option<ParseError>
    ensures { result ≡ lone_fault_at mode wanted item.now.what item.now.span }
{
    match item.what {
        ItemKind::And | ItemKind::Or | ItemKind::Open => Some(ParseError {
            reason: ParseReason::Unexpected,
            span: item.span,
        }),
        _ => item_fault(item, mode, wanted, false),
    }
}

/// The first fault from an item on. Behind three items there is one, so it goes no deeper.
fn fault_from(items: &[Item], mode: ParseMode, len: usize, wanted: WantedItem) -> Option<ParseError>
    ensures { result ≡ licensee_fault_from mode len wanted items.now }
{
    match items.split_first() {
        None => end_fault(len, wanted, None),
        Some((first, rest)) => match lone_fault(first, mode, wanted) {
            Some(fault) => Some(fault),
            None => fault_from(rest, mode, len, wanted.after(&first.what)),
        },
    }
}

fn first_fault(items: &[Item], mode: ParseMode, len: usize) -> Option<ParseError>
    ensures { result ≡ licensee_fault_of mode len items.now }
{
    if items.is_empty() {
        Some(empty_fault(len))
    } else {
        fault_from(items, mode, len, WantedItem::Term)
    }
}

/// The item of a term, with what its name alone says of later versions.
fn ignoring_plus(item: LicenseItem, marks: LicenseMarks) -> LicenseItem
    ensures { result ≡ without_plus item marks }
{
    match item {
        LicenseItem::Spdx {
            name,
            family,
            rank,
            ..
        } => LicenseItem::Spdx {
            name,
            family,
            rank,
            later: marks.later,
            plus: false,
        },
        LicenseItem::Reference { doc, id } => LicenseItem::Reference { doc, id },
    }
}

/// The name of an exception.
pub(crate) fn exception_name(item: Option<Item>) -> Option<Text>
    ensures { result ≡ option_and_then (λ found. exception_name_of found.what) item }
{
    match item?.what {
        ItemKind::Exception(name) => Some(name),
        _ => None,
    }
}

/// The term that one part is.
fn part(items: Vec<Item>) -> Option<LicenseReq>
    ensures { result ≡ part_of items.items }
{
    let mut rest = items.into_iter();
    let first = rest.next()?;
    let _with = rest.next();
    let exception = exception_name(rest.next());
    match first.what {
        ItemKind::Term(named) => Some(LicenseReq {
            item: ignoring_plus(named.item, named.marks),
            exception,
        }),
        _ => None,
    }
}

impl PartialEq for Licensee {
    ghost eq = { eq_by_cmp printed_order };

    ghost laws = { partial_equiv_from_equiv (eq_by_cmp_equiv printed_order_total) };

    fn eq(&self, other: &Licensee) -> bool {
        self.as_str().cmp(other.as_str()).is_eq()
    }
}

impl Eq for Licensee {
    ghost laws = { eq_by_cmp_equiv printed_order_total };
}

impl PartialOrd for Licensee {
    ghost partial_cmp = { λ x y. Some (printed_order x y) };

    ghost laws = { partial_order_from_total printed_order_total };

    fn partial_cmp(&self, other: &Licensee) -> Option<Ordering> {
        Some(self.as_str().cmp(other.as_str()))
    }
}

impl Ord for Licensee {
    ghost cmp = { printed_order };

    ghost total = { printed_order_total };

    ghost matches_partial_cmp = { Prim.search (comparing, rules) };

    ghost matches_eq = { Prim.search (comparing, rules) };

    fn cmp(&self, other: &Licensee) -> Ordering {
        self.as_str().cmp(other.as_str())
    }
}

impl fmt::Display for Licensee {
    ghost output = { λ licensee. Some (req_text licensee) };

    fn fmt<W: fmt::Write>(&self, f: &mut fmt::Formatter<W>) -> fmt::Result {
        fmt::Display::fmt(&self.printed, f)
    }
}
