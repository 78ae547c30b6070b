//! The terms of licence expressions.
ghost use Rattle.std.specs.Prelude.{◌≡◌, ◌↔◌, ◌⊎◌, IfOk, IsTrue, Some};
ghost use Rattle.spdx_terms.specs.Terms.{item_text, req_text, family_of};
ghost use Rattle.spdx_terms.specs.Satisfaction.{SatisfiesItem, Satisfies, IsSameVersion, IsLaterVersion};

use deny_text::text::copied_text;
use deny_text::{Span, Text};
use std::alloc::{AllocError, Global};
use std::fmt;

/// What a term names.
#[derive(Drop)]
pub enum LicenseItem {
    /// A licence of the catalogue.
    Spdx {
        name: Text,
        /// The family whose versions may stand for one another.
        family: u32,
        /// Orders the versions of a family: ten times the major number plus the minor number.
        rank: u32,
        /// This version or any later one: by a `+`, or by the name itself.
        later: bool,
        /// A `+` was written. It never is in a licensee.
        plus: bool,
    },
    /// `LicenseRef-` with its id, perhaps behind `DocumentRef-`, its document and `:`.
    Reference {
        doc: Option<Text>,
        id: Text,
    },
}

/// A licence, or a licence with an exception.
#[derive(Drop)]
pub struct LicenseReq {
    pub item: LicenseItem,
    /// The name of the exception behind `WITH`.
    pub exception: Option<Text>,
}

/// A term of an expression. Its place runs from its first word to the end of its `+` or exception.
#[derive(Drop)]
pub struct ExpressionReq {
    pub req: LicenseReq,
    pub span: Span,
}

/// Whose terms may satisfy one another: those of one family, and references.
#[derive(Clone, Copy, Debug, PartialEq, Eq, PartialOrd, Ord)]
pub enum Family {
    Spdx(u32),
    Reference,
}

impl LicenseReq {
    /// The family of its licence; references have one of their own.
    pub fn family(&self) -> Family
        ensures { result ≡ family_of self.now }
    {
        match &self.item {
            LicenseItem::Spdx { family, .. } => Family::Spdx(*family),
            LicenseItem::Reference { .. } => Family::Reference,
        }
    }
}

impl LicenseItem {
    pub fn copy(&self, alloc: Global) -> Result<LicenseItem, AllocError>
        ensures { IfOk result (λ copy. copy ≡ self.now) }
    {
        match self {
            LicenseItem::Spdx {
                name,
                family,
                rank,
                later,
                plus,
            } => {
                let name = Text::copy(alloc, name.as_str())?;
                Ok(LicenseItem::Spdx {
                    name,
                    family: *family,
                    rank: *rank,
                    later: *later,
                    plus: *plus,
                })
            }
            LicenseItem::Reference { doc, id } => {
                let doc = copied_text(alloc, doc)?;
                let id = Text::copy(alloc, id.as_str())?;
                Ok(LicenseItem::Reference { doc, id })
            }
        }
    }
}

impl ExpressionReq {
    pub fn copy(&self, alloc: Global) -> Result<ExpressionReq, AllocError>
        ensures { IfOk result (λ copy. copy ≡ self.now) }
    {
        let item = self.req.item.copy(alloc)?;
        let exception = copied_text(alloc, &self.req.exception)?;
        Ok(ExpressionReq {
            req: LicenseReq { item, exception },
            span: self.span,
        })
    }
}

impl fmt::Display for LicenseItem {
    ghost output = { λ item. Some (item_text item) };

    fn fmt<W: fmt::Write>(&self, f: &mut fmt::Formatter<W>) -> fmt::Result {
        match self {
            LicenseItem::Spdx { name, plus, .. } => {
                let plus = if *plus { "+" } else { "" };
                write!(f, "{name}{plus}")
            }
            LicenseItem::Reference { doc, id } => match doc {
                None => write!(f, "LicenseRef-{id}"),
                Some(doc) => write!(f, "DocumentRef-{doc}:LicenseRef-{id}"),
            },
        }
    }
}

impl fmt::Display for LicenseReq {
    ghost output = { λ req. Some (req_text req) };

    fn fmt<W: fmt::Write>(&self, f: &mut fmt::Formatter<W>) -> fmt::Result {
        let item = &self.item;
        match &self.exception {
            None => write!(f, "{item}"),
            Some(exception) => write!(f, "{item} WITH {exception}"),
        }
    }
}

/// Whether two texts that may be there are the same.
fn is_same(one: &Option<Text>, other: &Option<Text>) -> bool
    ensures { IsTrue result ↔ (one.now ≡ other.now) }
{
    match (one, other) {
        (None, None) => true,
        (Some(one), Some(other)) => one.as_str() == other.as_str(),
        _ => false,
    }
}

/// Whether a version is content with another of its family.
fn version_satisfies(rank: u32, later: bool, term_rank: u32, term_later: bool) -> bool
    ensures { IsTrue result
        ↔ (IsSameVersion rank later term_rank term_later ⊎ IsLaterVersion rank term_rank term_later) }
{
    let same_version = rank == term_rank && (!later || term_later);
    let later_version = term_later && term_rank < rank;
    same_version || later_version
}

impl LicenseItem {
    fn satisfies(&self, term: &LicenseItem) -> bool
        ensures { IsTrue result ↔ SatisfiesItem self.now term.now }
    {
        match (self, term) {
            (
                LicenseItem::Spdx {
                    family,
                    rank,
                    later,
                    ..
                },
                LicenseItem::Spdx {
                    family: term_family,
                    rank: term_rank,
                    later: term_later,
                    ..
                },
            ) => family == term_family && version_satisfies(*rank, *later, *term_rank, *term_later),
            (
                LicenseItem::Reference { doc, id },
                LicenseItem::Reference {
                    doc: term_doc,
                    id: term_id,
                },
            ) => is_same(doc, term_doc) && id.as_str() == term_id.as_str(),
            _ => false,
        }
    }
}

impl LicenseReq {
    /// Whether a policy that allows this is content with `term`.
    pub(crate) fn satisfies(&self, term: &LicenseReq) -> bool
        ensures { IsTrue result ↔ Satisfies self.now term.now }
    {
        is_same(&self.exception, &term.exception) && self.item.satisfies(&term.item)
    }
}
