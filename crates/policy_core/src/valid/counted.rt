//! A valid policy whose entries are asked by counted steps alone, at one ledger.
ghost use Rattle.std.specs.Prelude.{◌≡◌, ◌↔◌, ◌+◌, ◌≤◌, ◌<◌, IsTrue, IfOk, false, get_or, length, map, slice_get};
ghost use Rattle.std.specs.Option.{option_map_or};
ghost use Rattle.graph_core.specs.Krate.{record_of};
ghost use Rattle.policy_core.specs.valid.Indexes as indexes;
ghost use Rattle.policy_core.specs.valid.Indexes.{families_in};
ghost use Rattle.policy_core.specs.valid.Policy.{IsPrivate, granted_licensees};
ghost use Rattle.policy_core.specs.valid.Satisfied.{satisfies};
ghost use Rattle.policy_core.specs.valid.View.{req_of, grant_of, policy_of};

use crate::valid::policy::{ValidConfig, ValidException};
use deny_text::{Span, Steps, Text};
use diag_core::FileId;
use graph_core::Krate;
use policy_parts::LintLevel;
use policy_parts::entries::Licensee;
use spdx_core::LicenseReq;
use spdx_terms::families::{FamilyIndex, FamilyIndexes};
use std::alloc::{AllocError, Global};
use std::marker::{Model, PhantomData};
use std::sync::ledger::Ledger;
use url::Url;

/// A valid policy, of which no licensee is lent: whether one satisfies a term is told by `satisfies_at` of
/// `CountedLicensees` alone, which counts in the ledger that `L` names. All else that it tells counts nothing.
#[derive(Drop)]
pub struct CountedPolicy<'p, L: Ledger> {
    config: &'p ValidConfig,
    ledger: PhantomData<L>,
}

/// Some licensees of a policy, in order.
#[derive(Drop)]
pub struct CountedLicensees<'p, L: Ledger> {
    licensees: &'p [Licensee],
    ledger: PhantomData<L>,
}

/// An allowed licensee, of which its place in the policy's file alone is told.
#[derive(Drop)]
pub struct AllowedPlace<'p> {
    licensee: &'p Licensee,
}

/// An exception, of which its place in its file alone is told.
#[derive(Drop)]
pub struct ExceptionPlace<'p> {
    exception: &'p ValidException,
}

impl<'p, L: Ledger> Model for CountedPolicy<'p, L> {
    ghost use Rattle.policy_core.specs.declared.valid.policy.ValidConfig.{ValidConfig};
    ghost use Rattle.policy_core.specs.valid.Code.{config_code};

    ghost Value = { ValidConfig };

    ghost coded = { config_code };

    ghost view = { λ counted. counted.config.now };
}

impl<'p, L: Ledger> Model for CountedLicensees<'p, L> {
    ghost use Rattle.std.specs.Prelude.{List};
    ghost use Rattle.policy_parts.specs.declared.entries.licensee.Licensee.{Licensee};

    ghost Value = { List Licensee };

    ghost view = { λ counted. counted.licensees.now };
}

impl<'p> Model for AllowedPlace<'p> {
    ghost use Rattle.policy_parts.specs.declared.entries.licensee.Licensee.{Licensee};

    ghost Value = { Licensee };

    ghost view = { λ place. place.licensee.now };
}

impl<'p> Model for ExceptionPlace<'p> {
    ghost use Rattle.policy_core.specs.declared.valid.policy.ValidException.{ValidException};

    ghost Value = { ValidException };

    ghost view = { λ place. place.exception.now };
}

/// Whether a licensee satisfies a term. It takes one step.
fn satisfies_term<L: Ledger>(licensee: &Licensee, term: &LicenseReq, steps: &mut Steps<L>) -> bool
    ensures answer { result ≡ satisfies (req_of licensee.now) term.now }
    ensures tick { steps.new ≡ steps.old + 1 }
{
    licensee.0.value.satisfies(term, steps)
}

/// The licensees of the exception at a place.
fn granted_at(exceptions: &[ValidException], place: usize) -> &[Licensee]
    ensures { map req_of result.now ≡ granted_licensees (map grant_of exceptions.now) place }
{
    match exceptions.get(place) {
        Some(exception) => exception.allowed.items(),
        None => &[],
    }
}

/// The index of some licensees.
fn index_of(alloc: Global, licensees: &[Licensee]) -> Result<FamilyIndex, AllocError>
    ensures { IfOk result (λ index. index ≡ families_in (map req_of licensees.now)) }
{
    let mut index = FamilyIndex::new(alloc);
    'licensees: for licensee in licensees {
        index.push(&licensee.0.value)?;
    }
    Ok(index)
}

/// The index of the licensees of each exception.
fn indexes_of(alloc: Global, exceptions: &[ValidException]) -> Result<FamilyIndexes, AllocError>
    ensures { IfOk result (λ found. found ≡ indexes.granted_families (map grant_of exceptions.now)) }
{
    let mut indexes = FamilyIndexes::new(alloc);
    'exceptions: for exception in exceptions {
        let index = index_of(alloc, exception.allowed.items())?;
        indexes.push(index)?;
    }
    Ok(indexes)
}

impl<'p, L: Ledger> CountedLicensees<'p, L> {
    /// Whether the licensee at a place satisfies a term. It takes a step where there is one.
    pub fn satisfies_at(&self, place: usize, term: &LicenseReq, steps: &mut Steps<L>) -> bool
        ensures answer { let licensee = slice_get (map req_of self.now) place in
            result ≡ option_map_or (λ req. satisfies req term.now) licensee false }
        ensures steps { steps.old ≤ steps.new }
        ensures bound { steps.new ≤ steps.old + 1 }
    {
        match self.licensees.get(place) {
            Some(licensee) => satisfies_term(licensee, term, steps),
            None => false,
        }
    }
}

impl<'p> AllowedPlace<'p> {
    pub fn span(&self) -> Span
        ensures { result ≡ self.now.0.span }
    {
        self.licensee.0.span
    }
}

impl<'p> ExceptionPlace<'p> {
    /// The file that it is in.
    pub fn file_id(&self) -> FileId
        ensures { result ≡ self.now.file_id }
    {
        self.exception.file_id
    }

    /// Where the name of its spec is.
    pub fn span(&self) -> Span
        ensures { result ≡ self.now.spec.span }
    {
        let exception = self.exception;
        exception.spec.name.span
    }
}

impl<'p, L: Ledger> CountedPolicy<'p, L> {
    /// The same policy.
    pub fn of(config: &'p ValidConfig) -> CountedPolicy<'p, L>
        ensures { result ≡ config.now }
    {
        CountedPolicy {
            config,
            ledger: PhantomData,
        }
    }

    // ---- licensees

    /// The allowed licensees.
    pub fn allowed(&self) -> CountedLicensees<'p, L>
        ensures { result ≡ self.now.allowed }
    {
        CountedLicensees {
            licensees: self.config.allowed.items(),
            ledger: PhantomData,
        }
    }

    /// The licensees of the exception at a place.
    pub fn granted(&self, exception: usize) -> CountedLicensees<'p, L>
        ensures { map req_of result ≡ granted_licensees (map grant_of self.now.exceptions) exception }
    {
        CountedLicensees {
            licensees: granted_at(self.config.exceptions.items(), exception),
            ledger: PhantomData,
        }
    }

    /// The index of the allowed licensees by their families.
    pub fn allowed_families(&self, alloc: Global) -> Result<FamilyIndex, AllocError>
        ensures { IfOk result (λ index. index ≡ families_in (map req_of self.now.allowed)) }
    {
        index_of(alloc, self.config.allowed.items())
    }

    /// The index of the licensees of each exception.
    pub fn granted_families(&self, alloc: Global) -> Result<FamilyIndexes, AllocError>
        ensures { IfOk result (λ found. found ≡ indexes.granted_families (map grant_of self.now.exceptions)) }
    {
        indexes_of(alloc, self.config.exceptions.items())
    }

    // ---- crates that are passed over

    /// Whether a crate is passed over, as `is_private` of the policy tells it.
    pub fn is_private(&self, krate: &Krate) -> bool
        ensures { IsTrue result ↔ IsPrivate (policy_of self.now) (record_of krate.now) }
    {
        self.config.is_private(krate)
    }

    /// Whether private crates are passed over.
    pub fn ignores_private(&self) -> bool
        ensures { result ≡ self.now.private.ignore }
    {
        self.config.private.ignore
    }

    /// The registries that make a crate private.
    pub fn registries(&self) -> &'p [Text]
        ensures { result.now ≡ self.now.private.registries }
    {
        self.config.private.registries.items()
    }

    /// The addresses that make a crate private.
    pub fn ignore_sources(&self) -> &'p [Url]
        ensures { result.now ≡ self.now.ignore_sources }
    {
        self.config.ignore_sources.items()
    }

    // ---- places of entries, and what is asked for where they are unused

    /// The policy's file.
    pub fn file_id(&self) -> FileId
        ensures { result ≡ self.now.file_id }
    {
        self.config.file_id
    }

    /// How many licensees are allowed.
    pub fn allowed_count(&self) -> usize
        ensures { result ≡ length self.now.allowed }
    {
        self.config.allowed.items().len()
    }

    pub fn exception_count(&self) -> usize
        ensures { result ≡ length self.now.exceptions }
    {
        self.config.exceptions.items().len()
    }

    /// The allowed licensee that is so many behind the first.
    pub fn allowed_at(&self, place: usize) -> AllowedPlace<'p>
        requires { place < length self.now.allowed }
        ensures { result ≡ get_or self.now.allowed place result }
    {
        AllowedPlace {
            licensee: &self.config.allowed.items()[place],
        }
    }

    /// The exception that is so many behind the first.
    pub fn exception_at(&self, place: usize) -> ExceptionPlace<'p>
        requires { place < length self.now.exceptions }
        ensures { result ≡ get_or self.now.exceptions place result }
    {
        ExceptionPlace {
            exception: &self.config.exceptions.items()[place],
        }
    }

    /// What is asked for where an allowed licensee allows no term.
    pub fn unused_allowed_license(&self) -> LintLevel
        ensures { result ≡ self.now.unused_allowed_license }
    {
        self.config.unused_allowed_license
    }

    /// What is asked for where an exception allows no term.
    pub fn unused_license_exception(&self) -> LintLevel
        ensures { result ≡ self.now.unused_license_exception }
    {
        self.config.unused_license_exception
    }
}
