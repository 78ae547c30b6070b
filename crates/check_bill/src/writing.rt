//! Writing a bill.
ghost use Rattle.std.specs.Prelude.{◌≡◌, ◌++◌, ◌+◌, [], IfOk, OnOk, string_bytes};
ghost use Rattle.check_bill.specs.Bills.{IsBill};
ghost use Rattle.check_bill.specs.Lines.{head_before, licensed_before, lines_of, named_before};
ghost use Rattle.check_bill.specs.Lines.{package_before, packages_from};
ghost use Rattle.check_bill.specs.Answers.{Spells};

use crate::bill::{Bill, BillPackage};
use deny_text::Bytes;
use std::alloc::{AllocError, Global};
use std::fmt::Write;

/// Appends the lines in front of the packages.
fn push_head(text: &mut String, bill: &Bill) -> Result<(), AllocError>
    ensures { OnOk result (string_bytes text.new ≡ string_bytes text.old ++ head_before bill.now []) }
{
    let Bill {
        name,
        namespace,
        created,
        ..
    } = bill;
    write!(
        text,
        "SPDXVersion: SPDX-2.3\nDataLicense: CC0-1.0\nSPDXID: SPDXRef-DOCUMENT\nDocumentName: {name}\nDocumentNamespace: {namespace}\nCreator: Tool: cargo-deny-0.20.2\nCreated: {created}\n"
    )
}

/// Appends an empty line and what a package is called.
fn push_named(text: &mut String, number: usize, krate: &BillPackage) -> Result<(), AllocError>
    ensures { OnOk result (string_bytes text.new
        ≡ string_bytes text.old ++ named_before number krate.now []) }
{
    let BillPackage { name, version, .. } = krate;
    write!(
        text,
        "\nPackageName: {name}\nSPDXID: SPDXRef-{number}\nPackageVersion: {version}\n"
    )
}

/// Appends what is said of its licence.
fn push_licensed(text: &mut String, number: usize, krate: &BillPackage) -> Result<(), AllocError>
    ensures { OnOk result (string_bytes text.new
        ≡ string_bytes text.old ++ licensed_before number krate.now []) }
{
    let BillPackage {
        concluded,
        declared,
        ..
    } = krate;
    write!(
        text,
        "PackageDownloadLocation: NOASSERTION\nFilesAnalyzed: false\nPackageLicenseConcluded: {concluded}\nPackageLicenseDeclared: {declared}\nPackageCopyrightText: NOASSERTION\nRelationship: SPDXRef-DOCUMENT DESCRIBES SPDXRef-{number}\n"
    )
}

/// Appends the lines of a package.
fn push_package(text: &mut String, number: usize, krate: &BillPackage) -> Result<(), AllocError>
    ensures { OnOk result (string_bytes text.new
        ≡ string_bytes text.old ++ package_before number krate.now []) }
{
    push_named(text, number, krate)?;
    push_licensed(text, number, krate)?;
    Ok(())
}

/// Appends the lines of all packages, which are numbered from 1.
#[tactic(auto, using(crate::proofs::Lines::package_rest))]
fn push_packages(text: &mut String, packages: &[BillPackage]) -> Result<(), AllocError>
    ensures { OnOk result (string_bytes text.new
        ≡ string_bytes text.old ++ packages_from 1 packages.now) }
{
    'packages: for (place, krate) in packages.iter().enumerate() {
        push_package(text, place + 1, krate)?;
    }
    Ok(())
}

/// The lines of a bill.
#[tactic(auto, using(crate::proofs::Lines::head_rest))]
fn text_of(alloc: Global, bill: &Bill) -> Result<String, AllocError>
    ensures { IfOk result (λ text. string_bytes text ≡ lines_of bill.now) }
{
    let mut text = String::new(alloc);
    push_head(&mut text, bill)?;
    push_packages(&mut text, bill.packages.items())?;
    Ok(text)
}

/// The lines of a bill, whose texts may have any form.
pub fn bill_bytes(alloc: Global, bill: &Bill) -> Result<Bytes, AllocError>
    ensures { IfOk result (λ bytes. bytes ≡ lines_of bill.now) }
{
    let text = text_of(alloc, bill)?;
    Ok(Bytes::from(text.into_bytes()))
}

/// The one spelling of a bill.
pub fn write_bill(alloc: Global, bill: &Bill) -> Result<Bytes, AllocError>
    requires { IsBill bill.now }
    ensures lines { IfOk result (λ bytes. bytes ≡ lines_of bill.now) }
    ensures reads { IfOk result (λ bytes. Spells bytes bill.now) }
{
    bill_bytes(alloc, bill)
}
