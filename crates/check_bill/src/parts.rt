//! The parts of a bill in its bytes.
ghost use Rattle.std.specs.Prelude.{◌≡◌, [], IfOk, length};
ghost use Rattle.check_bill.specs.Reading as spec;
ghost use Rattle.check_bill.specs.Reading.{Reads, head_of, package_of};

use crate::bill::{Bill, BillPackage, BillPackages};
use crate::error::BillError;
use crate::forms::TextForm;
use crate::steps::{behind_number, behind_text, read_field};
use deny_text::Text;
use std::alloc::{AllocError, Global};

/// The texts in front of the packages.
#[derive(Clone, Copy)]
pub(crate) struct HeadParts<'b> {
    name: &'b str,
    namespace: &'b str,
    created: &'b str,
}

/// The texts of a package.
#[derive(Clone, Copy)]
pub(crate) struct PackageParts<'b> {
    name: &'b str,
    version: &'b str,
    concluded: &'b str,
    declared: &'b str,
}

/// The lines in front of the packages.
#[tactic(auto, unfolding(crate::specs::Reading::head_at))]
pub(crate) fn read_head<'b>(bytes: &'b [u8]) -> Result<(HeadParts<'b>, &'b [u8]), BillError>
    ensures { Reads (λ read. (head_of read.0, read.1.now)) result (spec.head_at bytes.now) }
{
    let front =
        b"SPDXVersion: SPDX-2.3\nDataLicense: CC0-1.0\nSPDXID: SPDXRef-DOCUMENT\nDocumentName: ";
    let (name, rest) = read_field(bytes, front, TextForm::Word)?;
    let (namespace, rest) = read_field(rest, b"\nDocumentNamespace: ", TextForm::Word)?;
    let front = b"\nCreator: Tool: cargo-deny-0.20.2\nCreated: ";
    let (created, rest) = read_field(rest, front, TextForm::Moment)?;
    let rest = behind_text(rest, b"\n")?;
    let head = HeadParts {
        name,
        namespace,
        created,
    };
    Ok((head, rest))
}

/// The name and the version of the package that has a number.
#[tactic(auto, unfolding(crate::specs::Reading::named_at))]
fn read_named(bytes: &[u8], number: usize) -> Result<((&str, &str), &[u8]), BillError>
    ensures { Reads (λ read. ((read.0.0.now, read.0.1.now), read.1.now)) result
        (spec.named_at number bytes.now) }
{
    let (name, rest) = read_field(bytes, b"\nPackageName: ", TextForm::Line)?;
    let rest = behind_text(rest, b"\nSPDXID: SPDXRef-")?;
    let rest = behind_number(rest, number)?;
    let (version, rest) = read_field(rest, b"\nPackageVersion: ", TextForm::Line)?;
    Ok(((name, version), rest))
}

/// The licences of the package that has a number, which are concluded and declared.
#[tactic(auto, unfolding(crate::specs::Reading::licensed_at))]
fn read_licensed(bytes: &[u8], number: usize) -> Result<((&str, &str), &[u8]), BillError>
    ensures { Reads (λ read. ((read.0.0.now, read.0.1.now), read.1.now)) result
        (spec.licensed_at number bytes.now) }
{
    let front =
        b"\nPackageDownloadLocation: NOASSERTION\nFilesAnalyzed: false\nPackageLicenseConcluded: ";
    let (concluded, rest) = read_field(bytes, front, TextForm::Line)?;
    let (declared, rest) = read_field(rest, b"\nPackageLicenseDeclared: ", TextForm::Line)?;
    let front =
        b"\nPackageCopyrightText: NOASSERTION\nRelationship: SPDXRef-DOCUMENT DESCRIBES SPDXRef-";
    let rest = behind_text(rest, front)?;
    let rest = behind_number(rest, number)?;
    let rest = behind_text(rest, b"\n")?;
    Ok(((concluded, declared), rest))
}

/// The lines of the package that has a number.
#[tactic(auto, unfolding(crate::specs::Reading::package_at))]
fn read_parts<'b>(bytes: &'b [u8], number: usize) -> Result<(PackageParts<'b>, &'b [u8]), BillError>
    ensures { Reads (λ read. (package_of read.0, read.1.now)) result
        (spec.package_at number bytes.now) }
{
    let ((name, version), rest) = read_named(bytes, number)?;
    let ((concluded, declared), rest) = read_licensed(rest, number)?;
    let parts = PackageParts {
        name,
        version,
        concluded,
        declared,
    };
    Ok((parts, rest))
}

impl<'b> PackageParts<'b> {
    /// A package of its own.
    fn owned(&self, alloc: Global) -> Result<BillPackage, AllocError>
        ensures { IfOk result (λ krate. krate ≡ package_of self.now) }
    {
        let name = Text::copy(alloc, self.name)?;
        let version = Text::copy(alloc, self.version)?;
        let concluded = Text::copy(alloc, self.concluded)?;
        let declared = Text::copy(alloc, self.declared)?;
        Ok(BillPackage {
            name,
            version,
            concluded,
            declared,
        })
    }
}

fn read_package(
    alloc: Global,
    bytes: &[u8],
    number: usize,
) -> Result<(BillPackage, &[u8]), BillError>
    ensures { Reads (λ read. (read.0, read.1.now)) result (spec.package_at number bytes.now) }
{
    let (parts, rest) = read_parts(bytes, number)?;
    let package = parts.owned(alloc)?;
    Ok((package, rest))
}

/// Whether there are bytes.
fn has_more(bytes: &[u8]) -> bool
    ensures { result ≡ spec.has_more bytes.now }
{
    match bytes {
        [_, ..] => true,
        [] => false,
    }
}

/// The packages, up to the end.
#[tactic(auto, using(crate::proofs::Loops::packages_more, crate::proofs::Loops::packages_last, crate::proofs::Loops::package_smaller))]
pub(crate) fn read_packages(alloc: Global, bytes: &[u8]) -> Result<BillPackages, BillError>
    ensures { Reads (λ packages. packages) result
        (spec.packages_on (length bytes.now) [] bytes.now) }
{
    let mut packages = BillPackages::new(alloc);
    let mut rest = bytes;
    'packages: while has_more(rest) {
        let number = packages.items().len() + 1;
        let (package, after) = match read_package(alloc, rest, number) {
            Ok(read) => read,
            Err(error) => return Err(error),
        };
        packages.push(package)?;
        rest = after;
    }
    Ok(packages)
}

impl<'b> HeadParts<'b> {
    /// A bill of its own, with these packages.
    pub(crate) fn with(&self, alloc: Global, packages: BillPackages) -> Result<Bill, AllocError>
        ensures { IfOk result (λ bill. bill ≡ spec.bill_with (head_of self.now) packages) }
    {
        let name = Text::copy(alloc, self.name)?;
        let namespace = Text::copy(alloc, self.namespace)?;
        let created = Text::copy(alloc, self.created)?;
        Ok(Bill {
            name,
            namespace,
            created,
            packages,
        })
    }
}
