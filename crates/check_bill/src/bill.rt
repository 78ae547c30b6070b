//! What a bill is.
ghost use Rattle.std.specs.Prelude.{◌≡◌, ◌↔◌, IsTrue};
ghost use Rattle.check_bill.specs.Bills.{IsSame};

use deny_text::{ListOf, Text};

/// A crate of a release, and what is said of its licence.
#[derive(Drop)]
pub struct BillPackage {
    pub name: Text,
    pub version: Text,
    /// The licence that the policy's choice concludes.
    pub concluded: Text,
    /// The licence that is declared for the crate.
    pub declared: Text,
}

/// The crates of a release, in the order of their numbers, which count from 1.
pub type BillPackages = ListOf<BillPackage>;

/// A bill of the crates that are in a release.
#[derive(Drop)]
pub struct Bill {
    /// The document's name.
    pub name: Text,
    /// The absolute address that is the document's own.
    pub namespace: Text,
    /// The moment at which the document was made.
    pub created: Text,
    pub packages: BillPackages,
}

/// Whether two texts are the same.
fn is_same_text(one: &Text, other: &Text) -> bool
    ensures { IsTrue result ↔ (one.now ≡ other.now) }
{
    one.as_str() == other.as_str()
}

/// Whether two packages are the same in all parts.
fn is_same_package(one: &BillPackage, other: &BillPackage) -> bool
    ensures { IsTrue result ↔ (one.now ≡ other.now) }
{
    is_same_text(&one.name, &other.name)
        && is_same_text(&one.version, &other.version)
        && is_same_text(&one.concluded, &other.concluded)
        && is_same_text(&one.declared, &other.declared)
}

/// Whether the same packages are in two lists, in the same order.
fn are_same_packages(some: &[BillPackage], others: &[BillPackage]) -> bool
    ensures { IsTrue result ↔ (some.now ≡ others.now) }
{
    let mut left = some;
    let mut right = others;
    'packages: while let Some((one, next)) = left.split_first() {
        let Some((other, behind)) = right.split_first() else {
            return false;
        };
        if !is_same_package(one, other) {
            return false;
        }
        left = next;
        right = behind;
    }
    right.is_empty()
}

/// Whether two bills are the same but for the moment at which they were made.
pub fn is_same(one: &Bill, other: &Bill) -> bool
    ensures { IsTrue result ↔ IsSame one.now other.now }
{
    is_same_text(&one.name, &other.name)
        && is_same_text(&one.namespace, &other.namespace)
        && are_same_packages(one.packages.items(), other.packages.items())
}
