//! What a catalogue of licences answers.
ghost use Rattle.std.specs.Prelude.{◌≡◌, ◌↔◌, IsTrue, IfSome, IfNone, Contains};
ghost use Rattle.spdx_terms.specs.catalog.Catalog.{CatalogLists, entry_of, IsLongestImprecise, BeginsNone};
ghost use Rattle.spdx_terms.specs.catalog.Catalog.{IsCatalog};

/// What a catalogue says of one licence name.
#[derive(Clone, Copy, PartialEq, Eq, Debug)]
pub struct LicenseEntry {
    /// The number of the family whose versions may stand for one another.
    pub family: u32,
    /// Orders the versions of a family: ten times the major number plus the minor number.
    pub rank: u32,
    /// The name means this version or any later one.
    pub later: bool,
    /// The name is no longer to be used in expressions.
    pub deprecated: bool,
    /// The name belongs to a family of the GNU licences.
    pub gnu: bool,
}

/// A known way to write a licence that is no licence name, found at the start of a text.
#[derive(Clone, Copy, Debug)]
pub struct Imprecise<'c> {
    /// The bytes of the text that it takes.
    pub len: usize,
    /// The licence that is meant.
    pub name: &'c str,
}

/// A catalogue of licence names, exception names, and imprecise texts with the licences that they mean.
pub trait Catalog {
    ghost lists: { Self → CatalogLists };

    /// What is known of a licence name, which is distinguished by its letters' case.
    fn license(&self, name: &str) -> Option<LicenseEntry>
        ensures { result ≡ entry_of (lists self.now).licenses name.now };

    /// Whether this is the name of a licence exception.
    fn exception(&self, name: &str) -> bool
        ensures { IsTrue result ↔ Contains (lists self.now).exceptions name.now };

    /// The longest imprecise text that begins `text`, without regard to ASCII case.
    fn imprecise(&self, text: &str) -> Option<Imprecise<'_>>
        ensures found { IfSome result (λ found.
            IsLongestImprecise (lists self.now).imprecise text.now found.len found.name.now) }
        ensures none { IfNone result (BeginsNone (lists self.now).imprecise text.now) };

    ghost lawful: { (c : Self) → IsCatalog (lists c) };
}
