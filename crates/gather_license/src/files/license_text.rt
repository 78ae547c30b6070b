//! Licence texts in their normal form.
ghost use Rattle.std.specs.Prelude.{◌≡◌, IfOk};
ghost use Rattle.deny_text.specs.Hash.{xxh32_of};
ghost use Rattle.deny_text.specs.Normal.{normal_of};

use deny_text::Text;
use deny_text::hash::hash;
use deny_text::normal::normalize;
use std::alloc::{AllocError, Global};
use std::marker::Model;

/// A licence text in its normal form, with the hash of that.
#[derive(Drop)]
pub struct LicenseText {
    normal: Text,
    hash: u32,
}

impl Model for LicenseText {
    ghost use Rattle.std.specs.Prelude.{◌≡◌, ℕ, List};
    ghost use Rattle.deny_text.specs.Hash.{xxh32_of};

    ghost Value = { List ℕ };

    ghost view = { λ t. t.normal };

    ghost invariant = { λ t. t.hash ≡ xxh32_of t.normal };
}

impl LicenseText {
    /// A text as it was read, in its normal form.
    pub fn of(alloc: Global, text: &str) -> Result<LicenseText, AllocError>
        ensures { IfOk result (λ license. license ≡ normal_of text.now) }
    {
        let normal = normalize(alloc, text)?;
        let hash = hash(normal.as_str().as_bytes());
        Ok(LicenseText { normal, hash })
    }

    /// The normal form.
    pub fn as_str(&self) -> &str
        ensures { result.now ≡ self.now }
    {
        self.normal.as_str()
    }

    /// The hash of the normal form.
    pub fn hash(&self) -> u32
        ensures { result ≡ xxh32_of self.now }
    {
        self.hash
    }
}
