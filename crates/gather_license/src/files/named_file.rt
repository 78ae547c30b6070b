//! Files that clarifications name.
ghost use Rattle.std.specs.Prelude.{◌≡◌};
ghost use Rattle.gather_license.specs.files.NamedFile.{NamedFileView};

use deny_text::PathBuf;

/// A file with the hash that its normal form is to have.
pub trait NamedFile {
    /// The path and the hash, as contracts see them.
    ghost named: { Self → NamedFileView };

    /// The path from the crate's folder.
    fn path(&self) -> &PathBuf
        ensures { result.now ≡ (named self.now).path };

    fn hash(&self) -> u32
        ensures { result ≡ (named self.now).hash };
}
