//! The keys that the files of a pack are looked up by.
ghost use Rattle.std.specs.Prelude.{◌≡◌, ℕ, List, IfOk, Some};
ghost use Rattle.std.proofs.Common.{rules};
ghost use Rattle.std.specs.Ordering.{eq_by_cmp};
ghost use Rattle.std.specs.Cmp.{eq_by_cmp_equiv, partial_equiv_from_equiv, partial_order_from_total};
ghost use Rattle.std.specs.Cmp.Rules.{comparing};
ghost use Rattle.deny_text.specs.Path.{path_order, path_order_total};
ghost use Rattle.gather_license.specs.files.FileKey.{is_plain};

use deny_text::PathBuf;
use deny_text::path::compare;
use std::alloc::{AllocError, Global};
use std::cmp::Ordering;
use std::marker::Model;

/// A path, seen as its text and ordered as paths are. Plain names, which nearly all licence files have, are not
/// cut into parts for that.
#[derive(Drop)]
pub(crate) struct FileKey {
    path: PathBuf,
    plain: bool,
}

impl Model for FileKey {
    ghost use Rattle.std.specs.Prelude.{◌≡◌, ℕ, List};
    ghost use Rattle.gather_license.specs.files.FileKey.{is_plain};

    ghost Value = { List ℕ };

    ghost view = { λ k. k.path };

    ghost invariant = { λ k. k.plain ≡ is_plain k.path };
}

/// Whether a path is a name that does not begin with a `.`.
fn is_plain(path: &str) -> bool
    ensures { result ≡ is_plain path.now }
{
    let bytes = path.as_bytes();
    match bytes.first() {
        Some(first) => *first != b'.' && !bytes.contains(&b'/'),
        None => false,
    }
}

/// The parts of plain names are the names, so these compare as their bytes do.
#[tactic(auto, using(crate::proofs::files::FileKeyLemmas::plain_order))]
fn compare_keys(x: &FileKey, y: &FileKey) -> Ordering
    ensures { result ≡ path_order x.now y.now }
{
    if x.plain && y.plain {
        return x.as_path().cmp(y.as_path());
    }
    compare(x.as_path(), y.as_path())
}

impl FileKey {
    pub(crate) fn of(alloc: Global, path: &PathBuf) -> Result<FileKey, AllocError>
        ensures { IfOk result (λ key. key ≡ path.now) }
    {
        let path = PathBuf::copy(alloc, path.as_path())?;
        let plain = is_plain(path.as_path());
        Ok(FileKey { path, plain })
    }

    pub(crate) fn path(&self) -> &PathBuf
        ensures { result.now ≡ self.now }
    {
        &self.path
    }

    fn as_path(&self) -> &str
        ensures { result.now ≡ self.now }
    {
        self.path.as_path()
    }
}

impl PartialEq for FileKey {
    ghost eq = { eq_by_cmp path_order };

    ghost laws = { partial_equiv_from_equiv (eq_by_cmp_equiv path_order_total) };

    fn eq(&self, other: &FileKey) -> bool {
        compare_keys(self, other).is_eq()
    }
}

impl Eq for FileKey {
    ghost laws = { eq_by_cmp_equiv path_order_total };
}

impl PartialOrd for FileKey {
    ghost partial_cmp = { λ x y. Some (path_order x y) };

    ghost laws = { partial_order_from_total path_order_total };

    fn partial_cmp(&self, other: &FileKey) -> Option<Ordering> {
        Some(compare_keys(self, other))
    }
}

impl Ord for FileKey {
    ghost cmp = { path_order };

    ghost total = { path_order_total };

    ghost matches_partial_cmp = { Prim.search (comparing, rules) };

    ghost matches_eq = { Prim.search (comparing, rules) };

    fn cmp(&self, other: &FileKey) -> Ordering {
        compare_keys(self, other)
    }
}
