//! Lists that are put in order.
ghost use Rattle.std.specs.Prelude.{IfOk};
ghost use Rattle.policy_core.specs.validate.Order.{PutsInOrder, by_path, by_printed};

use policy_parts::FileSources;
use policy_parts::entries::Licensees;
use std::alloc::AllocError;

/// Licensees by printed bytes; equals stay as they stood, and none is lost.
pub(crate) fn sort_licensees(licensees: Licensees) -> Result<Licensees, AllocError>
    ensures { IfOk result (PutsInOrder by_printed licensees) }
{
    let mut items = licensees.into_vec();
    items.sort()?;
    Ok(Licensees::from(items))
}

/// Files by their paths, part by part; equals stay as they stood.
pub(crate) fn sort_files(files: FileSources) -> Result<FileSources, AllocError>
    ensures { IfOk result (PutsInOrder by_path files) }
{
    let mut items = files.into_vec();
    items.sort_by(|one, other| one.path.value.cmp(&other.path.value))?;
    Ok(FileSources::from(items))
}
