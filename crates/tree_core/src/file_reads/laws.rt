//! Laws of reads.
ghost use Rattle.tree_core.specs.file_reads.Read.{ReadsRise, ReadsTellContent};
ghost use Rattle.tree_core.specs.file_reads.Rising.{RisesCompose, RisesWiden};

/// Reads that rise up to a count and reads that rise from it rise together.
pub fn rises_compose()
    ensures { RisesCompose }
{}

/// Reads rise as well from an earlier count, and up to a later one.
pub fn rises_widen()
    ensures { RisesWiden }
{}

/// Reads whose records tell what their answers say rise, up to the count behind their calls.
pub fn reads_rise()
    ensures { ReadsRise }
{}

/// Where the calls say what a content has, each read says what the content has at its path, but for a
/// failure.
pub fn reads_tell_content()
    ensures { ReadsTellContent }
{}
