//! Laws of the files that are read.
ghost use Rattle.gather_license.specs.files.Steps.{LookUpsKeepFirstSpellings};

/// Paths that are looked up one after another are read as the first spelling of each, in order.
pub fn look_ups_keep_first_spellings()
    ensures { LookUpsKeepFirstSpellings }
{}
