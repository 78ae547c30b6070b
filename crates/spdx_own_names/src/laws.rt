//! Laws of catalogue files.
ghost use Rattle.spdx_own_names.specs.File.{FilesAreCatalogs};

/// What a file without a fault defines is a catalogue.
pub fn files_are_catalogs()
    ensures { FilesAreCatalogs }
{}
