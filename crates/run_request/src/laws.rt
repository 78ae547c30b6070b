//! What holds of the requests of words.
//! Called by nothing: both contracts are laws of definitions in specs, and the bodies hold no code to change.
ghost use Rattle.run_request.specs.Laws.{SecondDenyChangesNothing, FolderShowsInPaths};

/// A second word `deny`, as `cargo deny` passes it on, changes no answer.
pub fn second_deny_changes_nothing()
    ensures { SecondDenyChangesNothing }
{}

/// The working folder shows in the paths of a request alone: in that of the manifest, of the catalogue, of the
/// store, of the metadata, of a verdict file and of the folder itself.
pub fn folder_shows_in_paths()
    ensures { FolderShowsInPaths }
{}
