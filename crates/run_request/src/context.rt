//! Which crates of a project are looked at.
//! Called by `asked` of read; the options may be read in any order, since only memory can be refused here.
ghost use Rattle.std.specs.Prelude.{◌≡◌, ◌||◌, IfOk, unwrap_or, codes};
ghost use Rattle.std.specs.List.{flat_map, slice_split};
ghost use Rattle.std.specs.Option.{option_to_list};
ghost use Rattle.clap.specs.Words.{found_of, rows_of, first_of};
ghost use Rattle.deny_text.specs.Path.{join_of};
ghost use Rattle.run_request.specs.Reading.{option_words, is_set, is_comma};
ghost use Rattle.run_request.specs.Request.{krate_context_of, path_at};

use crate::rows::{copied_path, copied_words, is_set, pieces, word_under};
use clap::ArgMatches;
use deny_text::path::join;
use deny_text::{PathBuf, Text, Texts};
use std::alloc::{AllocError, Global};

/// Which crates of a project are looked at, and where its files are.
#[derive(Drop)]
pub struct KrateContext {
    /// Joined to the working folder.
    pub manifest_path: PathBuf,
    /// As it was written.
    pub config_path: Option<PathBuf>,
    /// Joined to the working folder.
    pub metadata_path: Option<PathBuf>,
    pub workspace: bool,
    /// Specs of crates that are left out, in the order of their words.
    pub exclude: Texts,
    pub targets: Texts,
    pub no_default_features: bool,
    pub all_features: bool,
    pub features: Texts,
    pub frozen: bool,
    /// Also where `frozen` is given.
    pub locked: bool,
    /// Also where `frozen` is given.
    pub offline: bool,
    pub exclude_dev: bool,
    pub exclude_unpublished: bool,
    /// The working folder.
    pub cwd: PathBuf,
}

impl KrateContext {
    /// What the matches of the options before the subcommand ask for.
    pub(crate) fn from_matches(
        alloc: Global,
        matches: &ArgMatches<'_>,
        cwd: &str,
    ) -> Result<KrateContext, AllocError>
        ensures { IfOk result (λ context. context
            ≡ krate_context_of (rows_of (found_of matches.now)) cwd.now) }
    {
        let paths = paths_given(alloc, matches, cwd)?;
        let lists = lists_given(alloc, matches)?;
        let frozen = is_set(matches, "frozen");
        Ok(KrateContext {
            manifest_path: paths.manifest,
            config_path: paths.config,
            metadata_path: paths.metadata,
            workspace: is_set(matches, "workspace"),
            exclude: lists.exclude,
            targets: lists.targets,
            no_default_features: is_set(matches, "no-default-features"),
            all_features: is_set(matches, "all-features"),
            features: lists.features,
            frozen,
            locked: is_set_or(matches, "locked", frozen),
            offline: is_set_or(matches, "offline", frozen),
            exclude_dev: is_set(matches, "exclude-dev"),
            exclude_unpublished: is_set(matches, "exclude-unpublished"),
            cwd: paths.cwd,
        })
    }
}

/// The paths of a context.
#[derive(Drop)]
struct GivenPaths {
    manifest: PathBuf,
    config: Option<PathBuf>,
    metadata: Option<PathBuf>,
    cwd: PathBuf,
}

/// The lists of a context.
#[derive(Drop)]
struct GivenLists {
    exclude: Texts,
    targets: Texts,
    features: Texts,
}

/// The paths that the matches ask for.
fn paths_given(alloc: Global, matches: &ArgMatches<'_>, cwd: &str) -> Result<GivenPaths, AllocError>
    ensures { let rows = rows_of (found_of matches.now) in
        IfOk result (λ paths. paths ≡ record {
          manifest = unwrap_or (path_at cwd.now (codes "manifest-path") rows) (join_of cwd.now (codes "Cargo.toml"));
          config = first_of (codes "config") rows;
          metadata = path_at cwd.now (codes "metadata-path") rows;
          cwd = cwd.now;
        }) }
{
    let manifest = manifest_path(alloc, matches, cwd)?;
    let config = copied_path(alloc, matches, "config")?;
    let metadata = path_at(alloc, matches, "metadata-path", cwd)?;
    let cwd = PathBuf::copy(alloc, cwd)?;
    Ok(GivenPaths {
        manifest,
        config,
        metadata,
        cwd,
    })
}

/// The lists that the matches ask for.
fn lists_given(alloc: Global, matches: &ArgMatches<'_>) -> Result<GivenLists, AllocError>
    ensures { let rows = rows_of (found_of matches.now) in
        IfOk result (λ lists. lists ≡ record {
          exclude = option_words (codes "exclude") rows;
          targets = option_to_list (first_of (codes "target") rows);
          features = flat_map (slice_split is_comma) (option_words (codes "features") rows);
        }) }
{
    let exclude = copied_words(alloc, matches, "exclude")?;
    let targets = targets(alloc, matches)?;
    let features = pieces(alloc, matches, "features")?;
    Ok(GivenLists {
        exclude,
        targets,
        features,
    })
}

/// Whether an option without a value was used, or is implied.
fn is_set_or(matches: &ArgMatches<'_>, option: &str, implied: bool) -> bool
    ensures { result ≡ (is_set option.now (rows_of (found_of matches.now)) || implied) }
{
    is_set(matches, option) || implied
}

/// The path of an option, joined to the working folder.
pub(crate) fn path_at(
    alloc: Global,
    matches: &ArgMatches<'_>,
    option: &str,
    cwd: &str,
) -> Result<Option<PathBuf>, AllocError>
    ensures { IfOk result (λ path. path ≡ path_at cwd.now option.now (rows_of (found_of matches.now))) }
{
    match word_under(matches, option) {
        Some(word) => {
            let path = join(alloc, cwd, word)?;
            Ok(Some(path))
        }
        None => Ok(None),
    }
}

/// The manifest: that of the working folder where none is given.
fn manifest_path(alloc: Global, matches: &ArgMatches<'_>, cwd: &str) -> Result<PathBuf, AllocError>
    ensures { IfOk result (λ path. path
        ≡ unwrap_or (path_at cwd.now (codes "manifest-path") (rows_of (found_of matches.now)))
        (join_of cwd.now (codes "Cargo.toml"))) }
{
    match word_under(matches, "manifest-path") {
        Some(word) => join(alloc, cwd, word),
        None => join(alloc, cwd, "Cargo.toml"),
    }
}

fn targets(alloc: Global, matches: &ArgMatches<'_>) -> Result<Texts, AllocError>
    ensures { IfOk result (λ targets. targets
        ≡ option_to_list (first_of (codes "target") (rows_of (found_of matches.now)))) }
{
    let mut targets = Texts::new(alloc);
    if let Some(word) = word_under(matches, "target") {
        let target = Text::copy(alloc, word)?;
        targets.push(target)?;
    }
    Ok(targets)
}
