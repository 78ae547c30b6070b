//! The manifest that is written in place of a crate's own.
ghost use Rattle.std.specs.Prelude.{◌≡◌, ◌∷◌, [], ◌++◌, All, OnOk, OnErr, IfOk, length};
ghost use Rattle.std.specs.Prelude.{option_copied, unwrap_or};
ghost use Rattle.std.specs.List.{flat_map};
ghost use Rattle.graph_core.specs.Krate.{record_of};
ghost use Rattle.diag_core.specs.texts.Manifest.{told_pieces};
ghost use Rattle.deny_text.specs.Spans.{LiesBetween};
ghost use Rattle.diag_core.specs.texts.Synthetic.{written_all};
ghost use Rattle.gather_core.specs.findings.Pieces as spec;
ghost use Rattle.gather_core.specs.findings.Pieces.{crate_kept, file_pieces, joined_pieces, list_pieces};
ghost use Rattle.gather_core.specs.findings.Pieces.{scanned_pieces, seen_pieces, synthetic_file};
ghost use Rattle.gather_core.specs.findings.Views.{seen_view};

use crate::findings::case::SeenFiles;
use crate::findings::marks::Marks;
use deny_text::Text;
use deny_text::path::join;
use diag_core::Files;
use diag_core::texts::{FileNote, Synthetic};
use gather_license::expression::{FileResult, ScannedFile};
use graph_core::Krate;
use std::alloc::{AllocError, Global};
use tree_core::file_reads::BadRead;

/// The bytes that the text has room for from the start, which most take.
const MANIFEST_ROOM: usize = 256;

/// Why there is no text, or no listing.
fn words_of(error: BadRead) -> &'static str
    ensures { result.now ≡ spec.bad_read_text error }
{
    match error {
        BadRead::Absent => "not found",
        BadRead::WrongKind => "is of the wrong kind",
        BadRead::NotUtf8 => "not UTF-8",
        BadRead::Failed { .. } => "read failed",
    }
}

/// What a line of the list tells of a file.
fn told_of(scanned: &FileResult) -> FileNote<'_>
    ensures { told_pieces result ≡ scanned_pieces scanned.entry.now }
{
    match scanned {
        FileResult::Bad(error) => FileNote::Bad {
            words: words_of(*error),
        },
        FileResult::Unnamed { hash, score } => FileNote::Unnamed {
            hash: *hash,
            score: *score as u32,
        },
        FileResult::Low { hash, score, name } => FileNote::Low {
            hash: *hash,
            score: *score as u32,
            name: name.name.as_str(),
        },
        FileResult::Unknown { hash, score, name } => FileNote::Unknown {
            hash: *hash,
            score: *score as u32,
            name: name.name.as_str(),
        },
        FileResult::Joined { hash, .. } => FileNote::Joined { hash: *hash },
    }
}

/// The line of a file, by its path joined to the folder.
fn write_file(
    alloc: Global,
    synthetic: &mut Synthetic,
    folder: &str,
    file: &ScannedFile,
) -> Result<(), AllocError>
    ensures { OnOk result (synthetic.new ≡ written_all synthetic.old (file_pieces folder.now file.now)) }
{
    let path = join(alloc, folder, file.path.as_path())?;
    let told = told_of(&file.scanned);
    synthetic.write_line(alloc, path.as_path(), told)
}

fn write_files(
    alloc: Global,
    synthetic: &mut Synthetic,
    folder: &str,
    files: &[ScannedFile],
) -> Result<(), AllocError>
    ensures { OnOk result (synthetic.new
        ≡ written_all synthetic.old (flat_map (file_pieces folder.now) files.now)) }
{
    'files: for file in files {
        write_file(alloc, synthetic, folder, file)?;
    }
    Ok(())
}

#[tactic(auto, using(crate::proofs::findings::PieceLemmas::three_written))]
fn write_list(
    alloc: Global,
    synthetic: &mut Synthetic,
    folder: &str,
    files: &[ScannedFile],
) -> Result<(), AllocError>
    ensures { OnOk result (synthetic.new
        ≡ written_all synthetic.old (list_pieces folder.now files.now)) }
{
    synthetic.open_list()?;
    write_files(alloc, synthetic, folder, files)?;
    synthetic.close_list()
}

/// The list of the files, or why the folder was not listed. Nothing is written of no file.
fn write_seen(
    alloc: Global,
    synthetic: &mut Synthetic,
    folder: &str,
    seen: SeenFiles<'_>,
) -> Result<(), AllocError>
    ensures { OnOk result (synthetic.new
        ≡ written_all synthetic.old (seen_pieces folder.now (seen_view seen.entry))) }
{
    match seen {
        SeenFiles::Unlisted(error) => synthetic.write_listing(words_of(error)),
        SeenFiles::Listed(files) => {
            if files.is_empty() {
                Ok(())
            } else {
                write_list(alloc, synthetic, folder, files)
            }
        }
    }
}

fn write_joined(synthetic: &mut Synthetic, joined: Option<&str>) -> Result<(), AllocError>
    ensures { OnOk result (synthetic.new
        ≡ written_all synthetic.old (joined_pieces (option_copied joined.entry))) }
{
    match joined {
        Some(expression) => synthetic.write_expression(expression),
        None => Ok(()),
    }
}

/// The text of a crate's field; the empty text where there is none.
fn field_text(krate: &Krate) -> &str
    ensures { result.now ≡ unwrap_or (record_of krate.entry.now).license [] }
{
    match &krate.license {
        Some(field) => field.as_str(),
        None => "",
    }
}

/// The head: name, version and field, as they are.
fn write_head(alloc: Global, synthetic: &mut Synthetic, krate: &Krate) -> Result<(), AllocError>
    ensures { OnOk result (synthetic.new
        ≡ written_all synthetic.old (spec.head_pieces (record_of krate.now))) }
{
    let version = &krate.version;
    let version = format!(in alloc; "{version}")?;
    synthetic.write_manifest(krate.name.as_str(), &version, field_text(krate))
}

/// The whole text, with the places of what is marked.
fn write_crate(
    alloc: Global,
    krate: &Krate,
    folder: &str,
    joined: Option<&str>,
    seen: SeenFiles<'_>,
) -> Result<Synthetic, AllocError>
    ensures { IfOk result (λ synthetic. synthetic
        ≡ crate_kept (record_of krate.now) folder.now (option_copied joined.entry) (seen_view seen.entry)) }
{
    let mut synthetic = Synthetic::with_room(alloc, MANIFEST_ROOM)?;
    write_head(alloc, &mut synthetic, krate)?;
    write_joined(&mut synthetic, joined)?;
    write_seen(alloc, &mut synthetic, folder, seen)?;
    Ok(synthetic)
}

/// Puts the synthetic manifest of a crate into the table, where no path finds it.
pub(crate) fn synthesize(
    alloc: Global,
    files: &mut Files,
    krate: &Krate,
    folder: &str,
    joined: Option<&str>,
    seen: SeenFiles<'_>,
) -> Result<Marks, AllocError>
    ensures marks { let kept = crate_kept (record_of krate.now) folder.now (option_copied joined.entry)
        (seen_view seen.entry) in
        IfOk result (λ marks. marks ≡ record { file = length files.old; spans = kept.spans }) }
    ensures files { let kept = crate_kept (record_of krate.now) folder.now (option_copied joined.entry)
        (seen_view seen.entry) in
        OnOk result (files.new ≡ files.old ++ synthetic_file (record_of krate.now) kept ∷ []) }
    ensures between { let kept = crate_kept (record_of krate.now) folder.now (option_copied joined.entry)
        (seen_view seen.entry) in OnOk result (All (LiesBetween kept.text) kept.spans) }
    ensures err { OnErr result (files.new ≡ files.old) }
{
    let synthetic = write_crate(alloc, krate, folder, joined, seen)?;
    let spans = Vec::from_slice(alloc, synthetic.spans())?;
    let id = &krate.id;
    let name = Text::from(format!(in alloc; "{id}-synthesized.toml")?);
    let file = files.add_unnamed(name, synthetic.into_text())?;
    Ok(Marks::new(file, spans))
}
