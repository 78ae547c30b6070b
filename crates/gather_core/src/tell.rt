//! What is reported of a crate, and what is found of it.
ghost use Rattle.std.specs.Prelude.{◌≡◌, IfOk, OnOk, IfSome, All, map, option_copied};
ghost use Rattle.std.specs.Prelude.{option_map};
ghost use Rattle.graph_core.specs.Krate.{record_of};
ghost use Rattle.gather_license.specs.location.Location.{PointsAt};
ghost use Rattle.gather_core.specs.findings.Cuts.{LabelLies, StandsAtCoord, labels_of, text_under};
ghost use Rattle.gather_core.specs.findings.Premises.{FaultsLie};
ghost use Rattle.gather_core.specs.findings.Views.{outcome_view, seen_view};
ghost use Rattle.gather_core.specs.Gathered.{krate_of};
ghost use Rattle.gather_core.specs.Premises.{ByStands, CoordLies, Grows, IsPlacedAt, TextIs};
ghost use Rattle.gather_core.specs.Taken.{IsTaken};
ghost use Rattle.gather_core.specs.Turns as spec;
ghost use Rattle.gather_core.specs.Turns.{IsCutOut, IsTurn, TurnInput, faults_in, field_text, files_left};
ghost use Rattle.gather_core.specs.Turns.{joined_expression_text, outcome_in, points_for, seen_as, text_settled};
ghost use Rattle.gather_core.specs.Turns.{label_texts_for};

use crate::findings::{
    Diags, ExpressionBasis, ParseErrors, PlacedFindings, SeenFiles, UnclarifiedCrate, find,
    missing_file,
};
use crate::summary::KrateLicense;
use crate::told::told_by;
use crate::turn::{TakenLicense, joined};
use diag_core::{Coord, Files};
use gather_license::{FilesSeen, JoinedNames, LicenseBasis, folder};
use graph_core::Krate;
use std::alloc::{AllocError, Global};

/// Findings of files of clarifications that are not there, by the places of their paths.
fn missing_findings(alloc: Global, missing: &[Coord]) -> Result<Diags, AllocError>
    ensures { IfOk result (λ diags. diags ≡ spec.missing_findings missing.now) }
{
    let mut diags = Diags::new(alloc);
    'places: for place in missing {
        let finding = missing_file(alloc, *place)?;
        diags.push(finding)?;
    }
    Ok(diags)
}

/// What is seen of the licence files, as finding takes it.
fn seen_files(seen: &FilesSeen) -> SeenFiles<'_>
    ensures { seen_view result ≡ seen_as seen.entry.now }
{
    match seen {
        FilesSeen::Unlisted(error) => SeenFiles::Unlisted(*error),
        FilesSeen::Listed(files) => SeenFiles::Listed(files.items()),
    }
}

/// The text of joined names, where there is one.
fn text_of(joined: &Option<JoinedNames>) -> Option<&str>
    ensures { option_copied result ≡ joined_expression_text joined.entry.now }
{
    match joined {
        Some(names) => Some(names.expression.as_ref()),
        None => None,
    }
}

/// What settles the licence, as finding takes it; none where that is a clarification.
fn settles(by: &LicenseBasis) -> Option<ExpressionBasis<'_>>
    ensures { option_map outcome_view result ≡ outcome_in by.entry.now }
{
    match by {
        LicenseBasis::Clarified(_) => None,
        LicenseBasis::Field(_) => Some(ExpressionBasis::Field),
        LicenseBasis::Files { seen, joined } => Some(ExpressionBasis::Files {
            seen: seen_files(seen),
            joined: text_of(joined),
        }),
    }
}

/// What is found of a crate, and where its expression is; nothing where a clarification settles its
/// licence.
fn find_points(
    alloc: Global,
    files: &mut Files,
    krate: &Krate,
    faults: &ParseErrors,
    taken: &TakenLicense,
) -> Result<PlacedFindings, AllocError>
    requires faults { FaultsLie (field_text (record_of krate.now)) faults.now }
    requires located { IfSome taken.now.location (λ at.
        PointsAt files.old at (field_text (record_of krate.now))) }
    ensures points { IfOk result (λ found. found
        ≡ points_for (record_of krate.now) faults.now taken.now.location files.old taken.now.by) }
    ensures files { OnOk result (files.new
        ≡ files_left (record_of krate.now) faults.now taken.now.location files.old taken.now.by) }
    ensures inside { IfOk result (λ found. All (LabelLies files.new) (labels_of found.findings)) }
    ensures cuts { IfOk result (λ found. map (text_under files.new) (labels_of found.findings)
        ≡ label_texts_for (record_of krate.now) faults.now taken.now.location taken.now.by) }
    ensures expression { IfOk result (λ found.
        StandsAtCoord files.new found.expression (text_settled (record_of krate.now) taken.now.by)) }
    ensures grows { Grows files.old files.new }
{
    match settles(&taken.by) {
        Some(settles) => {
            let case = UnclarifiedCrate {
                krate,
                folder: folder(krate),
                location: taken.location,
                faults: faults.items(),
                settles,
            };
            find(alloc, files, &case)
        }
        None => Ok(PlacedFindings {
            expression: None,
            findings: Diags::new(alloc),
        }),
    }
}

/// What is reported of a crate by what was taken at its turn.
pub(crate) fn tell<'k>(
    alloc: Global,
    files: &mut Files,
    krate: &'k Krate,
    faults: &ParseErrors,
    taken: TakenLicense,
) -> Result<KrateLicense<'k>, AllocError>
    requires faults { FaultsLie (field_text (record_of krate.now)) faults.now }
    requires located { IfSome taken.location (λ at.
        PointsAt files.old at (field_text (record_of krate.now))) }
    ensures krate { IfOk result (λ license. krate_of license ≡ record_of krate.now) }
    ensures reads { IfOk result (λ license. license.reads ≡ taken.reads) }
    ensures turn { (turn : TurnInput) → turn.krate ≡ record_of krate.now
        → faults.now ≡ faults_in turn.scanner turn.krate → IsTaken turn taken files.old
        → IfOk result (λ license. IsTurn turn license files.new) }
    ensures found { (turn : TurnInput) → turn.krate ≡ record_of krate.now
        → faults.now ≡ faults_in turn.scanner turn.krate → IsTaken turn taken files.old
        → OnOk result (IsCutOut files.new turn) }
    // where the places of clarifications are in their files
    ensures placed { All (CoordLies files.old) taken.missing → ByStands files.old taken.by
        → TextIs (field_text (record_of krate.now)) taken.by
        → IfOk result (λ license. IsPlacedAt files.new license) }
    ensures grows { Grows files.old files.new }
{
    let missing = missing_findings(alloc, taken.missing.items())?;
    let points = find_points(alloc, files, krate, faults, &taken)?;
    let diags = joined(missing, points.findings)?;
    let told = told_by(alloc, taken.location, points.expression, taken.by);
    Ok(KrateLicense {
        krate,
        lic_info: told.info,
        notes: told.notes,
        diags,
        reads: taken.reads,
        exceptions: taken.exceptions,
        kept: taken.kept,
    })
}
