//! Gathering.
ghost use Rattle.std.specs.Prelude.{◌≡◌, ◌⊎◌, [], IfOk, OnErr, All, map, None, Some};
ghost use Rattle.std.specs.Option.{option_map_or};
ghost use Rattle.tree_core.specs.Hearing.{Made};
ghost use Rattle.graph_core.specs.Krate.{record_of};
ghost use Rattle.graph_core.specs.Metadata.{Graph};
ghost use Rattle.gather_license.specs.Priority.{field_of, folder_of};
ghost use Rattle.gather_license.specs.Settled.{scanner_of_scan};
ghost use Rattle.graph_core.specs.selection.Choice.{Choice};
ghost use Rattle.graph_core.specs.selection.Listed.{IsChosen, IsListOf, record_behind, selected_in};
ghost use Rattle.graph_core.specs.selection.Walks.{Selected};
ghost use Rattle.gather_core.specs.findings.Faults.{field_faults};
ghost use Rattle.gather_core.specs.findings.Premises.{FaultsLie};
ghost use Rattle.gather_core.specs.Calls.{AreTurnsByReads, IsByOwnReads, IsTurnHeard, StarvesGathering, StarvesTaking};
ghost use Rattle.gather_core.specs.Entries.{clarifications_of, entries_of};
ghost use Rattle.gather_core.specs.Gathered.{include_of, krate_of, scanner_of_gatherer, threshold_of};
ghost use Rattle.gather_core.specs.Premises.{ArePlacedIn, Grows, IsPlacedAt};
ghost use Rattle.gather_core.specs.Rules.{rules_of};
ghost use Rattle.gather_core.specs.Taken.{turn_with};
ghost use Rattle.gather_core.specs.Turns.{field_text, records_in};

use crate::findings::{FieldRead, ParseErrors, read_field};
use crate::rules::RuleIndex;
use crate::summary::{KrateLicense, KrateLicenses, Summary};
use crate::tell::tell;
use crate::turn::take;
use diag_core::Files;
use gather_license::Scan;
use graph_core::Krate;
use graph_core::selection::{Include, Krates};
use policy_core::valid::ValidConfig;
use spdx_terms::catalog::{Catalog, Identifier};
use std::alloc::{AllocError, Global};
use tree_core::Tree;

/// Settles under which licence each crate is.
#[derive(Drop)]
pub struct Gatherer<'i, I> {
    store: Option<&'i I>,
    threshold: u8,
    keeps: bool,
}

/// The least score of a name that is joined: a number of hundredths, cut to 0..100.
pub fn cut_threshold(hundredths: i64) -> u8
    ensures { result ≡ threshold_of hundredths }
{
    if hundredths < 0 {
        return 0;
    }
    if hundredths > 100 {
        return 100;
    }
    hundredths as u8
}

/// A crate's field, with what is wrong with it; nothing is, where there is none.
fn read_krate<C: Catalog>(
    alloc: Global,
    krate: &Krate,
    catalog: &C,
) -> Result<FieldRead, AllocError>
    ensures expression { IfOk result (λ read.
        read.expression ≡ field_of (C.lists catalog.now) (record_of krate.now)) }
    ensures faults { IfOk result (λ read.
        read.faults ≡ option_map_or (field_faults (C.lists catalog.now)) (record_of krate.now).license []) }
    ensures inside { IfOk result (λ read. FaultsLie (field_text (record_of krate.now)) read.faults) }
{
    match &krate.license {
        Some(text) => read_field(alloc, text.as_str(), catalog),
        None => Ok(FieldRead {
            expression: None,
            faults: ParseErrors::new(alloc),
        }),
    }
}

/// The licence of a crate, and what is found of it.
fn license_of<'k, T: Tree, I: Identifier, C: Catalog>(
    alloc: Global,
    tree: &mut T,
    files: &mut Files,
    scan: &Scan<'_, I, C>,
    rules: &RuleIndex<'_>,
    krate: &'k Krate,
) -> Result<KrateLicense<'k>, AllocError>
    ensures krate { IfOk result (λ license. krate_of license ≡ record_of krate.now) }
    // over any tree, by the answers to the crate's own reads, which are all the calls
    ensures answered { IfOk result (λ license.
        IsByOwnReads (T.content tree.old) (T.content tree.new) (T.fault_count tree.old)
        (T.fault_count tree.new) (T.trace tree.old) (T.trace tree.new)
        (folder_of (krate_of license)) license.reads (IsTurnHeard
        (scanner_of_scan C.lists I.match_of scan.now) rules.now files.old license files.new)) }
    ensures no_memory { let krate = record_of krate.now in OnErr result (
        StarvesTaking (T.content tree.old) (T.content tree.new) (T.fault_count tree.old)
        (T.fault_count tree.new) (T.trace tree.old) (T.trace tree.new)
        (folder_of krate) (λ known_reads manifest. records_in (turn_with
        (scanner_of_scan C.lists I.match_of scan.now) (clarifications_of krate rules.now.clarifications)
        rules.now.exceptions krate known_reads manifest files.old))) }
    ensures grows { Grows files.old files.new }
    ensures placed { ArePlacedIn files.old rules.now.clarifications
        → IfOk result (λ license. IsPlacedAt files.new license) }
{
    let matching = rules.matching(alloc, krate)?;
    let field = read_krate(alloc, krate, scan.catalog)?;
    let exceptions = rules.exceptions();
    let taken = take(
        alloc,
        tree,
        files,
        scan,
        krate,
        &matching,
        exceptions,
        field.expression,
    )?;
    tell(alloc, files, krate, &field.faults, taken)
}

/// The licences of crates, in order.
fn gather_all<'k, T: Tree, I: Identifier, C: Catalog>(
    alloc: Global,
    tree: &mut T,
    files: &mut Files,
    scan: &Scan<'_, I, C>,
    rules: &RuleIndex<'_>,
    krates: &[&'k Krate],
) -> Result<KrateLicenses<'k>, AllocError>
    ensures krates { IfOk result (λ licenses. map krate_of licenses ≡ map record_behind krates.now) }
    // over any tree, by the answers to each crate's own reads, which are all the calls, crate after crate
    ensures answered { IfOk result (λ licenses.
        AreTurnsByReads (T.content tree.old) (T.content tree.new) (T.fault_count tree.old)
        (T.fault_count tree.new) (T.trace tree.old) (T.trace tree.new)
        (scanner_of_scan C.lists I.match_of scan.now) rules.now files.old licenses files.new) }
    ensures no_memory { OnErr result (
        StarvesGathering (T.content tree.old) (T.content tree.new) (T.fault_count tree.old)
        (T.fault_count tree.new) (T.trace tree.old) (T.trace tree.new)
        (scanner_of_scan C.lists I.match_of scan.now) rules.now files.old
        (map record_behind krates.now)) }
    ensures grows { Grows files.old files.new }
    ensures placed { ArePlacedIn files.old rules.now.clarifications
        → IfOk result (λ licenses. All (IsPlacedAt files.new) licenses) }
{
    let mut licenses = KrateLicenses::new(alloc);
    'krates: for krate in krates {
        let license = license_of(alloc, tree, files, scan, rules, krate)?;
        licenses.push(license)?;
    }
    Ok(licenses)
}

impl<'i, I> Gatherer<'i, I> {
    /// A gatherer that identifies licence files by a store.
    pub fn with_store(self, store: &'i I) -> Gatherer<'i, I>
        ensures { result ≡ record self.entry { store = Some store.entry } }
    {
        Gatherer {
            store: Some(store),
            threshold: self.threshold,
            keeps: self.keeps,
        }
    }

    /// A gatherer that joins names of this score and above, in hundredths. A number outside 0 to 100 is cut.
    pub fn with_confidence_threshold(self, hundredths: i64) -> Gatherer<'i, I>
        ensures { result ≡ record self.entry { threshold = threshold_of hundredths } }
    {
        Gatherer {
            store: self.store,
            threshold: cut_threshold(hundredths),
            keeps: self.keeps,
        }
    }

    /// A gatherer that keeps what each licence file is, or does not. Each text is identified anew for that.
    pub fn keeping_files(self, keeps: bool) -> Gatherer<'i, I>
        ensures { result ≡ record self.entry { keeps = keeps } }
    {
        Gatherer {
            store: self.store,
            threshold: self.threshold,
            keeps,
        }
    }
}

impl<'i, I: Identifier> Gatherer<'i, I> {
    /// The licences of the crates that the policy's flags select, in the order of their ids. Each is settled
    /// by the first that holds: a clarification, the crate's field, its licence files, nothing. Behind that the
    /// exceptions are found that count for a crate, and the files that they name are looked at. The manifests
    /// of crates whose fields have their locations there join the files, and the manifests that are written
    /// in place of others. Where memory is refused the files may have grown.
    pub fn gather<'k, T: Tree, C: Catalog>(
        self,
        alloc: Global,
        krates: &'k Krates,
        files: &mut Files,
        policy: &ValidConfig,
        tree: &mut T,
        catalog: &C,
    ) -> Result<Summary<'k>, AllocError>
        ensures krates { IfOk result (λ summary.
            map krate_of summary.nfos ≡ selected_in (include_of policy.now) krates.entry.now) }
        // of each graph and choice that the crates were built of
        ensures listed { (graph : Graph) (choice : Choice) → IsChosen graph choice krates.entry.now
            → IfOk result (λ summary. IsListOf graph (Selected graph choice (include_of policy.now))
            (map krate_of summary.nfos)) }
        // over any tree, by the answers to each crate's own reads, which are all the calls, crate after crate; with
        // what has priority by them, and what the labels cut out of the table that is left
        ensures answered { IfOk result (λ summary.
            AreTurnsByReads (T.content tree.old) (T.content tree.new) (T.fault_count tree.old)
            (T.fault_count tree.new) (T.trace tree.old) (T.trace tree.new)
            (scanner_of_gatherer (C.lists catalog.now) I.match_of self.entry) (rules_of policy.now)
            files.old summary.nfos files.new) }
        // for want of memory no call was made, or those of the first crates and the first ones of the next crate
        ensures no_memory { OnErr result (
            Made (T.content tree.old) (T.content tree.new) (T.fault_count tree.old)
            (T.fault_count tree.new) (T.trace tree.old) (T.trace tree.new) []
            ⊎ StarvesGathering (T.content tree.old) (T.content tree.new) (T.fault_count tree.old)
            (T.fault_count tree.new) (T.trace tree.old) (T.trace tree.new)
            (scanner_of_gatherer (C.lists catalog.now) I.match_of self.entry) (rules_of policy.now)
            files.old (selected_in (include_of policy.now) krates.entry.now)) }
        // where each clarification's places are in its file, each label and each expression is in its own, in the
        // table that is left
        ensures placed { ArePlacedIn files.old (entries_of policy.now)
            → IfOk result (λ summary. All (IsPlacedAt files.new) summary.nfos) }
        // files that were there are as they were, also where memory is refused
        ensures grows { Grows files.old files.new }
    {
        let include = Include {
            dev: policy.include_dev,
            build: policy.include_build,
        };
        let selected = krates.selected(alloc, include)?;
        let rules = RuleIndex::of(alloc, policy)?;
        let scan = Scan {
            identifier: self.store,
            threshold: self.threshold,
            catalog,
            keeps: self.keeps,
        };
        let nfos = gather_all(alloc, tree, files, &scan, &rules, selected.items())?;
        Ok(Summary { nfos })
    }
}

/// A gatherer without a store, which identifies no licence file, with a threshold of 80, and which keeps nothing.
impl<'i, I> Default for Gatherer<'i, I> {
    ghost use Rattle.gather_core.specs.Gathered.{IsDefault};

    ghost is_default = { IsDefault };

    fn default() -> Gatherer<'i, I> {
        Gatherer {
            store: None,
            threshold: 80,
            keeps: false,
        }
    }
}
