//! Where the findings of a validation go.
ghost use Rattle.std.specs.Prelude.{◌≡◌, ◌∷◌, [], ◌++◌, if◌then◌else◌, IfOk, OnOk, OnErr, take};
ghost use Rattle.std.specs.List.Sorted.{IsStable};
ghost use Rattle.diag_core.specs.lists.Dedup.{Sorts, Dedups, GainsFront, by_value};
ghost use Rattle.diag_core.specs.lists.Dedup.{duplicates, warnings_of, warning_where};

use crate::{Diagnostic, FileId, Files, Label, Severity};
use deny_text::{ListOf, Span, Spanned};
use std::alloc::{AllocError, Global};
use std::mem;

/// Findings in order.
pub type Diagnostics = ListOf<Diagnostic>;

/// Values with their places, in order.
pub type SpannedList<T> = ListOf<Spanned<T>>;

/// The file that is validated, the files that are known, and the findings so far.
#[derive(Drop)]
pub struct ValidationContext<'c> {
    pub cfg_id: FileId,
    pub files: &'c mut Files,
    pub diagnostics: &'c mut Diagnostics,
}

impl<'c> ValidationContext<'c> {
    /// Adds a finding, behind the others.
    pub fn push(&mut self, diag: Diagnostic) -> Result<(), AllocError>
        ensures file { self.new.cfg_id ≡ self.old.cfg_id }
        ensures files { (self.new.files.ghost_name ≡ self.old.files.ghost_name)
            × (self.new.files.now ≡ self.old.files.now) }
        ensures place { self.new.diagnostics.ghost_name ≡ self.old.diagnostics.ghost_name }
        ensures ok { OnOk result (self.new.diagnostics.now ≡ self.old.diagnostics.now ++ diag ∷ []) }
        ensures err { OnErr result (self.new.diagnostics.now ≡ self.old.diagnostics.now) }
    {
        self.diagnostics.push(diag)
    }

    /// Sorts a list, warns for each pair of equal neighbours and takes all but the first of equals out. A
    /// list of which not all is reported stays sorted and whole.
    pub fn dedup<T: Ord + Drop>(
        &mut self,
        alloc: Global,
        list: &mut SpannedList<T>,
    ) -> Result<(), AllocError>
        ensures file { self.new.cfg_id ≡ self.old.cfg_id }
        ensures files { (self.new.files.ghost_name ≡ self.old.files.ghost_name)
            × (self.new.files.now ≡ self.old.files.now) }
        ensures place { self.new.diagnostics.ghost_name ≡ self.old.diagnostics.ghost_name }
        ensures told { Dedups T.cmp T.eq self.old.cfg_id list.old list.new
            self.old.diagnostics.now self.new.diagnostics.now result }
    {
        let mut items = mem::replace(list, SpannedList::new(alloc)).into_vec();
        let told = dedup_items(alloc, self.cfg_id, &mut items, self.diagnostics);
        *list = SpannedList::from(items);
        told
    }
}

/// Sorts items, warns for each pair of equal neighbours and takes all but the first of equals out.
fn dedup_items<T: Ord + Drop>(
    alloc: Global,
    file: FileId,
    items: &mut Vec<Spanned<T>>,
    diagnostics: &mut Diagnostics,
) -> Result<(), AllocError>
    ensures { Dedups T.cmp T.eq file items.old.items items.new.items diagnostics.old diagnostics.new result }
{
    match sort_and_warn(alloc, file, items, diagnostics) {
        Ok(()) => {
            items.dedup();
            Ok(())
        }
        Err(error) => Err(error),
    }
}

/// Sorts items and warns for each pair of equal neighbours.
fn sort_and_warn<T: Ord>(
    alloc: Global,
    file: FileId,
    items: &mut Vec<Spanned<T>>,
    diagnostics: &mut Diagnostics,
) -> Result<(), AllocError>
    ensures sorts { Sorts T.cmp items.old.items items.new.items }
    ensures stable { OnOk result (IsStable (by_value T.cmp) items.old.items items.new.items) }
    ensures ok { OnOk result (diagnostics.new ≡ diagnostics.old ++ warnings_of T.eq file items.new.items) }
    ensures err { OnErr result
        (GainsFront diagnostics.old diagnostics.new (warnings_of T.eq file items.new.items)) }
{
    if items.sort().is_err() {
        items.sort_unstable();
        return Err(AllocError);
    }
    warn(alloc, file, items, diagnostics)
}

/// Warns for each pair of equal neighbours.
fn warn<T: Ord>(
    alloc: Global,
    file: FileId,
    items: &[Spanned<T>],
    diagnostics: &mut Diagnostics,
) -> Result<(), AllocError>
    ensures ok { OnOk result (diagnostics.new ≡ diagnostics.old ++ warnings_of T.eq file items.now) }
    ensures err { OnErr result
        (GainsFront diagnostics.old diagnostics.new (warnings_of T.eq file items.now)) }
{
    'pairs: for place in 1..items.len() {
        warn_of(alloc, file, &items[place - 1], &items[place], diagnostics)?;
    }
    Ok(())
}

/// Warns where two items are equal.
fn warn_of<T: Ord>(
    alloc: Global,
    file: FileId,
    one: &Spanned<T>,
    other: &Spanned<T>,
    diagnostics: &mut Diagnostics,
) -> Result<(), AllocError>
    ensures ok { OnOk result
        (diagnostics.new ≡ diagnostics.old ++ warning_where T.eq file one.now other.now) }
    ensures err { OnErr result (diagnostics.new ≡ diagnostics.old) }
{
    if one == other {
        let warning = duplicate(alloc, file, one.span, other.span)?;
        diagnostics.push(warning)?;
    }
    Ok(())
}

/// The warning that the items at two places are equal.
fn duplicate(alloc: Global, file: FileId, one: Span, other: Span) -> Result<Diagnostic, AllocError>
    ensures { IfOk result (λ diag. diag ≡ duplicates file one other) }
{
    Diagnostic::new(alloc, Severity::Warning)
        .with_message("duplicate items detected")?
        .with_label(Label::secondary(alloc, file, one))?
        .with_label(Label::secondary(alloc, file, other))
}
