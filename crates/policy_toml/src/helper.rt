//! A table that is read key by key.
ghost use Rattle.std.specs.Prelude.{◌≡◌, ◌++◌, option_map, is_some, IfOk, OnOk, OnErr};
ghost use Rattle.policy_toml.specs.HelperState.{state_of, opened_table, without_key, without_faults};
ghost use Rattle.policy_toml.specs.HelperState.{optional_of, after_optional, required_of};
ghost use Rattle.policy_toml.specs.HelperState.{faults_at_end, unexpected_faults, target_at_exit};
ghost use Rattle.toml_value.specs.Taken.{given_back};
ghost use Rattle.policy_toml.specs.Readings.{spanned_of};
ghost use Rattle.toml_value.specs.Taken.{left_by};
ghost use Rattle.toml_value.specs.Removal.{entry_at, names_in};
ghost use Rattle.toml_subset.specs.shapes.Shaped.{AnswersShape, GivesBy, HasFaults, IsToldBy, OnFaults, shaped_of};
ghost use Rattle.toml_subset.specs.shapes.Shapes.{fault_alone, missing};
ghost use Rattle.toml_value.specs.Views.{value_view, entries_view};

use crate::deserialize::{Deserialize, read_value};
use deny_text::{Span, Spanned};
use std::alloc::{AllocError, Global};
use std::mem;
use toml_subset::Key;
use toml_subset::shapes::{DeserError, ErrorKind, ShapeError, ShapeErrors, ValueKind, answer};
use toml_value::{Entries, Value, kind_fault};

/// A table of which keys are taken one after another. It collects what was wrong with their values.
#[derive(Drop)]
pub struct TableHelper<'de> {
    left: Entries<'de>,
    span: Span,
    faults: ShapeErrors,
}

impl<'de> TableHelper<'de> {
    /// Takes a table out of its value. A value that is none stays as it was.
    pub fn new(alloc: Global, value: &mut Value<'de>) -> Result<TableHelper<'de>, DeserError>
        ensures read { GivesBy state_of (opened_table (value_view value.old)) result }
        ensures left { let old = value_view value.old in
            value_view value.new ≡ left_by (opened_table old) old }
    {
        match value.take_table() {
            Some(left) => Ok(TableHelper {
                left,
                span: value.span(),
                faults: ShapeErrors::new(alloc),
            }),
            None => Err(kind_fault(alloc, ValueKind::Table.word(), value)),
        }
    }

    /// Takes the first entry of a name out, and nothing where there is none.
    pub fn take(&mut self, name: &str) -> Option<(Key<'de>, Value<'de>)>
        ensures taken { let left = (state_of self.old).left in
            option_map (λ p. (p.0, value_view p.1)) result ≡ entry_at name.now left }
        ensures after { state_of self.new ≡ without_key name.now (state_of self.old) }
    {
        self.left.remove(name)
    }

    /// A key that has to be there. A refusal hands out the faults that were collected, and then its own.
    pub fn required<T: Deserialize<X>, X>(
        &mut self,
        alloc: Global,
        name: &'static str,
        context: &X,
    ) -> Result<T, DeserError>
        ensures read { AnswersShape (required_of name.now (T.reads context.now) (state_of self.old)) result }
        ensures ok { OnOk result (state_of self.new ≡ without_key name.now (state_of self.old)) }
        ensures refused { let after = without_key name.now (state_of self.old) in
            OnFaults result (state_of self.new ≡ without_faults after) }
    {
        match self.take(name) {
            Some((_, value)) => match read_value(alloc, value, context) {
                Ok(thing) => Ok(thing),
                Err(DeserError::Faults(faults)) => Err(self.refusal(alloc, faults)),
                Err(DeserError::Memory) => Err(DeserError::Memory),
            },
            None => {
                let faults = missing_field(alloc, name, self.span)?;
                Err(self.refusal(alloc, faults))
            }
        }
    }

    /// Hands out the faults that were collected, and then further ones.
    fn refusal(&mut self, alloc: Global, faults: ShapeErrors) -> DeserError
        requires { HasFaults faults }
        ensures told { IsToldBy result ((state_of self.old).faults ++ faults) }
        ensures after { state_of self.new ≡ without_faults (state_of self.old) }
    {
        let mut all = mem::replace(&mut self.faults, ShapeErrors::new(alloc));
        match all.append(faults) {
            Ok(()) => DeserError::Faults(all),
            Err(_) => DeserError::Memory,
        }
    }

    /// A key that may be there. What is wrong with its value is collected.
    pub fn optional<T: Deserialize<X>, X>(
        &mut self,
        alloc: Global,
        name: &'static str,
        context: &X,
    ) -> Result<Option<T>, AllocError>
        ensures read { IfOk result (λ x. x ≡ optional_of name.now (T.reads context.now) (state_of self.old)) }
        ensures after { let after = after_optional name.now (T.reads context.now) (state_of self.old) in
            OnOk result (state_of self.new ≡ after) }
    {
        match self.take(name) {
            Some((_, value)) => match read_value(alloc, value, context) {
                Ok(thing) => Ok(Some(thing)),
                Err(DeserError::Faults(faults)) => {
                    self.faults.append(faults)?;
                    Ok(None)
                }
                Err(DeserError::Memory) => Err(AllocError),
            },
            None => Ok(None),
        }
    }

    /// As `optional`, with the place of the value.
    pub fn optional_s<T: Deserialize<X>, X>(
        &mut self,
        alloc: Global,
        name: &'static str,
        context: &X,
    ) -> Result<Option<Spanned<T>>, AllocError>
        ensures read { let reads = spanned_of (T.reads context.now) in
            IfOk result (λ x. x ≡ optional_of name.now reads (state_of self.old)) }
        ensures after { let reads = spanned_of (T.reads context.now) in
            OnOk result (state_of self.new ≡ after_optional name.now reads (state_of self.old)) }
    {
        self.optional::<Spanned<T>, X>(alloc, name, context)
    }

    /// Ends the reading. The keys that are left go back into the value, or are a fault of the table.
    pub fn finalize(self, alloc: Global, back: Option<&mut Value<'de>>) -> Result<(), DeserError>
        ensures read { let faults = faults_at_end (is_some back.entry) (state_of self.entry) in
            AnswersShape (shaped_of faults tt) result }
        ensures back { let left = (state_of self.entry).left in
            target_at_exit back.exit ≡ option_map (λ v. given_back left (value_view v.now)) back.entry }
    {
        let TableHelper {
            left,
            span,
            mut faults,
        } = self;
        match back {
            Some(value) => {
                value.give_back(left);
                answer(faults, ())
            }
            None => {
                add_unexpected(alloc, &left, span, &mut faults)?;
                answer(faults, ())
            }
        }
    }
}

/// A key that has to be there is not.
fn missing_field(alloc: Global, name: &'static str, span: Span) -> Result<ShapeErrors, AllocError>
    ensures { IfOk result (λ faults. faults ≡ fault_alone (missing name.now) span) }
{
    let mut faults = ShapeErrors::new(alloc);
    let kind = ErrorKind::MissingField(name);
    faults.push(ShapeError { kind, span })?;
    Ok(faults)
}

/// Appends one fault of a table for the keys that are left of it, where there are some. `span` is its place.
/// Where memory is wanted none is appended.
pub fn add_unexpected(
    alloc: Global,
    left: &Entries<'_>,
    span: Span,
    faults: &mut ShapeErrors,
) -> Result<(), AllocError>
    ensures ok { let names = names_in (entries_view left.now) in
        OnOk result (faults.new ≡ faults.old ++ unexpected_faults names span) }
    ensures err { OnErr result (faults.new ≡ faults.old) }
{
    let names = left.names(alloc)?;
    if !names.items().is_empty() {
        faults.push(ShapeError {
            kind: ErrorKind::UnexpectedKeys(names),
            span,
        })?;
    }
    Ok(())
}
