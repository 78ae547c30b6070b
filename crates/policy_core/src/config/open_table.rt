//! A table whose keys are read one after another, with the places of keys.
ghost use Rattle.std.specs.Prelude.{◌≡◌, [], ◌++◌, false, IfOk, OnOk, option_map, option_to_list};
ghost use Rattle.policy_toml.specs.rows.Rows.{key_span};
ghost use Rattle.policy_core.specs.config.OpenTable.{open_state};
ghost use Rattle.policy_toml.specs.HelperState.{optional_of, after_optional, without_key, faults_at_end};
ghost use Rattle.policy_toml.specs.HelperState.{given_value, faults_of};
ghost use Rattle.toml_subset.specs.shapes.Shaped.{AnswersShape, shaped_of};
ghost use Rattle.toml_value.specs.Lookup.{value_at};
ghost use Rattle.toml_value.specs.Removal.{entries_without};
ghost use Rattle.toml_value.specs.Views.{value_view, entries_view};

use crate::config::placed::push_place;
use deny_text::Span;
use policy_toml::rows::Spans;
use policy_toml::{DeserError, Deserialize, Entries, ShapeErrors, Value, add_unexpected};
use std::alloc::{AllocError, Global};
use toml_subset::shapes::answer;

/// A key's place, and what its value was read as. Where the key is not there it has neither.
#[derive(Drop)]
pub(crate) struct PlacedValue<T> {
    pub(crate) place: Option<Span>,
    pub(crate) value: Option<T>,
}

/// The keys of a table that are left, the place of the table, and what was wrong so far.
#[derive(Drop)]
pub(crate) struct OpenTable<'de> {
    left: Entries<'de>,
    span: Span,
    faults: ShapeErrors,
}

/// Takes a key out: where it stood, and its value.
#[tactic(auto, using(policy_toml::proofs::rows::Keys::value_at_of_entry))]
fn take_placed<'de>(entries: &mut Entries<'de>, name: &str) -> (Option<Span>, Option<Value<'de>>)
    ensures place { result.0 ≡ key_span name.now (entries_view entries.old) }
    ensures value { option_map value_view result.1 ≡ value_at name.now (entries_view entries.old) }
    ensures left { entries_view entries.new ≡ entries_without name.now (entries_view entries.old) }
{
    match entries.remove(name) {
        Some((key, value)) => (Some(key.span), Some(value)),
        None => (None, None),
    }
}

/// Reads a value that may be there. What is wrong with it is appended to the faults.
fn read_found<T: Deserialize<X>, X>(
    alloc: Global,
    value: Option<Value<'_>>,
    context: &X,
    faults: &mut ShapeErrors,
) -> Result<Option<T>, AllocError>
    ensures read { let read = option_map (T.reads context.now) (option_map value_view value.entry) in
        IfOk result (λ x. x ≡ given_value read) }
    ensures faults { let read = option_map (T.reads context.now) (option_map value_view value.entry) in
        OnOk result (faults.new ≡ faults.old ++ faults_of read) }
{
    match value {
        Some(mut value) => match T::deserialize(alloc, &mut value, context) {
            Ok(thing) => Ok(Some(thing)),
            Err(DeserError::Faults(told)) => {
                faults.append(told)?;
                Ok(None)
            }
            Err(DeserError::Memory) => Err(AllocError),
        },
        None => Ok(None),
    }
}

impl<'de> OpenTable<'de> {
    /// A table of which no key was read.
    pub(crate) fn new(alloc: Global, left: Entries<'de>, span: Span) -> OpenTable<'de>
        ensures { open_state result ≡ record { left = entries_view left.entry; span = span; faults = [] } }
    {
        OpenTable {
            left,
            span,
            faults: ShapeErrors::new(alloc),
        }
    }

    /// Takes a key out that nothing is read from.
    pub(crate) fn pass_over(&mut self, name: &str)
        ensures { open_state self.new ≡ without_key name.now (open_state self.old) }
    {
        let _ = self.left.remove(name);
    }

    /// A key that may be there, with its place. What is wrong with its value is collected.
    pub(crate) fn placed<T: Deserialize<X> + Drop, X>(
        &mut self,
        alloc: Global,
        name: &str,
        context: &X,
    ) -> Result<PlacedValue<T>, AllocError>
        ensures value { let state = open_state self.old in
            IfOk result (λ read. read.value ≡ optional_of name.now (T.reads context.now) state) }
        ensures place { let left = (open_state self.old).left in
            IfOk result (λ read. read.place ≡ key_span name.now left) }
        ensures after { let state = open_state self.old in
            OnOk result (open_state self.new ≡ after_optional name.now (T.reads context.now) state) }
    {
        let (place, value) = take_placed(&mut self.left, name);
        let value = read_found(alloc, value, context, &mut self.faults)?;
        Ok(PlacedValue { place, value })
    }

    /// A key that may be there. What is wrong with its value is collected.
    pub(crate) fn optional<T: Deserialize<X> + Drop, X>(
        &mut self,
        alloc: Global,
        name: &str,
        context: &X,
    ) -> Result<Option<T>, AllocError>
        ensures value { let state = open_state self.old in
            IfOk result (λ read. read ≡ optional_of name.now (T.reads context.now) state) }
        ensures after { let state = open_state self.old in
            OnOk result (open_state self.new ≡ after_optional name.now (T.reads context.now) state) }
    {
        let read = self.placed(alloc, name, context)?;
        Ok(read.value)
    }

    /// A key that may be there, as `optional` reads it. Its place is appended.
    pub(crate) fn moved<T: Deserialize<X> + Drop, X>(
        &mut self,
        alloc: Global,
        name: &str,
        context: &X,
        places: &mut Spans,
    ) -> Result<Option<T>, AllocError>
        ensures value { let state = open_state self.old in
            IfOk result (λ read. read ≡ optional_of name.now (T.reads context.now) state) }
        ensures places { let place = key_span name.now (open_state self.old).left in
            OnOk result (places.new ≡ places.old ++ option_to_list place) }
        ensures after { let state = open_state self.old in
            OnOk result (open_state self.new ≡ after_optional name.now (T.reads context.now) state) }
    {
        let read = self.placed(alloc, name, context)?;
        push_place(places, read.place)?;
        Ok(read.value)
    }

    /// Ends the reading with what the table stands for. A key that is left is a fault.
    pub(crate) fn finish<T: Drop>(self, alloc: Global, thing: T) -> Result<T, DeserError>
        ensures { AnswersShape (shaped_of (faults_at_end false (open_state self.entry)) thing) result }
    {
        let OpenTable {
            left,
            span,
            mut faults,
        } = self;
        add_unexpected(alloc, &left, span, &mut faults)?;
        answer(faults, thing)
    }
}
