//! Laws of the definition, as contracts of functions that do nothing.
ghost use Rattle.std.specs.Prelude.{◌≡◌, ◌<◌, ◌≤◌, ℕ, List, Some, None, Ok, Err, length, false, slice_range};
ghost use Rattle.deny_text.specs.declared.span.Span.{Span};
ghost use Rattle.toml_subset.specs.Data.{TomlContent, Toml, depth_limit};
ghost use Rattle.toml_subset.specs.declared.error.SyntaxError.{SyntaxError};
ghost use Rattle.deny_text.specs.Spans.{LiesIn};
ghost use Rattle.toml_subset.specs.Reading.{call_bound, read_value, value_at, read_text};
ghost use Rattle.toml_subset.specs.Strings.{Quoting, IsString};
ghost use Rattle.toml_subset.specs.TableFaults.{put_fault, header_fault, array_header_fault};
ghost use Rattle.toml_subset.specs.Tables.{Node, Branches, implicit, edit_along, through_any, branches_with_value, open_table};
ghost use Rattle.toml_subset.specs.Tables.{open_array};
ghost use Rattle.toml_subset.specs.declared.string.Key.{Key};
ghost use Rattle.toml_subset.specs.Text.{IsText, StandsAs};
ghost use Rattle.toml_subset.specs.Written.{WrittenString};

/// Reading a text answers a value exactly where the definition has it, so that a text with a fault has none.
pub fn reading_answers_where_a_value_stands()
    ensures answers { (text : List ℕ) (value : Toml) → IsText text value → read_text text ≡ Ok value }
    ensures stands { (text : List ℕ) (value : Toml) → read_text text ≡ Ok value → IsText text value }
{}

/// Reading a value answers exactly where one is that keeps the table rules and is not too deep.
pub fn reading_a_value_answers_where_one_stands()
    ensures answers { (above : ℕ) (text : List ℕ) (i : ℕ) (span : Span) (content : TomlContent) (next : ℕ)
        → StandsAs above text i span content next → value_at text above i ≡ Ok (span, content, next) }
    ensures stands { (above : ℕ) (text : List ℕ) (i : ℕ) (span : Span) (content : TomlContent) (next : ℕ)
        → above ≤ depth_limit → value_at text above i ≡ Ok (span, content, next)
        → StandsAs above text i span content next }
{}

/// A larger bound on how often reading a value calls itself changes no answer.
pub fn more_calls_change_no_answer()
    ensures { (text : List ℕ) (above i n : ℕ) → above ≤ depth_limit → call_bound text ≤ n
        → read_value n text above i ≡ value_at text above i }
{}

/// The first fault of a text lies in it.
pub fn faults_lie_in_the_text()
    ensures { (text : List ℕ) (fault : SyntaxError) → read_text text ≡ Err fault → LiesIn text fault.span }
{}

/// A key that no part is refused of is put into its table.
pub fn keys_without_a_fault_are_put()
    ensures { (keys : List Key) (node : Node) (branches : Branches) (above : ℕ)
        → 0 < length keys → put_fault keys branches above ≡ None
        → (new : Branches) × (branches_with_value keys node branches ≡ Some new) }
{}

/// The table of a header that no part is refused of is opened.
pub fn headers_without_a_fault_are_opened()
    ensures tables { (at : Span) (keys : List Key) (root : Branches) → 0 < length keys
        → header_fault keys root ≡ None
        → (new : Branches) × (edit_along implicit through_any (open_table at) keys root ≡ Some new) }
    ensures arrays { (at : Span) (keys : List Key) (root : Branches) → 0 < length keys
        → array_header_fault keys root ≡ None
        → (new : Branches) × (edit_along implicit through_any (open_array at) keys root ≡ Some new) }
{}

/// A text stands for at most one value.
pub fn at_most_one_value()
    ensures { (text : List ℕ) (a b : Toml) → IsText text a → IsText text b → a ≡ b }
{}

/// A string that was written without an escape is the text's own slice at its span.
pub fn plain_strings_stand_in_the_text()
    ensures { (text : List ℕ) (i : ℕ) (kind : Quoting) (w : WrittenString) (span : Span) (next : ℕ)
        → IsString text i kind w span next → w.escaped ≡ false
        → w.text ≡ slice_range text span.start span.end }
{}
