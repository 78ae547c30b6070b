//! The law, as the contract of a function that does nothing.
ghost use Rattle.std.specs.Prelude.{◌≡◌, ℕ, List, Err};
ghost use Rattle.std.specs.Str.{IsUtf8};
ghost use Rattle.toml_subset.specs.Faults.{IsFirstFault};
ghost use Rattle.toml_subset.specs.Reading.{read_text};
ghost use Rattle.toml_subset.specs.declared.error.SyntaxError.{SyntaxError};

/// The fault that reading a text tells lies between characters of the text and has there what its reason
/// says; the text has no value, and no prefix of whole lines that ends behind the fault's beginning has one.
pub fn faults_say_what_stands_there()
    ensures { (text : List ℕ) (fault : SyntaxError)
        → IsUtf8 text → read_text text ≡ Err fault → IsFirstFault text fault }
{}
