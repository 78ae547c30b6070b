//! The law of places, as the contract of a function that does nothing.
ghost use Rattle.std.specs.Prelude.{ℕ, List};
ghost use Rattle.std.specs.Str.{IsUtf8};
ghost use Rattle.toml_subset.specs.Data.{Toml};
ghost use Rattle.toml_subset.specs.Text.{IsText};
ghost use Rattle.toml_subset.specs.text_laws.Placed.{IsPlaced};

/// Each span in the value of a text lies in the text, between characters; strings and keys without escapes
/// are the text there.
pub fn values_lie_in_their_text()
    ensures { (text : List ℕ) (value : Toml) → IsUtf8 text → IsText text value → IsPlaced text value }
{}
