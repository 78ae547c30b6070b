//! The text of a licence.
ghost use Rattle.std.specs.Prelude.{◌≡◌, ℕ, List, Option};
ghost use Rattle.std.specs.Option.{option_copied};

/// Tells the text of a licence by a name. The same name gets the same answer.
pub trait TextLookup {
    ghost text_of: { Self → List ℕ → Option (List ℕ) };

    /// The text of this name, where there is one.
    fn text(&self, name: &str) -> Option<&str>
        ensures { option_copied result ≡ text_of self.now name.now };
}
