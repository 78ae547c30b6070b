//! What a reader of expressions lets pass.
ghost use Rattle.std.specs.Prelude.{◌≡◌};
ghost use Rattle.spdx_terms.specs.Faults.{licensee_mode};

/// What an expression may hold beyond names that are in use.
#[derive(Clone, Copy, Debug, PartialEq, Eq)]
pub struct ParseMode {
    /// Names that the catalogue calls deprecated.
    pub allow_deprecated: bool,
    /// The catalogue's imprecise texts, where a term is expected.
    pub allow_imprecise_license_names: bool,
    /// A `+` behind a name of a GNU family.
    pub allow_postfix_plus_on_gpl: bool,
    /// `/`, which then says `OR`.
    pub allow_slash_as_or_operator: bool,
}

impl ParseMode {
    /// Nothing of these.
    pub const STRICT: ParseMode = ParseMode {
        allow_deprecated: false,
        allow_imprecise_license_names: false,
        allow_postfix_plus_on_gpl: false,
        allow_slash_as_or_operator: false,
    };

    /// All of these.
    pub const LAX: ParseMode = ParseMode {
        allow_deprecated: true,
        allow_imprecise_license_names: true,
        allow_postfix_plus_on_gpl: true,
        allow_slash_as_or_operator: true,
    };

    /// The mode that licensees are read in: a `+` may follow any licence, and there are no imprecise texts
    /// and no slashes.
    pub fn of_licensees(self) -> ParseMode
        ensures { result ≡ licensee_mode self }
    {
        ParseMode {
            allow_deprecated: self.allow_deprecated,
            allow_imprecise_license_names: false,
            allow_postfix_plus_on_gpl: true,
            allow_slash_as_or_operator: false,
        }
    }
}
