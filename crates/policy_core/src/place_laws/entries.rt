//! The law for each type, as the contract of a function that does nothing.
ghost use Rattle.spdx_terms.specs.catalog.Catalog.{CatalogLists, IsCatalog};
ghost use Rattle.policy_core.specs.config.Config.{config_of};
ghost use Rattle.policy_core.specs.config.Root.{root_of};
ghost use Rattle.policy_parts.specs.entries.Clarifications.{clarification_of};
ghost use Rattle.policy_parts.specs.entries.Exceptions.{exception_of, exceptions_file_of};
ghost use Rattle.policy_parts.specs.entries.Licensees.{licensee_of};
ghost use Rattle.policy_parts.specs.spec.Reading.{spec_of};
ghost use Rattle.policy_core.specs.place_laws.Entries.{KeepsPlacesOfTexts, spec_keeps, licensee_keeps};
ghost use Rattle.policy_core.specs.place_laws.Entries.{ExceptionKeeps, ExceptionsFileKeeps, ClarificationKeeps};
ghost use Rattle.policy_core.specs.place_laws.Policies.{ConfigKeeps, RootKeeps};

/// What was read from a text keeps places of that text alone, between characters, and so does what is
/// reported of a value that was refused. A clarification's expression without escapes is the text at its
/// place.
pub fn entries_keep_places()
    ensures spec { KeepsPlacesOfTexts spec_keeps spec_of }
    ensures licensee { (lists : CatalogLists) → IsCatalog lists
        → KeepsPlacesOfTexts licensee_keeps (licensee_of lists) }
    ensures exception { (lists : CatalogLists) → IsCatalog lists
        → KeepsPlacesOfTexts ExceptionKeeps (exception_of lists) }
    ensures exceptions_file { (lists : CatalogLists) → IsCatalog lists
        → KeepsPlacesOfTexts ExceptionsFileKeeps (exceptions_file_of lists) }
    ensures clarification { KeepsPlacesOfTexts ClarificationKeeps clarification_of }
{}

/// The same of whole policies.
pub fn policies_keep_places()
    ensures config { (lists : CatalogLists) → IsCatalog lists
        → KeepsPlacesOfTexts ConfigKeeps (config_of lists) }
    ensures root { (lists : CatalogLists) → IsCatalog lists
        → KeepsPlacesOfTexts RootKeeps (root_of lists) }
{}
