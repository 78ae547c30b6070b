//! The law for each type, as the contract of a function that does nothing.
ghost use Rattle.policy_parts.specs.Names.{scope_of, agreement_of, lint_of};
ghost use Rattle.policy_parts.specs.Tables.{private_of, output_of, graph_config_of};
ghost use Rattle.policy_parts.specs.Values.{file_source_of, target_of, reason_of};
ghost use Rattle.policy_core.specs.place_laws.Places.{KeepsPlaces, keeps_nothing};
ghost use Rattle.policy_core.specs.place_laws.Parts.{private_keeps, graph_keeps, target_keeps};
ghost use Rattle.policy_core.specs.place_laws.Parts.{file_source_keeps, reason_keeps};

/// What was read from a text keeps places of that text alone, between characters, and so does what is
/// reported of a value that was refused.
pub fn parts_keep_places()
    ensures private { KeepsPlaces private_keeps private_of }
    ensures graph { KeepsPlaces graph_keeps graph_config_of }
    ensures target { KeepsPlaces target_keeps target_of }
    ensures file_source { KeepsPlaces file_source_keeps file_source_of }
    ensures reason { KeepsPlaces reason_keeps reason_of }
    ensures output { KeepsPlaces keeps_nothing output_of }
    ensures scope { KeepsPlaces keeps_nothing scope_of }
    ensures agreement { KeepsPlaces keeps_nothing agreement_of }
    ensures lint { KeepsPlaces keeps_nothing lint_of }
{}
