//! What the definitions make of names, texts and expressions that were worked out by hand.
ghost use Rattle.std.specs.Prelude.{◌≡◌, [], ◌∷◌, true, false, codes, map, refl};
ghost use Rattle.spdx_terms.specs.catalog.Catalog.{IsCatalog};
ghost use Rattle.spdx_terms.specs.catalog.Words.{is_name, is_imprecise, ends_word};
ghost use Rattle.spdx_terms.specs.ItemRows.{odd_catalog, mode_with, RowsHold, plain_rows, imprecise_rows, slash_rows};
ghost use Rattle.spdx_terms.specs.ItemRows.{lax_rows};
ghost use Rattle.spdx_terms.specs.Faults.{first_fault};
ghost use Rattle.spdx_core.specs.Reading.{expression_of_text};
ghost use Rattle.spdx_core.specs.ExpressionRows.{two_terms, operator_is_used_up};
ghost use Rattle.spdx_core.specs.certificates.Rows.{rows, computed_row};

/// Does nothing: its clauses are rows of what can be in a catalogue.
fn names_and_imprecise_texts()
    ensures exception { is_name (codes "MPL-2.0-no-copyleft-exception") ≡ true }
    ensures plus { is_name (codes "GPL-2.0+") ≡ false }
    ensures two_words { is_name (codes "apache 2") ≡ false }
    ensures nothing { is_name [] ≡ false }
    ensures operator { is_name (codes "With") ≡ false }
    ensures own_license { is_name (codes "LicenseRef-mine") ≡ false }
    ensures own_document { is_name (codes "DocumentRef-mine") ≡ false }
    ensures lower_reference { is_name (codes "licenseref-mine") ≡ true }
    ensures words { is_imprecise (codes "the mit license") ≡ true }
    ensures double_space { is_imprecise (codes "mit  license") ≡ false }
    ensures first_operator { is_imprecise (codes "or mit") ≡ false }
    ensures later_operator { is_imprecise (codes "mit or") ≡ true }
    ensures end_of_text { ends_word [] ≡ true }
    ensures before_bracket { ends_word (codes ")") ≡ true }
    ensures before_colon { ends_word (codes ":") ≡ false }
    ensures before_dot { ends_word (codes ".0") ≡ false }
{}

/// Does nothing: its clauses are the rows.
fn items_by_hand()
    ensures lawful { IsCatalog odd_catalog }
    ensures plain { RowsHold (mode_with false false) plain_rows }
    ensures imprecise { RowsHold (mode_with true false) imprecise_rows }
    ensures slash { RowsHold (mode_with false true) slash_rows }
    ensures lax { RowsHold (mode_with true true) lax_rows }
{}

/// Does nothing: its clauses are rows over a catalogue in which an imprecise text holds an operator.
fn an_odd_catalogue()
    ensures two { expression_of_text two_terms.0 odd_catalog (codes "MIT or MIT") ≡ two_terms.1 }
    ensures used { first_fault operator_is_used_up.0 odd_catalog (codes "MIT or MIT") ≡ operator_is_used_up.1 }
{}

/// Does nothing: its clause says what the definitions make of some expressions.
fn certificates_of_rows()
    ensures { map computed_row rows ≡ rows }
{}

#[test]
fn definitions_of_licenses() {
    names_and_imprecise_texts();
    items_by_hand();
    an_odd_catalogue();
    certificates_of_rows();
}
