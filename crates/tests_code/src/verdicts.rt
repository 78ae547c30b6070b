//! What the definitions make of verdicts and of what is reported of them.
ghost use Rattle.std.specs.Prelude.{◌≡◌, map, take};
ghost use Rattle.check_core.specs.Rows.{judged_row, rows};
ghost use Rattle.tests_code.specs.Entries.{entries_asked};
ghost use Rattle.check_core.specs.unused.Rows.{reported_row, unused_rows};
ghost use Rattle.policy_core.specs.valid.Rows as hits;
ghost use Rattle.check_core.specs.findings.Rows.{findings_meant, findings_said, label_rows, row_with_labels};
ghost use Rattle.check_core.specs.findings.Rows.{source_rows, row_with_text};

/// Does nothing: the definitions make of each row what was worked out by hand. Findings that name a crate are left
/// out.
fn rows_by_hand()
    ensures labels { map row_with_labels label_rows ≡ label_rows }
    ensures findings { take 2 findings_said ≡ take 2 findings_meant }
    ensures unused { map reported_row unused_rows ≡ unused_rows }
    ensures sources { map row_with_text source_rows ≡ source_rows }
    ensures judged { map judged_row rows ≡ rows }
    ensures hits { map hits.computed_row hits.rows ≡ hits.rows }
    ensures asked { entries_asked ≡ 3 }
{}

#[test]
fn definitions_of_verdicts() {
    rows_by_hand();
}
