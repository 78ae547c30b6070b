//! What holds of all records. This function does nothing: its contract is the law.
//! Called by no code: one law of spellings, whose body holds nothing to change.
ghost use Rattle.check_record.specs.Laws.{SpellingsEndThemselves};

/// No spelling begins another one, so a file that is cut or grew is the spelling of no record.
pub fn spellings_end_themselves()
    ensures { SpellingsEndThemselves }
{}
