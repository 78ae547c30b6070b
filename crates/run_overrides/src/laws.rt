//! Laws of codes and levels.
//! Called by nothing: these are laws of definitions in specs, and the bodies hold no code to change.
ghost use Rattle.std.specs.Prelude.{◌≡◌, Some};
ghost use Rattle.run_request.specs.Names.{code_or_level_named};
ghost use Rattle.run_overrides.specs.Levels.{ChangeNothing};
ghost use Rattle.run_overrides.specs.Twice.{name_of};

use run_request::{CodeOrLevel, LintLevels};

/// A code or a level that is read from its own name is that code or that level: so the name in a refusal
/// tells which of them is there twice.
pub fn name_reads_back(subject: CodeOrLevel)
    ensures { code_or_level_named (name_of subject) ≡ Some subject }
{
    let _ = subject;
}

/// Where words allow, warn of and deny nothing, each finding keeps its level.
pub fn no_overrides_change_nothing(levels: &LintLevels)
    ensures { ChangeNothing levels.now }
{
    let _ = levels;
}
