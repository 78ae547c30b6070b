//! What holds of the lines of help.
//! Called by nothing: the contract is a law of definitions in specs, and the body holds no code to change.
ghost use Rattle.refusal_help.specs.Laws.{HelpHasItsLines};

/// Each line of help begins with two blanks, and there are as many as the table has for the refusal, at most
/// two: an LF in a path, a key or a name makes none.
pub fn help_has_its_lines()
    ensures { HelpHasItsLines }
{}
