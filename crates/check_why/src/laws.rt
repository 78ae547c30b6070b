//! What holds of all policies and crates. These functions do nothing: their contracts are the laws.
ghost use Rattle.check_why.specs.Laws.{AllowedIsEnough, TermSatisfiesItself};

/// The terms that a rejected crate is said to need are enough: whatever policy allows them too accepts it.
pub fn allowed_is_enough()
    ensures { AllowedIsEnough }
{}

/// A term is satisfied by the licensee that it is itself.
pub fn term_satisfies_itself()
    ensures { TermSatisfiesItself }
{}
