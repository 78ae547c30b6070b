//! What holds of all licensees and terms. These functions do nothing: their contracts are the laws.
ghost use Rattle.policy_core.specs.valid.Laws.{TestIsSatisfaction};

/// The test by which a term's hit is defined holds exactly where the licensee satisfies the term.
pub fn test_is_satisfaction()
    ensures { TestIsSatisfaction }
{}
