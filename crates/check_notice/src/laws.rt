//! What holds of all notices. The function does nothing: its contract is the law.
ghost use Rattle.check_notice.specs.Laws.{NoticesLead};

/// A notice tells each accepted crate, and no other, in the same order, with each term that it is used under, and the
/// number of each term leads to the text of that term; no text is there twice, and each is cited.
pub fn notices_lead()
    ensures { NoticesLead }
{}
