//! What the tests of places mean, and what a record is against which there is no reason. These functions do
//! nothing: their contracts are the laws.
//! Called by no code: four laws of places and of records, whose bodies hold nothing to change.
ghost use Rattle.check_verify.specs.Laws.{ChoicesAreHeld, MeetingIsTold, NoReasonIsRight, RecordedIsRight};

/// Places are a choice exactly where they are one of the ways to satisfy an expression.
pub fn choices_are_held()
    ensures { ChoicesAreHeld }
{}

/// Places meet each choice exactly where every way to satisfy an expression holds one of them.
pub fn meeting_is_told()
    ensures { MeetingIsTold }
{}

/// There is no reason against a record exactly where it is right: its ids are those of the crates, each
/// verdict is the one that the policy gives, and what is recorded beside it shows it.
pub fn no_reason_is_right()
    ensures { NoReasonIsRight }
{}

/// There is none against what is recorded of the verdicts that the check gives.
pub fn recorded_is_right()
    ensures { RecordedIsRight }
{}
