//! What verifying a record answers.
//! Called by `first_reason` of `verifying`, read by `run_record`; variants may be in any order.
ghost use Rattle.std.specs.Prelude.{◌≡◌};
ghost use Rattle.check_verify.specs.Reasons as spec;

use deny_text::Text;

/// What is wrong with a crate's recorded verdict.
#[derive(Clone, Copy, Debug, Drop, PartialEq, Eq)]
pub enum VerdictFault {
    Variant,
    NotAChoice,
    NotSatisfied,
    HasHit,
    NotBlocking,
}

/// Why a record is not right: the first reason, with the id of its crate.
#[derive(Debug, Drop)]
pub enum NoReason {
    /// The ids are not those of the crates.
    Crates,
    /// A verdict of another kind: the crate is private or has no expression, or it was and had none.
    Variant(Text),
    /// The places are no choice of the expression.
    NotAChoice(Text),
    /// An entry is none of the policy's for this crate, or does not satisfy its term.
    NotSatisfied(Text),
    /// A place is outside the expression, or its term is allowed.
    HasHit(Text),
    /// The places leave some choice out.
    NotBlocking(Text),
}

/// Whether a record is right.
#[derive(Debug, Drop)]
pub enum VerifyAnswer {
    Yes,
    No(NoReason),
}

/// A fault with the id of its crate.
pub fn with_id(id: Text, fault: VerdictFault) -> NoReason
    ensures { result ≡ spec.reason_with id fault }
{
    match fault {
        VerdictFault::Variant => NoReason::Variant(id),
        VerdictFault::NotAChoice => NoReason::NotAChoice(id),
        VerdictFault::NotSatisfied => NoReason::NotSatisfied(id),
        VerdictFault::HasHit => NoReason::HasHit(id),
        VerdictFault::NotBlocking => NoReason::NotBlocking(id),
    }
}
