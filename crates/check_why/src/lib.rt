//! What `why` says of a crate: its verdict, what that rests on, who needs it, and what was read.
#![tactic(auto)]

pub mod answer;
mod distinct;
pub mod laws;
mod lines;
pub mod making;
mod object;
mod places;
pub mod policy_index;
mod reads;
mod unmet;

pub use answer::{
    Asking, CrateAnswer, CrateTitle, CrateTitles, LicenseAnswer, ReadAnswer, ReadAnswers, ReadSaid,
    TermAnswer, TermAnswers, TermHit, Unmatched, UnmetAnswer, UnmetAnswers, VerdictAnswer,
};
pub use lines::{push_lines, push_unchecked_lines};
pub use making::{answer_of, title_of};
pub use object::{push_object, push_unchecked_object};
pub use policy_index::PolicyIndex;
