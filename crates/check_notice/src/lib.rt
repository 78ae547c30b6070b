//! Notices: which licence each accepted crate is used under, and each licence text once.
#![tactic(auto)]

mod cites;
mod keys;
pub mod laws;
mod named;
pub mod notice;
mod numbers;
pub mod refusals;
pub mod sources;
mod used;
pub mod written;

pub use notice::{
    KeyNumber, KeyNumbers, Notice, NoticeCrate, NoticeCrates, NoticeError, notice_of,
};
pub use refusals::first_unaccepted;
pub use sources::{NoticeSource, TextFinder};
pub use written::{notice_head, text_head};
