//! The base of the licence gate: texts, lists, paths, and small tools.
#![tactic(auto)]

pub mod ancestors;
pub mod character;
pub mod cut;
pub mod hash;
pub mod home;
pub mod list;
pub mod normal;
pub mod path;
pub mod search;
pub mod span;
pub mod steps;
pub mod text;
pub mod text_map;

pub use ancestors::AncestorIter;
pub use home::{HomeEnv, HomeError};
pub use list::{Bytes, ListOf, Texts};
pub use path::{Component, ComponentIter, PathBuf};
pub use span::{Span, Spanned};
pub use steps::Steps;
pub use text::Text;
pub use text_map::{TextMap, TextMapIter};
