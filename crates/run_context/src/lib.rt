//! The crates that a request looks at, and where its policy is.
//! Used by run_found, run_command and refusal_help; what is passed on may change, no clause is here.
#![tactic(auto)]

pub mod gather;
pub mod paths;

pub use gather::{
    AskedMetadata, LeftOut, gather_krates, gather_krates_since, gather_metadata_since,
};
pub use graph_workspace::{
    ExcludeSpec, ExcludeSpecs, Krates, KratesError, Metadata, ReadFault, Selection, UnsupportedPart,
};
pub use paths::{
    config_path_since, exceptions_path_since, get_config_path, get_local_exceptions_path,
};
pub use run_request::KrateContext;
pub use tree_core::texts::SearchError;
