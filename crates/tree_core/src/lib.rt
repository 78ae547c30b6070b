//! Where the gate reads and writes: trees of files, and sinks of bytes.
#![tactic(auto)]

pub mod file_reads;
pub mod folder_tree;
pub mod laws;
pub mod mem_sink;
pub mod mem_tree;
mod nodes;
mod place;
pub mod reads;
pub mod sink;
pub mod std_sink;
pub mod system;
pub mod texts;
pub mod trace;
pub mod tree;

pub use folder_tree::FolderTree;
pub use mem_sink::MemSink;
pub use mem_tree::MemTree;
pub use nodes::PutError;
pub use reads::{ReadAnswer, ReadKind, ReadRecord, Reads};
pub use sink::{Sink, SinkFailed, write_all};
pub use std_sink::StdSink;
pub use system::System;
pub use trace::Trace;
pub use tree::{Entry, FolderEntries, NamesPaths, Tree, TreeError};
