//! What a tree of real files needs of the system.
//! Called by `folder_tree`; an implementation is the system itself, so no clause says what a call answers.
use std::fs::{File, Metadata};
use std::io;
use std::io::Read;
use std::rt::Files;

/// Four calls, each on the path that it is given as it is written.
pub trait System {
    type File: Read + Drop;

    /// It is read as the names in the folder, each with the byte 0 behind it.
    type Folder: Read + Drop;

    /// Opens a file, to be read.
    fn open_file(&self, path: &str) -> io::Result<Self::File>;

    /// Opens a folder, to be listed.
    fn open_folder(&self, path: &str) -> io::Result<Self::Folder>;

    /// What is at a path. Links are followed.
    fn look(&self, path: &str) -> io::Result<Metadata>;

    /// What a path itself is, also where that is a link.
    fn look_at_link(&self, path: &str) -> io::Result<Metadata>;
}

impl System for HostRuntime {
    type File = File;

    type Folder = <HostRuntime as Files>::Dir;

    fn open_file(&self, path: &str) -> io::Result<File> {
        File::open(self, path)
    }

    fn open_folder(&self, path: &str) -> io::Result<<HostRuntime as Files>::Dir> {
        self.open_dir(path)
    }

    fn look(&self, path: &str) -> io::Result<Metadata> {
        self.metadata(path)
    }

    fn look_at_link(&self, path: &str) -> io::Result<Metadata> {
        self.symlink_metadata(path)
    }
}
