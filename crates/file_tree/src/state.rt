//! The types of the state alone, so that the definitions may name them.

use crate::contents::Contents;
use crate::own_locks::OwnLocks;
use file_tables::{Directory, InodeNumbers, Node, Table};
use kernel_values::{ItemList, TimeSpec};
use record_locks::ForeignLock;

/// Who makes something, and when.
#[derive(Clone, Copy, Debug)]
pub struct Maker {
    pub uid: u32,
    pub gid: u32,
    /// The real time.
    pub time: TimeSpec,
}

/// Files and directories.
#[derive(Debug, Drop)]
pub struct FileTree {
    /// What files and directories have in common, by inode number, as the next two.
    pub(crate) nodes: Table<Node>,
    pub(crate) directories: Table<Directory>,
    pub(crate) contents: Contents,
    /// The locks that the process has, by the inode number of their file.
    pub(crate) own_locks: OwnLocks,
    /// The locks that other processes have, in the order of the image's lines.
    pub(crate) foreign_locks: ItemList<ForeignLock>,
    pub(crate) numbers: InodeNumbers,
    /// The inode of the working directory.
    pub(crate) working: u64,
}
