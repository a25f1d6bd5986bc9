//! The types of the tables alone, so that the definitions may name them.

use crate::name_table::NameTable;
use crate::table::Table;
use kernel_values::{Attributes, NameText};

/// What a file and a directory have in common.
#[derive(Clone, Copy, Debug)]
pub struct Node {
    pub attributes: Attributes,
    /// Whether a directory has a name of it.
    pub has_name: bool,
}

/// What a name in a directory means.
#[derive(Debug, Drop)]
pub struct Entry {
    pub name: NameText,
    /// The inode.
    pub child: u64,
}

/// A directory.
#[derive(Debug, Drop)]
pub struct Directory {
    /// The directory that it lies in. The root lies in itself.
    pub parent: u64,
    /// The last position given to a name, so that none is given again.
    pub last: u64,
    /// The entries by position. `.` and `..` stand at 1 and 2 and aren't among them.
    pub names: NameTable,
}

/// The place that the steps of a path to its last name lead to, and that name.
#[derive(Clone, Copy, Debug)]
pub struct Last<'a> {
    pub place: u64,
    /// No bytes, where the path has no name: it means the place.
    pub name: &'a [u8],
}

/// The inode numbers.
#[derive(Debug, Drop)]
pub struct InodeNumbers {
    /// Those that lines of the image name.
    pub image: Table<()>,
    /// The least that may be given to what a call makes.
    pub next: u64,
}
