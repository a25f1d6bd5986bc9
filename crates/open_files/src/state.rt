//! The types of the state alone, so that the definitions may name them.

use crate::made::Made;
use file_tables::{SlabMap, Table};
use kernel_values::{OpenFlags, OpenKind};
use pipe_sock::Pipes;
use socket_tables::Sockets;

/// A descriptor.
#[derive(Clone, Copy, Debug)]
pub struct Descriptor {
    /// The serial number of the open file that it names.
    pub serial: u64,
    /// The close-on-exec mark.
    pub cloexec: bool,
}

/// An open file.
#[derive(Clone, Copy, Debug)]
pub struct OpenFile {
    /// What is open.
    pub inode: u64,
    pub kind: OpenKind,
    /// What it keeps of the flags that it was opened with, as F_GETFL tells them.
    pub flags: OpenFlags,
    /// Where the next transfer begins, in bytes, at most 2^40.
    pub position: u64,
}

/// Where a transfer begins.
#[derive(Clone, Copy, Debug)]
pub enum Place {
    /// At the position of the open file, which moves.
    Current,
    /// At this offset in bytes; the position stays.
    At(i64),
}

/// What is open.
#[derive(Debug, Drop)]
pub struct OpenFiles {
    /// By number.
    pub(crate) descriptors: Table<Descriptor>,
    /// By serial number.
    pub(crate) files: SlabMap<OpenFile>,
    /// The bytes that wait in pipes, by inode number.
    pub(crate) pipes: Pipes,
    /// Unix sockets, by the serial numbers of their open files.
    pub(crate) sockets: Sockets,
    /// How many things were made: inodes and names too, which stand elsewhere.
    pub(crate) made: Made,
}
